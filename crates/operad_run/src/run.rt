//! A run: the words and the bytes of a source in, the text into a sink.
ghost use Rattle.std.specs.Prelude.{◌≡◌, IfOk, MatchResult, map, string_bytes};
ghost use Rattle.operad_run.specs.Runs.{Came, Ends, IsUnwritten, IsWrittenOut, Outside, SaysUnread, fault_text as text_of_fault, kind_name as name_of};
ghost use Rattle.operad_run.specs.FormsRuns.{IsFormsRun};

use crate::commands::forms_arity;
use crate::forms::forms_text;
use crate::status::Status;
use outside_io::{ReadFail, Sink, Source, read_all, write_all};
use presentation_text::{DocKind, MOST_BYTES, write_number};
use std::alloc::{AllocError, Global};

// Writes the text; the status is then this one, or that the sink failed.
pub(crate) fn tell<K: Sink>(sink: &mut K, text: &[u8], status: Status) -> Status
    ensures contents { IsWrittenOut status text.now result (K.taken sink.old) (K.taken sink.new) (K.faults sink.old) (K.faults sink.new) }
{
    match write_all(sink, text) {
        Ok(()) => status,
        Err(_) => Status::WriteFault,
    }
}

// All bytes of the source; or the status of a run that ends without them, once the sink took the text that says why.
pub(crate) fn source_bytes<S: Source, K: Sink>(
    alloc: Global,
    source: &mut S,
    sink: &mut K,
) -> Result<Vec<u8>, Status>
    ensures read { let o : Outside = record {
      left = S.left source.old;
      left_now = S.left source.new;
      read_faults = S.faults source.old;
      read_faults_now = S.faults source.new;
      taken = K.taken sink.old;
      taken_now = K.taken sink.new;
      write_faults = K.faults sink.old;
      write_faults_now = K.faults sink.new;
    } in MatchResult result (λ bytes. Came o bytes.items × IsUnwritten o) (λ status. Ends (Unit {0}) (SaysUnread o) status o) }
{
    match read_all(alloc, source, MOST_BYTES) {
        Ok(bytes) => Ok(bytes),
        Err(ReadFail::Fault) => Err(tell(sink, b"fault read\n", Status::ReadFault)),
        Err(ReadFail::TooLong) => Err(tell(sink, b"fault limit bytes\n", Status::Limit)),
        Err(ReadFail::NoMemory) => Err(Status::NoMemory),
    }
}

// The name of a kind.
fn kind_name(kind: DocKind) -> &'static str
    ensures { result.now ≡ name_of kind }
{
    match kind {
        DocKind::Header => "Header",
        DocKind::Directive => "Directive",
        DocKind::Missing => "Missing",
        DocKind::FieldUnknown => "FieldUnknown",
        DocKind::OrderUnknown => "OrderUnknown",
        DocKind::NameBad => "NameBad",
        DocKind::NameTaken => "NameTaken",
        DocKind::ArityOut => "ArityOut",
        DocKind::PartsOut => "PartsOut",
        DocKind::TooManyGens => "TooManyGens",
        DocKind::Syntax => "Syntax",
        DocKind::NameUnknown => "NameUnknown",
        DocKind::InputCount => "InputCount",
        DocKind::Labels => "Labels",
        DocKind::MixedArity => "MixedArity",
        DocKind::TooDeep => "TooDeep",
        DocKind::TooWide => "TooWide",
        DocKind::NumberLong => "NumberLong",
        DocKind::TooManyRelations => "TooManyRelations",
        DocKind::Block => "Block",
        DocKind::WeightTaken => "WeightTaken",
        DocKind::WeightOut => "WeightOut",
        DocKind::NotBuilt => "NotBuilt",
    }
}

// The text that names a line that is refused, and why.
pub(crate) fn fault_text(alloc: Global, line: u32, kind: DocKind) -> Result<Vec<u8>, AllocError>
    ensures { IfOk result (λ text. text.items ≡ text_of_fault line kind) }
{
    let mut text = Vec::new(alloc);
    text.extend_from_slice(b"fault document ")?;
    write_number(u64::from(line), &mut text)?;
    text.push(b' ')?;
    text.extend_from_slice(kind_name(kind).as_bytes())?;
    text.push(b'\n')?;
    Ok(text)
}

/// All that the program does. The words are `forms N B`, where N is one digit from 1 to 9 and B has 1 to 19 digits; the
/// source gives a document of at most 16,777,216 bytes, so far without relations that have terms. The sink takes a line for
/// each `query` line: the collected form of its element. Two lines for elements of one arity are equal exactly where the
/// difference of the elements is a sum of instances of symmetry rules.
///
/// Each other end has its cause, its status and its text: words that are no command; a source or a sink that failed; a text
/// that is longer; a line that is refused, the first of which is named with its kind, and where none is, the first line of a
/// certificate behind the document, or line 0 for a relation that has terms; a question with an arity above N, the first of
/// which is named. `NoMemory` comes for want of memory alone, and writes nothing.
pub fn operad_run<S: Source, K: Sink>(
    alloc: Global,
    words: &[String],
    source: &mut S,
    sink: &mut K,
) -> Status
    ensures run { IsFormsRun result (map string_bytes words.now) (record {
      left = S.left source.old;
      left_now = S.left source.new;
      read_faults = S.faults source.old;
      read_faults_now = S.faults source.new;
      taken = K.taken sink.old;
      taken_now = K.taken sink.new;
      write_faults = K.faults sink.old;
      write_faults_now = K.faults sink.new;
    }) }
{
    let Some(most) = forms_arity(words) else {
        return tell(sink, b"fault usage\n", Status::Usage);
    };
    let bytes = match source_bytes(alloc, source, sink) {
        Ok(bytes) => bytes,
        Err(status) => return status,
    };
    match forms_text(alloc, bytes.as_slice(), most) {
        Ok((status, text)) => tell(sink, text.as_slice(), status),
        Err(_) => Status::NoMemory,
    }
}
