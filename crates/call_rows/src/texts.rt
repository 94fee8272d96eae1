ghost use Rattle.std.specs.Prelude.{map};
ghost use Rattle.std.specs.List.{All};
ghost use Rattle.certificate_text.specs.Plain.{plain_block};
ghost use Rattle.certificate_text.specs.Writable.{IsWritableBlock};

use certificate_text::{Block, ReadCertFail, print_block, read_blocks};
use presentation_text::{
    DocKind, Document, MOST_BYTES, ReadDocFail, print_document, read_document,
};
use rows::{RowFail, end_line, end_number, write_next};
use sqlite_items::Items;
use std::alloc::Global;

// Writes the line that is refused, and the kind.
fn fault(alloc: Global, line: u32, kind: DocKind, out: &mut Vec<u8>) -> Result<(), RowFail> {
    out.extend_from_slice(b"fault")?;
    write_next(u64::from(line), out)?;
    out.push(b' ')?;
    Ok(end_line(format!(in alloc; "{kind:?}")?.as_str(), out)?)
}

// Ends by the lines of the questions of a document, and the line and the place of its tail.
fn end_places(document: &Document, out: &mut Vec<u8>) -> Result<(), RowFail> {
    out.extend_from_slice(b"questions")?;
    for ask in document.asks.as_slice() {
        write_next(u64::from(ask.line), out)?;
    }
    if let Some(tail) = document.tail {
        out.extend_from_slice(b" tail")?;
        write_next(u64::from(tail.line), out)?;
        write_next(tail.from as u64, out)?;
    }
    Ok(end_line("", out)?)
}

// Writes the document of a text, and the places of its parts.
fn document(alloc: Global, bytes: &[u8], out: &mut Vec<u8>) -> Result<(), RowFail> {
    if bytes.len() > MOST_BYTES as usize {
        return Err(RowFail::Refused);
    }
    match read_document(alloc, bytes) {
        Ok(document) => {
            out.extend_from_slice(print_document(alloc, &document)?.as_slice())?;
            end_places(&document, out)
        }
        Err(ReadDocFail::At(fail)) => fault(alloc, fail.line, fail.kind, out),
        Err(ReadDocFail::NoMemory) => Err(RowFail::NoMemory),
    }
}

// Writes blocks one behind another.
fn write_blocks(
    alloc: Global,
    document: &Document,
    blocks: &Items<Block>,
    out: &mut Vec<u8>,
) -> Result<(), RowFail>
    requires writable { All (IsWritableBlock document.now.field document.now.gens) (map plain_block blocks.now) }
{
    for block in blocks.as_slice() {
        out.extend_from_slice(print_block(alloc, document, block)?.as_slice())?;
    }
    Ok(())
}

// Writes the number of the blocks of a text, and each block.
fn blocks(alloc: Global, bytes: &[u8], out: &mut Vec<u8>) -> Result<(), RowFail> {
    if bytes.len() > MOST_BYTES as usize {
        return Err(RowFail::Refused);
    }
    match read_document(alloc, bytes) {
        Ok(document) => match read_blocks(alloc, bytes, &document) {
            Ok(blocks) => {
                end_number(blocks.len() as u64, out)?;
                write_blocks(alloc, &document, &blocks, out)
            }
            Err(ReadCertFail::At(fail)) => fault(alloc, fail.line, fail.kind, out),
            Err(ReadCertFail::NoMemory) => Err(RowFail::NoMemory),
        },
        Err(ReadDocFail::At(fail)) => fault(alloc, fail.line, fail.kind, out),
        Err(ReadDocFail::NoMemory) => Err(RowFail::NoMemory),
    }
}

/// Answers the calls that print what a text says. False where there is none of this name.
pub fn answer(alloc: Global, name: &str, bytes: &[u8], out: &mut Vec<u8>) -> Result<bool, RowFail> {
    match name {
        "print_document" => document(alloc, bytes, out)?,
        "print_block" => blocks(alloc, bytes, out)?,
        _ => return Ok(false),
    }
    Ok(true)
}
