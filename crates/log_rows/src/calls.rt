ghost use Rattle.std.specs.List.{All};
ghost use Rattle.symmetric_sums.specs.Terms.{FitsOver};

use crate::{entries, logs, parts, vertices, words};
use presentation_text::Document;
use rows::{RowFail, document_of, numbers_of};
use std::alloc::Global;

// Calls what the name says, where numbers are its arguments.
fn number_answer(
    alloc: Global,
    name: &str,
    numbers: &[u32],
    document: &Document,
    out: &mut Vec<u8>,
) -> Result<(), RowFail>
    requires fit { All (FitsOver document.now.field document.now.gens) document.now.rels }
{
    match name {
        "Log::push" => logs::push(alloc, document, numbers, out),
        "block_of" => logs::block(alloc, document, out),
        "entry_for" => entries::entry(alloc, document, numbers, out),
        "part_with_last" => parts::part(alloc, numbers, out),
        _ => Err(RowFail::Refused),
    }
}

/// Whether the call of this name is one of these.
pub fn has_call(name: &str) -> bool {
    matches!(
        name,
        "find_vertices"
            | "write_words"
            | "write_some"
            | "read_word"
            | "NormalTrees"
            | "Log::push"
            | "block_of"
            | "entry_for"
            | "part_with_last"
    )
}

// Calls what the name says: on words, or on numbers, where a document gives the generators and the relations.
fn document_answer(
    alloc: Global,
    name: &str,
    given: &[String],
    document: &Document,
    out: &mut Vec<u8>,
) -> Result<(), RowFail>
    requires fit { All (FitsOver document.now.field document.now.gens) document.now.rels }
{
    if words::answer(alloc, name, given, &document.gens, out)? {
        return Ok(());
    }
    let numbers = numbers_of(alloc, given)?;
    number_answer(alloc, name, &numbers, document, out)
}

/// Calls what the name says: on words, or on a document and numbers. The answer is written behind `out`. `Refused` where the
/// text is no document, or the words are no arguments for the call.
pub fn call(
    alloc: Global,
    name: &str,
    given: &[String],
    text: &[u8],
    out: &mut Vec<u8>,
) -> Result<(), RowFail> {
    if name == "find_vertices" {
        return vertices::find(alloc, given, out);
    }
    document_answer(alloc, name, given, &document_of(alloc, text)?, out)
}
