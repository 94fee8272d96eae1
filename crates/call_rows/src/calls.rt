use crate::{
    checking, comparing, elements, fields, outside, overlaps, passing, places, reading, shuffle,
    sorting, stores, symmetric, texts,
};
use presentation_text::Document;
use rows::{RowFail, document_of, numbers_of};
use std::alloc::Global;

// Calls what the name says, where numbers are its arguments. False where there is no such call.
fn number_answer(
    alloc: Global,
    name: &str,
    numbers: &[u32],
    document: &Document,
    out: &mut Vec<u8>,
) -> Result<bool, RowFail> {
    match name {
        "Store::put" => stores::put(alloc, document, out)?,
        "Store::vertex" => stores::vertex(alloc, document, numbers, out)?,
        "places_of" => places::all(alloc, document, out)?,
        "first_place" => places::first(alloc, document, out)?,
        "Place::of" => places::cut(alloc, document, numbers, out)?,
        "sort_blocks" => sorting::blocks(alloc, document, out)?,
        "sorted" => sorting::all(alloc, document, numbers, out)?,
        _ => return Ok(false),
    }
    Ok(true)
}

// Calls what the name says, where words spell its arguments. False where there is no such call.
fn word_answer(
    alloc: Global,
    name: &str,
    words: &[String],
    document: &Document,
    out: &mut Vec<u8>,
) -> Result<bool, RowFail> {
    if outside::answer(alloc, name, words, out)? {
        return Ok(true);
    }
    if fields::answer(name, words, out)? {
        return Ok(true);
    }
    if symmetric::answer(alloc, name, words, &document.gens, out)? {
        return Ok(true);
    }
    if elements::answer(alloc, name, words, document, out)? {
        return Ok(true);
    }
    if reading::answer(alloc, name, words, document, out)? {
        return Ok(true);
    }
    if checking::answer(alloc, name, words, document, out)? {
        return Ok(true);
    }
    if shuffle::answer(alloc, name, words, out)? {
        return Ok(true);
    }
    if passing::answer(alloc, name, words, document, out)? {
        return Ok(true);
    }
    if overlaps::answer(alloc, name, words, document, out)? {
        return Ok(true);
    }
    comparing::answer(alloc, name, words, document, out)
}

/// Calls what the name says: on the text, on words, or on numbers. The answer is written behind `out`.
pub fn call(
    alloc: Global,
    name: &str,
    words: &[String],
    text: &[u8],
    out: &mut Vec<u8>,
) -> Result<(), RowFail> {
    if texts::answer(alloc, name, text, out)? {
        return Ok(());
    }
    let document = document_of(alloc, text)?;
    if word_answer(alloc, name, words, &document, out)? {
        return Ok(());
    }
    let numbers = numbers_of(alloc, words)?;
    if number_answer(alloc, name, numbers.as_slice(), &document, out)? {
        Ok(())
    } else {
        Err(RowFail::Refused)
    }
}
