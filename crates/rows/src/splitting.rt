use presentation_text::next_line;
use std::alloc::{AllocError, Global};

fn is_row(line: &[u8]) -> bool {
    match line {
        [first, second, ..] => (*first == b'>' || *first == b'<') && *second == b' ',
        _ => false,
    }
}

/// Whether the line is `> heading`.
pub fn is_heading(line: &[u8]) -> bool {
    line == b"> heading".as_slice()
}

/// What a row reads of its text: behind `<` without the last byte.
pub fn text_read<'a>(line: &[u8], text: &'a [u8]) -> &'a [u8] {
    match (line, text) {
        ([b'<', ..], [kept @ .., _]) => kept,
        _ => text,
    }
}

/// The words of a line that begins a row.
pub fn words_of(alloc: Global, line: &[u8]) -> Result<Vec<String>, AllocError> {
    let mut words = Vec::new(alloc);
    let mut word = Vec::new(alloc);
    for byte in line.iter().skip(2) {
        if *byte == b' ' {
            words.push(text_of(alloc, &word)?)?;
            word.clear();
        } else {
            word.push(*byte)?;
        }
    }
    if !word.is_empty() {
        words.push(text_of(alloc, &word)?)?;
    }
    Ok(words)
}

fn text_of(alloc: Global, word: &[u8]) -> Result<String, AllocError> {
    match std::str::from_utf8(word) {
        Ok(text) => String::from_str(alloc, text),
        Err(_) => Ok(String::new(alloc)),
    }
}

/// The bytes before the next row, and those from it on.
pub fn row_text(rows: &[u8]) -> (&[u8], &[u8]) {
    let mut rest = rows;
    for _ in 0..rows.len() {
        match next_line(rest) {
            Some((line, behind)) if !is_row(line) => rest = behind,
            _ => break,
        }
    }
    rows.split_at(rows.len().saturating_sub(rest.len()))
}
