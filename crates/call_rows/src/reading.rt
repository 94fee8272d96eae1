ghost use Rattle.labelled_trees.specs.Meaning.{tree_of};
ghost use Rattle.symmetric_sums.specs.Terms.{FitsOver};
ghost use Rattle.symmetric_trees.specs.Trees.{Fits};

use presentation_text::{
    DocKind, Document, ElementAt, PartFail, Token, element_at, print_sum, print_tree, tokens,
    tree_at, write_number,
};
use prime_field::Field;
use rows::{RowFail, end_line, small_number_of, write_text};
use std::alloc::{AllocError, Global};
use symmetric_trees::{GenTable, Tree};

// The line of these words.
fn line_of(alloc: Global, words: &[String]) -> Result<Vec<u8>, AllocError> {
    let mut line = Vec::new(alloc);
    for (at, word) in words.iter().enumerate() {
        if at > 0 {
            line.push(b' ')?;
        }
        line.extend_from_slice(word.as_bytes())?;
    }
    Ok(line)
}

fn write_token(token: &Token<'_>, out: &mut Vec<u8>) -> Result<(), AllocError> {
    match token {
        Token::Word(word) => out.extend_from_slice(word.as_str().as_bytes()),
        Token::Number(number) => write_number(*number, out),
        Token::Long => out.extend_from_slice(b"LONG"),
        Token::Byte(byte) => {
            out.push(*byte)?;
            Ok(())
        }
        Token::Bad => out.extend_from_slice(b"BAD"),
    }
}

// Writes the number of tokens of a line, and the tokens.
fn split(alloc: Global, words: &[String], out: &mut Vec<u8>) -> Result<(), RowFail> {
    let line = line_of(alloc, words)?;
    let tokens = tokens(alloc, &line)?;
    write_number(tokens.len() as u64, out)?;
    for token in tokens.as_slice() {
        out.push(b' ')?;
        write_token(token, out)?;
    }
    Ok(end_line("", out)?)
}

// Ends a line by the token that is refused, and the kind.
fn end_fault(
    alloc: Global,
    token: usize,
    kind: DocKind,
    out: &mut Vec<u8>,
) -> Result<(), AllocError> {
    write_number(token as u64, out)?;
    out.push(b' ')?;
    end_line(format!(in alloc; "{kind:?}")?.as_str(), out)
}

// The same of a part that isn't read.
fn end_fail(alloc: Global, fail: PartFail, out: &mut Vec<u8>) -> Result<(), RowFail> {
    match fail {
        PartFail::At { token, kind } => Ok(end_fault(alloc, token, kind, out)?),
        PartFail::NoMemory => Err(RowFail::NoMemory),
    }
}

// Ends a line by the place behind a tree, and the tree.
fn end_read_tree(
    alloc: Global,
    table: &GenTable,
    tree: &Tree,
    next: usize,
    out: &mut Vec<u8>,
) -> Result<(), RowFail>
    requires fits { Fits table.now (tree_of tree.now) }
{
    write_number(next as u64, out)?;
    write_text(": ", out)?;
    out.extend_from_slice(print_tree(alloc, table, tree)?.as_slice())?;
    Ok(end_line("", out)?)
}

// Reads the tree at the front of a line, whose leaves are free where the first word says so: the place behind it, and the tree.
fn tree(
    alloc: Global,
    document: &Document,
    words: &[String],
    out: &mut Vec<u8>,
) -> Result<(), RowFail> {
    let [leaves, behind @ ..] = words else {
        return Err(RowFail::Refused);
    };
    let line = line_of(alloc, behind)?;
    let tokens = tokens(alloc, &line)?;
    let table = &document.gens;
    let is_free = leaves.as_str() == "free";
    match tree_at(alloc, table, tokens.as_slice(), 0, is_free) {
        Ok((tree, next)) => end_read_tree(alloc, table, &tree, next, out),
        Err(fail) => end_fail(alloc, fail, out),
    }
}

// Writes an arity, or `-` where there is none.
fn write_arity(arity: Option<u8>, out: &mut Vec<u8>) -> Result<(), AllocError> {
    match arity {
        Some(arity) => write_number(u64::from(arity), out),
        None => write_text("-", out),
    }
}

// Ends a line by the place behind an element, its arity, and the element.
fn end_read_element(
    alloc: Global,
    field: Field,
    table: &GenTable,
    found: &ElementAt,
    out: &mut Vec<u8>,
) -> Result<(), RowFail>
    requires fits { FitsOver field table.now found.now.sum }
{
    write_number(found.next as u64, out)?;
    out.push(b' ')?;
    write_arity(found.arity, out)?;
    write_text(": ", out)?;
    out.extend_from_slice(print_sum(alloc, field, table, &found.sum)?.as_slice())?;
    Ok(end_line("", out)?)
}

// The arity that a word asks for; `-` asks for none.
fn demand_of(word: &String) -> Result<Option<u8>, RowFail> {
    if word.as_str() == "-" {
        return Ok(None);
    }
    Ok(Some(small_number_of(word)?))
}

// Reads the element at the front of a line, behind the least arity and the one that is asked for: the place behind it, its
// arity, and the element.
fn element(
    alloc: Global,
    document: &Document,
    words: &[String],
    out: &mut Vec<u8>,
) -> Result<(), RowFail> {
    let [least, arity, behind @ ..] = words else {
        return Err(RowFail::Refused);
    };
    let least = small_number_of(least)?;
    let arity = demand_of(arity)?;
    let line = line_of(alloc, behind)?;
    let tokens = tokens(alloc, &line)?;
    let field = document.field;
    let table = &document.gens;
    match element_at(alloc, field, table, tokens.as_slice(), 0, least, arity) {
        Ok(found) => end_read_element(alloc, field, table, &found, out),
        Err(fail) => end_fail(alloc, fail, out),
    }
}

/// Answers the calls of `presentation_text` that read a line. False where it has none of this name.
pub fn answer(
    alloc: Global,
    name: &str,
    words: &[String],
    document: &Document,
    out: &mut Vec<u8>,
) -> Result<bool, RowFail> {
    match name {
        "tokens" => split(alloc, words, out)?,
        "tree_at" => tree(alloc, document, words, out)?,
        "element_at" => element(alloc, document, words, out)?,
        _ => return Ok(false),
    }
    Ok(true)
}
