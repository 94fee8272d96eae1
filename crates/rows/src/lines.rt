use crate::printing::write_plain;
use labelled_trees::Tree;
use presentation_text::write_number;
use std::alloc::AllocError;
use symmetric_sums::Term;

/// Puts a text behind `out`.
pub fn write_text(text: &str, out: &mut Vec<u8>) -> Result<(), AllocError> {
    out.extend_from_slice(text.as_bytes())
}

/// Puts a word and a blank behind `out`.
pub fn write_before(word: &str, out: &mut Vec<u8>) -> Result<(), AllocError> {
    write_text(word, out)?;
    out.push(b' ')?;
    Ok(())
}

/// Ends a line by a word.
pub fn end_line(word: &str, out: &mut Vec<u8>) -> Result<(), AllocError> {
    write_text(word, out)?;
    out.push(b'\n')?;
    Ok(())
}

/// Ends a line by a number.
pub fn end_number(number: u64, out: &mut Vec<u8>) -> Result<(), AllocError> {
    write_number(number, out)?;
    end_line("", out)
}

/// Ends a line by a number, or by `none`.
pub fn end_found(number: Option<u8>, out: &mut Vec<u8>) -> Result<(), AllocError> {
    match number {
        Some(number) => end_number(u64::from(number), out),
        None => end_line("none", out),
    }
}

/// Ends a line by a tree.
pub fn end_tree(tree: &Tree, out: &mut Vec<u8>) -> Result<(), AllocError> {
    write_plain(tree, out)?;
    end_line("", out)
}

/// Ends a line by terms, each a residue, a star and a tree, or by `0` where there are none.
pub fn end_terms(terms: &[Term], out: &mut Vec<u8>) -> Result<(), AllocError> {
    if terms.is_empty() {
        return end_line("0", out);
    }
    for (at, term) in terms.iter().enumerate() {
        if at > 0 {
            out.push(b' ')?;
        }
        write_number(u64::from(term.coef), out)?;
        out.push(b'*')?;
        write_plain(&term.tree, out)?;
    }
    end_line("", out)
}
