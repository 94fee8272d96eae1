use presentation_text::write_number;
use rows::{RowFail, end_line, write_next};
use shuffle_sums::Term;

/// Writes each term in a line: its residue and its id.
pub fn write_terms(terms: &[Term], out: &mut Vec<u8>) -> Result<(), RowFail> {
    for term in terms {
        write_number(u64::from(term.coef), out)?;
        write_next(term.tree.index() as u64, out)?;
        end_line("", out)?;
    }
    Ok(())
}
