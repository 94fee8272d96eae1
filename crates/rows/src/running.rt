use crate::fail::RowFail;
use crate::splitting::{is_heading, row_text, text_read, words_of};
use presentation_text::next_line;
use std::alloc::{AllocError, Global};

/// What a program answers to its rows. Each answer is written behind `out`.
pub trait Program {
    /// Answers the call of this name. The text is that of the last heading, and behind it the row's own.
    fn call(
        &self,
        alloc: Global,
        name: &str,
        words: &[String],
        text: &[u8],
        out: &mut Vec<u8>,
    ) -> Result<(), RowFail>;

    /// Answers a row whose first word isn't `call`, given all its words and its own text.
    fn run(
        &mut self,
        alloc: Global,
        words: &[String],
        text: &[u8],
        out: &mut Vec<u8>,
    ) -> Result<(), RowFail>;
}

// Answers a call: its line, and what the program writes of it.
fn answer_call<P: Program>(
    alloc: Global,
    program: &P,
    line: &[u8],
    heading: &[u8],
    text: &[u8],
    out: &mut Vec<u8>,
) -> Result<(), RowFail> {
    out.extend_from_slice(line)?;
    out.push(b'\n')?;
    let mut whole = heading.to_vec(alloc)?;
    whole.extend_from_slice(text)?;
    match words_of(alloc, line)?.as_slice() {
        [_, name, words @ ..] => program.call(alloc, name.as_str(), words, &whole, out),
        _ => Err(RowFail::Refused),
    }
}

fn is_call(line: &[u8]) -> bool {
    line.starts_with(b"> call ") || line.starts_with(b"< call ")
}

// Answers a row that is no heading.
fn answer<P: Program>(
    alloc: Global,
    program: &mut P,
    line: &[u8],
    heading: &[u8],
    text: &[u8],
    out: &mut Vec<u8>,
) -> Result<(), AllocError> {
    let answered = if is_call(line) {
        answer_call(alloc, program, line, heading, text, out)
    } else {
        program.run(alloc, words_of(alloc, line)?.as_slice(), text, out)
    };
    match answered {
        Ok(()) => Ok(()),
        Err(RowFail::NoMemory) => Err(AllocError),
        Err(RowFail::Refused) => out.extend_from_slice(b"refused\n"),
    }
}

/// What all rows print. A row `> heading` prints nothing: its text stands before that of each call behind it.
pub fn run_all<P: Program>(
    alloc: Global,
    program: &mut P,
    rows: &[u8],
) -> Result<Vec<u8>, AllocError> {
    let mut out = Vec::new(alloc);
    let mut heading = b"".as_slice();
    let mut rest = rows;
    for _ in 0..rows.len() {
        let Some((line, behind)) = next_line(rest) else {
            break;
        };
        let (text, further) = row_text(behind);
        let read = text_read(line, text);
        if is_heading(line) {
            heading = read;
        } else {
            answer(alloc, program, line, heading, read, &mut out)?;
        }
        rest = further;
    }
    Ok(out)
}
