//! Rows of runs and of calls, for the gate: standard input holds rows, each a line `> WORDS` or `< WORDS` and the text that the
//! row reads, up to the next such line; behind `<` the text's last line feed is left out. Where the first word is `call`, the
//! second word names a call of one of the crates; else it names a program. What is printed is the row's line, and the answer;
//! or `refused`, where the arguments are none for this call. See `rows`, `call_rows`, `reduction_rows` and `log_rows`.
#![tactic(auto)]

mod all_rows;

use all_rows::AllRows;
use outside_io::{RealSink, RealSource, read_all, write_all};
use presentation_text::MOST_BYTES;
use rows::run_all;
use std::process::ExitCode;

fn main(rt: HostRuntime) -> ExitCode {
    let alloc = rt.alloc();
    let mut source = RealSource::new(rt.stdin());
    let mut sink = RealSink::new(rt.stdout());
    let Ok(rows) = read_all(alloc, &mut source, MOST_BYTES) else {
        return ExitCode::from(1);
    };
    let Ok(out) = run_all(alloc, &mut AllRows::new(), &rows) else {
        return ExitCode::from(1);
    };
    match write_all(&mut sink, &out) {
        Ok(()) => ExitCode::from(0),
        Err(_) => ExitCode::from(1),
    }
}
