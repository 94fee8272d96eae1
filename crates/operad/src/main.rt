//! The program: the words of the command line, standard input and standard output.
#![tactic(auto)]

use operad_run::operad_run;
use outside_io::{RealSink, RealSource, words_of};
use std::process::ExitCode;

fn main(rt: HostRuntime) -> ExitCode {
    let words = match words_of(&rt) {
        Ok(words) => words,
        Err(code) => return ExitCode::from(code),
    };
    let mut source = RealSource::new(rt.stdin());
    let mut sink = RealSink::new(rt.stdout());
    let given = match words.as_slice() {
        [_program, given @ ..] => given,
        [] => &[],
    };
    ExitCode::from(operad_run(rt.alloc(), given, &mut source, &mut sink).code())
}
