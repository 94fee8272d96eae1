use call_rows::Runs;
use rows::{Program, RowFail};
use std::alloc::Global;

/// The runs of the programs, and the calls of all crates.
#[derive(Clone, Copy, Debug)]
pub struct AllRows {
    runs: Runs,
}

impl AllRows {
    /// The next run has a source and a sink that don't fail.
    pub fn new() -> AllRows {
        AllRows { runs: Runs::new() }
    }
}

impl Program for AllRows {
    fn call(
        &self,
        alloc: Global,
        name: &str,
        words: &[String],
        text: &[u8],
        out: &mut Vec<u8>,
    ) -> Result<(), RowFail> {
        if reduction_rows::has_call(name) {
            reduction_rows::call(alloc, name, words, text, out)
        } else if log_rows::has_call(name) {
            log_rows::call(alloc, name, words, text, out)
        } else {
            call_rows::call(alloc, name, words, text, out)
        }
    }

    fn run(
        &mut self,
        alloc: Global,
        words: &[String],
        text: &[u8],
        out: &mut Vec<u8>,
    ) -> Result<(), RowFail> {
        self.runs.run(alloc, words, text, out)
    }
}
