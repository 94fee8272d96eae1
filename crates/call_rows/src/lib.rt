//! Rows of runs of the two programs, and of calls of the crates below the sums of ids: see `rows`.
//!
//! A run's row names a program with its words. What is printed is the line `> STATUS`, the status by its number, and what the
//! run wrote. A row `> outside CHUNK READ WRITE COMMENT` before it says how many bytes the source gives and the sink takes in a
//! call, which call of each fails (0 for none), and how many bytes of a comment stand before the text.
//!
//! The arguments of a call are the questions of its document, and the words behind its name: numbers, names, and trees that no
//! document need hold, as `0(1,0(2,3))` by the numbers of the generators or labels and of the leaves.
#![tactic(auto)]

mod calls;
mod checking;
mod checks;
mod comparing;
mod elements;
mod fields;
mod outside;
mod overlaps;
mod passing;
mod places;
mod reading;
mod runs;
mod shuffle;
mod sorting;
mod stores;
mod symmetric;
mod texts;

pub use calls::call;
pub use runs::Runs;
