//! Entries for the log of a completion.
//!
//! `uses` writes what a row is after the steps of a reduction as uses of relations and of earlier entries, and `elements`
//! passes a sum of shuffle trees back to a symmetric element; `entries` makes an entry of both. `laws` says that such entries
//! may be pushed, and that they stand for the elements of the basis all along.
#![tactic(auto)]

mod elements;
mod entries;
mod laws;
mod uses;

pub use elements::symmetric_element;
pub use entries::entry_for;
pub use laws::{differences_are_kept, entries_are_carried, reduced_rows_are_kept, whole_starts};
pub use uses::{Start, uses_of};
