//! Shuffle trees over labels: their type, frames and insertion, words and keys, all trees of an arity and their number.
#![tactic(auto)]

mod checks;
mod counting;
mod flat_keys;
mod frame;
mod insertion;
mod keys;
mod labels;
mod listing;
mod stree;

pub use counting::count_trees;
pub use flat_keys::{FlatKey, FlatWord, MOST_LEAVES};
pub use frame::Frame;
pub use insertion::insert;
pub use keys::{Key, leaf_row, words};
pub use labelled_trees::Tree as Shape;
pub use labels::Labels;
pub use listing::all_trees;
pub use stree::{STree, vertex_count};
