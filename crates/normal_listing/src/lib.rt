//! The trees of a normal listing: their words, whose order is the spelling order, the choices of their inputs, their text,
//! and the trees one after the other.
#![tactic(auto)]

mod choosing;
mod found;
mod iterating;
mod labels;
mod laws;
mod listing;
mod parting;
mod parts;
mod pieces;
mod reading;
mod sorting;
mod tables;
mod testing;
mod trees;
mod vertex_words;
mod word;
mod writing;

pub use choosing::Tables;
pub use found::Found;
pub use iterating::NormalTrees;
pub use labels::{Label, Lead};
pub use laws::{choices_are_rows, parts_with_last, set_with_last, words_of_vertices};
pub use listing::find_vertices;
pub use parting::part_with_last;
pub use parts::Part;
pub use pieces::write_some;
pub use reading::read_word;
pub use sorting::sort_words;
pub use tables::leaf_symbols;
pub use trees::{renamed_trees, word_of, words_spell};
pub use word::SpellingWord;
pub use writing::{write_word, write_words};
