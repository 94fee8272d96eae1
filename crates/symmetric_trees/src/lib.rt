//! Trees over generators with parts of symmetry: the table of generators, arity, grafting, and the sorted spelling.
#![tactic(auto)]

mod arity;
mod branch;
mod generators;
mod grafting;
mod order;
mod parts;
mod spelling;

pub use arity::{arity_of, numbered};
pub use generators::{GenFail, GenTable, Generator, MOST_GENERATORS, Name, Part, PartKind};
pub use grafting::{fill, graft};
pub use labelled_trees::Tree;
pub use order::{spelling_order, spelling_order_is_total};
pub use parts::{Keyed, sort_parts};
pub use spelling::{Sign, spelled};
