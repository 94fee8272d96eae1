//! Rows of calls that add and shelve sums of ids and that reduce them: see `rows`. The arguments are words: numbers, and trees, as
//! `0(1,0(2,3))` by the numbers of their labels and leaves. A sum is spelled by a residue and a tree for each term. Where a
//! setting is needed, the document gives the field, the labels and the order.
#![tactic(auto)]

mod adding;
mod bases;
mod calls;
mod cones;
mod elements;
mod gatherings;
mod inserting;
mod s_elements;
mod settings;
mod shelves;
mod stores;
mod sums;
mod sweeps;
mod terms;

pub use calls::{call, has_call};
