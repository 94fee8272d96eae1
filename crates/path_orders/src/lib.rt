//! The four orders of shuffle trees, on trees and on their keys, and keys as blocks of numbers.
#![tactic(auto)]

mod block;
mod blocks;
mod orders;
mod rows;
mod weights;
mod words;

pub use blocks::Blocks;
pub use orders::{
    LeafPath, Path, PathShort, TreeOrder, WeightPath, flat_keys_are_seen, keys_are_alike,
    keys_are_seen,
};
