//! The checker of certificates: whether a block of steps shows that its wanted element is in the ideal of the relations.
#![tactic(auto)]

mod answer;
mod checking;
mod uses;

pub use answer::{CheckAnswer, CheckCause};
pub use checking::{check_block, check_steps, held_blocks_are_members};
