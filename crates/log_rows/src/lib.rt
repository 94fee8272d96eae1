//! Rows of calls over logs of completions, and over words of normal listings.
#![tactic(auto)]

mod calls;
mod entries;
mod logs;
mod parts;
mod vertices;
mod words;

pub use calls::{call, has_call};
