//! Small common multiples of shuffle trees, and S-elements of sums at them.
#![tactic(auto)]

mod chains;
mod families;
mod merging;
mod overlays;
mod s_elements;

pub use families::{Multiple, multiples};
pub use s_elements::s_element;
