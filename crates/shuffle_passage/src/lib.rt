//! The passage from symmetric to shuffle operads and back: the labels of a table, shuffle forms of trees, and the way back.
#![tactic(auto)]

mod branch;
mod forming;
mod framing;
mod labelling;
mod permuting;
mod relabelling;
mod spelling_back;
mod transferring;
mod words;

pub use forming::{one_shuffle_form, to_shuffle};
pub use framing::frame_to_context;
pub use labelling::labels_of;
pub use permuting::{Relabelled, relabellings};
pub use relabelling::relabelled;
pub use spelling_back::to_symmetric;
pub use transferring::transfer_of_answers;
