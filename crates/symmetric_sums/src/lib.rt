//! Sums of residues times trees, the elements of an operad; the one form that all sums have which are equal up to symmetry;
//! and the elements of instances of rules.
#![tactic(auto)]

mod collecting;
mod comparing;
mod expanding;
mod instance;
mod sum;
mod symmetry;
mod term;

pub use collecting::{collected, collected_forms_decide, one_collected_form};
pub use comparing::have_one_form;
pub use expanding::{
    ExpandFail, Expanded, expand, expand_answers_instances, expand_around, expand_with_arity,
    instances_are_members,
};
pub use instance::{Instance, Rule};
pub use sum::{Sum, SumFail};
pub use term::Term;
