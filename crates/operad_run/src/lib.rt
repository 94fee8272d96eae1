//! The program: words, a source and a sink in, a status out.
#![tactic(auto)]

mod checks;
mod commands;
mod forms;
mod member;
mod run;
mod status;

pub use forms::answers_are_determined;
pub use member::check_run;
pub use run::operad_run;
pub use status::Status;
