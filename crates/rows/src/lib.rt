//! Rows, and what programs that run them share. Rows are lines `> WORDS` or `< WORDS`, each with the text that it reads, up to
//! the next such line; behind `<` the text's last line feed is left out.
//!
//! Where the first word is `call`, the second word names a call, and the words behind it and a document are its arguments: the
//! text of the last row `> heading`, and behind it the row's own. What is printed is the row's line, and the answer; or
//! `refused`, where the arguments are none for this call.
#![tactic(auto)]

mod arguments;
mod belonging;
mod elements;
mod fail;
mod limits;
mod lines;
mod printing;
mod running;
mod spelling;
mod splitting;

pub use arguments::{document_of, element, form, numbers_of, shuffle_tree, tree, vertices_of};
pub use belonging::belongs;
pub use elements::shuffle_terms;
pub use fail::RowFail;
pub use limits::most_leaves;
pub use lines::{end_found, end_line, end_number, end_terms, end_tree, write_before, write_text};
pub use printing::{write_line, write_next, write_plain};
pub use running::{Program, run_all};
pub use spelling::{number_of, shuffle_of, shuffles_of, small_number_of, tree_of, trees_of};
