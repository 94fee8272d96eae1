//! The text of presentations: lines, tokens, and trees as they are read and printed.
#![tactic(auto)]

mod document;
mod document_writing;
mod draft;
mod kinds;
mod lexing;
mod line_forms;
mod line_words;
mod lines;
mod parts;
mod presentations;
mod terms;
mod trees;
mod writing;

pub use document::{Ask, AskKind, Document, OrderName, Tail};
pub use document_writing::{
    print_document, printed_documents_are_read_back, read_documents_are_writable,
};
pub use kinds::{DocFail, DocKind, PartFail, ReadDocFail};
pub use lexing::{Token, Word, tokens, tokens_are_defined, words_are_words};
pub use line_words::is_unknown;
pub use lines::{counts, lines_are_defined, next_line};
pub use parts::{end_at, has_mark, mark_at, number_at, word_at};
pub use presentations::{
    MOST_BYTES, accepted_texts_are_well_formed, documents_are_accepted, read_document,
    texts_are_read_or_refused,
};
pub use terms::{
    ElementAt, element_at, elements_are_accepted, elements_are_read_once,
    elements_are_refused_rightly, printed_elements_are_read, refused_elements_begin,
};
pub use trees::{
    GREATEST_ARITY, refused_trees_begin, tree_at, trees_are_accepted, trees_are_read_once,
    trees_are_refused_rightly,
};
pub use writing::{
    print_sum, print_tree, printed_sums_are_read_back, printed_trees_are_read_back, write_number,
    write_sum, write_tree,
};
