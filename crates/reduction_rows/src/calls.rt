use crate::settings::SumCall;
use crate::{cones, elements, gatherings, settings, shelves, sweeps};
use presentation_text::Document;
use rows::{RowFail, document_of};
use std::alloc::Global;

// Calls what the name says, where a document gives the setting.
fn document_answer(
    alloc: Global,
    name: &str,
    words: &[String],
    document: &Document,
    out: &mut Vec<u8>,
) -> Result<(), RowFail> {
    match name {
        "Setting::new" => settings::setting(alloc, document, words, out),
        "weight_order" => settings::weights(alloc, document, words, out),
        "SSum::from_sum" => settings::called(alloc, document, SumCall::FromSum, words, out),
        "SSum::add_scaled" => settings::called(alloc, document, SumCall::AddScaled, words, out),
        "SSum::insert_at" => settings::called(alloc, document, SumCall::InsertAt, words, out),
        "s_element" => settings::called(alloc, document, SumCall::SElement, words, out),
        "Basis::add" => settings::called(alloc, document, SumCall::Add, words, out),
        "Basis::candidates" => settings::called(alloc, document, SumCall::Candidates, words, out),
        "Basis::divider" => settings::called(alloc, document, SumCall::Divider, words, out),
        "Shelf::shelve" => shelves::shelve(alloc, document, words, out),
        "insert_at_root" => elements::inserted(alloc, document, words, out),
        "step" => elements::stepped(alloc, document, words, out),
        "gather" => gatherings::gathered(alloc, document, words, out),
        "reduce_row" => cones::reduced(alloc, document, words, out),
        "sweep" => sweeps::swept(alloc, words, out),
        _ => Err(RowFail::Refused),
    }
}

/// Whether the call of this name is one of these.
pub fn has_call(name: &str) -> bool {
    matches!(
        name,
        "Setting::new"
            | "weight_order"
            | "SSum::from_sum"
            | "SSum::add_scaled"
            | "SSum::insert_at"
            | "s_element"
            | "Basis::add"
            | "Basis::candidates"
            | "Basis::divider"
            | "Shelf::shelve"
            | "insert_at_root"
            | "step"
            | "gather"
            | "reduce_row"
            | "sweep"
    )
}

/// Calls what the name says: on words, over the setting that a document gives. The answer is written behind `out`. `Refused`
/// where the text is no document, or the words are no arguments for the call.
pub fn call(
    alloc: Global,
    name: &str,
    words: &[String],
    text: &[u8],
    out: &mut Vec<u8>,
) -> Result<(), RowFail> {
    document_answer(alloc, name, words, &document_of(alloc, text)?, out)
}
