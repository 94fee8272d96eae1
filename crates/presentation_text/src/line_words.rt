ghost use Rattle.std.specs.Prelude.{◌≡◌};
ghost use Rattle.presentation_text.specs.DraftReadings.{contents_of};
ghost use Rattle.presentation_text.specs.LineReadings as spec;

use crate::draft::Draft;
use crate::kinds::DocKind;

// The section of a word; `None` for words that may stand behind the first line of a tail alone, and for others.
pub(crate) fn section_of(version: u8, word: &str) -> u8
    ensures { result ≡ spec.section_of version word.now }
{
    if word == "field" {
        return 2;
    }
    if word == "order" {
        return 3;
    }
    if word == "gen" {
        return 4;
    }
    if version == 2 && word == "weight" {
        return 4;
    }
    if word == "rel" {
        return 5;
    }
    if word == "query" || word == "same" {
        return 6;
    }
    if word == "want" || word == "cert" {
        return 7;
    }
    0
}

fn is_inside_tail(word: &str) -> bool
    ensures { result ≡ spec.is_inside_tail word.now }
{
    word == "step"
        || word == "use"
        || word == "end"
        || word == "elem"
        || word == "row"
        || word == "relabel"
        || word == "red"
}

/// Whether no line of a text of this version, 1 or 2, begins with the word: neither one of a presentation nor one of a tail.
pub fn is_unknown(version: u8, word: &str) -> bool
    ensures { result ≡ spec.is_unknown version word.now }
{
    section_of(version, word) == 0 && !is_inside_tail(word)
}

fn is_missing(draft: &Draft, word: &str) -> bool
    ensures { result ≡ spec.is_missing (contents_of draft.now) word.now }
{
    if draft.field.is_none() {
        return word != "field";
    }
    draft.order.is_none() && word != "order" && word != "field"
}

fn is_out_of_order(draft: &Draft, word: &str) -> bool
    ensures { result ≡ spec.is_out_of_order (contents_of draft.now) word.now }
{
    let section = section_of(draft.version, word);
    if section > 0 && section < draft.section {
        return true;
    }
    (word == "field" && draft.field.is_some()) || (word == "order" && draft.order.is_some())
}

// What stands against the word of a line.
#[tactic(auto, unfolding(crate::specs::LineReadings::word_fault))]
pub(crate) fn word_fault(draft: &Draft, word: &str) -> Option<DocKind>
    ensures { result ≡ spec.word_fault (contents_of draft.now) word.now }
{
    if is_unknown(draft.version, word) {
        return Some(DocKind::Directive);
    }
    if is_missing(draft, word) {
        return Some(DocKind::Missing);
    }
    if is_out_of_order(draft, word) {
        return Some(DocKind::Directive);
    }
    if is_inside_tail(word) {
        return Some(DocKind::Block);
    }
    None
}
