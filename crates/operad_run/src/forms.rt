ghost use Rattle.std.specs.Prelude.{◌≡◌, ◌↔◌, ◌≤◌, ◌++◌, [], ◌∷◌, IfOk, IsTrue, MatchOption, OnOk, length};
ghost use Rattle.std.specs.List.{All};
ghost use Rattle.symmetric_sums.specs.Terms.{FitsOver, terms_of};
ghost use Rattle.presentation_text.specs.DraftReadings.{AskFits};
ghost use Rattle.operad_answers.specs.OrderedPresentations.{asks_of};
ghost use Rattle.operad_answers.specs.Commands.{query_fault};
ghost use Rattle.operad_answers.specs.Texts.{queries};
ghost use Rattle.operad_answers.specs.Limits as limits;
ghost use Rattle.operad_run.specs.Answers.{AddsAnswer, AreAnswered};
ghost use Rattle.operad_run.specs.FormsAnswers as spec;
ghost use Rattle.operad_run.specs.Laws.{AnswersAreDetermined};

use crate::run::fault_text;
use crate::status::Status;
use presentation_text::{
    Ask, AskKind, DocKind, Document, GREATEST_ARITY, MOST_BYTES, ReadDocFail, read_document,
    write_number, write_sum,
};
use prime_field::Field;
use std::alloc::{AllocError, Global};
use symmetric_sums::{Sum, collected};
use symmetric_trees::GenTable;

// Whether all trees of a sum have at most so many leaves.
fn is_within(sum: &Sum, most: u8) -> bool
    ensures { IsTrue result ↔ limits.IsOfArityWithin most sum.now }
{
    match sum.arity() {
        Some(arity) => arity <= most,
        None => true,
    }
}

fn is_ask_within(kind: &AskKind, most: u8) -> bool
    ensures { IsTrue result ↔ limits.IsAskWithin most kind.now }
{
    match kind {
        AskKind::Query(sum) => is_within(sum, most),
        AskKind::Same(left, right) => is_within(left, most) && is_within(right, most),
    }
}

// The line of the first question whose elements have a greater arity.
fn first_wide(asks: &[Ask], most: u8) -> Option<u32>
    ensures { MatchOption result (All (λ ask. limits.IsAskWithin most ask.kind) asks.now) (limits.IsFirstOfGreaterArity most asks.now) }
{
    for ask in asks {
        if !is_ask_within(&ask.kind, most) {
            return Some(ask.line);
        }
    }
    None
}

// Whether no relation has terms.
fn has_no_relations(document: &Document) -> bool
    ensures { IsTrue result ↔ spec.DocumentHasNoRelations document.now }
{
    document
        .rels
        .as_slice()
        .iter()
        .all(|relation| relation.terms().is_empty())
}

// Puts the line of the answer to an element behind `out`: its collected form.
fn write_answer(
    alloc: Global,
    field: Field,
    table: &GenTable,
    sum: &Sum,
    out: &mut Vec<u8>,
) -> Result<(), AllocError>
    requires fits { FitsOver field table.now sum.now }
    ensures { OnOk result (AddsAnswer field table.now (terms_of sum.now) out.old.items out.new.items) }
{
    // `arity` tells that all trees are numbered by 1 to the same number.
    let _arity = sum.arity();
    let form = collected(alloc, field, table, sum)?;
    write_sum(field, table, &form, out)?;
    out.push(b'\n')?;
    Ok(())
}

// Puts the line of the answer behind `out` where the question is a query.
fn write_ask_answer(
    alloc: Global,
    field: Field,
    table: &GenTable,
    kind: &AskKind,
    out: &mut Vec<u8>,
) -> Result<(), AllocError>
    requires fits { AskFits field table.now kind.now }
    ensures { OnOk result (spec.AnswersAsk field table.now kind.now out.old.items out.new.items) }
{
    match kind {
        AskKind::Query(sum) => write_answer(alloc, field, table, sum, out),
        AskKind::Same(_, _) => Ok(()),
    }
}

// The lines of the answers to the queries of a document.
fn answers(alloc: Global, document: &Document) -> Result<Vec<u8>, AllocError>
    requires asks { All (λ ask. AskFits document.now.field document.now.gens ask.kind) document.now.asks }
    ensures { IfOk result (λ out. AreAnswered document.now.field document.now.gens (queries (asks_of document.now)) out.items) }
{
    let mut out = Vec::new(alloc);
    for ask in document.asks.as_slice() {
        write_ask_answer(alloc, document.field, &document.gens, &ask.kind, &mut out)?;
    }
    Ok(out)
}

// The text that names the line of the first question with a greater arity.
fn wide_text(alloc: Global, line: u32) -> Result<Vec<u8>, AllocError>
    ensures { IfOk result (λ text. text.items ≡ query_fault line) }
{
    let mut text = Vec::new(alloc);
    text.extend_from_slice(b"fault limit query ")?;
    write_number(u64::from(line), &mut text)?;
    text.push(b'\n')?;
    Ok(text)
}

/// The status and the text of a text of at most 16,777,216 bytes and a greatest arity from 1 to 9: `Done` and the answers to
/// the queries; `Document` and the first line that is refused, or that of a tail, or 0 for a relation that has terms; or
/// `Limit` and the first question of a greater arity. `AllocError` comes for want of memory alone.
pub fn forms_text(alloc: Global, bytes: &[u8], most: u8) -> Result<(Status, Vec<u8>), AllocError>
    requires few { most ≤ GREATEST_ARITY }
    requires short { length bytes.now ≤ MOST_BYTES }
    ensures contents { IfOk result (λ contents. spec.FormsTells bytes.now most contents.0 contents.1.items) }
{
    let document = match read_document(alloc, bytes) {
        Ok(document) => document,
        Err(ReadDocFail::At(fail)) => {
            return Ok((Status::Document, fault_text(alloc, fail.line, fail.kind)?));
        }
        Err(ReadDocFail::NoMemory) => return Err(AllocError),
    };
    if let Some(tail) = document.tail {
        return Ok((
            Status::Document,
            fault_text(alloc, tail.line, DocKind::Block)?,
        ));
    }
    if !has_no_relations(&document) {
        return Ok((Status::Document, fault_text(alloc, 0, DocKind::NotBuilt)?));
    }
    match first_wide(document.asks.as_slice(), most) {
        Some(line) => Ok((Status::Limit, wide_text(alloc, line)?)),
        None => Ok((Status::Done, answers(alloc, &document)?)),
    }
}

/// Law: what a run tells of a text is a function of the text and the greatest arity.
pub fn answers_are_determined()
    ensures law { AnswersAreDetermined }
{}
