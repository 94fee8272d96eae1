ghost use Rattle.std.specs.Prelude.{IsTrue};
ghost use Rattle.certificate_check.specs.Blocks.{AreCheckable};
ghost use Rattle.certificate_text.specs.Tails.{IsCheckableStep};

use crate::checks::all_fit;
use crate::elements::{copy, instance_of};
use certificate_check::{CheckAnswer, check_block};
use certificate_text::{Block, Step};
use presentation_text::Document;
use rows::{RowFail, end_line};
use sqlite_items::Items;
use std::alloc::{AllocError, Global};
use symmetric_sums::Instance;

// Whether the element of a step fits, and the coefficients of its uses are residues.
fn is_checkable_step(document: &Document, step: &Step) -> bool
    ensures { IsTrue result → IsCheckableStep document.now.field document.now.gens step.now }
{
    for item in step.uses.as_slice() {
        if item.coef >= document.field.prime() {
            return false;
        }
    }
    step.element.fits(document.field, &document.gens)
}

// The same of each step.
fn are_checkable(document: &Document, steps: &[Step]) -> bool
    ensures { IsTrue result → AreCheckable document.now.field document.now.gens steps.now }
{
    for step in steps {
        if !is_checkable_step(document, step) {
            return false;
        }
    }
    true
}

// The checker's answer for a block of few steps.
fn checked(alloc: Global, document: &Document, block: &Block) -> Result<CheckAnswer, RowFail> {
    let rels = document.rels.as_slice();
    if block.steps.len() > 9 || !all_fit(document.field, &document.gens, rels) {
        return Err(RowFail::Refused);
    }
    let fits = block.want.fits(document.field, &document.gens);
    if !fits || !are_checkable(document, block.steps.as_slice()) {
        return Err(RowFail::Refused);
    }
    Ok(check_block(alloc, document, block)?)
}

// The instance that words name, alone.
fn uses_of(alloc: Global, words: &[String]) -> Result<Items<Instance>, RowFail> {
    let mut uses = Items::new(alloc);
    uses.push(instance_of(alloc, words)?)?;
    Ok(uses)
}

// A step with that use, alone, whose element is that of the question.
fn steps_of(alloc: Global, document: &Document, words: &[String]) -> Result<Items<Step>, RowFail> {
    let uses = uses_of(alloc, words)?;
    let element = copy(alloc, document, 0)?;
    let mut steps = Items::new(alloc);
    steps.push(Step { element, uses })?;
    Ok(steps)
}

// The block of that step, whose element is wanted.
fn block_of(alloc: Global, document: &Document, words: &[String]) -> Result<Block, RowFail> {
    Ok(Block {
        steps: steps_of(alloc, document, words)?,
        want: copy(alloc, document, 0)?,
    })
}

// Ends a line by the answer.
fn end_answer(alloc: Global, answer: CheckAnswer, out: &mut Vec<u8>) -> Result<(), AllocError> {
    end_line(format!(in alloc; "{answer:?}")?.as_str(), out)
}

/// Answers the call of `certificate_check`, for the instance that words name. False where it has none of this name.
pub fn answer(
    alloc: Global,
    name: &str,
    words: &[String],
    document: &Document,
    out: &mut Vec<u8>,
) -> Result<bool, RowFail> {
    if name != "check_block" {
        return Ok(false);
    }
    let found = checked(alloc, document, &block_of(alloc, document, words)?)?;
    end_answer(alloc, found, out)?;
    Ok(true)
}
