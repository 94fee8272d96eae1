ghost use Rattle.std.specs.Prelude.{◌≡◌, ◌≤◌, List, IfOk, MatchResult, Ok, drop, length, map};
ghost use Rattle.std.specs.List.{All};
ghost use Rattle.symmetric_sums.specs.Terms.{FitsOver, terms_of};
ghost use Rattle.presentation_text.specs.Readings.{StopsAs};
ghost use Rattle.certificate_text.specs.BlockReadings as spec;
ghost use Rattle.certificate_text.specs.Plain.{plain_block, plain_step};
ghost use Rattle.certificate_text.specs.PlaceReadings as forms;

use crate::block::{Block, Step};
use crate::uses::use_line;
use presentation_text::{DocKind, Document, PartFail, Token, element_at, end_at, is_unknown};
use sqlite_items::Items;
use std::alloc::{AllocError, Global};
use symmetric_sums::Sum;

// Where the next line stands: between blocks, in a block behind its wanted element, or in a step of a block.
#[derive(Drop)]
pub enum Place {
    Between,
    InBlock(Block),
    InStep(Block, Step),
}

// Where the next line stands, and the whole blocks before it.
#[derive(Drop)]
pub struct Progress {
    pub place: Place,
    pub blocks: Items<Block>,
}

impl Place {
    fn may_follow(&self, word: &str) -> bool
        ensures { result ≡ spec.may_follow (forms.place_of self.now) word.now }
    {
        match self {
            Place::Between => word == "want",
            Place::InBlock(_) => word == "step" || word == "end",
            Place::InStep(_, _) => word == "use" || word == "step" || word == "end",
        }
    }

    // What stands against the word of a line.
    pub fn word_fault(&self, version: u8, word: &str) -> Option<DocKind>
        ensures { result ≡ spec.tail_word_fault version (forms.place_of self.now) word.now }
    {
        if is_unknown(version, word) {
            return Some(DocKind::Directive);
        }
        if !self.may_follow(word) {
            return Some(DocKind::Block);
        }
        None
    }
}

// The element of a line of a word and an element.
fn sum_line(alloc: Global, document: &Document, tokens: &[Token<'_>]) -> Result<Sum, PartFail>
    requires word { 1 ≤ length tokens.now }
    ensures read { MatchResult result (λ sum. spec.sum_in document.now.field document.now.gens (drop 1 tokens.now) ≡ Ok (terms_of sum))
        (StopsAs tokens.now (spec.sum_in document.now.field document.now.gens (drop 1 tokens.now))) }
    ensures fits { IfOk result (FitsOver document.now.field document.now.gens) }
{
    let element = element_at(alloc, document.field, &document.gens, tokens, 1, 1, None)?;
    end_at(tokens, element.next)?;
    Ok(element.sum)
}

// Behind a line `want ELEMENT` between blocks.
fn want_line(
    alloc: Global,
    document: &Document,
    blocks: Items<Block>,
    tokens: &[Token<'_>],
) -> Result<Progress, PartFail>
    requires word { 1 ≤ length tokens.now }
    ensures { forms.GivesFollow tokens.now (spec.want_line document.now.field document.now.gens (map plain_block blocks) (drop 1 tokens.now)) result }
{
    let want = sum_line(alloc, document, tokens)?;
    let block = Block {
        want,
        steps: Items::new(alloc),
    };
    Ok(Progress {
        place: Place::InBlock(block),
        blocks,
    })
}

// Behind a line `step ELEMENT` or `end` in a block whose steps are whole.
fn block_line(
    alloc: Global,
    document: &Document,
    block: Block,
    blocks: Items<Block>,
    word: &str,
    tokens: &[Token<'_>],
) -> Result<Progress, PartFail>
    requires word { 1 ≤ length tokens.now }
    ensures { forms.GivesFollow tokens.now (spec.block_line document.now.field document.now.gens (plain_block block) (map plain_block blocks) word.now (drop 1 tokens.now)) result }
{
    if word == "end" {
        end_at(tokens, 1)?;
        let mut blocks = blocks;
        blocks.push(block)?;
        return Ok(Progress {
            place: Place::Between,
            blocks,
        });
    }
    let element = sum_line(alloc, document, tokens)?;
    let step = Step {
        element,
        uses: Items::new(alloc),
    };
    Ok(Progress {
        place: Place::InStep(block, step),
        blocks,
    })
}

// Behind a line that stands in a step: a use, or what stands behind whole steps.
fn step_line(
    alloc: Global,
    document: &Document,
    block: Block,
    step: Step,
    blocks: Items<Block>,
    word: &str,
    tokens: &[Token<'_>],
) -> Result<Progress, PartFail>
    requires word { 1 ≤ length tokens.now }
    ensures { forms.GivesFollow tokens.now (spec.step_line document.now.field document.now.gens (plain_block block) (plain_step step) (map plain_block blocks) word.now (drop 1 tokens.now)) result }
{
    if word == "use" {
        let item = use_line(alloc, document.field, &document.gens, tokens)?;
        let Step { element, mut uses } = step;
        uses.push(item)?;
        return Ok(Progress {
            place: Place::InStep(block, Step { element, uses }),
            blocks,
        });
    }
    let Block { want, mut steps } = block;
    steps.push(step)?;
    block_line(alloc, document, Block { want, steps }, blocks, word, tokens)
}

// Where the next line stands behind a line whose word may follow.
pub fn follow(
    alloc: Global,
    document: &Document,
    now: Progress,
    word: &str,
    tokens: &[Token<'_>],
) -> Result<Progress, PartFail>
    requires word { 1 ≤ length tokens.now }
    ensures { forms.GivesFollow tokens.now (spec.rest_of_tail_line document.now.field document.now.gens (forms.place_of now.place) (map plain_block now.blocks) word.now (drop 1 tokens.now)) result }
{
    let Progress { place, blocks } = now;
    match place {
        Place::Between => want_line(alloc, document, blocks, tokens),
        Place::InBlock(block) => block_line(alloc, document, block, blocks, word, tokens),
        Place::InStep(block, step) => step_line(alloc, document, block, step, blocks, word, tokens),
    }
}
