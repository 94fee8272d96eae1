ghost use Rattle.std.specs.Prelude.{◌-◌, ◌^◌, ◌<◌, ◌↔◌, IfOk, IsTrue, length};
ghost use Rattle.std.specs.List.{All};
ghost use Rattle.symmetric_sums.specs.Terms.{FitsOver};
ghost use Rattle.certificate_check.specs.Blocks.{AreCheckable, IsWanted, elements_of};
ghost use Rattle.certificate_check.specs.Soundness.{HeldBlocksAreMembers};
ghost use Rattle.certificate_text.specs.Tails.{IsCheckableStep};
ghost use Rattle.certificate_check.specs.Answers.{IsBlockVerdict};
ghost use Rattle.certificate_check.specs.Checking.{IsChecked, IsRefusal};

use crate::uses::{Fault, sum_of_uses};
use crate::{CheckAnswer, CheckCause};
use certificate_text::{Block, Step};
use presentation_text::Document;
use std::alloc::{AllocError, Global};
use symmetric_sums::{Sum, have_one_form};

/// Whether a block holds. It holds where each use of each step is a valid instance of a relation of the document or of an
/// earlier step, all uses of a step have one arity, the element of each step and the sum of its uses' elements collect to the
/// same sum, and the wanted element and that of the last step do; without steps the wanted element collects to 0.
///
/// `Accepted` comes exactly where it holds. `Refused` names the first step that doesn't, and the cause at its first bad use:
/// `Ahead` where the use cites a step number that is 0 or not before the step, else `UseUnfit` where it cites a symmetry rule,
/// isn't valid in any arity, or has another arity than the step's first use; with good uses, `Differs` where the element isn't
/// their sum. After all steps, `NotWanted` names the number of steps where the wanted element isn't as above.
///
/// There are fewer than 2^32 - 1 steps, all sums fit the document's field and generators, and the coefficient of each use is
/// a residue. `AllocError` comes for want of memory alone.
pub fn check_block(
    alloc: Global,
    document: &Document,
    block: &Block,
) -> Result<CheckAnswer, AllocError>
    requires few { length block.now.steps < 2 ^ 32 - 1 }
    requires rels { All (FitsOver document.now.field document.now.gens) document.now.rels }
    requires want { FitsOver document.now.field document.now.gens block.now.want }
    requires steps { AreCheckable document.now.field document.now.gens block.now.steps }
    ensures answer { IfOk result (IsBlockVerdict document.now.field document.now.gens document.now.rels block.now.want block.now.steps) }
{
    check_steps(alloc, document, &block.want, block.steps.as_slice())
}

/// As `check_block`, for the parts of a block.
pub fn check_steps(
    alloc: Global,
    document: &Document,
    want: &Sum,
    steps: &[Step],
) -> Result<CheckAnswer, AllocError>
    requires few { length steps.now < 2 ^ 32 - 1 }
    requires rels { All (FitsOver document.now.field document.now.gens) document.now.rels }
    requires want { FitsOver document.now.field document.now.gens want.now }
    requires steps { AreCheckable document.now.field document.now.gens steps.now }
    ensures answer { IfOk result (IsBlockVerdict document.now.field document.now.gens document.now.rels want.now steps.now) }
{
    let mut before: u32 = 0;
    for step in steps {
        if let Err(fault) = check_step(alloc, document, &steps[..before as usize], step) {
            return refused(before + 1, fault);
        }
        before += 1;
    }
    if is_wanted(alloc, document, want, steps)? {
        return Ok(CheckAnswer::Accepted);
    }
    Ok(CheckAnswer::Refused {
        step: before,
        cause: CheckCause::NotWanted,
    })
}

// The answer at a fault of a step.
fn refused(step: u32, fault: Fault) -> Result<CheckAnswer, AllocError>
    ensures { IfOk result (IsRefusal step fault) }
{
    match fault {
        Fault::Cause(cause) => Ok(CheckAnswer::Refused { step, cause }),
        Fault::NoMemory => Err(AllocError),
    }
}

// Whether the wanted element and that of the last step collect to the same sum; without steps, whether it collects to 0.
fn is_wanted(
    alloc: Global,
    document: &Document,
    want: &Sum,
    steps: &[Step],
) -> Result<bool, AllocError>
    requires want { FitsOver document.now.field document.now.gens want.now }
    requires steps { AreCheckable document.now.field document.now.gens steps.now }
    ensures { IfOk result (λ wanted. IsTrue wanted ↔ IsWanted document.now.field document.now.gens want.now steps.now) }
{
    let field = document.field;
    let gens = &document.gens;
    match steps {
        [.., last] => have_one_form(alloc, field, gens, want, &last.element),
        [] => have_one_form(alloc, field, gens, want, &Sum::new(alloc)),
    }
}

// Whether a step holds over those before it.
fn check_step(
    alloc: Global,
    document: &Document,
    earlier: &[Step],
    step: &Step,
) -> Result<(), Fault>
    requires rels { All (FitsOver document.now.field document.now.gens) document.now.rels }
    requires earlier { AreCheckable document.now.field document.now.gens earlier.now }
    requires step { IsCheckableStep document.now.field document.now.gens step.now }
    ensures { IsChecked document.now.field document.now.gens document.now.rels (elements_of earlier.now) step.now result }
{
    let sum = sum_of_uses(alloc, document, earlier, step.uses.as_slice())?;
    if have_one_form(alloc, document.field, &document.gens, &step.element, &sum)? {
        return Ok(());
    }
    Err(Fault::Cause(CheckCause::Differs))
}

/// Law: the wanted element of a block that holds is in the ideal that the relations generate, in its arity.
pub fn held_blocks_are_members()
    ensures law { HeldBlocksAreMembers }
{}
