ghost use Rattle.std.specs.Prelude.{◌≡◌, ◌<◌, IfOk};
ghost use Rattle.std.specs.List.{All};
ghost use Rattle.symmetric_sums.specs.Terms.{FitsOver, HaveArity};
ghost use Rattle.certificate_check.specs.Blocks.{AreCheckable, elements_of};
ghost use Rattle.certificate_check.specs.Checking.{AreUsed, IsUsed};

use crate::CheckCause;
use certificate_text::Step;
use presentation_text::Document;
use std::alloc::{AllocError, Global};
use symmetric_sums::{ExpandFail, Expanded, Instance, Rule, Sum, expand_around, expand_with_arity};

// Why the check of a step ends early.
pub(crate) enum Fault {
    Cause(CheckCause),
    NoMemory,
}

impl From<AllocError> for Fault {
    ghost use Rattle.certificate_check.specs.declared.uses.Fault.TheVariants.{NoMemory};
    ghost use Rattle.std.specs.Prelude.{◌≡◌};

    ghost from_gives = { λ _ fault. fault ≡ NoMemory };

    fn from(_refused: AllocError) -> Fault {
        Fault::NoMemory
    }
}

impl From<ExpandFail> for Fault {
    ghost use Rattle.certificate_check.specs.Checking.{fault_of};
    ghost use Rattle.std.specs.Prelude.{◌≡◌};

    ghost from_gives = { λ fail fault. fault ≡ fault_of fail };

    fn from(fail: ExpandFail) -> Fault {
        match fail {
            ExpandFail::Unfit => Fault::Cause(CheckCause::UseUnfit),
            ExpandFail::NoMemory => Fault::NoMemory,
        }
    }
}

// The sum of the uses of a step, up to the first bad one.
pub(crate) fn sum_of_uses(
    alloc: Global,
    document: &Document,
    earlier: &[Step],
    uses: &[Instance],
) -> Result<Sum, Fault>
    requires rels { All (FitsOver document.now.field document.now.gens) document.now.rels }
    requires steps { AreCheckable document.now.field document.now.gens earlier.now }
    requires coefs { All (λ item. item.coef < document.now.field) uses.now }
    ensures used { AreUsed document.now.field document.now.gens document.now.rels (elements_of earlier.now) uses.now result }
    ensures fits { IfOk result (FitsOver document.now.field document.now.gens) }
{
    let mut sum = Sum::new(alloc);
    let mut arity = None;
    for item in uses {
        let expanded = expand_use(alloc, document, earlier, item)?;
        if let Some(others) = arity {
            if others != expanded.arity {
                return Err(Fault::Cause(CheckCause::UseUnfit));
            }
        }
        arity = Some(expanded.arity);
        sum = sum.followed_by(expanded.sum)?;
    }
    Ok(sum)
}

// The element of one use. An earlier step lends its element.
fn expand_use(
    alloc: Global,
    document: &Document,
    earlier: &[Step],
    item: &Instance,
) -> Result<Expanded, Fault>
    requires rels { All (FitsOver document.now.field document.now.gens) document.now.rels }
    requires steps { AreCheckable document.now.field document.now.gens earlier.now }
    requires coef { item.now.coef < document.now.field }
    ensures used { IsUsed document.now.field document.now.gens document.now.rels (elements_of earlier.now) item.now result }
    ensures fits { IfOk result (λ expanded. FitsOver document.now.field document.now.gens expanded.sum) }
    ensures arity { IfOk result (λ expanded. HaveArity expanded.arity expanded.sum) }
{
    let field = document.field;
    let gens = &document.gens;
    match item.rule {
        Rule::Rel(_) => Ok(expand_with_arity(
            alloc,
            field,
            gens,
            document.rels.as_slice(),
            &[],
            item,
        )?),
        Rule::Swap {
            generator: _,
            at: _,
        } => Err(Fault::Cause(CheckCause::UseUnfit)),
        Rule::Step(number) => {
            if number == 0 {
                return Err(Fault::Cause(CheckCause::Ahead));
            }
            let before = number as usize - 1;
            if before >= earlier.len() {
                return Err(Fault::Cause(CheckCause::Ahead));
            }
            Ok(expand_around(alloc, field, gens, &earlier[before].element, item)?)
        }
    }
}
