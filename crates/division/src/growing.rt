ghost use Rattle.std.specs.Prelude.{◌≡◌, ◌<◌, ℕ, List, length, OnOk, OnErr};
ghost use Rattle.modular_sums.specs.RuleTables.{IsRuleTail};
ghost use Rattle.row_sweeps.specs.Terms.{pairs};
ghost use Rattle.division.specs.Cones.{IsCone};
ghost use Rattle.division.specs.Growing.{GrowsByElement};

use crate::Cone;
use row_sweeps::Term;
use std::alloc::{AllocError, Global};

/// Gives a position of the cone the rule of a new element, whose tail has these terms. `AllocError` comes for want of memory alone; the
/// rules are as before then.
pub fn add_element(
    alloc: Global,
    cone: &mut Cone,
    position: usize,
    tail: &[Term],
) -> Result<(), AllocError>
    requires cone { (given : List ℕ) × IsCone given cone.old }
    requires position { position < length cone.old.ids }
    requires tail { IsRuleTail cone.old.table.q position (pairs tail.now) }
    ensures grown { OnOk result (GrowsByElement cone.old cone.new position (pairs tail.now)) }
    ensures cone { (given : List ℕ) → IsCone given cone.old → IsCone given cone.new }
    ensures unchanged { OnErr result (cone.new.table.rules ≡ cone.old.table.rules) }
{
    cone.table.add_terms(alloc, position, tail)?;
    Ok(())
}
