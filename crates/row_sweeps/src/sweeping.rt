ghost use Rattle.std.specs.Prelude.{◌≡◌, ◌<◌, ◌≤◌, ◌^◌, ℕ, length, slice_index, IfOk, IfErr, OnOk, Err};
ghost use Rattle.modular_sums.specs.PositionRows.{dense};
ghost use Rattle.row_sweeps.specs.Terms.{pairs};
ghost use Rattle.row_sweeps.specs.Sweeps.{HasSwept, IsSweepRefusal, IsSweepCleared};

use crate::gathering::gather;
use crate::visiting::visit;
use crate::{RuleTable, Steps, Term};
use std::alloc::{AllocError, Global};

/// Why a row isn't swept.
#[derive(Drop)]
pub enum SweepFail {
    /// The count stands at the bound, and a position of this sum, which is what was left of the row, has a rule.
    Spent { row: Vec<Term> },
    /// Memory has run out; the row may be anything then.
    NoMemory,
}

impl From<AllocError> for SweepFail {
    ghost use Rattle.row_sweeps.specs.declared.sweeping.SweepFail.TheVariants.{NoMemory};
    ghost use Rattle.std.specs.Prelude.{◌≡◌};

    ghost from_gives = { λ _ fail. fail ≡ NoMemory };

    fn from(_refused: AllocError) -> SweepFail {
        SweepFail::NoMemory
    }
}

/// Cancels what can be cancelled in a row, the greatest position first, and answers the rest, falling. The row has a number
/// below 2^63 for each position of the table, and is 0 from `end` on, which is at most its length. Each step is counted, and
/// logged behind the others where `keep` is true. The row is 0 afterwards, so that it serves again, unless memory ran out.
/// `Spent` comes exactly where a step would pass the bound: with what the row is then, falling. `NoMemory` comes for want of
/// memory alone.
pub fn sweep(
    alloc: Global,
    table: &RuleTable,
    row: &mut [u64],
    end: usize,
    steps: &mut Steps,
    log: &mut Vec<Term>,
    keep: bool,
) -> Result<Vec<Term>, SweepFail>
    requires sized { length row.old ≡ length table.now.rules }
    requires end { end ≤ length row.old }
    requires zeros { (t : ℕ) → end ≤ t → slice_index row.old t ≡ 0 }
    requires small { (t : ℕ) → slice_index row.old t < 2 ^ 63 }
    ensures swept { IfOk result (λ rest. HasSwept table.now.q table.now.rules (dense row.old) (pairs rest.items) steps.old steps.new keep (pairs log.old.items) (pairs log.new.items)) }
    ensures refused { IfErr result (IsSweepRefusal table.now.q table.now.rules (dense row.old) steps.old steps.new keep (pairs log.old.items) (pairs log.new.items)) }
    ensures cleared { IsSweepCleared result row.new }
    ensures bound { steps.new.bound ≡ steps.old.bound }
{
    let prime = table.prime();
    let _ = table.len();
    let mut rest = Vec::new(alloc);
    let mut at = end;
    while at > 0 {
        at -= 1;
        if !visit(table, row, at, &mut rest, steps, log, keep)? {
            let row = gather(prime, row, at + 1, rest)?;
            return Err(SweepFail::Spent { row });
        }
    }
    Ok(rest)
}
