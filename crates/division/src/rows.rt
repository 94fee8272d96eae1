ghost use Rattle.std.specs.Prelude.{◌≡◌, ◌<◌, ◌≤◌, ◌-◌, ◌^◌, ℕ, List, length, slice_index, IfOk, IfErr};
ghost use native.Mathlib.Decide.{ℕ_discrete};
ghost use Rattle.modular_sums.specs.Sums.{AllTerms, coef, moved};
ghost use Rattle.shuffle_sums.specs.Sums.{pairs as ids_of};
ghost use Rattle.row_sweeps.specs.Terms.{pairs};
ghost use Rattle.division.specs.Cones.{IsCone};
ghost use Rattle.division.specs.Rows.{id_at, IsInCone, IsRowCleared, IsRowRefusal, IsRest, IsRestAt, IsSumAtPlaces};

use crate::Cone;
use row_sweeps::{Steps, SweepFail, Term, sweep};
use shuffle_sums::Term as IdTerm;
use sqlite_items::Items;
use std::alloc::{AllocError, Global};

/// Why a row isn't reduced.
#[derive(Drop)]
pub enum RowFail {
    /// The count stands at the bound, and a tree of this row has a rule.
    Spent { row: Items<IdTerm> },
    /// Memory has run out.
    NoMemory,
}

impl From<AllocError> for RowFail {
    ghost use Rattle.division.specs.declared.rows.RowFail.TheVariants.{NoMemory};
    ghost use Rattle.std.specs.Prelude.{◌≡◌};

    ghost from_gives = { λ _ fail. fail ≡ NoMemory };

    fn from(_refused: AllocError) -> RowFail {
        RowFail::NoMemory
    }
}

// The position of an id that has a place.
fn position_of(cone: &Cone, term: IdTerm) -> Term
    requires cone { (given : List ℕ) × IsCone given cone.now }
    requires there { IsInCone cone.now term.tree }
    ensures id { id_at cone.now result.position ≡ term.tree }
    ensures within { result.position < length cone.now.ids }
    ensures coef { result.coef ≡ term.coef }
{
    let place = match cone.places.as_slice()[term.tree.index()] {
        Some(place) => place,
        None => unreachable!(),
    };
    let ranks = cone.ranks.as_slice();
    let position = ranks[place as usize];
    Term {
        coef: term.coef,
        position,
    }
}

// The id of a position.
fn id_of(cone: &Cone, term: Term) -> IdTerm
    requires cone { (given : List ℕ) × IsCone given cone.now }
    requires within { term.position < length cone.now.ids }
    ensures tree { result.tree ≡ id_at cone.now term.position }
    ensures coef { result.coef ≡ term.coef }
{
    let order = cone.order.as_slice();
    let place = order[term.position as usize];
    let ids = cone.ids.as_slice();
    let tree = ids[place];
    IdTerm {
        coef: term.coef,
        tree,
    }
}

// The terms at the positions of their ids.
fn place_terms(alloc: Global, cone: &Cone, terms: &[IdTerm]) -> Result<Vec<Term>, AllocError>
    requires cone { (given : List ℕ) × IsCone given cone.now }
    requires there { AllTerms (ids_of terms.now) (IsInCone cone.now) }
    ensures placed { IfOk result (λ placed. IsSumAtPlaces cone.now (ids_of terms.now) (pairs placed.items)) }
{
    let mut placed = Vec::with_capacity(alloc, terms.len())?;
    for term in terms {
        placed.push(position_of(cone, *term))?;
    }
    Ok(placed)
}

// The terms with the ids of their positions.
fn lift_terms(alloc: Global, cone: &Cone, placed: &[Term]) -> Result<Items<IdTerm>, AllocError>
    requires cone { (given : List ℕ) × IsCone given cone.now }
    requires within { AllTerms (pairs placed.now) (λ t. t < length cone.now.ids) }
    ensures lifted { IfOk result (λ terms. ids_of terms ≡ moved (id_at cone.now) (pairs placed.now)) }
{
    let mut terms = Items::new(alloc);
    for term in placed {
        terms.push(id_of(cone, *term))?;
    }
    Ok(terms)
}

// The residue as a number of a row.
fn widened(coef: u32) -> u64
    ensures value { result ≡ coef }
    ensures small { result < 2 ^ 32 }
{
    u64::from(coef)
}

// Puts the terms into a row of zeros.
fn fill_row(placed: &[Term], row: &mut [u64])
    requires zeros { (t : ℕ) → slice_index row.old t ≡ 0 }
    requires within { AllTerms (pairs placed.now) (λ t. t < length row.old) }
    requires few { length placed.now ≤ 2 ^ 30 }
    ensures filled { (t : ℕ) → slice_index row.new t ≡ coef ℕ_discrete (pairs placed.now) t }
    ensures small { (t : ℕ) → slice_index row.new t < 2 ^ 63 }
{
    for term in placed {
        let Term { coef, position } = *term;
        row[position as usize] += widened(coef);
    }
}

/// The rest, at positions, of a sum of ids that have places in the cone, by a row of zeros with an entry for each position, which is
/// 0 afterwards unless memory runs out. Steps are counted, and logged behind the others where `keep` is true: a residue and the
/// position of the host. `Spent` comes where a step would pass the bound, with what the row is then, `NoMemory` for want of
/// memory alone.
pub fn sweep_row(
    alloc: Global,
    cone: &Cone,
    terms: &[IdTerm],
    row: &mut [u64],
    steps: &mut Steps,
    log: &mut Vec<Term>,
    keep: bool,
) -> Result<Vec<Term>, RowFail>
    requires cone { (given : List ℕ) × IsCone given cone.now }
    requires there { AllTerms (ids_of terms.now) (IsInCone cone.now) }
    requires few { length terms.now ≤ 2 ^ 30 }
    requires sized { length row.old ≡ length cone.now.table.rules }
    requires zeros { (t : ℕ) → slice_index row.old t ≡ 0 }
    ensures rest { IfOk result (λ rest. IsRestAt (ids_of terms.now) cone.now steps.old steps.new keep (pairs log.old.items) (pairs log.new.items) (pairs rest.items)) }
    ensures refused { IfErr result (IsRowRefusal (ids_of terms.now) cone.now steps.old steps.new keep (pairs log.old.items) (pairs log.new.items)) }
    ensures cleared { IsRowCleared result row.new }
    ensures bound { steps.new.bound ≡ steps.old.bound }
{
    let placed = place_terms(alloc, cone, terms)?;
    fill_row(placed.as_slice(), row);
    let end = row.len();
    match sweep(alloc, &cone.table, row, end, steps, log, keep) {
        Ok(rest) => Ok(rest),
        Err(SweepFail::Spent { row }) => Err(RowFail::Spent {
            row: lift_terms(alloc, cone, row.as_slice())?,
        }),
        Err(SweepFail::NoMemory) => Err(RowFail::NoMemory),
    }
}

/// The rest, as a sum of ids, of a sum of ids that have places in the cone: what `sweep_row` has at positions, with its errors.
pub fn reduce_row(
    alloc: Global,
    cone: &Cone,
    terms: &[IdTerm],
    row: &mut [u64],
    steps: &mut Steps,
    log: &mut Vec<Term>,
    keep: bool,
) -> Result<Items<IdTerm>, RowFail>
    requires cone { (given : List ℕ) × IsCone given cone.now }
    requires there { AllTerms (ids_of terms.now) (IsInCone cone.now) }
    requires few { length terms.now ≤ 2 ^ 30 }
    requires sized { length row.old ≡ length cone.now.table.rules }
    requires zeros { (t : ℕ) → slice_index row.old t ≡ 0 }
    ensures rest { IfOk result (IsRest (ids_of terms.now) cone.now steps.old steps.new keep (pairs log.old.items) (pairs log.new.items)) }
    ensures refused { IfErr result (IsRowRefusal (ids_of terms.now) cone.now steps.old steps.new keep (pairs log.old.items) (pairs log.new.items)) }
    ensures cleared { IsRowCleared result row.new }
    ensures bound { steps.new.bound ≡ steps.old.bound }
{
    let rest = sweep_row(alloc, cone, terms, row, steps, log, keep)?;
    Ok(lift_terms(alloc, cone, rest.as_slice())?)
}
