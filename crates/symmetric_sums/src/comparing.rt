ghost use Rattle.std.specs.Prelude.{◌≡◌, ◌↔◌, IfOk, IsTrue};
ghost use Rattle.symmetric_trees.specs.Generators.{parts_at};
ghost use Rattle.symmetric_sums.specs.Terms.{FitsOver, terms_of};
ghost use Rattle.operad_ideals.specs.Collected.{HaveOneForm};

use crate::{Sum, Term, collected};
use prime_field::Field;
use std::alloc::{AllocError, Global};
use symmetric_trees::{GenTable, spelling_order};

/// Whether two sums have the same collected form. Their residues are of the field, and their trees fit the table.
/// `AllocError` comes for want of memory alone.
pub fn have_one_form(
    alloc: Global,
    field: Field,
    table: &GenTable,
    one: &Sum,
    other: &Sum,
) -> Result<bool, AllocError>
    requires one { FitsOver field table.now one.now }
    requires other { FitsOver field table.now other.now }
    ensures exact { IfOk result (λ same. IsTrue same ↔ HaveOneForm field (parts_at table.now) (terms_of one.now) (terms_of other.now)) }
{
    let form = collected(alloc, field, table, one)?;
    let against = collected(alloc, field, table, other)?;
    // Modulo a prime a sum has one collected form.
    let prime = field.prime();
    prove!(0 < prime);
    Ok(are_equal(form.terms(), against.terms()))
}

// Whether both have the same residues beside the same trees, in the same order.
fn are_equal(one: &[Term], other: &[Term]) -> bool
    ensures { IsTrue result ↔ (terms_of one.now ≡ terms_of other.now) }
{
    if one.len() != other.len() {
        return false;
    }
    for at in 0..one.len() {
        let term = &one[at];
        let against = &other[at];
        if term.coef != against.coef {
            return false;
        }
        if spelling_order(&term.tree, &against.tree).is_ne() {
            return false;
        }
    }
    true
}
