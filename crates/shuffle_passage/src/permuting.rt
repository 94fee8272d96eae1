ghost use Rattle.std.specs.Prelude.{◌≡◌, ◌<◌, [], ℕ, IfOk, length, map};
ghost use Rattle.std.specs.List.{All};
ghost use Rattle.shuffle_insertions.specs.Listing.{upto};
ghost use Rattle.shuffle_transfer.specs.Orderings.{orderings};
ghost use Rattle.symmetric_sums.specs.Terms.{FitsOver, HaveArity};
ghost use Rattle.shuffle_passage.specs.RelabelledSums.{IsRelabelledSum};

use crate::relabelling::relabelled;
use itertools::Itertools;
use prime_field::Field;
use sqlite_items::Items;
use std::alloc::{AllocError, Global};
use symmetric_sums::Sum;
use symmetric_trees::GenTable;

/// A relation, relabelled: leaf `i` became entry `i` of the permutation, and the sum is the collected form.
#[derive(Drop)]
pub struct Relabelled {
    pub permutation: Items<u8>,
    pub sum: Sum,
}

// The numbers from 1 to n.
fn numbers_to(alloc: Global, n: u8) -> Result<Items<u8>, AllocError>
    ensures { IfOk result (λ numbers. numbers ≡ upto n) }
{
    let mut numbers = Items::new(alloc);
    for below in 0..n {
        numbers.push(below + 1)?;
    }
    Ok(numbers)
}

/// The relation relabelled by each permutation of 1 to its arity, in lexicographic order, each once; none where it has
/// no terms. The relation fits the field and the table. `AllocError` comes for want of memory alone.
pub fn relabellings(
    alloc: Global,
    field: Field,
    table: &GenTable,
    rel: &Sum,
) -> Result<Items<Relabelled>, AllocError>
    requires fits { FitsOver field table.now rel.now }
    ensures none { rel.now ≡ [] → IfOk result (λ found. found ≡ []) }
    ensures permutations { (n : ℕ) → 0 < length rel.now → HaveArity n rel.now → IfOk result (λ found. map (λ answer. answer.permutation) found ≡ orderings n) }
    ensures sums { IfOk result (All (λ answer. IsRelabelledSum field table.now rel.now answer.permutation answer.sum)) }
{
    let mut found = Items::new(alloc);
    let Some(arity) = rel.arity() else {
        return Ok(found);
    };
    let numbers = numbers_to(alloc, arity)?;
    let all = numbers.as_slice().iter().copied();
    for permutation in all.permutations(alloc, arity as usize)? {
        let permutation = permutation?;
        let sum = relabelled(alloc, field, table, rel, permutation.as_slice())?;
        found.push(Relabelled {
            permutation: Items::from_vec(permutation),
            sum,
        })?;
    }
    Ok(found)
}
