ghost use Rattle.std.specs.Prelude.{◌≡◌, ◌<◌, ℕ, IfOk, OnOk, length, map};
ghost use Rattle.std.specs.List.{All};
ghost use Rattle.labelled_trees.specs.Meaning.{tree_of};
ghost use Rattle.labelled_trees.specs.Trees.{leaf};
ghost use Rattle.shuffle_transfer.specs.Orderings.{IsOrdering};
ghost use Rattle.shuffle_transfer.specs.Transfer as math;
ghost use Rattle.symmetric_trees.specs.Generators.{parts_at};
ghost use Rattle.symmetric_trees.specs.Trees.{IsLabelled};
ghost use Rattle.operad_ideals.specs.Collected.{IsCollected};
ghost use Rattle.symmetric_sums.specs.Terms.{FitsOver, HaveArity, HaveResidues, terms_of};
ghost use Rattle.shuffle_passage.specs.RelabelledSums.{IsPermutationFor, RenamedTo};

use prime_field::Field;
use sqlite_items::Items;
use std::alloc::{AllocError, Global};
use symmetric_sums::{Sum, SumFail, Term, collected};
use symmetric_trees::{GenTable, Tree, graft};

// A leaf for each number.
fn leaves_of(alloc: Global, numbers: &[u8]) -> Result<Items<Tree>, AllocError>
    ensures { IfOk result (λ leaves. map tree_of leaves ≡ map leaf numbers.now) }
{
    let mut leaves = Items::new(alloc);
    for number in numbers {
        leaves.push(Tree::Leaf(*number))?;
    }
    Ok(leaves)
}

// Puts the term, with a leaf of the list in place of each leaf, behind those of the sum.
fn push_renamed(
    alloc: Global,
    field: Field,
    table: &GenTable,
    term: &Term,
    arity: u8,
    leaves: &[Tree],
    sum: &mut Sum,
) -> Result<(), AllocError>
    requires nonzero { 0 < term.now.coef }
    requires residue { term.now.coef < field }
    requires labelled { IsLabelled table.now arity (tree_of term.now.tree) }
    requires ordering { (v : _) × (map tree_of leaves.now ≡ map leaf v) × IsOrdering arity v }
    requires arity { HaveArity arity sum.old }
    ensures { OnOk result (RenamedTo table.now arity (map tree_of leaves.now) term.now sum.old sum.new) }
{
    let tree = graft(alloc, &term.tree, leaves)?;
    match sum.add_term(alloc, field, table, term.coef, tree) {
        Ok(()) => Ok(()),
        Err(SumFail::NoMemory) => Err(AllocError),
        Err(SumFail::ArityDiffers) => unreachable!(),
    }
}

// The sum in which leaf `i` became entry `i` of the permutation of 1 to the arity.
fn renamed(
    alloc: Global,
    field: Field,
    table: &GenTable,
    rel: &Sum,
    arity: u8,
    permutation: &[u8],
) -> Result<Sum, AllocError>
    requires fits { FitsOver field table.now rel.now }
    requires arity { HaveArity arity rel.now }
    requires ordering { IsOrdering arity permutation.now }
    ensures terms { IfOk result (λ sum. terms_of sum ≡ math.relabelled permutation.now (terms_of rel.now)) }
    ensures fits { IfOk result (FitsOver field table.now) }
    ensures arity { IfOk result (HaveArity arity) }
{
    let leaves = leaves_of(alloc, permutation)?;
    let mut sum = Sum::new(alloc);
    for term in rel.terms() {
        push_renamed(
            alloc,
            field,
            table,
            term,
            arity,
            leaves.as_slice(),
            &mut sum,
        )?;
    }
    Ok(sum)
}

/// The collected relation in which leaf `i` became entry `i` of the permutation. The relation fits the field and the table,
/// and the permutation is one of 1 to its arity, or the relation has no terms. `AllocError` comes for want of memory alone.
pub fn relabelled(
    alloc: Global,
    field: Field,
    table: &GenTable,
    rel: &Sum,
    permutation: &[u8],
) -> Result<Sum, AllocError>
    requires fits { FitsOver field table.now rel.now }
    requires permutation { IsPermutationFor rel.now permutation.now }
    ensures collected { IfOk result (λ sum. IsCollected field (parts_at table.now) (math.relabelled permutation.now (terms_of rel.now)) (terms_of sum)) }
    ensures residues { IfOk result (HaveResidues field) }
    ensures labelled { (n : ℕ) → HaveArity n rel.now → 0 < length rel.now → IfOk result (All (λ term. IsLabelled table.now n (tree_of term.tree))) }
{
    let Some(arity) = rel.arity() else {
        return Ok(Sum::new(alloc));
    };
    let sum = renamed(alloc, field, table, rel, arity, permutation)?;
    collected(alloc, field, table, &sum)
}
