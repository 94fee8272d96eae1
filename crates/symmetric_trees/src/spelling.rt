ghost use Rattle.std.specs.Prelude.{◌≡◌, ◌<◌, ◌≤◌, ℕ, IfOk, length};
ghost use Rattle.labelled_trees.specs.Meaning.{tree_of};
ghost use Rattle.labelled_trees.specs.Leaves.{occurs};
ghost use Rattle.operad_ideals.specs.Parts as math;
ghost use Rattle.operad_ideals.specs.Sorting as plain;
ghost use Rattle.symmetric_trees.specs.Generators.{parts_at};
ghost use Rattle.symmetric_trees.specs.Trees as trees;
ghost use Rattle.symmetric_trees.specs.Spelling as spec;

use crate::GenTable;
use crate::branch::Branch;
use crate::parts::sort_parts;
use labelled_trees::Tree;
use sqlite_items::Items;
use std::alloc::{AllocError, Global};

/// The sign with which a tree agrees with its sorted spelling.
#[derive(Clone, Copy, Debug, PartialEq, Eq)]
pub enum Sign {
    /// The tree equals its sorted spelling.
    Plus,
    /// The tree equals the negative of its sorted spelling.
    Minus,
}

impl Sign {
    /// The product of two signs: `Minus` where they differ.
    pub fn times(self, other: Sign) -> Sign
        ensures product { spec.meaning_of result ≡ math.times (spec.meaning_of self) (spec.meaning_of other) }
    {
        match self {
            Sign::Plus => other,
            Sign::Minus => match other {
                Sign::Plus => Sign::Minus,
                Sign::Minus => Sign::Plus,
            },
        }
    }

    // The sign of so many changes of sign.
    pub(crate) fn of_count(count: usize) -> Sign
        ensures { spec.meaning_of result ≡ math.sign_of count }
    {
        if count % 2 == 1 {
            Sign::Minus
        } else {
            Sign::Plus
        }
    }
}

// The vertex over the branches.
fn vertex(alloc: Global, generator: u16, branches: Vec<Branch>) -> Result<Branch, AllocError>
    requires { 0 < length branches.items }
    ensures { IfOk result (λ branch. tree_of branch.tree ≡ spec.vertex_of generator (spec.trees_of branches.items)) }
{
    let mut least = u8::MAX;
    let mut inputs = Items::from_vec(Vec::with_capacity(alloc, branches.len())?);
    for branch in branches {
        least = least.min(branch.least);
        inputs.push(branch.tree)?;
    }
    Ok(Branch {
        least,
        tree: Tree::Node(generator, inputs),
    })
}

// The sorted spelling with its sign, from the leaves up.
fn spell(alloc: Global, table: &GenTable, tree: &Tree) -> Result<(Sign, Branch), AllocError>
    requires fits { trees.Fits table.now (tree_of tree.now) }
    requires once { (i : ℕ) → occurs i (tree_of tree.now) ≤ 1 }
    ensures sign { IfOk result (λ found. spec.meaning_of found.0 ≡ plain.spelled_sign (parts_at table.now) (tree_of tree.now)) }
    ensures tree { IfOk result (λ found. tree_of found.1.tree ≡ plain.spelled (parts_at table.now) (tree_of tree.now)) }
{
    match tree {
        Tree::Leaf(number) => {
            let branch = Branch {
                least: *number,
                tree: Tree::Leaf(*number),
            };
            Ok((Sign::Plus, branch))
        }
        Tree::Node(generator, inputs) => {
            let mut sign = Sign::Plus;
            let mut branches = Vec::with_capacity(alloc, inputs.len())?;
            for input in inputs.as_slice() {
                let (turn, branch) = spell(alloc, table, input)?;
                sign = sign.times(turn);
                branches.push(branch)?;
            }
            let moved = sort_parts(
                table.get(*generator).parts.as_slice(),
                branches.as_mut_slice(),
            );
            Ok((sign.times(moved), vertex(alloc, *generator, branches)?))
        }
    }
}

/// The sorted spelling of a tree and its sign: at each vertex the inputs of each symmetric or skew part stand in
/// ascending order of their least leaves, in the places of that part; each skew part whose inputs were moved by an odd
/// permutation turns the sign round. The tree fits the table and carries 1 to `n`, each once: `arity_of` isn't `None`.
/// `AllocError` comes for want of memory alone.
pub fn spelled(alloc: Global, table: &GenTable, tree: &Tree) -> Result<(Sign, Tree), AllocError>
    requires labelled { (n : ℕ) × trees.IsLabelled table.now n (tree_of tree.now) }
    ensures spelling { IfOk result (λ found. spec.IsSpelling table.now (tree_of tree.now) found.0 (tree_of found.1)) }
    ensures only { IfOk result (λ found. spec.IsOnlySpelling table.now (tree_of tree.now) found.0 (tree_of found.1)) }
{
    let (sign, branch) = spell(alloc, table, tree)?;
    let Branch { least: _, tree } = branch;
    Ok((sign, tree))
}
