ghost use Rattle.std.specs.Prelude.{◌≡◌, ◌≤◌, ℕ, IfOk, map};
ghost use Rattle.labelled_trees.specs.Trees.{node, row};
ghost use Rattle.labelled_trees.specs.Leaves.{occurs};
ghost use Rattle.labelled_trees.specs.Meaning.{tree_of};
ghost use Rattle.operad_ideals.specs.Sorting as plain;
ghost use Rattle.shuffle_insertions.specs.ShuffleTrees.{IsShuffleTree, least_row};
ghost use Rattle.shuffle_transfer.specs.Labels.{inputs_of, shuffle_form};
ghost use Rattle.symmetric_trees.specs.Generators.{parts_at, generators_of};
ghost use Rattle.symmetric_trees.specs.Spelling.{meaning_of};
ghost use Rattle.symmetric_trees.specs.Trees.{Fits, IsLabelled};
ghost use Rattle.shuffle_passage.specs.WordTables.{words_from};
ghost use Rattle.shuffle_passage.specs.Passage.{IsFormOf, OneShuffleForm};
ghost use Rattle.shuffle_passage.specs.Branches.{forms_of};

use crate::branch::Branch;
use crate::words::{Words, word_number, words_of};
use shuffle_trees::{STree, Shape};
use sqlite_items::Items;
use std::alloc::{AllocError, Global};
use symmetric_trees::{GenTable, Sign, Tree, sort_parts};

// The least leaf of the first branch; 0 where there is none.
fn first_least(branches: &[Branch]) -> u8
    ensures { result ≡ least_row (row (forms_of branches.now)) }
{
    match branches {
        [first, ..] => first.least,
        [] => 0,
    }
}

// The vertex over the branches, of which the first has the least leaf.
fn vertex(alloc: Global, label: u16, branches: Vec<Branch>) -> Result<Branch, AllocError>
    ensures { IfOk result (λ branch. tree_of branch.tree ≡ node label (row (forms_of branches.items))) }
{
    let least = first_least(branches.as_slice());
    let mut inputs = Items::from_vec(Vec::with_capacity(alloc, branches.len())?);
    for branch in branches {
        inputs.push(branch.tree)?;
    }
    Ok(Branch {
        least,
        tree: Shape::Node(label, inputs),
    })
}

// The sign of the sorted spelling and the shuffle form, from the leaves up.
fn form(
    alloc: Global,
    table: &GenTable,
    words: &[Words],
    tree: &Tree,
) -> Result<(Sign, Branch), AllocError>
    requires words { words.now ≡ words_from 0 table.now }
    requires fits { Fits table.now (tree_of tree.now) }
    requires once { (i : ℕ) → occurs i (tree_of tree.now) ≤ 1 }
    ensures sign { IfOk result (λ found. meaning_of found.0 ≡ plain.spelled_sign (parts_at table.now) (tree_of tree.now)) }
    ensures tree { IfOk result (λ found. tree_of found.1.tree ≡ shuffle_form (generators_of table.now) (tree_of tree.now)) }
{
    match tree {
        Tree::Leaf(number) => {
            let branch = Branch {
                least: *number,
                tree: Shape::Leaf(*number),
            };
            Ok((Sign::Plus, branch))
        }
        Tree::Node(generator, inputs) => {
            let mut sign = Sign::Plus;
            let mut word = Vec::with_capacity(alloc, inputs.len())?;
            let mut branches = Vec::with_capacity(alloc, inputs.len())?;
            for input in inputs.as_slice() {
                let (turn, branch) = form(alloc, table, words, input)?;
                sign = sign.times(turn);
                word.push(branch.least)?;
                branches.push(branch)?;
            }
            let parts = table.get(*generator).parts.as_slice();
            sign = sign.times(sort_parts(parts, word.as_mut_slice()));
            let own = &words[*generator as usize];
            let label = own.first + word_number(own.bounds.as_slice(), 0, word.as_slice());
            branches.sort_unstable_by_key(|branch| branch.least);
            Ok((sign, vertex(alloc, label, branches)?))
        }
    }
}

/// The shuffle form of a tree: at each vertex the inputs stand in ascending order of their least leaves, and the label tells
/// the generator and in which order they stood in the sorted spelling. The sign is that of the sorted spelling.
/// The tree fits the table and carries 1 to `n`, each once: `arity_of` isn't `None`.
/// `AllocError` comes for want of memory alone.
pub fn to_shuffle(alloc: Global, table: &GenTable, tree: &Tree) -> Result<(Sign, STree), AllocError>
    requires labelled { (n : ℕ) × IsLabelled table.now n (tree_of tree.now) }
    ensures form { IfOk result (λ found. IsFormOf table.now (tree_of tree.now) found.0 found.1) }
    ensures own { IfOk result (λ found. found.1 ≡ shuffle_form (generators_of table.now) (tree_of tree.now)) }
    ensures sign { IfOk result (λ found. meaning_of found.0 ≡ plain.spelled_sign (parts_at table.now) (tree_of tree.now)) }
    ensures shuffle { (n : ℕ) → IsLabelled table.now n (tree_of tree.now) → IfOk result (λ found. IsShuffleTree (inputs_of (generators_of table.now)) n found.1) }
{
    let words = words_of(alloc, table)?;
    let (sign, branch) = form(alloc, table, words.as_slice(), tree)?;
    let Branch { least: _, tree } = branch;
    let Some(shuffle) = STree::of(tree) else {
        unreachable!();
    };
    Ok((sign, shuffle))
}

/// Law: a labelled tree has one shuffle form, with one sign.
pub fn one_shuffle_form()
    ensures law { OneShuffleForm }
{}
