ghost use Rattle.std.specs.Prelude.{◌≡◌, ◌≤◌, ◌<◌, IfOk, length, map};
ghost use Rattle.labelled_trees.specs.Meaning.{tree_of};
ghost use Rattle.labelled_trees.specs.Leaves.{AllLeaves};
ghost use Rattle.labelled_trees.specs.Trees as math;
ghost use Rattle.labelled_trees.specs.Insertions.{item};
ghost use Rattle.operad_ideals.specs.Ideals.{placed};

use labelled_trees::Tree;
use sqlite_items::Items;
use std::alloc::{AllocError, Global};

/// The tree with input `i` in place of each leaf `i`, counted from 1. Each leaf number of the tree is from 1 to
/// `inputs.len()`. `AllocError` comes for want of memory alone.
pub fn graft(alloc: Global, tree: &Tree, inputs: &[Tree]) -> Result<Tree, AllocError>
    requires numbers { AllLeaves (tree_of tree.now) (λ i. (0 < i) × (i ≤ length inputs.now)) }
    ensures grafted { IfOk result (λ grown. tree_of grown ≡ math.graft (tree_of tree.now) (item (map tree_of inputs.now))) }
{
    match tree {
        Tree::Leaf(number) => inputs[*number as usize - 1].copy(alloc),
        Tree::Node(generator, below) => {
            let mut grown = Items::from_vec(Vec::with_capacity(alloc, below.len())?);
            for branch in below.as_slice() {
                grown.push(graft(alloc, branch, inputs)?)?;
            }
            Ok(Tree::Node(*generator, grown))
        }
    }
}

/// The context with the tree, on which the inputs are grafted, in place of each leaf 0; its other leaves stay.
/// Each leaf number of the tree is from 1 to `inputs.len()`. `AllocError` comes for want of memory alone.
pub fn fill(alloc: Global, context: &Tree, tree: &Tree, inputs: &[Tree]) -> Result<Tree, AllocError>
    requires numbers { AllLeaves (tree_of tree.now) (λ i. (0 < i) × (i ≤ length inputs.now)) }
    ensures filled { IfOk result (λ filled. tree_of filled ≡ placed (tree_of context.now) (map tree_of inputs.now) (tree_of tree.now)) }
{
    match context {
        Tree::Leaf(0) => graft(alloc, tree, inputs),
        Tree::Leaf(number) => Ok(Tree::Leaf(*number)),
        Tree::Node(generator, below) => {
            let mut filled = Items::from_vec(Vec::with_capacity(alloc, below.len())?);
            for branch in below.as_slice() {
                filled.push(fill(alloc, branch, tree, inputs)?)?;
            }
            Ok(Tree::Node(*generator, filled))
        }
    }
}
