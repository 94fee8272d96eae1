ghost use Rattle.std.specs.Prelude.{◌≡◌, ◌<◌, ◌≤◌, ℕ, length, map, IfOk};
ghost use Rattle.labelled_trees.specs.Meaning.{tree_of};
ghost use Rattle.labelled_trees.specs.Trees.{graft};
ghost use Rattle.labelled_trees.specs.Leaves.{AllLeaves};
ghost use Rattle.labelled_trees.specs.Insertions.{put, item};
ghost use Rattle.shuffle_insertions.specs.ShuffleTrees.{IsShuffle};
ghost use Rattle.shuffle_insertions.specs.Frames as spec;

use crate::{Frame, STree, Shape};
use sqlite_items::Items;
use std::alloc::{AllocError, Global};

// The tree with an input in place of each leaf: the input at 0 for leaf 1, and so on.
fn with_inputs(alloc: Global, tree: &Shape, inputs: &[STree]) -> Result<Shape, AllocError>
    requires { AllLeaves (tree_of tree.now) (λ i. (0 < i) × (i ≤ length inputs.now)) }
    ensures grafted { IfOk result (λ made. tree_of made ≡ graft (tree_of tree.now) (item inputs.now)) }
{
    match tree {
        Shape::Leaf(number) => {
            let input = &inputs[*number as usize - 1];
            Ok(input.shape().copy(alloc)?)
        }
        Shape::Node(label, children) => {
            let mut made = Items::from_vec(Vec::with_capacity(alloc, children.len())?);
            for child in children.as_slice() {
                made.push(with_inputs(alloc, child, inputs)?)?;
            }
            Ok(Shape::Node(*label, made))
        }
    }
}

// The context with the tree, which has an input in place of each leaf, in place of leaf 0.
fn filled(
    alloc: Global,
    context: &Shape,
    tree: &Shape,
    inputs: &[STree],
) -> Result<Shape, AllocError>
    requires { AllLeaves (tree_of tree.now) (λ i. (0 < i) × (i ≤ length inputs.now)) }
    ensures filled { IfOk result (λ made. tree_of made ≡ put (tree_of context.now) (graft (tree_of tree.now) (item inputs.now))) }
{
    match context {
        Shape::Leaf(number) => {
            if *number == 0 {
                with_inputs(alloc, tree, inputs)
            } else {
                Ok(Shape::Leaf(*number))
            }
        }
        Shape::Node(label, children) => {
            let mut made = Items::from_vec(Vec::with_capacity(alloc, children.len())?);
            for child in children.as_slice() {
                made.push(filled(alloc, child, tree, inputs)?)?;
            }
            Ok(Shape::Node(*label, made))
        }
    }
}

/// The insertion of a tree into a frame: input `i` of the frame stands at leaf `i` of the tree, and the result in the hole.
/// The leaves of the tree carry 1 to the number of inputs, each once. `AllocError` comes for want of memory alone.
pub fn insert(alloc: Global, frame: &Frame, tree: &STree) -> Result<STree, AllocError>
    requires leaves { IsShuffle (length frame.now.inputs) tree.now }
    ensures inserted { IfOk result (λ made. made ≡ spec.insert frame.now tree.now) }
{
    let shape = filled(alloc, frame.context(), tree.shape(), frame.inputs())?;
    Ok(STree::from_valid(shape))
}
