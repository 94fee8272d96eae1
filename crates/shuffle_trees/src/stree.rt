ghost use Rattle.std.specs.Prelude.{ℕ, ◌≤◌, ◌≡◌, ◌↔◌, ◌<◌, ◌^◌, IfOk, IfSome, IfNone, IsTrue};
ghost use Rattle.labelled_trees.specs.Trees.{vertices};
ghost use Rattle.labelled_trees.specs.Leaves.{AllLeaves, leaf_count};
ghost use Rattle.shuffle_insertions.specs.ShuffleTrees.{least, IsShuffle};
ghost use Rattle.labelled_trees.specs.Meaning.{tree_of};
ghost use Rattle.shuffle_trees.specs.ValidTrees.{IsValid};

use crate::Shape;
use crate::checks::{count_once, least_leaf};
use std::alloc::{AllocError, Global};
use std::marker::Model;

/// A shuffle tree: a planar tree with a label at each vertex and a number at each leaf. No leaf number is 0 or stands twice,
/// each vertex has two or more inputs, and these stand in ascending order of their least leaf numbers.
#[derive(Drop)]
pub struct STree {
    shape: Shape,
}

impl Model for STree {
    ghost use Rattle.std.specs.Prelude.{ℕ};
    ghost use Rattle.labelled_trees.specs.Trees.{Tree};
    ghost use Rattle.labelled_trees.specs.Meaning.{tree_of};
    ghost use Rattle.shuffle_trees.specs.Codes.{tree_code};
    ghost use Rattle.shuffle_trees.specs.ValidTrees.{IsValid};

    ghost Value = { Tree ℕ };

    ghost coded = { tree_code };

    ghost view = { λ tree. tree_of tree.shape };

    ghost invariant = { λ tree. IsValid (tree_of tree.shape) };
}

// Whether a plain tree is a shuffle tree.
fn is_valid(shape: &Shape) -> bool
    ensures { IsTrue result ↔ IsValid (tree_of shape.now) }
{
    let mut times = [0; 256];
    if !count_once(&mut times, shape) {
        return false;
    }
    if times[0] != 0 {
        return false;
    }
    least_leaf(shape, 0).is_some()
}

// How many vertices a tree has.
fn count_vertices(tree: &Shape) -> u32
    requires { vertices (tree_of tree.now) < 2 ^ 32 }
    ensures { result ≡ vertices (tree_of tree.now) }
{
    match tree {
        Shape::Leaf(_) => 0,
        Shape::Node(_, inputs) => {
            let mut count = 1;
            for input in inputs.as_slice() {
                count += count_vertices(input);
            }
            count
        }
    }
}

// How many leaves a tree has.
fn count_leaves(tree: &Shape) -> u8
    requires { leaf_count (tree_of tree.now) < 256 }
    ensures { result ≡ leaf_count (tree_of tree.now) }
{
    match tree {
        Shape::Leaf(_) => 1,
        Shape::Node(_, inputs) => {
            let mut count = 0;
            for input in inputs.as_slice() {
                count += count_leaves(input);
            }
            count
        }
    }
}

// Whether no leaf number is above `most`.
fn are_within(tree: &Shape, most: u8) -> bool
    ensures { IsTrue result ↔ AllLeaves (tree_of tree.now) (λ i. i ≤ most) }
{
    match tree {
        Shape::Leaf(number) => *number <= most,
        Shape::Node(_, inputs) => {
            for input in inputs.as_slice() {
                if !are_within(input, most) {
                    return false;
                }
            }
            true
        }
    }
}

// The number of the first leaf; 0 where a vertex on the way has no inputs.
fn first_leaf(tree: &Shape) -> u8
    ensures { result ≡ least (tree_of tree.now) }
{
    match tree {
        Shape::Leaf(number) => *number,
        Shape::Node(_, inputs) => match inputs.as_slice() {
            [first, ..] => first_leaf(first),
            [] => 0,
        },
    }
}

/// How many vertices the tree has. They are numbered from 1 in preorder.
pub fn vertex_count(tree: &STree) -> u32
    ensures count { result ≡ vertices tree.now }
    ensures few { result < 255 }
{
    count_vertices(tree.shape())
}

impl STree {
    /// The shuffle tree of a plain tree. It takes no memory. `None` exactly where a leaf number is 0 or stands twice,
    /// a vertex has fewer than two inputs, or the inputs of a vertex don't stand in ascending order of their least leaf numbers.
    pub fn of(shape: Shape) -> Option<STree>
        ensures tree { IfSome result (λ tree. tree ≡ tree_of shape) }
        ensures none { IfNone result (IsValid (tree_of shape) → ⊥) }
    {
        if is_valid(&shape) {
            Some(STree { shape })
        } else {
            None
        }
    }

    /// The plain tree.
    pub fn shape(&self) -> &Shape
        ensures shape { tree_of result.now ≡ self.now }
        ensures valid { IsValid self.now }
    {
        &self.shape
    }

    /// The arity of the tree: the number `n` where its leaves are 1 to `n`, each once. It takes no memory.
    /// `None` exactly where the leaves are other numbers.
    pub fn arity(&self) -> Option<u8>
        ensures shuffle { IfSome result (λ n. IsShuffle n self.now) }
        ensures none { IfNone result ((n : ℕ) → IsShuffle n self.now → ⊥) }
    {
        let leaves = count_leaves(self.shape());
        if are_within(self.shape(), leaves) {
            Some(leaves)
        } else {
            None
        }
    }

    /// The shuffle tree of a plain tree that is one. It takes no memory and no time.
    pub fn from_valid(shape: Shape) -> STree
        requires { IsValid (tree_of shape) }
        ensures { result ≡ tree_of shape }
    {
        STree { shape }
    }

    // The number of the first leaf, which is the least.
    pub(crate) fn least(&self) -> u8
        ensures least { result ≡ least self.now }
        ensures valid { IsValid self.now }
    {
        first_leaf(self.shape())
    }

    /// An equal tree. `AllocError` comes for want of memory alone.
    pub fn copy(&self, alloc: Global) -> Result<STree, AllocError>
        ensures same { IfOk result (λ tree. tree ≡ self.now) }
    {
        Ok(STree {
            shape: self.shape.copy(alloc)?,
        })
    }
}
