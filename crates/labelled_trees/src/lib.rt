//! Planar trees with numbered leaves: the definitions that all crates cite, and the program's type of trees.
#![tactic(auto)]

ghost use Rattle.std.specs.Prelude.{◌≡◌, IfOk};
ghost use Rattle.labelled_trees.specs.Laws.{ContextsAreTrees, GraftingIsAssociative, LeavesArePermutations};
ghost use Rattle.labelled_trees.specs.Meaning.{OneToOne};

use sqlite_items::Items;
use std::alloc::{AllocError, Global};

/// A planar tree with numbered leaves, of any shape and with any numbers. Contracts see it through `tree_of`.
#[derive(Drop)]
pub enum Tree {
    /// A leaf with its number.
    Leaf(u8),
    /// A vertex: the index of its generator (or label), and its inputs from left to right.
    Node(u16, Items<Tree>),
}

impl Tree {
    /// An equal tree: the same shape, indices and numbers. `AllocError` comes for want of memory alone.
    pub fn copy(&self, alloc: Global) -> Result<Tree, AllocError>
        ensures same { IfOk result (λ tree. tree ≡ self.now) }
    {
        match self {
            Tree::Leaf(number) => Ok(Tree::Leaf(*number)),
            Tree::Node(generator, inputs) => {
                let mut copies = Items::new(alloc);
                for input in inputs.as_slice() {
                    copies.push(input.copy(alloc)?)?;
                }
                Ok(Tree::Node(*generator, copies))
            }
        }
    }
}

/// Law: values of the program that stand for one tree are equal.
pub fn meanings_are_apart()
    ensures law { OneToOne }
{}

/// Law: grafting is associative, and a leaf for each leaf changes nothing.
pub fn grafting_is_associative<A, B, C>()
    ensures law { GraftingIsAssociative A B C }
{}

/// Law: a tree is labelled by 1 to n exactly where its leaves are a permutation of 1 to n.
pub fn leaves_are_permutations()
    ensures law { LeavesArePermutations }
{}

/// Law: a tree in which leaf 0 stands once is a context with a hole, and putting a tree there fills the hole.
pub fn contexts_are_trees()
    ensures law { ContextsAreTrees }
{}
