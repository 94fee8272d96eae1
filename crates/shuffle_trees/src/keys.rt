ghost use Rattle.std.specs.Prelude.{◌≡◌, ◌≤◌, ◌++◌, IfOk, OnOk};
ghost use Rattle.labelled_trees.specs.Meaning.{tree_of};
ghost use Rattle.labelled_trees.specs.Trees.{leaves};
ghost use Rattle.labelled_trees.specs.Leaves.{AllLeaves, occurs};
ghost use Rattle.shuffle_insertions.specs.Keys.{words_at};
ghost use Rattle.shuffle_trees.specs.KeyParts.{words_in, row_in, labels_in};
ghost use Rattle.shuffle_trees.specs.Walks as spec;

use crate::{STree, Shape};
use sqlite_items::Items;
use std::alloc::{AllocError, Global};

// Puts the leaf numbers from left to right behind the row.
fn push_leaves(tree: &Shape, row: &mut Items<u8>) -> Result<(), AllocError>
    ensures leaves { OnOk result (row.new ≡ row.old ++ leaves (tree_of tree.now)) }
{
    match tree {
        Shape::Leaf(number) => row.push(*number),
        Shape::Node(_, inputs) => {
            for input in inputs.as_slice() {
                push_leaves(input, row)?;
            }
            Ok(())
        }
    }
}

// Puts the labels of the vertices in preorder behind the others.
fn push_labels(tree: &Shape, labels: &mut Items<u16>) -> Result<(), AllocError>
    ensures labels { OnOk result (labels.new ≡ labels.old ++ spec.vertex_labels (tree_of tree.now)) }
{
    match tree {
        Shape::Leaf(_) => Ok(()),
        Shape::Node(label, inputs) => {
            labels.push(*label)?;
            for input in inputs.as_slice() {
                push_labels(input, labels)?;
            }
            Ok(())
        }
    }
}

// Puts the labels from the root to the leaf with this number behind the word. False where there is no such leaf;
// the word is as before then.
fn walk(tree: &Shape, number: u8, word: &mut Items<u16>) -> Result<bool, AllocError>
    ensures walked { IfOk result (λ found. spec.IsWalked found word.old word.new (words_at number (tree_of tree.now))) }
{
    match tree {
        Shape::Leaf(leaf) => Ok(*leaf == number),
        Shape::Node(label, inputs) => {
            word.push(*label)?;
            for input in inputs.as_slice() {
                if walk(input, number, word)? {
                    return Ok(true);
                }
            }
            word.pop();
            Ok(false)
        }
    }
}

fn greater(one: u8, other: u8) -> u8
    ensures one { one ≤ result }
    ensures other { other ≤ result }
{
    if one < other { other } else { one }
}

// A number that no leaf is above.
fn greatest(tree: &Shape) -> u8
    ensures { AllLeaves (tree_of tree.now) (λ i. i ≤ result) }
{
    match tree {
        Shape::Leaf(number) => *number,
        Shape::Node(_, inputs) => {
            let mut most = 0;
            for input in inputs.as_slice() {
                most = greater(most, greatest(input));
            }
            most
        }
    }
}

// Puts the word of the leaf with this number behind the others, if there is such a leaf.
fn push_word(
    alloc: Global,
    tree: &Shape,
    number: u8,
    words: &mut Items<Items<u16>>,
) -> Result<(), AllocError>
    requires { occurs number (tree_of tree.now) ≤ 1 }
    ensures word { OnOk result (words.new ≡ words.old ++ words_at number (tree_of tree.now)) }
{
    let mut word = Items::new(alloc);
    if walk(tree, number, &mut word)? {
        words.push(word)?;
    }
    Ok(())
}

/// The word of each leaf, in ascending order of leaf numbers: the labels from the root down to the leaf.
/// `AllocError` comes for want of memory alone.
pub fn words(alloc: Global, tree: &STree) -> Result<Items<Items<u16>>, AllocError>
    ensures words { IfOk result (λ words. words ≡ spec.words tree.now) }
{
    let shape = tree.shape();
    let mut words = Items::new(alloc);
    for below in 0..greatest(shape) {
        push_word(alloc, shape, below + 1, &mut words)?;
    }
    Ok(words)
}

/// The leaf numbers from left to right. `AllocError` comes for want of memory alone.
pub fn leaf_row(alloc: Global, tree: &STree) -> Result<Items<u8>, AllocError>
    ensures row { IfOk result (λ row. row ≡ leaves tree.now) }
{
    let mut row = Items::new(alloc);
    push_leaves(tree.shape(), &mut row)?;
    Ok(row)
}

/// What the orders see of a shuffle tree: the words of its leaves, the leaf row, and the labels of the vertices in preorder.
#[derive(Drop)]
pub struct Key {
    words: Items<Items<u16>>,
    row: Items<u8>,
    vertices: Items<u16>,
}

impl Key {
    /// The key of a tree. `AllocError` comes for want of memory alone.
    pub fn of(alloc: Global, tree: &STree) -> Result<Key, AllocError>
        ensures words { IfOk result (λ key. words_in key ≡ spec.words tree.now) }
        ensures row { IfOk result (λ key. row_in key ≡ leaves tree.now) }
        ensures vertices { IfOk result (λ key. labels_in key ≡ spec.vertex_labels tree.now) }
    {
        let mut vertices = Items::new(alloc);
        push_labels(tree.shape(), &mut vertices)?;
        Ok(Key {
            words: words(alloc, tree)?,
            row: leaf_row(alloc, tree)?,
            vertices,
        })
    }

    /// The words of the leaves, in ascending order of leaf numbers. It takes no memory.
    pub fn words(&self) -> &[Items<u16>]
        ensures words { result.now ≡ words_in self.now }
    {
        self.words.as_slice()
    }

    /// The leaf numbers from left to right. It takes no memory.
    pub fn row(&self) -> &[u8]
        ensures row { result.now ≡ row_in self.now }
    {
        self.row.as_slice()
    }

    /// The labels of the vertices in preorder. It takes no memory.
    pub fn vertices(&self) -> &[u16]
        ensures vertices { result.now ≡ labels_in self.now }
    {
        self.vertices.as_slice()
    }
}
