ghost use Rattle.std.specs.Prelude.{◌≡◌, ◌<◌, ◌≤◌, ◌++◌, ◌∷◌, [], length, map, IfOk, OnOk};
ghost use Rattle.std.specs.List.{AllByRecursion};
ghost use Rattle.shuffle_trees.specs.ValidTrees.{IsValid};
ghost use Rattle.labelled_trees.specs.Meaning.{tree_of};
ghost use Rattle.shuffle_insertions.specs.ShuffleTrees.{IsShuffleTree};
ghost use Rattle.shuffle_insertions.specs.Listing as spec;
ghost use Rattle.shuffle_insertions.specs.Counting.{trees};
ghost use Rattle.shuffle_trees.specs.LabelLists.{arity_in, AreFew};
ghost use Rattle.shuffle_trees.specs.Rows.{row_of, rows_from, each_row, vertices_over, RowsBySplits};

use crate::{Labels, STree, Shape};
use sqlite_items::Items;
use std::alloc::{AllocError, Global};

// The numbers from 1 to n.
fn up_to(alloc: Global, n: u8) -> Result<Items<u8>, AllocError>
    ensures { IfOk result (λ numbers. numbers ≡ spec.upto n) }
{
    let mut numbers = Items::new(alloc);
    for below in 0..n {
        numbers.push(below + 1)?;
    }
    Ok(numbers)
}

// The row of a tree and the inputs after it.
fn row_with(alloc: Global, first: &Shape, others: &[Shape]) -> Result<Items<Shape>, AllocError>
    ensures { IfOk result (λ row. row ≡ first.now ∷ others.now) }
{
    let mut row = Items::new(alloc);
    row.push(first.copy(alloc)?)?;
    for other in others {
        row.push(other.copy(alloc)?)?;
    }
    Ok(row)
}

// Puts each row, with the tree before its inputs, behind the others.
fn push_rows(
    alloc: Global,
    first: &Shape,
    rows: &[Items<Shape>],
    made: &mut Vec<Items<Shape>>,
) -> Result<(), AllocError>
    ensures { OnOk result (made.new.items ≡ made.old.items ++ rows_from first.now rows.now) }
{
    for row in rows {
        made.push(row_with(alloc, first, row.as_slice())?)?;
    }
    Ok(())
}

// Puts each row with each tree before it behind the others.
fn push_each(
    alloc: Global,
    trees: &[Shape],
    rows: &[Items<Shape>],
    made: &mut Vec<Items<Shape>>,
) -> Result<(), AllocError>
    ensures { OnOk result (made.new.items ≡ made.old.items ++ each_row trees.now rows.now) }
{
    for tree in trees {
        push_rows(alloc, tree, rows, made)?;
    }
    Ok(())
}

// Puts a vertex with this label over each row.
fn push_vertices(
    label: u16,
    rows: Vec<Items<Shape>>,
    made: &mut Vec<Shape>,
) -> Result<(), AllocError>
    ensures { OnOk result (made.new.items ≡ made.old.items ++ vertices_over label rows.items) }
{
    for row in rows {
        made.push(Shape::Node(label, row))?;
    }
    Ok(())
}

// The leaf alone, where there is one number.
fn lone(alloc: Global, leaves: &[u8]) -> Result<Vec<Shape>, AllocError>
    ensures { IfOk result (λ made. map tree_of made.items ≡ spec.lone leaves.now) }
{
    let mut made = Vec::new(alloc);
    if let [number] = leaves {
        made.push(Shape::Leaf(*number))?;
    }
    Ok(made)
}

// How leaf numbers are divided: those of the first input, and those of the inputs after it.
#[derive(Drop)]
struct Split {
    first: Items<u8>,
    later: Items<u8>,
}

// The trees of at most so many levels over the leaf numbers.
#[cycle(listing)]
fn list_trees(
    alloc: Global,
    labels: &Labels,
    levels: u8,
    leaves: &[u8],
) -> Result<Vec<Shape>, AllocError>
    ensures trees { IfOk result (λ made. map tree_of made.items ≡ spec.shuffles (length labels.now) (arity_in labels.now) levels leaves.now) }
    ensures few { AreFew labels.now }
{
    let count = labels.len();
    if levels == 0 {
        return Ok(Vec::new(alloc));
    }
    let mut made = lone(alloc, leaves)?;
    if leaves.len() < 2 {
        return Ok(made);
    }
    for label in 0..count {
        let rows = list_rows(alloc, labels, levels - 1, labels.arity(label), leaves)?;
        push_vertices(label, rows, &mut made)?;
    }
    Ok(made)
}

// The rows of so many inputs over the leaf numbers, of trees of at most so many levels.
#[cycle(listing)]
fn list_rows(
    alloc: Global,
    labels: &Labels,
    levels: u8,
    inputs: u8,
    leaves: &[u8],
) -> Result<Vec<Items<Shape>>, AllocError>
    ensures { IfOk result (λ made. map row_of made.items ≡ spec.rows (spec.shuffles (length labels.now) (arity_in labels.now) levels) inputs leaves.now) }
{
    let mut made = Vec::new(alloc);
    if leaves.len() < inputs as usize {
        return Ok(made);
    }
    let [least, others @ ..] = leaves else {
        made.push(Items::new(alloc))?;
        return Ok(made);
    };
    if inputs == 0 {
        return Ok(made);
    }
    let mut first = Items::new(alloc);
    first.push(*least)?;
    let mut split = Split {
        first,
        later: Items::new(alloc),
    };
    split_rows(
        alloc,
        labels,
        levels,
        inputs - 1,
        others,
        &mut split,
        &mut made,
    )?;
    Ok(made)
}

// For each way to divide the numbers between the first input and the later ones, puts the rows behind the others.
#[cycle(listing)]
fn split_rows(
    alloc: Global,
    labels: &Labels,
    levels: u8,
    inputs: u8,
    numbers: &[u8],
    split: &mut Split,
    made: &mut Vec<Items<Shape>>,
) -> Result<(), AllocError>
    ensures rows { OnOk result (RowsBySplits (spec.shuffles (length labels.now) (arity_in labels.now) levels) inputs numbers.now
        split.old.first split.old.later made.old.items made.new.items) }
    ensures split { OnOk result (split.new ≡ split.old) }
{
    let [number, others @ ..] = numbers else {
        let rows = list_rows(alloc, labels, levels, inputs, split.later.as_slice())?;
        if rows.is_empty() {
            return Ok(());
        }
        let trees = list_trees(alloc, labels, levels, split.first.as_slice())?;
        return push_each(alloc, trees.as_slice(), rows.as_slice(), made);
    };
    split.first.push(*number)?;
    split_rows(alloc, labels, levels, inputs, others, split, made)?;
    split.first.pop();
    split.later.push(*number)?;
    split_rows(alloc, labels, levels, inputs, others, split, made)?;
    split.later.pop();
    Ok(())
}

// The shuffle trees of plain trees that are ones.
fn as_trees(alloc: Global, shapes: Vec<Shape>) -> Result<Items<STree>, AllocError>
    requires { AllByRecursion IsValid (map tree_of shapes.items) }
    ensures { IfOk result (λ trees. trees ≡ map tree_of shapes.items) }
{
    let mut trees = Items::from_vec(Vec::with_capacity(alloc, shapes.len())?);
    for shape in shapes {
        trees.push(STree::from_valid(shape))?;
    }
    Ok(trees)
}

/// All shuffle trees over the labels whose leaves are 1 to `n`, each once.
/// `AllocError` comes for want of memory alone.
pub fn all_trees(alloc: Global, labels: &Labels, n: u8) -> Result<Items<STree>, AllocError>
    ensures listing { IfOk result (λ made. spec.IsListing (arity_in labels.now) n made) }
    ensures count { IfOk result (λ made. length made ≡ trees (length labels.now) (arity_in labels.now) n) }
{
    let leaves = up_to(alloc, n)?;
    let shapes = list_trees(alloc, labels, n, leaves.as_slice())?;
    as_trees(alloc, shapes)
}
