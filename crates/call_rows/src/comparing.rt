use crate::sorting::{by_weight, put_block};
use path_orders::{Blocks, LeafPath, Path, PathShort, TreeOrder};
use presentation_text::{Document, OrderName, write_number};
use rows::{RowFail, end_line, shuffle_of, shuffles_of, write_next, write_text};
use shuffle_passage::labels_of;
use shuffle_trees::{Key, Labels, STree};
use std::alloc::{AllocError, Global};
use std::cmp::Ordering;
use tree_store::Store;

fn ordering_text(order: Ordering) -> &'static str {
    match order {
        Ordering::Less => "<",
        Ordering::Equal => "=",
        Ordering::Greater => ">",
    }
}

// Compares two trees of one arity.
fn compared<O: TreeOrder>(
    order: &O,
    labels: &Labels,
    a: &STree,
    b: &STree,
) -> Result<Ordering, RowFail> {
    let Some(arity) = a.arity() else {
        return Err(RowFail::Refused);
    };
    let Some(other) = b.arity() else {
        return Err(RowFail::Refused);
    };
    if arity == other {
        Ok(order.compare(labels, a, b))
    } else {
        Err(RowFail::Refused)
    }
}

// Compares two trees by their keys.
fn keys_compared<O: TreeOrder>(
    alloc: Global,
    order: &O,
    labels: &Labels,
    a: &STree,
    b: &STree,
) -> Result<Ordering, AllocError> {
    let key = Key::of(alloc, a)?;
    let other = Key::of(alloc, b)?;
    Ok(order.compare_keys(labels, &key, &other))
}

// Writes how a tree stands to each of the others: by the trees, and behind it by their keys.
fn compare_with<O: TreeOrder>(
    alloc: Global,
    order: &O,
    labels: &Labels,
    one: &STree,
    others: &[STree],
    out: &mut Vec<u8>,
) -> Result<(), RowFail> {
    for (at, other) in others.iter().enumerate() {
        if at > 0 {
            out.push(b' ')?;
        }
        let trees = compared(order, labels, one, other)?;
        write_text(ordering_text(trees), out)?;
        let keys = keys_compared(alloc, order, labels, one, other)?;
        write_text(ordering_text(keys), out)?;
    }
    Ok(end_line("", out)?)
}

// Writes how each tree stands to each, a line for each.
fn compare_all<O: TreeOrder>(
    alloc: Global,
    order: &O,
    labels: &Labels,
    trees: &[STree],
    out: &mut Vec<u8>,
) -> Result<(), RowFail> {
    for tree in trees {
        compare_with(alloc, order, labels, tree, trees, out)?;
    }
    Ok(())
}

// The same by the document's order.
fn compare_by(
    alloc: Global,
    document: &Document,
    labels: &Labels,
    trees: &[STree],
    out: &mut Vec<u8>,
) -> Result<(), RowFail> {
    match document.order {
        OrderName::Path => compare_all(alloc, &Path {}, labels, trees, out),
        OrderName::PathShort => compare_all(alloc, &PathShort {}, labels, trees, out),
        OrderName::LeafPath => compare_all(alloc, &LeafPath {}, labels, trees, out),
        OrderName::WeightPath => {
            compare_all(alloc, &by_weight(alloc, document)?, labels, trees, out)
        }
    }
}

// The same of the trees that words spell, over the labels of the document.
fn compare(
    alloc: Global,
    document: &Document,
    words: &[String],
    out: &mut Vec<u8>,
) -> Result<(), RowFail> {
    let labels = labels_of(alloc, &document.gens)?;
    let trees = shuffles_of(alloc, words)?;
    compare_by(alloc, document, &labels, trees.as_slice(), out)
}

// Writes the number of a block's numbers, and these.
fn end_block(block: &[u16], out: &mut Vec<u8>) -> Result<(), RowFail> {
    write_number(block.len() as u64, out)?;
    out.push(b':')?;
    for number in block {
        write_next(u64::from(*number), out)?;
    }
    Ok(end_line("", out)?)
}

// Writes each block in a line.
fn end_blocks(blocks: &Blocks, out: &mut Vec<u8>) -> Result<(), RowFail> {
    for at in 0..blocks.len() {
        end_block(blocks.get(at), out)?;
    }
    Ok(())
}

// Writes the block of the tree that a word spells.
fn write_block<O: TreeOrder>(
    alloc: Global,
    order: &O,
    word: &String,
    out: &mut Vec<u8>,
) -> Result<(), RowFail> {
    let tree = shuffle_of(alloc, word)?;
    let mut blocks = Blocks::new(alloc);
    put_block(alloc, &mut Store::new(alloc), order, &tree, &mut blocks)?;
    end_blocks(&blocks, out)
}

// The block of a tree by the document's order.
fn block(
    alloc: Global,
    document: &Document,
    words: &[String],
    out: &mut Vec<u8>,
) -> Result<(), RowFail> {
    let [word] = words else {
        return Err(RowFail::Refused);
    };
    match document.order {
        OrderName::Path => write_block(alloc, &Path {}, word, out),
        OrderName::PathShort => write_block(alloc, &PathShort {}, word, out),
        OrderName::LeafPath => write_block(alloc, &LeafPath {}, word, out),
        OrderName::WeightPath => write_block(alloc, &by_weight(alloc, document)?, word, out),
    }
}

/// Answers the calls of `path_orders`. False where it has none of this name.
pub fn answer(
    alloc: Global,
    name: &str,
    words: &[String],
    document: &Document,
    out: &mut Vec<u8>,
) -> Result<bool, RowFail> {
    match name {
        "TreeOrder::compare" => compare(alloc, document, words, out)?,
        "TreeOrder::write_block" => block(alloc, document, words, out)?,
        _ => return Ok(false),
    }
    Ok(true)
}
