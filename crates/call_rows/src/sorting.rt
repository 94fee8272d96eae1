ghost use Rattle.std.specs.Prelude.{◌≤◌, IfOk};
ghost use Rattle.modular_sums.specs.Lists.{Distinct};
ghost use Rattle.shuffle_sums.specs.Sorting.{AreOfOneArity};

use path_orders::{Blocks, LeafPath, Path, PathShort, TreeOrder, WeightPath};
use presentation_text::{Document, OrderName};
use rows::{RowFail, end_line, end_number, shuffle_tree, write_next};
use shuffle_passage::labels_of;
use shuffle_sums::{flat_key, put_all, sort_blocks, sorted};
use shuffle_trees::{Labels, STree, all_trees};
use sqlite_items::Items;
use std::alloc::{AllocError, Global};
use std::cmp::Ordering;
use tree_store::{Store, TreeId};

// The most leaves of a tree that has a flat key.
const MOST_LEAVES: u8 = 16;

/// Puts the tree into the store and writes its block; `Refused` where it has more than 16 leaves.
pub fn put_block<O: TreeOrder>(
    alloc: Global,
    store: &mut Store,
    order: &O,
    tree: &STree,
    blocks: &mut Blocks,
) -> Result<(), RowFail> {
    match tree.arity() {
        Some(leaves) if leaves <= MOST_LEAVES => {
            let id = store.put(alloc, tree)?;
            Ok(order.write_block(&flat_key(store, id), blocks)?)
        }
        _ => Err(RowFail::Refused),
    }
}

// Writes the blocks of the trees.
fn put_blocks<O: TreeOrder>(
    alloc: Global,
    document: &Document,
    store: &mut Store,
    order: &O,
    blocks: &mut Blocks,
) -> Result<(), RowFail> {
    for at in 0..document.asks.len() {
        put_block(
            alloc,
            store,
            order,
            &shuffle_tree(alloc, document, at)?,
            blocks,
        )?;
    }
    Ok(())
}

// Writes places in a line, each with a blank before it.
fn end_places(places: &[usize], out: &mut Vec<u8>) -> Result<(), AllocError> {
    for place in places {
        write_next(*place as u64, out)?;
    }
    end_line("", out)
}

// Writes the places of the trees once they are sorted by their blocks.
fn by_blocks<O: TreeOrder>(
    alloc: Global,
    document: &Document,
    order: &O,
    out: &mut Vec<u8>,
) -> Result<(), RowFail> {
    let mut blocks = Blocks::new(alloc);
    put_blocks(alloc, document, &mut Store::new(alloc), order, &mut blocks)?;
    Ok(end_places(sort_blocks(alloc, &blocks)?.as_slice(), out)?)
}

/// Sorts the trees by their blocks in the order of the document, and writes their places, counted from 0.
pub fn blocks(alloc: Global, document: &Document, out: &mut Vec<u8>) -> Result<(), RowFail> {
    match document.order {
        OrderName::Path => by_blocks(alloc, document, &Path {}, out),
        OrderName::PathShort => by_blocks(alloc, document, &PathShort {}, out),
        OrderName::LeafPath => by_blocks(alloc, document, &LeafPath {}, out),
        OrderName::WeightPath => by_blocks(alloc, document, &by_weight(alloc, document)?, out),
    }
}

/// The order by the weights of the labels, where each generator has one label.
pub fn by_weight(alloc: Global, document: &Document) -> Result<WeightPath, RowFail> {
    let weights = Items::from_slice(alloc, document.weights.as_slice())?;
    Ok(WeightPath::new(weights))
}

// The ids of all shuffle trees of an arity over the labels.
fn listing(
    alloc: Global,
    store: &mut Store,
    labels: &Labels,
    arity: u8,
) -> Result<Vec<TreeId>, RowFail>
    requires { arity ≤ 16 }
    ensures one_arity { IfOk result (λ ids. AreOfOneArity store.new ids.items) }
    ensures distinct { IfOk result (λ ids. Distinct ids.items) }
{
    let trees = all_trees(alloc, labels, arity)?;
    let ids = put_all(alloc, store, trees.as_slice())?;
    Ok(ids)
}

// Whether the order has the first tree below the second; false where they have not one arity.
fn is_below<O: TreeOrder>(order: &O, labels: &Labels, one: &STree, other: &STree) -> bool {
    match (one.arity(), other.arity()) {
        (Some(leaves), Some(others)) if leaves == others => {
            order.compare(labels, one, other) == Ordering::Less
        }
        _ => false,
    }
}

// The places of all trees of an arity once these are sorted.
fn sorted_places<O: TreeOrder>(
    alloc: Global,
    order: &O,
    labels: &Labels,
    arity: u8,
) -> Result<Vec<usize>, RowFail>
    requires { arity ≤ 16 }
{
    let mut store = Store::new(alloc);
    let ids = listing(alloc, &mut store, labels, arity)?;
    Ok(sorted(alloc, &store, order, ids.as_slice())?)
}

// Whether the order has the tree at a place below that at the next one; false where there are not both.
fn is_rising<O: TreeOrder>(
    order: &O,
    labels: &Labels,
    trees: &[STree],
    place: usize,
    next: usize,
) -> bool {
    match (trees.get(place), trees.get(next)) {
        (Some(one), Some(other)) => is_below(order, labels, one, other),
        _ => false,
    }
}

// At how many of the places the tree stands above that at the place before.
fn rises<O: TreeOrder>(order: &O, labels: &Labels, trees: &[STree], places: &[usize]) -> u64 {
    let mut count = 0u64;
    let mut before = trees.len();
    for place in places {
        if is_rising(order, labels, trees, before, *place) {
            count = count.saturating_add(1);
        }
        before = *place;
    }
    count
}

// How many trees stand, once all of an arity are sorted, above the one before them.
fn count_rising<O: TreeOrder>(
    alloc: Global,
    order: &O,
    labels: &Labels,
    arity: u8,
) -> Result<u64, RowFail>
    requires { arity ≤ 16 }
{
    let places = sorted_places(alloc, order, labels, arity)?;
    let trees = all_trees(alloc, labels, arity)?;
    Ok(rises(order, labels, trees.as_slice(), &places))
}

// The same by the document's order.
fn rising_by(alloc: Global, document: &Document, labels: &Labels, arity: u8) -> Result<u64, RowFail>
    requires { arity ≤ 16 }
{
    match document.order {
        OrderName::Path => count_rising(alloc, &Path {}, labels, arity),
        OrderName::PathShort => count_rising(alloc, &PathShort {}, labels, arity),
        OrderName::LeafPath => count_rising(alloc, &LeafPath {}, labels, arity),
        OrderName::WeightPath => count_rising(alloc, &by_weight(alloc, document)?, labels, arity),
    }
}

/// Sorts all shuffle trees of the given arity by the document's order, and writes how many of them the order has above the
/// one before: all but one.
pub fn all(
    alloc: Global,
    document: &Document,
    numbers: &[u32],
    out: &mut Vec<u8>,
) -> Result<(), RowFail> {
    let arity = match numbers {
        [arity] if *arity <= 9 => *arity as u8,
        _ => return Err(RowFail::Refused),
    };
    let labels = labels_of(alloc, &document.gens)?;
    let count = rising_by(alloc, document, &labels, arity)?;
    Ok(end_number(count, out)?)
}
