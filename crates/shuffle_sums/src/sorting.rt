ghost use Rattle.std.specs.Prelude.{◌≡◌, ◌<◌, List, ℕ, length, map, IfOk, OnOk};
ghost use Rattle.std.specs.List.{All, range_with_len};
ghost use Rattle.std.specs.List.Sorted.{IsPermutation, IsSorted};
ghost use Rattle.std.specs.Ordering.{nat_cmp};
ghost use Rattle.std.specs.Cmp.Lexicographic.{slice_cmp};
ghost use Rattle.modular_sums.specs.Lists.{Distinct};
ghost use Rattle.shuffle_insertions.specs.Keys as spec;
ghost use Rattle.tree_store.specs.Stores.{IsStore, tree_at};
ghost use Rattle.shuffle_sums.specs.Sorting.{block_at, compare_by, trees_at, AreOfOneArity, Rise};
ghost use Rattle.shuffle_sums.specs.Entries.{AreEntries, position};

use crate::flat_key;
use path_orders::{Blocks, TreeOrder};
use std::alloc::{AllocError, Global};
use tree_store::{Store, TreeId};

// A block with its position.
#[derive(Clone, Copy, PartialEq, Eq, PartialOrd, Ord)]
struct Entry<'a> {
    block: &'a [u16],
    at: usize,
}

// The blocks with their positions.
fn entries(alloc: Global, blocks: &Blocks) -> Result<Vec<Entry<'_>>, AllocError>
    ensures { IfOk result (λ made. AreEntries blocks.now made.items) }
{
    let count = blocks.len();
    let mut made = Vec::with_capacity(alloc, count)?;
    for at in 0..count {
        made.push(Entry {
            block: blocks.get(at),
            at,
        })?;
    }
    Ok(made)
}

// The positions of the entries.
fn positions(alloc: Global, entries: &[Entry]) -> Result<Vec<usize>, AllocError>
    ensures { IfOk result (λ made. made.items ≡ map position entries.now) }
{
    let mut made = Vec::with_capacity(alloc, entries.len())?;
    for entry in entries {
        made.push(entry.at)?;
    }
    Ok(made)
}

/// The positions of the blocks, counted from 0 and each once, so that the blocks at them do not fall, compared number by number.
/// `AllocError` comes for want of memory alone.
pub fn sort_blocks(alloc: Global, blocks: &Blocks) -> Result<Vec<usize>, AllocError>
    ensures each { IfOk result (λ made. IsPermutation (range_with_len 0 (length blocks.now)) made.items) }
    ensures sorted { IfOk result (λ made. IsSorted (slice_cmp nat_cmp) (map (block_at blocks.now) made.items)) }
{
    let mut sorted = entries(alloc, blocks)?;
    sorted.sort_unstable();
    positions(alloc, sorted.as_slice())
}

// The blocks of the trees with these ids.
fn blocks_of<O: TreeOrder>(
    alloc: Global,
    store: &Store,
    order: &O,
    ids: &[TreeId],
) -> Result<Blocks, AllocError>
    requires trees { AreOfOneArity store.now ids.now }
    ensures blocks { IfOk result (λ made. made ≡ map (λ id. O.block order.now (spec.key (O.weights order.now) (tree_at store.now id))) ids.now) }
    ensures store { OnOk result (0 < length ids.now → IsStore store.now) }
{
    let mut blocks = Blocks::new(alloc);
    for id in ids {
        order.write_block(&flat_key(store, *id), &mut blocks)?;
    }
    Ok(blocks)
}

/// The positions of the ids, counted from 0 and each once, so that the trees with the ids at them rise by the order. The ids
/// are different and ones that the store gave; their trees are over one table of labels and have one arity, which is at most 16.
/// `AllocError` comes for want of memory alone.
pub fn sorted<O: TreeOrder>(
    alloc: Global,
    store: &Store,
    order: &O,
    ids: &[TreeId],
) -> Result<Vec<usize>, AllocError>
    requires trees { AreOfOneArity store.now ids.now }
    requires distinct { Distinct ids.now }
    ensures each { IfOk result (λ made. IsPermutation (range_with_len 0 (length ids.now)) made.items) }
    ensures rising { IfOk result (λ made. Rise (compare_by O.by_keys (O.weights order.now)) (trees_at store.now ids.now made.items)) }
{
    let blocks = blocks_of(alloc, store, order, ids)?;
    sort_blocks(alloc, &blocks)
}
