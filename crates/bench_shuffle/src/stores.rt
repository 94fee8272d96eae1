ghost use Rattle.shuffle_insertions.specs.Listing.{IsListing};
ghost use Rattle.shuffle_trees.specs.LabelLists.{arity_in};
ghost use Rattle.std.specs.Prelude.{◌≤◌};
ghost use Rattle.modular_sums.specs.Lists.{Distinct};
ghost use Rattle.shuffle_sums.specs.Sorting.{AreOfOneArity};

use crate::number;
use path_orders::{LeafPath, Path, PathShort, WeightPath};
use shuffle_sums::{put_all, sorted};
use shuffle_trees::{Labels, STree, all_trees};
use sqlite_items::Items;
use std::alloc::{AllocError, Global};
use tree_store::{Store, StoreFail, TreeId};

// The positions that sort the ids: by path for 1, by pathshort for 2, by leafpath for 3, else by weightpath.
fn positions(
    alloc: Global,
    store: &Store,
    ids: &[TreeId],
    order: u8,
) -> Result<Vec<usize>, AllocError>
    requires trees { AreOfOneArity store.now ids.now }
    requires distinct { Distinct ids.now }
{
    match order {
        1 => sorted(alloc, store, &Path {}, ids),
        2 => sorted(alloc, store, &PathShort {}, ids),
        3 => sorted(alloc, store, &LeafPath {}, ids),
        _ => sorted(alloc, store, &WeightPath::new(Items::new(alloc)), ids),
    }
}

// How many trees a store holds that was made by putting different trees with these ids.
fn held(ids: &[TreeId]) -> usize {
    match ids {
        [.., last] => last.index().saturating_add(1),
        [] => 0,
    }
}

// Puts the trees into a new store, and sorts their ids unless the order is 0: how many trees are held then, and how many ids are
// sorted.
fn put_and_sort(
    alloc: Global,
    labels: &Labels,
    arity: u8,
    trees: &[STree],
    order: u8,
) -> Result<(usize, usize), StoreFail>
    requires few { arity ≤ 9 }
    requires listing { IsListing (arity_in labels.now) arity trees.now }
{
    let mut store = Store::new(alloc);
    let ids = put_all(alloc, &mut store, trees)?;
    if order == 0 {
        return Ok((held(ids.as_slice()), 0));
    }
    let Ok(positions) = positions(alloc, &store, ids.as_slice(), order) else {
        return Err(StoreFail::NoMemory);
    };
    Ok((held(ids.as_slice()), positions.len()))
}

// The same so many times, each in a store of its own.
fn put_often(
    alloc: Global,
    labels: &Labels,
    arity: u8,
    trees: &[STree],
    rounds: u8,
    order: u8,
) -> Result<(usize, usize), StoreFail>
    requires few { arity ≤ 9 }
    requires listing { IsListing (arity_in labels.now) arity trees.now }
{
    let mut counts = (0, 0);
    for _ in 0..rounds {
        counts = put_and_sort(alloc, labels, arity, trees, order)?;
    }
    Ok(counts)
}

/// The words are a number of binary labels, an arity up to 9, a number of rounds, and an order: in each round all shuffle trees of
/// that arity are put into a store, and their ids are sorted, by path for 1, by pathshort for 2, by leafpath for 3, by weightpath
/// without weights beyond; not for 0.
pub fn counted(alloc: Global, words: &[String]) -> Result<String, AllocError> {
    let count = number(words.get(0)).min(12);
    let arity = number(words.get(1)).min(9);
    let labels = Labels::of(alloc, &[(2, u16::from(count))])?;
    let trees = all_trees(alloc, &labels, arity)?;
    let rounds = number(words.get(2));
    match put_often(
        alloc,
        &labels,
        arity,
        trees.as_slice(),
        rounds,
        number(words.get(3)),
    ) {
        Ok((held, sorted)) => format!(in alloc; "{held} trees held, {sorted} ids sorted"),
        Err(StoreFail::StoreFull) => format!(in alloc; "the store is full"),
        Err(StoreFail::NoMemory) => Err(AllocError),
    }
}
