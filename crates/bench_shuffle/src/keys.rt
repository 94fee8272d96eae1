use crate::number;
use path_orders::{Path, TreeOrder};
use shuffle_trees::{Key, Labels, STree, all_trees};
use sqlite_items::Items;
use std::alloc::{AllocError, Global};
use std::cmp::Ordering;

// The keys of the trees.
fn keys_of(alloc: Global, trees: &[STree]) -> Result<Items<Key>, AllocError> {
    let mut keys = Items::new(alloc);
    for tree in trees {
        keys.push(Key::of(alloc, tree)?)?;
    }
    Ok(keys)
}

// How many of the keys are less than this one.
fn count_less(labels: &Labels, key: &Key, keys: &[Key]) -> u64 {
    let order = Path {};
    let mut count: u64 = 0;
    for other in keys {
        if order.compare_keys(labels, key, other) == Ordering::Greater {
            count = count.saturating_add(1);
        }
    }
    count
}

// For how many pairs of one of the first keys and any key the first is greater.
fn count_pairs(labels: &Labels, keys: &[Key], firsts: u8) -> u64 {
    let mut count: u64 = 0;
    for key in keys.iter().take(firsts as usize) {
        count = count.saturating_add(count_less(labels, key, keys));
    }
    count
}

/// The words are an arity over one binary label and a number of trees: each of so many trees, from the front of the list on, is
/// compared by path with each tree of the list. Where that number is 0, no key is made.
pub fn counted(alloc: Global, words: &[String]) -> Result<String, AllocError> {
    let labels = Labels::of(alloc, &[(2, 1)])?;
    let trees = all_trees(alloc, &labels, number(words.get(0)))?;
    let count = trees.len();
    let firsts = number(words.get(1));
    if firsts == 0 {
        return format!(in alloc; "{count} trees");
    }
    let keys = keys_of(alloc, trees.as_slice())?;
    let greater = count_pairs(&labels, keys.as_slice(), firsts);
    format!(in alloc; "{count} trees\n{greater} pairs fall")
}
