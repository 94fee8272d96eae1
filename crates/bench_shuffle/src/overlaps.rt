use crate::number;
use common_multiples::multiples;
use labelled_trees::Tree;
use shuffle_trees::{Labels, STree, all_trees};
use std::alloc::{AllocError, Global};

// How many small common multiples of arity `n` two trees have: none where one is a leaf.
fn count_pair(
    alloc: Global,
    labels: &Labels,
    one: &STree,
    other: &STree,
    n: u8,
) -> Result<usize, AllocError> {
    let (Some(_), Some(_)) = (one.arity(), other.arity()) else {
        return Ok(0);
    };
    let (Tree::Node(_, _), Tree::Node(_, _)) = (one.shape(), other.shape()) else {
        return Ok(0);
    };
    Ok(multiples(alloc, labels, one, other, n)?.len())
}

// How many a tree has with each of the others, together and at most.
fn count_with(
    alloc: Global,
    labels: &Labels,
    one: &STree,
    others: &[STree],
    n: u8,
    counts: &mut (usize, usize),
) -> Result<(), AllocError> {
    for other in others {
        let count = count_pair(alloc, labels, one, other, n)?;
        counts.0 = counts.0.saturating_add(count);
        counts.1 = counts.1.max(count);
    }
    Ok(())
}

/// The words are two arities over one binary label, a third one, and a number of trees: how many small common multiples of the
/// third arity each of so many trees of the first arity, from the front of the list on, has with each tree of the second,
/// together and at most.
pub fn counted(alloc: Global, words: &[String]) -> Result<String, AllocError> {
    let labels = Labels::of(alloc, &[(2, 1)])?;
    let ones = all_trees(alloc, &labels, number(words.get(0)))?;
    let others = all_trees(alloc, &labels, number(words.get(1)))?;
    let n = number(words.get(2));
    let firsts = number(words.get(3)) as usize;
    let mut counts = (0, 0);
    for one in ones.as_slice().iter().take(firsts) {
        count_with(alloc, &labels, one, others.as_slice(), n, &mut counts)?;
    }
    format!(in alloc; "{} multiples, {} at most", counts.0, counts.1)
}
