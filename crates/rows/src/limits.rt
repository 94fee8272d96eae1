ghost use Rattle.std.specs.Prelude.{◌<◌, ◌≤◌, ◌+◌, length};
ghost use Rattle.shuffle_insertions.specs.Counting.{HaveFewTrees, most_trees, trees};
ghost use Rattle.shuffle_trees.specs.LabelLists.{arity_in};

use presentation_text::GREATEST_ARITY;
use shuffle_trees::{Labels, count_trees};

// The limit on the shuffle trees of one arity.
const MOST_TREES: u64 = 2_100_000;

/// The greatest number up to 9 such that of no arity from 1 to it there are more than 2,100,000 shuffle trees over the labels.
/// It takes no memory.
pub fn most_leaves(labels: &Labels) -> u8
    ensures nine { result ≤ 9 }
    ensures few { HaveFewTrees (length labels.now) (arity_in labels.now) result }
    ensures greatest { result < 9 → most_trees < trees (length labels.now) (arity_in labels.now) (result + 1) }
{
    for next in 1..GREATEST_ARITY + 1 {
        if count_trees(labels, next, MOST_TREES + 1) > MOST_TREES {
            return next - 1;
        }
    }
    GREATEST_ARITY
}
