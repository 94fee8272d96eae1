ghost use Rattle.std.specs.Prelude.{◌≡◌, ◌<◌, ℕ};
ghost use Rattle.labelled_trees.specs.Leaves.{occurs};
ghost use Rattle.labelled_trees.specs.Meaning.{tree_of};
ghost use Rattle.shuffle_insertions.specs.ShuffleTrees as spec;

use shuffle_trees::Shape;

// A shuffle form with its least leaf, by which it is sorted.
#[derive(Drop)]
pub struct Branch {
    pub least: u8,
    pub tree: Shape,
    ghost least_is: { least ≡ spec.least (tree_of tree) },
    ghost small: { (k : ℕ) → 0 < occurs k (tree_of tree) → k < 256 },
}
