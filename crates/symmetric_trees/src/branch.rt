ghost use Rattle.std.specs.Prelude.{◌≡◌, ◌≤◌};
ghost use Rattle.labelled_trees.specs.Meaning.{tree_of};
ghost use Rattle.operad_ideals.specs.Spelling.{least_leaf};

use crate::parts::Keyed;
use labelled_trees::Tree;

// A spelled tree with its least leaf, by which it is sorted.
#[derive(Drop)]
pub struct Branch {
    pub least: u8,
    pub tree: Tree,
    ghost small: { least ≤ 255 },
    ghost least_is: { least ≡ least_leaf (tree_of tree) },
}

impl Keyed for Branch {
    ghost key_of = { λ branch. branch.least };

    fn key(&self) -> u8 {
        self.least
    }
}
