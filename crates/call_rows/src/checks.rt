ghost use Rattle.std.specs.Prelude.{◌<◌, ◌≤◌, ℕ, IsTrue};
ghost use Rattle.std.specs.List.{All};
ghost use Rattle.labelled_trees.specs.Labelled.{Fits};
ghost use Rattle.labelled_trees.specs.Leaves.{AllLeaves};
ghost use Rattle.labelled_trees.specs.Meaning.{tree_of};
ghost use Rattle.shuffle_trees.specs.LabelLists.{arity_in};
ghost use Rattle.symmetric_sums.specs.Terms.{FitsOver};

use labelled_trees::Tree;
use prime_field::Field;
use rows::belongs;
use shuffle_trees::{Labels, STree};
use symmetric_sums::Sum;
use symmetric_trees::GenTable;

/// Whether each leaf number is from 1 to `most`.
pub fn is_within(tree: &Tree, most: usize) -> bool
    ensures { IsTrue result → AllLeaves (tree_of tree.now) (λ i. (0 < i) × (i ≤ most)) }
{
    match tree {
        Tree::Leaf(number) => *number > 0 && *number as usize <= most,
        Tree::Node(_, inputs) => {
            for input in inputs.as_slice() {
                if !is_within(input, most) {
                    return false;
                }
            }
            true
        }
    }
}

/// Whether the trees belong to the labels.
pub fn all_belong(trees: &[STree], labels: &Labels) -> bool
    ensures { IsTrue result → All (Fits (arity_in labels.now)) trees.now }
{
    for tree in trees {
        if !belongs(tree.shape(), labels) {
            return false;
        }
    }
    true
}

/// Whether the sums fit a field and a table.
pub fn all_fit(field: Field, table: &GenTable, sums: &[Sum]) -> bool
    ensures { IsTrue result → All (FitsOver field table.now) sums.now }
{
    for sum in sums {
        if !sum.fits(field, table) {
            return false;
        }
    }
    true
}
