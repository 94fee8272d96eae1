ghost use Rattle.std.specs.Prelude.{ℕ, IsTrue};
ghost use Rattle.labelled_trees.specs.Labelled.{Fits};
ghost use Rattle.labelled_trees.specs.Meaning.{tree_of};
ghost use Rattle.shuffle_trees.specs.LabelLists.{arity_in};

use labelled_trees::Tree;
use shuffle_trees::Labels;

/// Whether each vertex has as many inputs as its label.
pub fn belongs(tree: &Tree, labels: &Labels) -> bool
    ensures { IsTrue result → Fits (arity_in labels.now) (tree_of tree.now) }
{
    match tree {
        Tree::Leaf(_) => true,
        Tree::Node(label, inputs) => {
            if *label >= labels.len() {
                return false;
            }
            if inputs.len() != labels.arity(*label) as usize {
                return false;
            }
            for input in inputs.as_slice() {
                if !belongs(input, labels) {
                    return false;
                }
            }
            true
        }
    }
}
