ghost use Rattle.std.specs.Prelude.{◌≡◌};
ghost use Rattle.labelled_trees.specs.Meaning.{tree_of};
ghost use Rattle.operad_ideals.specs.SpellingOrder.{OrderIsTotal, order};

use labelled_trees::Tree;
use std::cmp::Ordering;

/// Compares two trees in the spelling order: a leaf is before a vertex; two leaves are compared by number, two vertices by
/// the index of their generators, then by their inputs from left to right, where inputs that end first are before those
/// that go on. It takes any trees, and no memory.
pub fn spelling_order(one: &Tree, other: &Tree) -> Ordering
    ensures compared { result ≡ order (tree_of one.now) (tree_of other.now) }
{
    match one {
        Tree::Leaf(number) => match other {
            Tree::Leaf(compared) => number.cmp(compared),
            Tree::Node(_, _) => Ordering::Less,
        },
        Tree::Node(generator, inputs) => match other {
            Tree::Leaf(_) => Ordering::Greater,
            Tree::Node(compared, others) => {
                match generator.cmp(compared) {
                    Ordering::Equal => {}
                    unequal => return unequal,
                }
                for (at, input) in inputs.as_slice().iter().enumerate() {
                    let Some(against) = others.as_slice().get(at) else {
                        return Ordering::Greater;
                    };
                    match spelling_order(input, against) {
                        Ordering::Equal => {}
                        unequal => return unequal,
                    }
                }
                if inputs.len() < others.len() {
                    Ordering::Less
                } else {
                    Ordering::Equal
                }
            }
        },
    }
}

/// Law: the spelling order is a total order of trees.
pub fn spelling_order_is_total()
    ensures law { OrderIsTotal }
{}
