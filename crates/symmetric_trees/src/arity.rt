ghost use Rattle.std.specs.Prelude.{◌≡◌, ◌≢◌, ◌↔◌, ◌≤◌, ◌<◌, ℕ, IfNone, IfSome, IsTrue, length, slice_index};
ghost use Rattle.labelled_trees.specs.Meaning.{tree_of};
ghost use Rattle.labelled_trees.specs.Labelled.{IsNumbered};
ghost use Rattle.labelled_trees.specs.Leaves.{leaf_count};
ghost use Rattle.operad_ideals.specs.Laws.{arity};
ghost use Rattle.symmetric_trees.specs.Generators.{parts_at};
ghost use Rattle.symmetric_trees.specs.Trees as spec;

use crate::GenTable;
use labelled_trees::Tree;

// How often each number stands at a leaf, and how many leaves there are, each up to the last value of its type.
#[derive(Drop)]
struct LeafCounts {
    times: [u8; 256],
    total: u32,
}

impl LeafCounts {
    ghost use Rattle.symmetric_trees.specs.LeafCounts.{Counted};

    // Counts the leaves of a tree.
    fn add(&mut self, tree: &Tree)
        ensures { Counted self.old self.new (tree_of tree.now) }
    {
        match tree {
            Tree::Leaf(number) => {
                let times = &mut self.times[*number as usize];
                *times = times.saturating_add(1);
                self.total = self.total.saturating_add(1);
            }
            Tree::Node(_, inputs) => {
                for input in inputs.as_slice() {
                    self.add(input);
                }
            }
        }
    }
}

// Whether generator `index` is in the table and has this number of inputs.
fn has_arity(table: &GenTable, index: u16, count: usize) -> bool
    ensures { IsTrue result ↔ ((2 ≤ arity (parts_at table.now) index) × (count ≡ arity (parts_at table.now) index)) }
{
    index < table.len() && count == table.get(index).arity as usize
}

// Whether each vertex names a generator of the table and has as many inputs as its arity.
fn fits(tree: &Tree, table: &GenTable) -> bool
    ensures { IsTrue result ↔ spec.Fits table.now (tree_of tree.now) }
{
    match tree {
        Tree::Leaf(_) => true,
        Tree::Node(generator, inputs) => {
            if !has_arity(table, *generator, inputs.len()) {
                return false;
            }
            for input in inputs.as_slice() {
                if !fits(input, table) {
                    return false;
                }
            }
            true
        }
    }
}

/// The number `n` of a tree's leaves, up to 255, where they carry 1 to `n`, each once. `None` exactly where they don't.
/// The generators and the numbers of inputs may be any; so a tree without leaves has 0.
pub fn numbered(tree: &Tree) -> Option<u8>
    ensures numbered { IfSome result (λ n. IsNumbered n (tree_of tree.now)) }
    ensures none { IfNone result ((n : ℕ) → IsNumbered n (tree_of tree.now) → ⊥) }
{
    let mut counts = LeafCounts {
        times: [0; 256],
        total: 0,
    };
    counts.add(tree);
    if counts.total > 255 {
        return None;
    }
    let leaves = counts.total as u8;
    for label in 1..=leaves {
        if counts.times[label as usize] != 1 {
            return None;
        }
    }
    Some(leaves)
}

/// The arity of a tree over a table: the number `n` of its leaves, from 1 to 255, where each vertex names a generator
/// of the table and has as many inputs as its arity, and the leaves carry 1 to `n`, each once.
/// `None` exactly where one of these fails.
pub fn arity_of(tree: &Tree, table: &GenTable) -> Option<u8>
    ensures labelled { IfSome result (λ n. spec.IsLabelled table.now n (tree_of tree.now)) }
    ensures none { IfNone result ((n : ℕ) → spec.IsLabelled table.now n (tree_of tree.now) → ⊥) }
{
    if !fits(tree, table) {
        return None;
    }
    numbered(tree)
}
