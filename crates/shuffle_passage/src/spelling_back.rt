ghost use Rattle.std.specs.Prelude.{◌≡◌, ◌≤◌, ◌<◌, ℕ, IfOk, length};
ghost use Rattle.labelled_trees.specs.Labelled as labelled;
ghost use Rattle.labelled_trees.specs.Meaning.{tree_of};
ghost use Rattle.operad_ideals.specs.Spelling.{IsSorted};
ghost use Rattle.shuffle_insertions.specs.ShuffleTrees.{IsShuffle};
ghost use Rattle.shuffle_transfer.specs.Labels.{inputs_of, symmetric_tree};
ghost use Rattle.symmetric_trees.specs.Generators.{parts_at, generators_of};
ghost use Rattle.symmetric_trees.specs.Trees.{IsLabelled};
ghost use Rattle.shuffle_passage.specs.Words as spec;
ghost use Rattle.shuffle_passage.specs.WordTables.{words_from};
ghost use Rattle.shuffle_passage.specs.Passage.{IsFormOf};

use crate::words::{Words, find_place, first_place, generator_of, words_of};
use shuffle_trees::{STree, Shape};
use sqlite_items::Items;
use std::alloc::{AllocError, Global};
use symmetric_trees::{GenTable, Sign, Tree};

// The inputs in the order of the word with this number.
fn arranged(
    alloc: Global,
    bounds: &[bool],
    number: u16,
    inputs: Items<Tree>,
) -> Result<Items<Tree>, AllocError>
    requires few { length bounds.now ≤ 6 }
    requires same { length inputs ≡ length bounds.now }
    requires held { number < spec.endings bounds.now 0 }
    ensures { IfOk result (λ made. made ≡ spec.chosen (Tree.Leaf 0) inputs (spec.digits_of bounds.now 0 number)) }
{
    let mut made = Items::from_vec(Vec::with_capacity(alloc, bounds.len())?);
    let mut rest = inputs;
    let mut left = bounds;
    let mut below = 0;
    let mut over = number;
    while let [bound, later @ ..] = left {
        let (place, next) = find_place(later, first_place(*bound, below), over);
        made.push(rest.remove(place))?;
        below = place;
        over = next;
        left = later;
    }
    Ok(made)
}

// The tree of a shuffle tree over the labels of the table.
pub fn spell_back(
    alloc: Global,
    table: &GenTable,
    words: &[Words],
    tree: &Shape,
) -> Result<Tree, AllocError>
    requires words { words.now ≡ words_from 0 table.now }
    requires fits { labelled.Fits (inputs_of (generators_of table.now)) (tree_of tree.now) }
    ensures tree { IfOk result (λ made. tree_of made ≡ symmetric_tree (generators_of table.now) (tree_of tree.now)) }
{
    match tree {
        Shape::Leaf(number) => Ok(Tree::Leaf(*number)),
        Shape::Node(label, inputs) => {
            let mut made = Items::from_vec(Vec::with_capacity(alloc, inputs.len())?);
            for input in inputs.as_slice() {
                made.push(spell_back(alloc, table, words, input)?)?;
            }
            let generator = generator_of(table, words, *label);
            let own = &words[generator as usize];
            let ordered = arranged(alloc, own.bounds.as_slice(), *label - own.first, made)?;
            Ok(Tree::Node(generator, ordered))
        }
    }
}

/// The sorted spelling that has this shuffle form: at each vertex the generator of its label, and the inputs in the order of
/// the label's word. A tree whose leaves aren't 1 to `n` is spelled in the same way. The tree belongs to the table's labels:
/// each vertex has as many inputs as its label. Where the leaves are 1 to `n`, `to_shuffle` of the answer gives `Plus` and
/// the same shuffle tree. `AllocError` comes for want of memory alone.
pub fn to_symmetric(alloc: Global, table: &GenTable, tree: &STree) -> Result<Tree, AllocError>
    requires belongs { labelled.Fits (inputs_of (generators_of table.now)) tree.now }
    ensures tree { IfOk result (λ made. tree_of made ≡ symmetric_tree (generators_of table.now) tree.now) }
    ensures sorted { IfOk result (λ made. IsSorted (parts_at table.now) (tree_of made)) }
    ensures back { (n : ℕ) → IsShuffle n tree.now → IfOk result (λ made. IsLabelled table.now n (tree_of made) × IsFormOf table.now (tree_of made) Sign.Plus tree.now) }
{
    let words = words_of(alloc, table)?;
    spell_back(alloc, table, words.as_slice(), tree.shape())
}
