ghost use Rattle.std.specs.Prelude.{◌≡◌, ◌<◌, ◌++◌, ℕ, List, length, IfOk};
ghost use Rattle.labelled_trees.specs.Meaning.{tree_of};
ghost use Rattle.labelled_trees.specs.Trees as plain;
ghost use Rattle.normal_listing.specs.Words.{symbols};
ghost use Rattle.normal_listing.specs.WordTexts.{BeginsWithTree, IsSpelt, SpellsTree};

use crate::SpellingWord;
use labelled_trees::Tree;
use sqlite_items::Items;
use std::alloc::{AllocError, Global};
use symmetric_trees::GenTable;

// A tree, and what is behind its word.
#[derive(Drop)]
struct Front {
    tree: Tree,
    left: SpellingWord,
}

// The tree with whose word a word begins, and what is behind it.
fn read_front(alloc: Global, table: &GenTable, word: SpellingWord) -> Result<Front, AllocError>
    requires begins { BeginsWithTree table.now word }
    ensures read { (t : plain.Tree ℕ) (others : List ℕ) → IsSpelt table.now t → word ≡ symbols t ++ others
        → IfOk result (λ front. (tree_of front.tree ≡ t) × (front.left ≡ others)) }
    ensures shorter { IfOk result (λ front. length front.left < length word) }
{
    let symbol = word.first();
    let mut left = word.rest();
    if symbol < 10 {
        let tree = Tree::Leaf(symbol);
        return Ok(Front { tree, left });
    }
    let generator = u16::from(symbol) - 10;
    let arity = table.get(generator).arity;
    let mut inputs = Items::new(alloc);
    for _at in 0..arity {
        let front = read_front(alloc, table, left)?;
        left = front.left;
        inputs.push(front.tree)?;
    }
    let tree = Tree::Node(generator, inputs);
    Ok(Front { tree, left })
}

/// The tree that has this word. `AllocError` comes for want of memory alone.
pub fn read_word(alloc: Global, table: &GenTable, word: SpellingWord) -> Result<Tree, AllocError>
    requires spells { SpellsTree table.now word }
    ensures read { (t : plain.Tree ℕ) → IsSpelt table.now t → word ≡ symbols t → IfOk result (λ tree. tree_of tree ≡ t) }
{
    let front = read_front(alloc, table, word)?;
    Ok(front.tree)
}
