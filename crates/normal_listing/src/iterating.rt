ghost use Rattle.std.specs.Prelude.{◌≡◌, length};
ghost use Rattle.std.specs.Iterator.{at_most};
ghost use Rattle.std.specs.List.{All};
ghost use Rattle.normal_listing.specs.WordTexts.{SpellsTree};
ghost use Rattle.normal_listing.specs.Trees.{GivesNext};

use crate::{SpellingWord, read_word};
use labelled_trees::Tree;
use std::alloc::{AllocError, Global};
use symmetric_trees::GenTable;

/// The trees of words over a table, in the order of the words; where memory runs out, an error in place of a tree.
#[derive(Drop)]
pub struct NormalTrees<'a> {
    alloc: Global,
    table: &'a GenTable,
    words: &'a [SpellingWord],
}

impl<'a> NormalTrees<'a> {
    /// The trees of these words.
    pub fn new(alloc: Global, table: &'a GenTable, words: &'a [SpellingWord]) -> NormalTrees<'a>
        ensures table { result.table.now ≡ table.now }
        ensures words { result.words.now ≡ words.now }
    {
        NormalTrees {
            alloc,
            table,
            words,
        }
    }

    /// How many trees are left.
    pub fn left(&self) -> usize
        ensures left { result ≡ length self.now.words.now }
    {
        self.words.len()
    }
}

impl<'a> Iterator for NormalTrees<'a> {
    type Item = Result<Tree, AllocError>;

    ghost can_next = { λ s. All (SpellsTree s.table.now) s.words.now };

    ghost next_gives = { λ s r t. (t.table.now ≡ s.table.now) × GivesNext s.table.now s.words.now r t.words.now };

    ghost remaining = { λ s. at_most (length s.words.now) };

    fn next(&mut self) -> Option<Result<Tree, AllocError>> {
        let (word, others) = self.words.split_first()?;
        self.words = others;
        Some(read_word(self.alloc, self.table, *word))
    }
}
