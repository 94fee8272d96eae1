ghost use Rattle.std.specs.Prelude.{◌≡◌, ℕ, List, map};
ghost use Rattle.std.specs.List.{AllByRecursion};
ghost use Rattle.labelled_trees.specs.Trees.{Tree};
ghost use Rattle.normal_listing.specs.Words.{HasFewGenerators, HasWord, symbols};
ghost use Rattle.normal_listing.specs.Sorting.{SortsTrees};

use crate::SpellingWord;

/// Sorts words; then the trees that have them are in spelling order.
pub fn sort_words(words: &mut Vec<SpellingWord>)
    ensures sorted { (arity : ℕ → ℕ) (ts : List (Tree ℕ)) → HasFewGenerators arity → AllByRecursion (HasWord arity) ts → words.old.items ≡ map symbols ts
        → SortsTrees ts words.new.items }
{
    words.sort_unstable();
}
