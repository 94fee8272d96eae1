ghost use Rattle.std.specs.Prelude.{◌≡◌};
ghost use Rattle.labelled_trees.specs.Meaning.{tree_of};
ghost use Rattle.normal_listing.specs.Places.{IsShortWord};
ghost use Rattle.normal_listing.specs.Words.{RenamedTrees, WordsSpell, symbols};

use crate::SpellingWord;
use labelled_trees::Tree;

/// The word of a tree.
pub fn word_of(tree: &Tree) -> SpellingWord
    requires word { IsShortWord (symbols (tree_of tree.now)) }
    ensures word { result ≡ symbols (tree_of tree.now) }
{
    match tree {
        Tree::Leaf(number) => SpellingWord::symbol(*number),
        Tree::Node(generator, inputs) => {
            let mut word = SpellingWord::symbol(10 + *generator as u8);
            for input in inputs.as_slice() {
                word = word.then(word_of(input));
            }
            word
        }
    }
}

/// Law: trees have words, which compare as the trees do, and no two have one word.
pub fn words_spell()
    ensures law { WordsSpell }
{}

/// Law: the word of a tree with other leaves is the word renamed.
pub fn renamed_trees()
    ensures law { RenamedTrees }
{}
