ghost use Rattle.std.specs.Prelude.{◌≡◌, ◌<◌, ◌++◌, ℕ, List, length, IfOk, OnOk, map};
ghost use Rattle.std.specs.List.{All, AllByRecursion};
ghost use Rattle.labelled_trees.specs.Trees.{Tree};
ghost use Rattle.presentation_text.specs.TreeText.{tree_text};
ghost use Rattle.normal_listing.specs.Words.{symbols};
ghost use Rattle.normal_listing.specs.WordTexts.{BeginsWithTree, IsSpelt, SpellsTree, lines_text};

use crate::SpellingWord;
use std::alloc::AllocError;
use symmetric_trees::GenTable;

// Puts the text of the tree with whose word a word begins behind `out`, and gives what is behind it.
fn write_front(
    table: &GenTable,
    word: SpellingWord,
    out: &mut Vec<u8>,
) -> Result<SpellingWord, AllocError>
    requires begins { BeginsWithTree table.now word }
    ensures text { (t : Tree ℕ) (others : List ℕ) → IsSpelt table.now t → word ≡ symbols t ++ others
        → IfOk result (λ left. (out.new.items ≡ out.old.items ++ tree_text table.now t) × (left ≡ others)) }
    ensures shorter { IfOk result (λ left. length left < length word) }
{
    let symbol = word.first();
    let mut left = word.rest();
    if symbol < 10 {
        out.push(b'0' + symbol)?;
        return Ok(left);
    }
    let generator = table.get(u16::from(symbol) - 10);
    out.extend_from_slice(generator.name.as_str().as_bytes())?;
    let mut mark = b'(';
    for _at in 0..generator.arity {
        out.push(mark)?;
        left = write_front(table, left, out)?;
        mark = b',';
    }
    out.push(b')')?;
    Ok(left)
}

/// Puts the text of the tree that has this word behind `out`, without the tree. `AllocError` comes for want of memory
/// alone; `out` may then hold a part of the text.
pub fn write_word(table: &GenTable, word: SpellingWord, out: &mut Vec<u8>) -> Result<(), AllocError>
    requires spells { SpellsTree table.now word }
    ensures text { (t : Tree ℕ) → IsSpelt table.now t → word ≡ symbols t
        → OnOk result (out.new.items ≡ out.old.items ++ tree_text table.now t) }
{
    let _rest = write_front(table, word, out)?;
    Ok(())
}

/// Puts the texts of the trees that have these words behind `out`, each in a line of its own. `AllocError` comes for want
/// of memory alone; `out` may then hold a part of the text.
pub fn write_words(
    table: &GenTable,
    words: &[SpellingWord],
    out: &mut Vec<u8>,
) -> Result<(), AllocError>
    requires spell { All (SpellsTree table.now) words.now }
    ensures text { (ts : List (Tree ℕ)) → AllByRecursion (IsSpelt table.now) ts → words.now ≡ map symbols ts
        → OnOk result (out.new.items ≡ out.old.items ++ lines_text table.now ts) }
{
    for word in words {
        write_word(table, *word, out)?;
        out.push(b'\n')?;
    }
    Ok(())
}
