ghost use Rattle.std.specs.Prelude.{◌≡◌, ◌<◌, ◌≤◌, ◌++◌, ℕ, List, drop, length, IfOk, map};
ghost use Rattle.std.specs.List.{All, AllByRecursion};
ghost use Rattle.labelled_trees.specs.Trees.{Tree};
ghost use Rattle.normal_listing.specs.Words.{symbols};
ghost use Rattle.normal_listing.specs.WordTexts.{IsSpelt, SpellsTree, lines_text};

use crate::{SpellingWord, write_word};
use std::alloc::AllocError;
use symmetric_trees::GenTable;

/// Puts the texts of the trees that have these words behind `out`, each in a line of its own, until `out` has so many bytes
/// or no word is left; gives how many lines were put there. `AllocError` comes for want of memory alone; `out` may then hold
/// a part of the text.
pub fn write_some(
    table: &GenTable,
    words: &[SpellingWord],
    enough: usize,
    out: &mut Vec<u8>,
) -> Result<usize, AllocError>
    requires spell { All (SpellsTree table.now) words.now }
    ensures few { IfOk result (λ n. n ≤ length words.now) }
    ensures enough { IfOk result (λ n. n < length words.now → enough ≤ length out.new.items) }
    ensures text { (ts : List (Tree ℕ)) → AllByRecursion (IsSpelt table.now) ts → words.now ≡ map symbols ts
        → IfOk result (λ n. out.new.items ++ lines_text table.now (drop n ts) ≡ out.old.items ++ lines_text table.now ts) }
{
    for (at, word) in words.iter().enumerate() {
        if out.len() >= enough {
            return Ok(at);
        }
        write_word(table, *word, out)?;
        out.push(b'\n')?;
    }
    Ok(words.len())
}
