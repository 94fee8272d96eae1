ghost use Rattle.std.specs.Prelude.{IfOk};
ghost use Rattle.std.specs.List.{All};
ghost use Rattle.normal_listing.specs.WordTexts.{SpellsTree};

use labelled_trees::Tree;
use normal_listing::{NormalTrees, SpellingWord, read_word, word_of, write_some, write_words};
use presentation_text::write_number;
use rows::{RowFail, end_line, end_number, end_tree, number_of, tree_of};
use std::alloc::{AllocError, Global};
use symmetric_trees::{GenTable, arity_of};

// The word of a tree: a leaf from 1 to 9, or a tree over the table with the leaves 1 to n, up to 9.
fn word(table: &GenTable, tree: &Tree) -> Result<SpellingWord, RowFail>
    ensures spells { IfOk result (SpellsTree table.now) }
{
    if let Tree::Leaf(number) = tree {
        if *number == 0 || *number > 9 {
            return Err(RowFail::Refused);
        }
        return Ok(SpellingWord::symbol(*number));
    }
    // There are at most twelve generators, so that each has a symbol.
    let _generators = table.len();
    match arity_of(tree, table) {
        Some(leaves) if leaves <= 9 => Ok(word_of(tree)),
        _ => Err(RowFail::Refused),
    }
}

// The word of the tree that a text spells.
fn word_read(alloc: Global, table: &GenTable, text: &String) -> Result<SpellingWord, RowFail>
    ensures spells { IfOk result (SpellsTree table.now) }
{
    word(table, &tree_of(alloc, text)?)
}

// The words of trees.
fn words_of(alloc: Global, table: &GenTable, given: &[String]) -> Result<Vec<SpellingWord>, RowFail>
    ensures spell { IfOk result (λ words. All (SpellsTree table.now) words.items) }
{
    let mut words = Vec::new(alloc);
    for text in given {
        words.push(word_read(alloc, table, text)?)?;
    }
    Ok(words)
}

// The text of the trees.
fn write(
    alloc: Global,
    table: &GenTable,
    given: &[String],
    out: &mut Vec<u8>,
) -> Result<(), RowFail> {
    Ok(write_words(table, &words_of(alloc, table, given)?, out)?)
}

// Writes a text, and then how many lines it has.
fn write_lines(text: &[u8], lines: usize, out: &mut Vec<u8>) -> Result<(), RowFail> {
    out.extend_from_slice(text)?;
    Ok(end_number(lines as u64, out)?)
}

// The first lines of the text, until there are as many bytes as `enough` says, and how many lines these are.
fn write_enough(
    alloc: Global,
    table: &GenTable,
    words: &[SpellingWord],
    enough: usize,
    out: &mut Vec<u8>,
) -> Result<(), RowFail>
    requires spell { All (SpellsTree table.now) words.now }
{
    let mut text = Vec::new(alloc);
    let lines = write_some(table, words, enough, &mut text)?;
    write_lines(&text, lines, out)
}

// The same, where the first word says how many bytes are enough.
fn write_first(
    alloc: Global,
    table: &GenTable,
    given: &[String],
    out: &mut Vec<u8>,
) -> Result<(), RowFail> {
    let [enough, given @ ..] = given else {
        return Err(RowFail::Refused);
    };
    let enough = number_of(enough)? as usize;
    write_enough(alloc, table, &words_of(alloc, table, given)?, enough, out)
}

// The tree that is read of a word.
fn read_one(
    alloc: Global,
    table: &GenTable,
    word: SpellingWord,
    out: &mut Vec<u8>,
) -> Result<(), AllocError>
    requires spells { SpellsTree table.now word }
{
    end_tree(&read_word(alloc, table, word)?, out)
}

// The trees that are read of words.
fn read_all(
    alloc: Global,
    table: &GenTable,
    words: &[SpellingWord],
    out: &mut Vec<u8>,
) -> Result<(), RowFail>
    requires spell { All (SpellsTree table.now) words.now }
{
    for word in words {
        read_one(alloc, table, *word, out)?;
    }
    Ok(())
}

// The trees that are read of the words of trees.
fn read(
    alloc: Global,
    table: &GenTable,
    given: &[String],
    out: &mut Vec<u8>,
) -> Result<(), RowFail> {
    read_all(alloc, table, &words_of(alloc, table, given)?, out)
}

// In a line how many trees are left, and the next one, which is taken.
fn take(trees: &mut NormalTrees, out: &mut Vec<u8>) -> Result<(), RowFail>
    requires spell { All (SpellsTree trees.old.table.now) trees.old.words.now }
    ensures spell { IfOk result (λ _. All (SpellsTree trees.new.table.now) trees.new.words.now) }
{
    write_number(trees.left() as u64, out)?;
    out.push(b' ')?;
    match trees.next() {
        Some(tree) => Ok(end_tree(&tree?, out)?),
        None => Ok(end_line("none", out)?),
    }
}

// The trees one after the other, so many, and what comes behind.
fn take_all(trees: &mut NormalTrees, count: usize, out: &mut Vec<u8>) -> Result<(), RowFail>
    requires spell { All (SpellsTree trees.old.table.now) trees.old.words.now }
{
    for _at in 0..=count {
        take(trees, out)?;
    }
    Ok(())
}

// The trees one after the other, and what comes behind the last.
fn iterate(
    alloc: Global,
    table: &GenTable,
    given: &[String],
    out: &mut Vec<u8>,
) -> Result<(), RowFail> {
    let words = words_of(alloc, table, given)?;
    take_all(
        &mut NormalTrees::new(alloc, table, &words),
        given.len(),
        out,
    )
}

/// Answers the calls of `normal_listing` on words, for those of the trees that are given. False where it has none of this name.
pub fn answer(
    alloc: Global,
    name: &str,
    given: &[String],
    table: &GenTable,
    out: &mut Vec<u8>,
) -> Result<bool, RowFail> {
    match name {
        "write_words" => write(alloc, table, given, out)?,
        "write_some" => write_first(alloc, table, given, out)?,
        "read_word" => read(alloc, table, given, out)?,
        "NormalTrees" => iterate(alloc, table, given, out)?,
        _ => return Ok(false),
    }
    Ok(true)
}
