ghost use Rattle.std.specs.Prelude.{◌≡◌, IsTrue};
ghost use Rattle.shuffle_sums.specs.Shelves.{FitsShelf};

use crate::sums::is_over;
use presentation_text::{Document, write_number};
use rows::{RowFail, end_line, most_leaves, shuffle_of, write_line, write_next, write_text};
use shuffle_passage::labels_of;
use shuffle_sums::Shelf;
use shuffle_trees::{Key, Labels, STree};
use std::alloc::Global;

/// Whether the tree is one over the labels, for which the shelf was made, and has no more leaves than fit there.
pub fn fits_shelf(shelf: &Shelf, labels: &Labels, tree: &STree) -> bool
    requires own { shelf.now.labels ≡ labels.now }
    ensures { IsTrue result → FitsShelf shelf.now tree.now }
{
    let Some(arity) = tree.arity() else {
        return false;
    };
    if arity > shelf.most() {
        return false;
    }
    is_over(labels, arity, tree)
}

// Writes the letters of a word of a key in a line.
fn write_word(letters: &[u16], out: &mut Vec<u8>) -> Result<(), RowFail> {
    write_text("word", out)?;
    for letter in letters {
        write_next(u64::from(*letter), out)?;
    }
    Ok(end_line("", out)?)
}

// The words of the leaves of a key, each in a line, and its leaf row.
fn write_key(key: &Key, out: &mut Vec<u8>) -> Result<(), RowFail> {
    for word in key.words() {
        write_word(word.as_slice(), out)?;
    }
    write_text("row ", out)?;
    Ok(write_line(key.row(), out)?)
}

// Shelves the tree twice: both ids, and the key.
fn write_shelved(
    alloc: Global,
    labels: &Labels,
    shelf: &mut Shelf,
    tree: &STree,
    out: &mut Vec<u8>,
) -> Result<(), RowFail>
    requires own { shelf.old.labels ≡ labels.now }
{
    if !fits_shelf(shelf, labels, tree) {
        return Err(RowFail::Refused);
    }
    let first = shelf.shelve(alloc, tree)?;
    let again = shelf.shelve(alloc, tree)?;
    write_number(first.index() as u64, out)?;
    write_next(again.index() as u64, out)?;
    end_line("", out)?;
    match shelf.key(again) {
        Some(key) => write_key(key, out),
        None => Err(RowFail::Refused),
    }
}

// The same in a shelf for these labels.
fn write_first(
    alloc: Global,
    labels: &Labels,
    tree: &STree,
    out: &mut Vec<u8>,
) -> Result<(), RowFail> {
    let mut shelf = Shelf::new(alloc, labels, most_leaves(labels))?;
    write_shelved(alloc, labels, &mut shelf, tree, out)
}

// The same in a shelf for the labels of the document.
fn write_tree(
    alloc: Global,
    document: &Document,
    tree: &STree,
    out: &mut Vec<u8>,
) -> Result<(), RowFail> {
    write_first(alloc, &labels_of(alloc, &document.gens)?, tree, out)
}

/// Shelves the tree twice: its id, and its id again, and then its key.
pub fn shelve(
    alloc: Global,
    document: &Document,
    words: &[String],
    out: &mut Vec<u8>,
) -> Result<(), RowFail> {
    let [word] = words else {
        return Err(RowFail::Refused);
    };
    write_tree(alloc, document, &shuffle_of(alloc, word)?, out)
}
