ghost use Rattle.std.specs.Prelude.{ℕ, IfOk};
ghost use Rattle.shuffle_insertions.specs.ShuffleTrees.{IsShuffleTree};
ghost use Rattle.shuffle_trees.specs.LabelLists.{arity_in};

use common_multiples::{Multiple, multiples};
use presentation_text::Document;
use rows::{
    RowFail, belongs, end_line, shuffle_of, small_number_of, write_next, write_plain, write_text,
};
use shuffle_passage::labels_of;
use shuffle_trees::{Labels, STree};
use std::alloc::{AllocError, Global};
use tree_divisors::Place;

// The tree that a word spells, which is one over the labels with the leaves 1 to its arity.
fn pattern(alloc: Global, labels: &Labels, word: &String) -> Result<STree, RowFail>
    ensures tree { IfOk result (λ made. (m : ℕ) × IsShuffleTree (arity_in labels.now) m made) }
{
    let tree = shuffle_of(alloc, word)?;
    if !belongs(tree.shape(), labels) {
        return Err(RowFail::Refused);
    }
    match tree.arity() {
        Some(_) => Ok(tree),
        None => Err(RowFail::Refused),
    }
}

// Puts a semicolon and the numbers of the place's vertices behind `out`.
fn write_place(place: &Place, out: &mut Vec<u8>) -> Result<(), AllocError> {
    write_text(" ;", out)?;
    for vertex in place.vertices() {
        write_next(u64::from(*vertex), out)?;
    }
    Ok(())
}

// Writes the tree, and behind it both places.
fn write_multiple(multiple: &Multiple, out: &mut Vec<u8>) -> Result<(), AllocError> {
    write_plain(multiple.tree.shape(), out)?;
    write_place(&multiple.first, out)?;
    write_place(&multiple.second, out)?;
    end_line("", out)
}

// Writes each in a line; `none` where there is none.
fn write_multiples(found: &[Multiple], out: &mut Vec<u8>) -> Result<(), AllocError> {
    if found.is_empty() {
        return end_line("none", out);
    }
    for multiple in found {
        write_multiple(multiple, out)?;
    }
    Ok(())
}

// Writes the small common multiples of two trees over the labels, of the arity that stands behind the trees.
fn listed(
    alloc: Global,
    labels: &Labels,
    words: &[String],
    out: &mut Vec<u8>,
) -> Result<(), RowFail> {
    let [one, other, arity] = words else {
        return Err(RowFail::Refused);
    };
    let arity = small_number_of(arity)?;
    let one = pattern(alloc, labels, one)?;
    let other = pattern(alloc, labels, other)?;
    let found = multiples(alloc, labels, &one, &other, arity)?;
    Ok(write_multiples(found.as_slice(), out)?)
}

/// Answers the call of `common_multiples`. False where the name is another.
pub fn answer(
    alloc: Global,
    name: &str,
    words: &[String],
    document: &Document,
    out: &mut Vec<u8>,
) -> Result<bool, RowFail> {
    if name != "multiples" {
        return Ok(false);
    }
    listed(alloc, &labels_of(alloc, &document.gens)?, words, out)?;
    Ok(true)
}
