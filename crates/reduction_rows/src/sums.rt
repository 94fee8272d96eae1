ghost use Rattle.std.specs.Prelude.{◌≡◌, ◌<◌, IfOk, IsTrue, OnOk};
ghost use Rattle.std.specs.List.{All};
ghost use Rattle.shuffle_insertions.specs.ShuffleTrees.{IsShuffleTree};
ghost use Rattle.shuffle_trees.specs.LabelLists.{arity_in};
ghost use Rattle.shuffle_sums.specs.Settings.{compares, field_of, labels_of};
ghost use Rattle.shuffle_sums.specs.Shelves.{IsShelf, KeepsShelf};
ghost use Rattle.shuffle_sums.specs.Sums.{AreTrees, FallsBy, HaveKeys};

use path_orders::TreeOrder;
use presentation_text::write_number;
use rows::{RowFail, belongs, end_tree, number_of, shuffle_of};
use shuffle_sums::{SSum, Setting, Shelf};
use shuffle_trees::{Labels, STree};
use sqlite_items::Items;
use std::alloc::Global;

/// Whether the tree is one over the labels with the leaves 1 to `arity`.
pub fn is_over(labels: &Labels, arity: u8, tree: &STree) -> bool
    ensures { IsTrue result → IsShuffleTree (arity_in labels.now) arity tree.now }
{
    if !belongs(tree.shape(), labels) {
        return false;
    }
    match tree.arity() {
        Some(leaves) => leaves == arity,
        None => false,
    }
}

// Whether the numbers are residues, and the trees such trees.
fn are_over(labels: &Labels, prime: u32, arity: u8, terms: &[(u32, STree)]) -> bool
    ensures { IsTrue result → All (λ x. (x.0 < prime) × IsShuffleTree (arity_in labels.now) arity x.1) terms.now }
{
    for term in terms {
        if term.0 >= prime {
            return false;
        }
        if !is_over(labels, arity, &term.1) {
            return false;
        }
    }
    true
}

// The arity of the first tree, if it has one; else 0.
fn first_arity(terms: &[(u32, STree)]) -> u8 {
    match terms {
        [first, ..] => first.1.arity().unwrap_or(0),
        [] => 0,
    }
}

// Puts the term of a residue and a tree behind the others.
fn push_term(
    alloc: Global,
    terms: &mut Items<(u32, STree)>,
    coef: &String,
    tree: &String,
) -> Result<(), RowFail> {
    let coef = number_of(coef)?;
    terms.push((coef, shuffle_of(alloc, tree)?))?;
    Ok(())
}

// The terms that words spell: for each a residue and a tree.
fn spelled(alloc: Global, words: &[String]) -> Result<Items<(u32, STree)>, RowFail> {
    if words.len() % 2 == 1 {
        return Err(RowFail::Refused);
    }
    let mut terms = Items::new(alloc);
    for at in 0..words.len() / 2 {
        push_term(alloc, &mut terms, &words[2 * at], &words[2 * at + 1])?;
    }
    Ok(terms)
}

// The sum of the terms. `Refused` where a number is no residue, or a tree none over the labels with the leaves 1 to `arity`.
fn sum_of<O: TreeOrder>(
    alloc: Global,
    setting: &Setting<O>,
    shelf: &mut Shelf,
    arity: u8,
    terms: &[(u32, STree)],
) -> Result<SSum<O>, RowFail>
    requires own { shelf.old.labels ≡ labels_of setting.now }
    ensures falls { IfOk result (FallsBy (compares O.weights O.by_keys setting.now) (field_of setting.now) shelf.new) }
    ensures trees { IfOk result (AreTrees shelf.new arity) }
    ensures keeps { OnOk result (KeepsShelf shelf.old shelf.new) }
    ensures shelf { OnOk result (IsShelf shelf.new) }
{
    if arity > shelf.most() {
        return Err(RowFail::Refused);
    }
    if !are_over(setting.labels(), setting.field().prime(), arity, terms) {
        return Err(RowFail::Refused);
    }
    Ok(SSum::from_sum(alloc, setting, shelf, terms)?)
}

/// The sum of the terms that words spell, whose trees have this arity.
pub fn sum_of_arity<O: TreeOrder>(
    alloc: Global,
    setting: &Setting<O>,
    shelf: &mut Shelf,
    arity: u8,
    words: &[String],
) -> Result<SSum<O>, RowFail>
    requires own { shelf.old.labels ≡ labels_of setting.now }
    ensures falls { IfOk result (FallsBy (compares O.weights O.by_keys setting.now) (field_of setting.now) shelf.new) }
    ensures trees { IfOk result (AreTrees shelf.new arity) }
    ensures keeps { OnOk result (KeepsShelf shelf.old shelf.new) }
    ensures shelf { OnOk result (IsShelf shelf.new) }
{
    let terms = spelled(alloc, words)?;
    sum_of(alloc, setting, shelf, arity, terms.as_slice())
}

/// The sum of the terms that words spell, whose trees have the arity of the first.
pub fn spelled_sum<O: TreeOrder>(
    alloc: Global,
    setting: &Setting<O>,
    shelf: &mut Shelf,
    words: &[String],
) -> Result<SSum<O>, RowFail>
    requires own { shelf.old.labels ≡ labels_of setting.now }
    ensures falls { IfOk result (FallsBy (compares O.weights O.by_keys setting.now) (field_of setting.now) shelf.new) }
    ensures keeps { OnOk result (KeepsShelf shelf.old shelf.new) }
    ensures shelf { OnOk result (IsShelf shelf.new) }
{
    let terms = spelled(alloc, words)?;
    let arity = first_arity(terms.as_slice());
    sum_of(alloc, setting, shelf, arity, terms.as_slice())
}

// Writes each term in a line: its residue, and its tree.
fn write_spelled(terms: &[(u32, STree)], out: &mut Vec<u8>) -> Result<(), RowFail> {
    for term in terms {
        write_number(u64::from(term.0), out)?;
        out.push(b' ')?;
        end_tree(term.1.shape(), out)?;
    }
    Ok(())
}

/// Writes each term of the sum in a line: its residue, and its tree.
pub fn write_sum<O: TreeOrder>(
    alloc: Global,
    shelf: &Shelf,
    sum: &SSum<O>,
    out: &mut Vec<u8>,
) -> Result<(), RowFail>
    requires stands { HaveKeys shelf.now sum.now }
{
    write_spelled(sum.to_sum(alloc, shelf)?.as_slice(), out)
}
