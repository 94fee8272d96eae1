ghost use Rattle.std.specs.Prelude.{◌≡◌, ℕ, List, IfOk};
ghost use Rattle.labelled_trees.specs.Trees.{Tree};
ghost use Rattle.modular_sums.specs.Lists.{Mem};
ghost use Rattle.shuffle_insertions.specs.ShuffleTrees.{IsShuffle};
ghost use Rattle.shuffle_places.specs.Places.{IsPlace};
ghost use Rattle.shuffle_sums.specs.Settings.{compares, field_of, labels_of};
ghost use Rattle.shuffle_sums.specs.Sums.{FallsBy};
ghost use Rattle.common_multiples.specs.declared.families.Multiple.{Multiple};
ghost use Rattle.common_multiples.specs.SElements.{HasLeadAt};

use crate::adding::plus_of;
use crate::shelves::fits_shelf;
use crate::sums::{spelled_sum, write_sum};
use common_multiples::{Multiple, multiples, s_element};
use path_orders::TreeOrder;
use rows::{RowFail, end_line, small_number_of};
use shuffle_sums::{SSum, Setting, Shelf};
use shuffle_trees::STree;
use std::alloc::Global;

// The leading tree of a sum with the leading coefficient 1.
fn lead_of<O: TreeOrder>(
    alloc: Global,
    setting: &Setting<O>,
    shelf: &Shelf,
    sum: &SSum<O>,
) -> Result<STree, RowFail>
    requires falls { FallsBy (compares O.weights O.by_keys setting.now) (field_of setting.now) shelf.now sum.now }
    ensures lead { IfOk result (λ lead. (t : Tree ℕ) (place : List ℕ) → IsPlace t place lead → HasLeadAt shelf.now t place sum.now) }
    ensures shuffle { IfOk result (λ lead. (n : ℕ) × IsShuffle n lead) }
{
    let _ = setting.field();
    match sum.terms() {
        [first, ..] => {
            if first.coef != 1 {
                return Err(RowFail::Refused);
            }
            Ok(shelf.store().tree_of(alloc, first.tree)?)
        }
        [] => Err(RowFail::Refused),
    }
}

// The small common multiples of this arity of the leading trees of two sums.
fn multiples_of<O: TreeOrder>(
    alloc: Global,
    setting: &Setting<O>,
    shelf: &Shelf,
    one: &SSum<O>,
    other: &SSum<O>,
    arity: u8,
) -> Result<Vec<Multiple>, RowFail>
    requires one { FallsBy (compares O.weights O.by_keys setting.now) (field_of setting.now) shelf.now one.now }
    requires other { FallsBy (compares O.weights O.by_keys setting.now) (field_of setting.now) shelf.now other.now }
    ensures first { IfOk result (λ found. (m : Multiple) → Mem m found.items → HasLeadAt shelf.now m.tree m.first one.now) }
    ensures second { IfOk result (λ found. (m : Multiple) → Mem m found.items → HasLeadAt shelf.now m.tree m.second other.now) }
{
    let first = lead_of(alloc, setting, shelf, one)?;
    let second = lead_of(alloc, setting, shelf, other)?;
    let found = multiples(alloc, setting.labels(), &first, &second, arity)?;
    Ok(found)
}

// Writes the S-element at this common multiple.
fn write_at<O: TreeOrder>(
    alloc: Global,
    setting: &Setting<O>,
    shelf: &mut Shelf,
    one: &SSum<O>,
    other: &SSum<O>,
    multiple: &Multiple,
    out: &mut Vec<u8>,
) -> Result<(), RowFail>
    requires labels { shelf.old.labels ≡ labels_of setting.now }
    requires one { FallsBy (compares O.weights O.by_keys setting.now) (field_of setting.now) shelf.old one.now }
    requires other { FallsBy (compares O.weights O.by_keys setting.now) (field_of setting.now) shelf.old other.now }
    requires first { HasLeadAt shelf.old multiple.now.tree multiple.now.first one.now }
    requires second { HasLeadAt shelf.old multiple.now.tree multiple.now.second other.now }
{
    if !fits_shelf(shelf, setting.labels(), &multiple.tree) {
        return Err(RowFail::Refused);
    }
    let sum = s_element(alloc, setting, shelf, one, other, multiple)?;
    write_sum(alloc, shelf, &sum, out)
}

// Writes the S-element at the first of the common multiples, or `none` where there are none.
fn write_first<O: TreeOrder>(
    alloc: Global,
    setting: &Setting<O>,
    shelf: &mut Shelf,
    one: &SSum<O>,
    other: &SSum<O>,
    found: &[Multiple],
    out: &mut Vec<u8>,
) -> Result<(), RowFail>
    requires labels { shelf.old.labels ≡ labels_of setting.now }
    requires one { FallsBy (compares O.weights O.by_keys setting.now) (field_of setting.now) shelf.old one.now }
    requires other { FallsBy (compares O.weights O.by_keys setting.now) (field_of setting.now) shelf.old other.now }
    requires first { (m : Multiple) → Mem m found.now → HasLeadAt shelf.old m.tree m.first one.now }
    requires second { (m : Multiple) → Mem m found.now → HasLeadAt shelf.old m.tree m.second other.now }
{
    match found {
        [multiple, ..] => write_at(alloc, setting, shelf, one, other, multiple, out),
        [] => Ok(end_line("none", out)?),
    }
}

// Writes the S-element at the first of the small common multiples of this arity.
fn write_s_element<O: TreeOrder>(
    alloc: Global,
    setting: &Setting<O>,
    shelf: &mut Shelf,
    one: &SSum<O>,
    other: &SSum<O>,
    arity: u8,
    out: &mut Vec<u8>,
) -> Result<(), RowFail>
    requires labels { shelf.old.labels ≡ labels_of setting.now }
    requires one { FallsBy (compares O.weights O.by_keys setting.now) (field_of setting.now) shelf.old one.now }
    requires other { FallsBy (compares O.weights O.by_keys setting.now) (field_of setting.now) shelf.old other.now }
{
    let found = multiples_of(alloc, setting, shelf, one, other, arity)?;
    write_first(alloc, setting, shelf, one, other, &found, out)
}

// The S-element of the sums that words spell.
fn write_sums<O: TreeOrder>(
    alloc: Global,
    setting: &Setting<O>,
    shelf: &mut Shelf,
    arity: u8,
    ones: &[String],
    others: &[String],
    out: &mut Vec<u8>,
) -> Result<(), RowFail>
    requires own { shelf.old.labels ≡ labels_of setting.now }
{
    let one = spelled_sum(alloc, setting, shelf, ones)?;
    let other = spelled_sum(alloc, setting, shelf, others)?;
    write_s_element(alloc, setting, shelf, &one, &other, arity, out)
}

/// The S-element of two sums, those of the terms before and behind `+`, at the first small common multiple of their leading
/// trees of the arity that the first word says, term by term; `none` where there is no such multiple.
pub fn s_element_of<O: TreeOrder>(
    alloc: Global,
    setting: &Setting<O>,
    shelf: &mut Shelf,
    words: &[String],
    out: &mut Vec<u8>,
) -> Result<(), RowFail>
    requires own { shelf.old.labels ≡ labels_of setting.now }
{
    let [arity, terms @ ..] = words else {
        return Err(RowFail::Refused);
    };
    let arity = small_number_of(arity)?;
    let (ones, behind) = terms.split_at(plus_of(terms));
    let [_, others @ ..] = behind else {
        return Err(RowFail::Refused);
    };
    write_sums(alloc, setting, shelf, arity, ones, others, out)
}
