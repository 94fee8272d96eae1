ghost use Rattle.std.specs.Prelude.{◌≡◌, IfOk};
ghost use Rattle.shuffle_places.specs.Connected.{IsConnected};
ghost use Rattle.shuffle_sums.specs.Inserting.{FitPlace};
ghost use Rattle.shuffle_sums.specs.Settings.{compares, field_of, labels_of};
ghost use Rattle.shuffle_sums.specs.Shelves.{FitsShelf, HasKey};
ghost use Rattle.shuffle_sums.specs.Sums.{FallsBy, over};
ghost use Rattle.tree_store.specs.Stores.{tree_at};

use crate::adding::plus_of;
use crate::shelves::fits_shelf;
use crate::sums::{sum_of_arity, write_sum};
use path_orders::TreeOrder;
use rows::{RowFail, numbers_of, shuffle_of, vertices_of};
use shuffle_sums::{SSum, Setting, Shelf};
use shuffle_trees::STree;
use std::alloc::Global;
use tree_divisors::{Place, restrict};
use tree_store::TreeId;

// Writes the sum, inserted at a place of the tree with this id.
fn write_insertion<O: TreeOrder>(
    alloc: Global,
    setting: &Setting<O>,
    shelf: &mut Shelf,
    host: TreeId,
    place: &Place,
    sum: &SSum<O>,
    out: &mut Vec<u8>,
) -> Result<(), RowFail>
    requires labels { shelf.old.labels ≡ labels_of setting.now }
    requires host { HasKey shelf.old host }
    requires place { IsConnected (tree_at shelf.old.trees host) place.now }
    requires sum { FallsBy (compares O.weights O.by_keys setting.now) (field_of setting.now) shelf.old sum.now }
    requires fit { FitPlace place.now (tree_at shelf.old.trees host) (over shelf.old sum.now) }
{
    let inserted = SSum::insert_at(alloc, setting, shelf, host, place, sum)?;
    write_sum(alloc, shelf, &inserted, out)
}

// Inserts the terms that words spell at a place of the tree.
fn write_inserted<O: TreeOrder>(
    alloc: Global,
    setting: &Setting<O>,
    shelf: &mut Shelf,
    host: &STree,
    place: &Place,
    words: &[String],
    out: &mut Vec<u8>,
) -> Result<(), RowFail>
    requires own { shelf.old.labels ≡ labels_of setting.now }
    requires fits { FitsShelf shelf.old host.now }
    requires place { IsConnected host.now place.now }
{
    let Some(arity) = restrict(alloc, host, place)?.arity() else {
        return Err(RowFail::Refused);
    };
    let id = shelf.shelve(alloc, host)?;
    let sum = sum_of_arity(alloc, setting, shelf, arity, words)?;
    write_insertion(alloc, setting, shelf, id, place, &sum, out)
}

// The place of these vertices of a tree.
fn place_at(alloc: Global, host: &STree, vertices: &[u32]) -> Result<Place, RowFail>
    ensures connected { IfOk result (IsConnected host.now) }
{
    match Place::of(alloc, host, &vertices_of(alloc, vertices)?)? {
        Some(place) => Ok(place),
        None => Err(RowFail::Refused),
    }
}

// The same, where words spell the vertices.
fn place_of(alloc: Global, host: &STree, words: &[String]) -> Result<Place, RowFail>
    ensures connected { IfOk result (IsConnected host.now) }
{
    place_at(alloc, host, &numbers_of(alloc, words)?)
}

// Inserts the terms into the tree at the place of the vertices.
fn insert_into<O: TreeOrder>(
    alloc: Global,
    setting: &Setting<O>,
    shelf: &mut Shelf,
    host: &STree,
    vertices: &[String],
    terms: &[String],
    out: &mut Vec<u8>,
) -> Result<(), RowFail>
    requires own { shelf.old.labels ≡ labels_of setting.now }
{
    if !fits_shelf(shelf, setting.labels(), host) {
        return Err(RowFail::Refused);
    }
    let place = place_of(alloc, host, vertices)?;
    write_inserted(alloc, setting, shelf, host, &place, terms, out)
}

/// Inserts the terms behind `+` into the first tree at the place of the vertices between them: what the sum is then, term by term.
pub fn inserted<O: TreeOrder>(
    alloc: Global,
    setting: &Setting<O>,
    shelf: &mut Shelf,
    words: &[String],
    out: &mut Vec<u8>,
) -> Result<(), RowFail>
    requires own { shelf.old.labels ≡ labels_of setting.now }
{
    let (before, behind) = words.split_at(plus_of(words));
    let [host, vertices @ ..] = before else {
        return Err(RowFail::Refused);
    };
    let [_, terms @ ..] = behind else {
        return Err(RowFail::Refused);
    };
    let host = shuffle_of(alloc, host)?;
    insert_into(alloc, setting, shelf, &host, vertices, terms, out)
}
