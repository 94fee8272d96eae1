ghost use Rattle.std.specs.Prelude.{◌≡◌, ◌<◌, ◌≤◌, ◌-◌, ℕ, List, length, IfOk, OnOk};
ghost use Rattle.std.specs.List.{All};
ghost use Rattle.modular_sums.specs.RuleTables.{IsRuleTail};
ghost use Rattle.shuffle_sums.specs.Sorting.{AreOfOneArity};
ghost use Rattle.shuffle_sums.specs.Shelves.{IsShelf};
ghost use Rattle.row_sweeps.specs.Terms.{pairs};
ghost use Rattle.division.specs.Cones.{IsCone};

use crate::stores::{end_id, shelve_all};
use crate::terms::write_terms;
use division::{Cone, RowFail as SweepFail, add_element, cone_of, meet_all, reduce_row};
use path_orders::{Path, TreeOrder};
use presentation_text::{Document, write_number};
use row_sweeps::{Steps, Term};
use rows::{RowFail, end_line, most_leaves, number_of};
use shuffle_passage::labels_of;
use shuffle_sums::{Shelf, Term as IdTerm};
use shuffle_trees::{Labels, all_trees};
use sqlite_items::Items;
use std::alloc::{AllocError, Global};
use tree_store::{Store, TreeId};

// The ids of all shuffle trees of arity 3 over the labels.
fn listing(alloc: Global, labels: &Labels, shelf: &mut Shelf) -> Result<Vec<TreeId>, RowFail>
    requires own { shelf.old.labels ≡ labels.now }
    ensures one_arity { IfOk result (λ ids. AreOfOneArity shelf.new.trees ids.items) }
{
    let trees = all_trees(alloc, labels, 3)?;
    shelve_all(alloc, shelf, labels, trees.as_slice())
}

// The cone of these trees by an order, without elements.
fn free_cone<O: TreeOrder>(
    alloc: Global,
    shelf: &mut Shelf,
    order: &O,
    prime: u32,
    all: &[TreeId],
) -> Result<Cone, AllocError>
    requires one_arity { AreOfOneArity shelf.old.trees all.now }
    requires shelf { IsShelf shelf.old }
    requires positive { 0 < prime }
    requires small { prime ≤ 65537 }
    ensures cone { IfOk result (λ cone. (given : List ℕ) × IsCone given cone) }
    ensures held { IfOk result (λ cone. All (λ id. id < length shelf.new.trees) cone.ids) }
    ensures prime { IfOk result (λ cone. cone.table.q ≡ prime - 1) }
{
    let mut places = Items::new(alloc);
    let mut ids = Items::new(alloc);
    meet_all(alloc, &mut places, &mut ids, all)?;
    let mut found = Items::new(alloc);
    let mut kept = Items::new(alloc);
    cone_of(
        alloc,
        shelf,
        order,
        prime,
        &[],
        &[],
        &[],
        &mut found,
        &mut kept,
        &mut [],
        places,
        ids,
    )
}

// Two terms at the positions 1 and 0, by residues other than 0.
fn tail_of(prime: u32, high: u32, low: u32) -> Result<[Term; 2], RowFail>
    ensures tail { IfOk result (λ tail. IsRuleTail (prime - 1) 2 (pairs tail)) }
{
    if high == 0 || high >= prime || low == 0 || low >= prime {
        return Err(RowFail::Refused);
    }
    Ok([
        Term {
            coef: high,
            position: 1,
        },
        Term {
            coef: low,
            position: 0,
        },
    ])
}

// Gives the cone of three trees an element: the greatest tree, and these residues times the two others.
fn add_to(alloc: Global, cone: &mut Cone, prime: u32, high: u32, low: u32) -> Result<(), RowFail>
    requires cone { (given : List ℕ) × IsCone given cone.old }
    requires prime { cone.old.table.q ≡ prime - 1 }
    ensures cone { OnOk result ((given : List ℕ) × IsCone given cone.new) }
{
    if cone.ids.len() != 3 {
        return Err(RowFail::Refused);
    }
    let tail = tail_of(prime, high, low)?;
    add_element(alloc, cone, 2, &tail)?;
    Ok(())
}

// The place of the greatest tree.
fn greatest(cone: &Cone) -> Result<usize, RowFail>
    ensures place { IfOk result (λ place. place < length cone.now.ids) }
{
    let [_, _, place] = cone.order.as_slice() else {
        return Err(RowFail::Refused);
    };
    if *place >= cone.ids.len() {
        return Err(RowFail::Refused);
    }
    Ok(*place)
}

// The rest of the tree at a place of the cone.
fn rest_of(alloc: Global, cone: &Cone, place: usize, bound: u64) -> Result<Items<IdTerm>, SweepFail>
    requires cone { (given : List ℕ) × IsCone given cone.now }
    requires place { place < length cone.now.ids }
{
    let terms = [IdTerm {
        coef: 1,
        tree: cone.ids.as_slice()[place],
    }];
    let mut row = vec![in alloc; 0u64; cone.ids.len()]?;
    let mut log = Vec::new(alloc);
    reduce_row(
        alloc,
        cone,
        &terms,
        row.as_mut_slice(),
        &mut Steps::new(bound),
        &mut log,
        true,
    )
}

// Writes that the bound was spent, and the row.
fn write_spent(row: &[IdTerm], out: &mut Vec<u8>) -> Result<(), RowFail> {
    end_line("Spent", out)?;
    write_terms(row, out)
}

// Writes the terms of a rest by their ids; or that the bound was spent, and the row.
fn write_rest(rest: Result<Items<IdTerm>, SweepFail>, out: &mut Vec<u8>) -> Result<(), RowFail> {
    match rest {
        Ok(rest) => write_terms(rest.as_slice(), out),
        Err(SweepFail::Spent { row }) => write_spent(row.as_slice(), out),
        Err(SweepFail::NoMemory) => Err(RowFail::NoMemory),
    }
}

// Writes each id in a line with its tree.
fn write_ids(alloc: Global, store: &Store, ids: &[TreeId], out: &mut Vec<u8>) -> Result<(), RowFail>
    requires held { All (λ id. id < length store.now) ids.now }
{
    for id in ids {
        write_number(id.index() as u64, out)?;
        out.push(b' ')?;
        end_id(alloc, store, *id, out)?;
    }
    Ok(())
}

// The prime of a document.
fn prime_of(document: &Document) -> u32
    ensures positive { 0 < result }
    ensures small { result ≤ 65537 }
{
    document.field.prime()
}

// The cone of these trees by the order of paths, each of which is written with its id; `Refused` where there are none.
fn write_free(
    alloc: Global,
    shelf: &mut Shelf,
    prime: u32,
    all: &[TreeId],
    out: &mut Vec<u8>,
) -> Result<Cone, RowFail>
    requires one_arity { AreOfOneArity shelf.old.trees all.now }
    requires positive { 0 < prime }
    requires small { prime ≤ 65537 }
    ensures cone { IfOk result (λ cone. (given : List ℕ) × IsCone given cone) }
    ensures prime { IfOk result (λ cone. cone.table.q ≡ prime - 1) }
{
    if all.is_empty() {
        return Err(RowFail::Refused);
    }
    let _ = shelf.store();
    let cone = free_cone(alloc, shelf, &Path {}, prime, all)?;
    write_ids(alloc, shelf.store(), cone.ids.as_slice(), out)?;
    Ok(cone)
}

// The same for all trees of arity 3, in this shelf for these labels.
fn write_all(
    alloc: Global,
    labels: &Labels,
    shelf: &mut Shelf,
    prime: u32,
    out: &mut Vec<u8>,
) -> Result<Cone, RowFail>
    requires own { shelf.old.labels ≡ labels.now }
    requires positive { 0 < prime }
    requires small { prime ≤ 65537 }
    ensures cone { IfOk result (λ cone. (given : List ℕ) × IsCone given cone) }
    ensures prime { IfOk result (λ cone. cone.table.q ≡ prime - 1) }
{
    let all = listing(alloc, labels, shelf)?;
    write_free(alloc, shelf, prime, &all, out)
}

// The same in a shelf for these labels.
fn write_over(
    alloc: Global,
    labels: &Labels,
    prime: u32,
    out: &mut Vec<u8>,
) -> Result<Cone, RowFail>
    requires positive { 0 < prime }
    requires small { prime ≤ 65537 }
    ensures cone { IfOk result (λ cone. (given : List ℕ) × IsCone given cone) }
    ensures prime { IfOk result (λ cone. cone.table.q ≡ prime - 1) }
{
    let mut shelf = Shelf::new(alloc, labels, most_leaves(labels))?;
    write_all(alloc, labels, &mut shelf, prime, out)
}

// The same for the labels of the document.
fn write_cone(
    alloc: Global,
    document: &Document,
    prime: u32,
    out: &mut Vec<u8>,
) -> Result<Cone, RowFail>
    requires positive { 0 < prime }
    requires small { prime ≤ 65537 }
    ensures cone { IfOk result (λ cone. (given : List ℕ) × IsCone given cone) }
    ensures prime { IfOk result (λ cone. cone.table.q ≡ prime - 1) }
{
    write_over(alloc, &labels_of(alloc, &document.gens)?, prime, out)
}

// Adds an element by these residues to the cone, and writes the rest of the greatest tree, by at most so many steps.
fn write_reduced(
    alloc: Global,
    cone: &mut Cone,
    prime: u32,
    residues: (u32, u32),
    bound: u64,
    out: &mut Vec<u8>,
) -> Result<(), RowFail>
    requires cone { (given : List ℕ) × IsCone given cone.old }
    requires prime { cone.old.table.q ≡ prime - 1 }
{
    let (high, low) = residues;
    add_to(alloc, cone, prime, high, low)?;
    let place = greatest(cone)?;
    write_rest(rest_of(alloc, cone, place, bound), out)
}

/// Over the three shuffle trees of arity 3 by the order of paths, an element is added: the greatest tree and, with the second and
/// the third number as residues, the two others. Each tree is written with its id, and then the rest of the greatest one, by at
/// most as many steps as the first number says: residues and ids.
pub fn reduced(
    alloc: Global,
    document: &Document,
    words: &[String],
    out: &mut Vec<u8>,
) -> Result<(), RowFail> {
    let [bound, high, low] = words else {
        return Err(RowFail::Refused);
    };
    let bound = u64::from(number_of(bound)?);
    let high = number_of(high)?;
    let low = number_of(low)?;
    let prime = prime_of(document);
    let mut cone = write_cone(alloc, document, prime, out)?;
    write_reduced(alloc, &mut cone, prime, (high, low), bound, out)
}
