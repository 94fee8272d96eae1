ghost use Rattle.std.specs.Prelude.{◌≡◌, ◌<◌, ℕ, IfOk};
ghost use Rattle.std.specs.List.{All};
ghost use Rattle.modular_sums.specs.Sums.{AllTerms};
ghost use Rattle.shuffle_insertions.specs.ShuffleTrees.{IsShuffleTree};
ghost use Rattle.shuffle_places.specs.Connected.{IsConnected};
ghost use Rattle.shuffle_transfer.specs.Labels.{inputs_of};
ghost use Rattle.shuffle_trees.specs.LabelLists.{arity_in};
ghost use Rattle.symmetric_sums.specs.Terms.{FitsOver};
ghost use Rattle.arity_completion.specs.Trails.{IsPlaced};
ghost use Rattle.symmetric_trees.specs.Generators.{generators_of};

use crate::logs::log_of;
use arity_completion::{Start, entry_for};
use cofactor_log::{Entry, Log};
use division::Cofactor;
use presentation_text::{Document, write_number};
use rows::{
    RowFail, end_line, end_terms, most_leaves, shuffle_terms, shuffle_tree, vertices_of,
    write_next, write_plain, write_text,
};
use shuffle_passage::labels_of;
use shuffle_sums::Shelf;
use shuffle_trees::STree;
use sqlite_items::Items;
use std::alloc::{AllocError, Global};
use symmetric_sums::{Instance, Rule};
use tree_divisors::Place;

// The rule of a use.
fn write_rule(rule: Rule, out: &mut Vec<u8>) -> Result<(), AllocError> {
    match rule {
        Rule::Rel(number) => {
            write_text(" rel", out)?;
            write_next(u64::from(number), out)
        }
        Rule::Step(number) => {
            write_text(" step", out)?;
            write_next(u64::from(number), out)
        }
        Rule::Swap { generator, at } => {
            write_text(" swap", out)?;
            write_next(u64::from(generator), out)?;
            write_next(u64::from(at), out)
        }
    }
}

// A use in a line: its residue, its rule, its context and its inputs.
fn write_use(item: &Instance, out: &mut Vec<u8>) -> Result<(), AllocError> {
    write_number(u64::from(item.coef), out)?;
    write_rule(item.rule, out)?;
    out.push(b' ')?;
    write_plain(&item.context, out)?;
    for input in item.inputs.as_slice() {
        out.push(b' ')?;
        write_plain(input, out)?;
    }
    end_line("", out)
}

// The terms of the element, and then the uses.
fn write_entry(entry: &Entry, out: &mut Vec<u8>) -> Result<(), RowFail> {
    end_terms(entry.element.terms(), out)?;
    for item in entry.uses.as_slice() {
        write_use(item, out)?;
    }
    Ok(())
}

// The place of these vertices of a tree.
fn place_of(alloc: Global, host: &STree, vertices: &[u32]) -> Result<Place, RowFail>
    ensures connected { IfOk result (IsConnected host.now) }
{
    match Place::of(alloc, host, &vertices_of(alloc, vertices)?)? {
        Some(place) => Ok(place),
        None => Err(RowFail::Refused),
    }
}

// That so many times the only element is subtracted, at a place of the tree.
fn cofactor_in(
    alloc: Global,
    shelf: &mut Shelf,
    host: &STree,
    coef: u32,
    vertices: &[u32],
) -> Result<Cofactor, RowFail>
    requires shuffle { (n : ℕ) × IsShuffleTree (arity_in shelf.old.labels) n host.now }
    ensures placed { IfOk result (IsPlaced shelf.new 1) }
    ensures labels { shelf.new.labels ≡ shelf.old.labels }
{
    match host.arity() {
        Some(leaves) if leaves <= shelf.most() => {}
        _ => return Err(RowFail::Refused),
    }
    Ok(Cofactor {
        coef,
        element: 0,
        host: shelf.shelve(alloc, host)?,
        place: place_of(alloc, host, vertices)?,
    })
}

// The same at a place of the tree of the second question.
fn cofactor(
    alloc: Global,
    document: &Document,
    shelf: &mut Shelf,
    coef: u32,
    vertices: &[u32],
) -> Result<Cofactor, RowFail>
    requires labels { (l : ℕ) → arity_in shelf.old.labels l ≡ inputs_of (generators_of document.now.gens) l }
    ensures placed { IfOk result (IsPlaced shelf.new 1) }
    ensures labels { shelf.new.labels ≡ shelf.old.labels }
{
    cofactor_in(
        alloc,
        shelf,
        &shuffle_tree(alloc, document, 1)?,
        coef,
        vertices,
    )
}

// The entry for these terms: the first relation as it is, so many times, and what the step subtracts of the first entry.
fn entry_of_terms(
    alloc: Global,
    log: &Log,
    shelf: &Shelf,
    factor: u32,
    steps: &[Cofactor],
    terms: &[(u32, STree)],
) -> Result<Entry, RowFail>
    requires factor { factor < log.now.field }
    requires labels { (l : ℕ) → arity_in shelf.now.labels l ≡ inputs_of (generators_of log.now.gens) l }
    requires placed { All (IsPlaced shelf.now 1) steps.now }
    requires residues { All (λ x. (0 < x.0) × (x.0 < log.now.field)) terms.now }
    requires trees { (n : ℕ) × AllTerms terms.now (IsShuffleTree (inputs_of (generators_of log.now.gens)) n) }
{
    let starts = [Start {
        rule: Rule::Rel(1),
        permutation: Items::from_slice(alloc, &[1, 2, 3])?,
    }];
    Ok(entry_for(alloc, log, shelf, &[1], &starts, steps, factor, terms)?)
}

// The same for the element of the first question.
fn entry_of(
    alloc: Global,
    document: &Document,
    log: &Log,
    shelf: &Shelf,
    factor: u32,
    steps: &[Cofactor],
) -> Result<Entry, RowFail>
    requires field { log.now.field ≡ document.now.field }
    requires table { log.now.gens ≡ document.now.gens }
    requires factor { factor < log.now.field }
    requires labels { (l : ℕ) → arity_in shelf.now.labels l ≡ inputs_of (generators_of log.now.gens) l }
    requires placed { All (IsPlaced shelf.now 1) steps.now }
{
    let terms = shuffle_terms(alloc, document, 0)?;
    entry_of_terms(alloc, log, shelf, factor, steps, terms.as_slice())
}

// A shelf for the labels of the document.
fn shelf_of(alloc: Global, document: &Document) -> Result<Shelf, AllocError>
    ensures labels { IfOk result (λ shelf. (l : ℕ) → arity_in shelf.labels l ≡ inputs_of (generators_of document.now.gens) l) }
{
    let labels = labels_of(alloc, &document.gens)?;
    Shelf::new(alloc, &labels, most_leaves(&labels))
}

// The same entry, where so many times the first entry is subtracted at a place of the tree of the second question.
fn made(
    alloc: Global,
    document: &Document,
    log: &Log,
    shelf: &mut Shelf,
    factors: (u32, u32),
    vertices: &[u32],
) -> Result<Entry, RowFail>
    requires field { log.now.field ≡ document.now.field }
    requires table { log.now.gens ≡ document.now.gens }
    requires factor { factors.0 < log.now.field }
    requires labels { (l : ℕ) → arity_in shelf.old.labels l ≡ inputs_of (generators_of document.now.gens) l }
{
    let (factor, coef) = factors;
    let step = cofactor(alloc, document, shelf, coef, vertices)?;
    entry_of(alloc, document, log, shelf, factor, &[step])
}

// Writes that entry over this shelf.
fn write_made(
    alloc: Global,
    document: &Document,
    log: &Log,
    shelf: &mut Shelf,
    factors: (u32, u32),
    vertices: &[u32],
    out: &mut Vec<u8>,
) -> Result<(), RowFail>
    requires field { log.now.field ≡ document.now.field }
    requires table { log.now.gens ≡ document.now.gens }
    requires factor { factors.0 < log.now.field }
    requires labels { (l : ℕ) → arity_in shelf.old.labels l ≡ inputs_of (generators_of document.now.gens) l }
{
    let made = made(alloc, document, log, shelf, factors, vertices)?;
    write_entry(&made, out)
}

// Writes that entry over this log.
fn write_over(
    alloc: Global,
    document: &Document,
    log: &Log,
    factors: (u32, u32),
    vertices: &[u32],
    out: &mut Vec<u8>,
) -> Result<(), RowFail>
    requires field { log.now.field ≡ document.now.field }
    requires table { log.now.gens ≡ document.now.gens }
    requires factor { factors.0 < log.now.field }
{
    let mut shelf = shelf_of(alloc, document)?;
    write_made(alloc, document, log, &mut shelf, factors, vertices, out)
}

/// The entry for the element of the first question: the first relation, so many times, less so many times the first entry at a
/// place of the tree of the second question. The numbers are those two factors and the vertices of the place.
pub fn entry(
    alloc: Global,
    document: &Document,
    numbers: &[u32],
    out: &mut Vec<u8>,
) -> Result<(), RowFail>
    requires fit { All (FitsOver document.now.field document.now.gens) document.now.rels }
{
    let [factor, coef, vertices @ ..] = numbers else {
        return Err(RowFail::Refused);
    };
    if *factor >= document.field.prime() {
        return Err(RowFail::Refused);
    }
    let log = log_of(alloc, document)?;
    write_over(alloc, document, &log, (*factor, *coef), vertices, out)
}
