ghost use Rattle.std.specs.Prelude.{◌≡◌, ◌<◌, ◌∷◌, [], ℕ, length, IfOk, IfSome, OnOk};
ghost use Rattle.std.specs.List.{All};
ghost use Rattle.shuffle_insertions.specs.ShuffleTrees.{IsShuffle};
ghost use Rattle.tree_store.specs.Stores.{tree_at, HasLabel, IsStore};
ghost use Rattle.division.specs.Dividers.{HaveRoom};
ghost use Rattle.division.specs.Gathered.{IsWorking};
ghost use Rattle.division.specs.Insertions.{IsReducer};

use crate::stores::{shelved_trees, write_trees};
use division::{Reducer, divides_root, insert_at_root, step};
use presentation_text::Document;
use rows::{RowFail, end_line};
use shuffle_sums::Shelf;
use sqlite_items::Items;
use std::alloc::{AllocError, Global};
use tree_store::{Store, TreeId};

/// Room for the parts of a tree at a divisor.
pub const ROOM: usize = 16;

// The arity of the tree with this id, if its leaves are 1 to some number.
fn arity_at(alloc: Global, store: &Store, id: TreeId) -> Result<Option<u8>, AllocError>
    requires held { id < length store.now }
    ensures shuffle { IfOk result (λ found. IfSome found (λ arity. IsShuffle arity (tree_at store.now id))) }
{
    Ok(store.tree_of(alloc, id)?.arity())
}

// Stops where the leaves of the tree aren't 1 to `arity`.
fn check_tree(alloc: Global, store: &Store, id: TreeId, arity: u8) -> Result<(), RowFail>
    requires held { id < length store.now }
    ensures shuffle { OnOk result (IsShuffle arity (tree_at store.now id)) }
{
    let Some(leaves) = arity_at(alloc, store, id)? else {
        return Err(RowFail::Refused);
    };
    if leaves != arity {
        return Err(RowFail::Refused);
    }
    Ok(())
}

// The same for each tree.
fn check_trees(alloc: Global, store: &Store, ids: &[TreeId], arity: u8) -> Result<(), RowFail>
    requires held { All (λ id. id < length store.now) ids.now }
    ensures shuffle { OnOk result (All (λ id. IsShuffle arity (tree_at store.now id)) ids.now) }
{
    for id in ids {
        check_tree(alloc, store, *id, arity)?;
    }
    Ok(())
}

// The element of these trees, the first of which leads and has label 0 at its root.
fn element_of(alloc: Global, store: &Store, ids: &[TreeId]) -> Result<Reducer, RowFail>
    requires held { All (λ id. id < length store.now) ids.now }
    ensures reducer { IfOk result (IsReducer store.now) }
    ensures label { IfOk result (λ r. HasLabel 0 (tree_at store.now r.lead)) }
    ensures few { IfOk result (λ r. r.arity < 16) }
    ensures store { OnOk result (IsStore store.now) }
{
    let [lead, tail @ ..] = ids else {
        return Err(RowFail::Refused);
    };
    let _view = store.node(*lead);
    let arity = store.leaves(*lead);
    if arity as usize >= ROOM {
        return Err(RowFail::Refused);
    }
    let Some(label) = store.label_of(*lead) else {
        return Err(RowFail::Refused);
    };
    if label != 0 {
        return Err(RowFail::Refused);
    }
    check_trees(alloc, store, ids, arity)?;
    let tail = Items::from_slice(alloc, tail)?;
    Ok(Reducer {
        arity,
        lead: *lead,
        tail,
    })
}

/// One element, in the group of label 0.
#[derive(Drop)]
pub struct LoneElement {
    /// The element.
    pub reducers: Items<Reducer>,
    /// The group.
    pub groups: Items<Items<u32>>,
}

// The group of label 0, with the element 0.
fn one_group(alloc: Global) -> Result<Items<Items<u32>>, AllocError>
    ensures group { IfOk result (λ groups. groups ≡ (0 ∷ []) ∷ []) }
{
    let group = Items::from_slice(alloc, &[0])?;
    let mut groups = Items::new(alloc);
    groups.push(group)?;
    Ok(groups)
}

/// The element of these trees, as `element_of` has it.
pub fn lone_element(alloc: Global, store: &Store, ids: &[TreeId]) -> Result<LoneElement, RowFail>
    requires held { All (λ id. id < length store.now) ids.now }
    ensures working { IfOk result (λ made. IsWorking store.now made.reducers made.groups [] []) }
    ensures room { IfOk result (λ made. HaveRoom made.reducers 16) }
{
    let reducer = element_of(alloc, store, ids)?;
    let mut reducers = Items::new(alloc);
    reducers.push(reducer)?;
    Ok(LoneElement {
        reducers,
        groups: one_group(alloc)?,
    })
}

// Writes the trees of an insertion at the root, or `none` where the element doesn't divide the tree there. The parts are room
// for those of the tree.
fn write_insertion(
    alloc: Global,
    shelf: &mut Shelf,
    reducer: &Reducer,
    host: TreeId,
    parts: &mut [TreeId],
    out: &mut Vec<u8>,
) -> Result<(), RowFail>
    requires reducer { IsReducer shelf.old.trees reducer.now }
    requires room { reducer.now.arity < length parts.old }
    requires host { host < length shelf.old.trees }
{
    if !divides_root(shelf.store(), reducer.lead, reducer.arity, host, parts) {
        return Ok(end_line("none", out)?);
    }
    let mut made = Items::new(alloc);
    insert_at_root(shelf, alloc, reducer, host, parts, &mut made)?;
    write_trees(alloc, shelf.store(), made.as_slice(), out)
}

// The same with room for the parts.
fn write_inserted(
    alloc: Global,
    shelf: &mut Shelf,
    reducer: &Reducer,
    host: TreeId,
    out: &mut Vec<u8>,
) -> Result<(), RowFail>
    requires reducer { IsReducer shelf.old.trees reducer.now }
    requires few { reducer.now.arity < 16 }
    requires host { host < length shelf.old.trees }
{
    let mut parts = vec![in alloc; TreeId::numbered(0); ROOM]?;
    write_insertion(alloc, shelf, reducer, host, parts.as_mut_slice(), out)
}

// The same for the element whose trees stand behind the host.
fn insert_behind(
    alloc: Global,
    shelf: &mut Shelf,
    ids: &[TreeId],
    out: &mut Vec<u8>,
) -> Result<(), RowFail>
    requires held { All (λ id. id < length shelf.old.trees) ids.now }
{
    let [host, trees @ ..] = ids else {
        return Err(RowFail::Refused);
    };
    let reducer = element_of(alloc, shelf.store(), trees)?;
    write_inserted(alloc, shelf, &reducer, *host, out)
}

/// Inserts an element, whose trees stand behind the host, at the root of that: what becomes of the trees of its tail.
pub fn inserted(
    alloc: Global,
    document: &Document,
    words: &[String],
    out: &mut Vec<u8>,
) -> Result<(), RowFail> {
    let (mut shelf, ids) = shelved_trees(alloc, document, words)?;
    insert_behind(alloc, &mut shelf, &ids, out)
}

// The trees of the tail of a step.
fn tail_of(
    alloc: Global,
    shelf: &mut Shelf,
    element: &LoneElement,
    host: TreeId,
) -> Result<Items<TreeId>, AllocError>
    requires working { IsWorking shelf.old.trees element.now.reducers element.now.groups [] [] }
    requires room { HaveRoom element.now.reducers 16 }
    requires host { host < length shelf.old.trees }
    ensures held { IfOk result (All (λ id. id < length shelf.new.trees)) }
{
    let mut parts = vec![in alloc; TreeId::numbered(0); ROOM]?;
    let mut found = Items::new(alloc);
    let mut kept = Items::new(alloc);
    step(
        shelf,
        alloc,
        element.reducers.as_slice(),
        element.groups.as_slice(),
        &mut found,
        &mut kept,
        parts.as_mut_slice(),
        host,
    )
}

// Writes the trees of the tail of a step.
fn write_step(
    alloc: Global,
    shelf: &mut Shelf,
    element: &LoneElement,
    host: TreeId,
    out: &mut Vec<u8>,
) -> Result<(), RowFail>
    requires working { IsWorking shelf.old.trees element.now.reducers element.now.groups [] [] }
    requires room { HaveRoom element.now.reducers 16 }
    requires host { host < length shelf.old.trees }
{
    let tail = tail_of(alloc, shelf, element, host)?;
    write_trees(alloc, shelf.store(), tail.as_slice(), out)
}

// The same for the element whose trees stand behind the host.
fn step_behind(
    alloc: Global,
    shelf: &mut Shelf,
    ids: &[TreeId],
    out: &mut Vec<u8>,
) -> Result<(), RowFail>
    requires held { All (λ id. id < length shelf.old.trees) ids.now }
{
    let [host, trees @ ..] = ids else {
        return Err(RowFail::Refused);
    };
    let element = lone_element(alloc, shelf.store(), trees)?;
    write_step(alloc, shelf, &element, *host, out)
}

/// The trees to which an element, whose trees stand behind the host, leads from that, at the place that is taken: none where it
/// divides no place.
pub fn stepped(
    alloc: Global,
    document: &Document,
    words: &[String],
    out: &mut Vec<u8>,
) -> Result<(), RowFail> {
    let (mut shelf, ids) = shelved_trees(alloc, document, words)?;
    step_behind(alloc, &mut shelf, &ids, out)
}
