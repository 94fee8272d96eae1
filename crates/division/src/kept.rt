ghost use Rattle.std.specs.Prelude.{◌≡◌, ◌<◌, ◌≤◌, ◌++◌, ℕ, [], true, List, Some, None, length, map, slice_get, IsTrue, OnOk, MatchOption, ◌↔◌};
ghost use Rattle.std.specs.List.{All};
ghost use Rattle.tree_store.specs.Stores.{tree_at};
ghost use Rattle.shuffle_sums.specs.Shelves.{IsShelf, KeepsShelf};
ghost use Rattle.division.specs.Dividers.{AreDividers, AreReducers, DividesAtRoot, HaveRoom};
ghost use Rattle.division.specs.KeptTails.{AddsTail, AreKept, IsDividedInput, IsInsertionTail, NoDividedInput, OnlyKept, OnlyPut};

use crate::reducer::Reducer;
use crate::tails::{insert_at_root, replace_all};
use shuffle_sums::Shelf;
use sqlite_items::Items;
use std::alloc::{AllocError, Global};
use tree_store::{NodeView, Store, TreeId};

// Room for a list at this place.
fn grow(kept: &mut Items<Option<Items<TreeId>>>, at: usize) -> Result<(), AllocError>
    ensures long { OnOk result (at < length kept.new) }
    ensures only { OnlyKept kept.old kept.new }
{
    while kept.len() <= at {
        kept.push(None)?;
    }
    Ok(())
}

// Keeps a list at this place.
fn put(
    kept: &mut Items<Option<Items<TreeId>>>,
    at: usize,
    ids: Items<TreeId>,
) -> Result<(), AllocError>
    ensures here { OnOk result (slice_get kept.new at ≡ Some (Some ids)) }
    ensures only { OnlyPut kept.old kept.new at ids }
{
    grow(kept, at)?;
    kept.set(at, Some(ids));
    Ok(())
}

// Whether a list is kept at this place.
fn is_kept(kept: &[Option<Items<TreeId>>], at: usize) -> bool
    ensures kept { result ≡ true → (ids : List ℕ) × (slice_get kept.now at ≡ Some (Some ids)) }
{
    match kept.get(at) {
        Some(Some(_)) => true,
        Some(None) => false,
        None => false,
    }
}

// The first input of the tree's root with this divider.
fn divided_input(
    store: &Store,
    found: &[Option<u32>],
    host: TreeId,
    element: u32,
) -> Option<(usize, TreeId)>
    requires host { host < length store.now }
    requires found { host < length found.now }
    ensures input { MatchOption result (NoDividedInput store.now found.now host element) (λ x. IsDividedInput store.now found.now host element x.0 x.1) }
{
    match store.node(host) {
        NodeView::Leaf(_) => None,
        NodeView::Node(_, inputs) => {
            for at in 0..inputs.len() {
                if found[inputs[at].index()] == Some(element) {
                    return Some((at, inputs[at]));
                }
            }
            None
        }
    }
}

/// Puts behind `out` the ids of the tail of the host, which some element divides. Where an input has the same first divider, the
/// tail of the input is made first and kept in `kept`, and else the element is inserted at the root. All trees up to the host
/// have entries in `found`; `parts` is room for the parts of a tree, and its contents don't matter. Old ids keep their trees and
/// keys, no id gets a key, and what is kept is right, also after an error. `AllocError` comes for want of memory alone.
#[cycle(tails)]
pub fn make_tail(
    shelf: &mut Shelf,
    alloc: Global,
    reducers: &[Reducer],
    found: &[Option<u32>],
    kept: &mut Items<Option<Items<TreeId>>>,
    parts: &mut [TreeId],
    host: TreeId,
    out: &mut Items<TreeId>,
) -> Result<(), AllocError>
    requires shelf { IsShelf shelf.old }
    requires reducers { AreReducers shelf.old.trees reducers.now }
    requires found { AreDividers shelf.old.trees reducers.now found.now }
    requires few { length found.now ≤ length shelf.old.trees }
    requires kept { AreKept shelf.old.trees reducers.now found.now kept.old }
    requires room { HaveRoom reducers.now (length parts.old) }
    requires divided { (e : ℕ) × (slice_get found.now host ≡ Some (Some e)) }
    ensures made { OnOk result (AddsTail shelf.new.trees reducers.now found.now host out.old out.new) }
    ensures kept { AreKept shelf.new.trees reducers.now found.now kept.new }
    ensures keeps { KeepsShelf shelf.old shelf.new }
    ensures keys { shelf.new.whole ≡ shelf.old.whole }
    ensures shelf { IsShelf shelf.new }
{
    match found[host.index()] {
        None => unreachable!(),
        Some(element) => match divided_input(shelf.store(), found, host, element) {
            None => {
                let reducer = &reducers[element as usize];
                insert_at_root(shelf, alloc, reducer, host, parts, out)
            }
            Some(input) => {
                keep_tail(shelf, alloc, reducers, found, kept, parts, input.1)?;
                match kept.get(input.1.index()) {
                    Some(Some(ids)) => replace_all(
                        shelf,
                        alloc,
                        host,
                        input.0,
                        ids.as_slice(),
                        out,
                    ),
                    Some(None) => unreachable!(),
                    None => unreachable!(),
                }
            }
        },
    }
}

// Keeps the tail of a tree, unless it is kept.
#[cycle(tails)]
fn keep_tail(
    shelf: &mut Shelf,
    alloc: Global,
    reducers: &[Reducer],
    found: &[Option<u32>],
    kept: &mut Items<Option<Items<TreeId>>>,
    parts: &mut [TreeId],
    tree: TreeId,
) -> Result<(), AllocError>
    requires shelf { IsShelf shelf.old }
    requires reducers { AreReducers shelf.old.trees reducers.now }
    requires found { AreDividers shelf.old.trees reducers.now found.now }
    requires few { length found.now ≤ length shelf.old.trees }
    requires kept { AreKept shelf.old.trees reducers.now found.now kept.old }
    requires room { HaveRoom reducers.now (length parts.old) }
    requires divided { (e : ℕ) × (slice_get found.now tree ≡ Some (Some e)) }
    ensures there { OnOk result ((ids : List ℕ) × (slice_get kept.new tree ≡ Some (Some ids))) }
    ensures kept { AreKept shelf.new.trees reducers.now found.now kept.new }
    ensures keeps { KeepsShelf shelf.old shelf.new }
    ensures keys { shelf.new.whole ≡ shelf.old.whole }
    ensures shelf { IsShelf shelf.new }
{
    if is_kept(kept.as_slice(), tree.index()) {
        return Ok(());
    }
    let mut ids = Items::new(alloc);
    make_tail(shelf, alloc, reducers, found, kept, parts, tree, &mut ids)?;
    put(kept, tree.index(), ids)
}
