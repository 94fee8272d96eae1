ghost use Rattle.std.specs.Prelude.{◌≡◌, ◌<◌, ◌≤◌, ◌^◌, ◌++◌, ◌∷◌, ◌↔◌, ℕ, [], List, Some, None, length, map, slice_get, IfOk, OnOk};
ghost use Rattle.std.specs.List.{All};
ghost use Rattle.shuffle_sums.specs.Shelves.{IsShelf, KeepsShelf};
ghost use Rattle.division.specs.Dividers.{FoundGrows, HaveRoom};
ghost use Rattle.division.specs.Gathered.{AreGathered, ArePlaces, CameFrom, IsStepOf, IsWorking, Longer, SamePlaces, StandAt};

use crate::extending::extend_dividers;
use crate::kept::make_tail;
use crate::reducer::Reducer;
use shuffle_sums::Shelf;
use sqlite_items::Items;
use std::alloc::{AllocError, Global};
use tree_store::TreeId;

// Room for the place of this id.
fn widen(places: &mut Items<Option<u32>>, at: usize) -> Result<(), AllocError>
    ensures long { OnOk result (at < length places.new) }
    ensures same { SamePlaces places.old places.new }
{
    while places.len() <= at {
        places.push(None)?;
    }
    Ok(())
}

// Puts an id behind the others, whose place it has from now on.
fn enter(
    places: &mut Items<Option<u32>>,
    ids: &mut Items<TreeId>,
    id: TreeId,
) -> Result<u32, AllocError>
    requires places { ArePlaces places.old ids.old }
    requires low { All (λ i. i < 2 ^ 31) ids.old }
    requires room { id < length places.old }
    requires new { slice_get places.old id ≡ Some None }
    ensures there { IfOk result (λ p. slice_get ids.new p ≡ Some id) }
    ensures places { ArePlaces places.new ids.new }
    ensures longer { Longer ids.old ids.new }
    ensures held { (n : ℕ) → All (λ i. i < n) ids.old → id < n → All (λ i. i < n) ids.new }
    ensures only { CameFrom ids.old ids.new (id ∷ []) }
{
    let place = ids.len() as u32;
    ids.push(id)?;
    places.set(id.index(), Some(place));
    Ok(place)
}

/// The place of the id in the list, where it stands from now on. `places` has the places of the ids, which are below 2^31, as
/// those that a shelf gives. `AllocError` comes for want of memory alone; the list is as before then.
pub fn meet(
    places: &mut Items<Option<u32>>,
    ids: &mut Items<TreeId>,
    id: TreeId,
) -> Result<u32, AllocError>
    requires places { ArePlaces places.old ids.old }
    requires low { All (λ i. i < 2 ^ 31) ids.old }
    ensures there { IfOk result (λ p. slice_get ids.new p ≡ Some id) }
    ensures places { ArePlaces places.new ids.new }
    ensures longer { Longer ids.old ids.new }
    ensures held { (n : ℕ) → All (λ i. i < n) ids.old → id < n → All (λ i. i < n) ids.new }
    ensures only { CameFrom ids.old ids.new (id ∷ []) }
{
    widen(places, id.index())?;
    match places.as_slice()[id.index()] {
        Some(place) => Ok(place),
        None => enter(places, ids, id),
    }
}

/// The places of the ids of a tail in the list, where they stand from now on. All ids are below 2^31, as those that a shelf
/// gives. `AllocError` comes for want of memory alone; the list may have grown then.
pub fn meet_all(
    alloc: Global,
    places: &mut Items<Option<u32>>,
    ids: &mut Items<TreeId>,
    tail: &[TreeId],
) -> Result<Items<u32>, AllocError>
    requires places { ArePlaces places.old ids.old }
    requires low { All (λ i. i < 2 ^ 31) ids.old }
    requires tail { All (λ i. i < 2 ^ 31) tail.now }
    ensures there { IfOk result (λ found. StandAt ids.new found tail.now) }
    ensures places { ArePlaces places.new ids.new }
    ensures longer { Longer ids.old ids.new }
    ensures held { (n : ℕ) → All (λ i. i < n) ids.old → All (λ i. i < n) tail.now → All (λ i. i < n) ids.new }
    ensures only { CameFrom ids.old ids.new tail.now }
{
    let mut found = Items::new(alloc);
    for id in tail {
        let place = meet(places, ids, *id)?;
        found.push(place)?;
    }
    Ok(found)
}

/// One step from the tree with this id: the ids of its tail, none where no element divides it. `parts` is room for the parts of
/// a tree; its contents don't matter. Old ids keep their trees and keys, no id gets a key, and what was found and kept is right,
/// also after an error. `AllocError` comes for want of memory alone.
pub fn step(
    shelf: &mut Shelf,
    alloc: Global,
    reducers: &[Reducer],
    groups: &[Items<u32>],
    found: &mut Items<Option<u32>>,
    kept: &mut Items<Option<Items<TreeId>>>,
    parts: &mut [TreeId],
    id: TreeId,
) -> Result<Items<TreeId>, AllocError>
    requires working { IsWorking shelf.old.trees reducers.now groups.now found.old kept.old }
    requires room { HaveRoom reducers.now (length parts.old) }
    requires id { id < length shelf.old.trees }
    ensures step { IfOk result (λ tail. IsStepOf shelf.new.trees reducers.now found.new id tail) }
    ensures working { IsWorking shelf.new.trees reducers.now groups.now found.new kept.new }
    ensures keeps { KeepsShelf shelf.old shelf.new }
    ensures keys { shelf.new.whole ≡ shelf.old.whole }
    ensures found { FoundGrows found.old found.new }
{
    extend_dividers(shelf.store(), reducers, groups, found, id, parts)?;
    let mut tail = Items::new(alloc);
    match found.as_slice()[id.index()] {
        None => Ok(tail),
        Some(_) => {
            make_tail(
                shelf,
                alloc,
                reducers,
                found.as_slice(),
                kept,
                parts,
                id,
                &mut tail,
            )?;
            Ok(tail)
        }
    }
}

/// Gathers all trees that steps can reach from those of the list: each that is reached is put behind the others, once. The
/// answer has for each id of the list the places of its tail there, and none where no element divides its tree.
/// `places` has the places of the ids of the list, and `parts` is room for the parts of a tree; its contents don't matter.
/// Old ids keep their trees and keys, and no id gets a key, also after an error. `AllocError` comes for want of memory alone.
pub fn gather(
    shelf: &mut Shelf,
    alloc: Global,
    reducers: &[Reducer],
    groups: &[Items<u32>],
    found: &mut Items<Option<u32>>,
    kept: &mut Items<Option<Items<TreeId>>>,
    parts: &mut [TreeId],
    places: &mut Items<Option<u32>>,
    ids: &mut Items<TreeId>,
) -> Result<Items<Items<u32>>, AllocError>
    requires working { IsWorking shelf.old.trees reducers.now groups.now found.old kept.old }
    requires room { HaveRoom reducers.now (length parts.old) }
    requires places { ArePlaces places.old ids.old }
    requires held { All (λ i. i < length shelf.old.trees) ids.old }
    ensures gathered { IfOk result (AreGathered shelf.new.trees reducers.now found.new ids.old ids.new) }
    ensures working { IsWorking shelf.new.trees reducers.now groups.now found.new kept.new }
    ensures places { ArePlaces places.new ids.new }
    ensures found { FoundGrows found.old found.new }
    ensures keeps { KeepsShelf shelf.old shelf.new }
    ensures keys { shelf.new.whole ≡ shelf.old.whole }
{
    let mut tails = Items::new(alloc);
    'each: while tails.len() < ids.len() {
        let id = ids.as_slice()[tails.len()];
        let tail = step(shelf, alloc, reducers, groups, found, kept, parts, id)?;
        let at = meet_all(alloc, places, ids, tail.as_slice())?;
        tails.push(at)?;
    }
    Ok(tails)
}
