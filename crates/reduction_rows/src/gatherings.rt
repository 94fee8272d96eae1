ghost use Rattle.std.specs.Prelude.{◌<◌, ◌^◌, [], length, OnOk};
ghost use Rattle.std.specs.List.{All};
ghost use Rattle.division.specs.Dividers.{HaveRoom};
ghost use Rattle.division.specs.Gathered.{ArePlaces, IsWorking};

use crate::elements::{LoneElement, ROOM, lone_element};
use crate::stores::{shelved_trees, write_trees};
use division::{gather, meet, meet_all};
use presentation_text::Document;
use rows::{RowFail, end_line, end_number, write_next, write_text};
use shuffle_sums::Shelf;
use sqlite_items::Items;
use std::alloc::{AllocError, Global};
use tree_store::TreeId;

// Ends a line by places, with a blank before each.
fn end_places(places: &[u32], out: &mut Vec<u8>) -> Result<(), RowFail> {
    for place in places {
        write_next(u64::from(*place), out)?;
    }
    Ok(end_line("", out)?)
}

// Writes the places of each tail in a line.
fn write_tails(tails: &[Items<u32>], out: &mut Vec<u8>) -> Result<(), RowFail> {
    for tail in tails {
        write_text("tail", out)?;
        end_places(tail.as_slice(), out)?;
    }
    Ok(())
}

// Gathers all trees that steps can reach from those of the list.
fn gather_all(
    alloc: Global,
    shelf: &mut Shelf,
    element: &LoneElement,
    places: &mut Items<Option<u32>>,
    ids: &mut Items<TreeId>,
) -> Result<Items<Items<u32>>, AllocError>
    requires working { IsWorking shelf.old.trees element.now.reducers element.now.groups [] [] }
    requires room { HaveRoom element.now.reducers 16 }
    requires places { ArePlaces places.old ids.old }
    requires held { All (λ id. id < length shelf.old.trees) ids.old }
    ensures held { OnOk result (All (λ id. id < length shelf.new.trees) ids.new) }
    ensures places { OnOk result (ArePlaces places.new ids.new) }
{
    let mut parts = vec![in alloc; TreeId::numbered(0); ROOM]?;
    let mut found = Items::new(alloc);
    let mut kept = Items::new(alloc);
    gather(
        shelf,
        alloc,
        element.reducers.as_slice(),
        element.groups.as_slice(),
        &mut found,
        &mut kept,
        parts.as_mut_slice(),
        places,
        ids,
    )
}

// Writes the places at which trees are met.
fn write_met(places: &[u32], out: &mut Vec<u8>) -> Result<(), RowFail> {
    write_text("met", out)?;
    end_places(places, out)
}

// Meets the last tree and the first one once more, and writes their places.
fn meet_again(
    alloc: Global,
    places: &mut Items<Option<u32>>,
    ids: &mut Items<TreeId>,
    out: &mut Vec<u8>,
) -> Result<(), RowFail>
    requires places { ArePlaces places.old ids.old }
    requires low { All (λ id. id < 2 ^ 31) ids.old }
{
    let pair = match ids.as_slice() {
        [first, .., last] => [*last, *first],
        _ => return Err(RowFail::Refused),
    };
    write_met(meet_all(alloc, places, ids, &pair)?.as_slice(), out)
}

// Gathers all trees that steps can reach from those of the list, and writes the places of the tail of each.
fn write_reached(
    alloc: Global,
    shelf: &mut Shelf,
    element: &LoneElement,
    places: &mut Items<Option<u32>>,
    ids: &mut Items<TreeId>,
    out: &mut Vec<u8>,
) -> Result<(), RowFail>
    requires working { IsWorking shelf.old.trees element.now.reducers element.now.groups [] [] }
    requires room { HaveRoom element.now.reducers 16 }
    requires places { ArePlaces places.old ids.old }
    requires held { All (λ id. id < length shelf.old.trees) ids.old }
    ensures held { OnOk result (All (λ id. id < length shelf.new.trees) ids.new) }
    ensures places { OnOk result (ArePlaces places.new ids.new) }
{
    let tails = gather_all(alloc, shelf, element, places, ids)?;
    write_tails(tails.as_slice(), out)
}

// Writes the place of the only tree of the list, the places of the tail of each tree that is reached, the trees, and the places
// of two of them.
fn write_list(
    alloc: Global,
    shelf: &mut Shelf,
    element: &LoneElement,
    place: u32,
    places: &mut Items<Option<u32>>,
    ids: &mut Items<TreeId>,
    out: &mut Vec<u8>,
) -> Result<(), RowFail>
    requires working { IsWorking shelf.old.trees element.now.reducers element.now.groups [] [] }
    requires room { HaveRoom element.now.reducers 16 }
    requires places { ArePlaces places.old ids.old }
    requires held { All (λ id. id < length shelf.old.trees) ids.old }
{
    end_number(u64::from(place), out)?;
    write_reached(alloc, shelf, element, places, ids, out)?;
    write_trees(alloc, shelf.store(), ids.as_slice(), out)?;
    meet_again(alloc, places, ids, out)
}

// The same for a list that begins with the host.
fn write_gathered(
    alloc: Global,
    shelf: &mut Shelf,
    element: &LoneElement,
    host: TreeId,
    out: &mut Vec<u8>,
) -> Result<(), RowFail>
    requires working { IsWorking shelf.old.trees element.now.reducers element.now.groups [] [] }
    requires room { HaveRoom element.now.reducers 16 }
    requires host { host < length shelf.old.trees }
{
    let mut places = Items::new(alloc);
    let mut ids = Items::new(alloc);
    let place = meet(&mut places, &mut ids, host)?;
    write_list(alloc, shelf, element, place, &mut places, &mut ids, out)
}

// The same for the element whose trees stand behind the host.
fn gather_behind(
    alloc: Global,
    shelf: &mut Shelf,
    ids: &[TreeId],
    out: &mut Vec<u8>,
) -> Result<(), RowFail>
    requires held { All (λ id. id < length shelf.old.trees) ids.now }
{
    let [host, trees @ ..] = ids else {
        return Err(RowFail::Refused);
    };
    let element = lone_element(alloc, shelf.store(), trees)?;
    write_gathered(alloc, shelf, &element, *host, out)
}

/// All trees to which an element, whose trees stand behind the host, leads from that.
pub fn gathered(
    alloc: Global,
    document: &Document,
    words: &[String],
    out: &mut Vec<u8>,
) -> Result<(), RowFail> {
    let (mut shelf, ids) = shelved_trees(alloc, document, words)?;
    gather_behind(alloc, &mut shelf, &ids, out)
}
