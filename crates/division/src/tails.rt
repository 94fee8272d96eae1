ghost use Rattle.std.specs.Prelude.{◌≡◌, ◌<◌, ◌≤◌, ℕ, length, map, OnOk};
ghost use Rattle.std.specs.List.{All};
ghost use Rattle.tree_store.specs.Stores.{tree_at};
ghost use Rattle.shuffle_places.specs.RootPlaces.{DividesRoot};
ghost use Rattle.labelled_trees.specs.Trees.{Tree};
ghost use Rattle.shuffle_sums.specs.Shelves.{IsShelf, KeepsShelf};
ghost use Rattle.division.specs.Parts.{built};
ghost use Rattle.division.specs.Insertions.{AddsInsertion, AreMade, CanBuild, CanReplace, IsReducer, with_other};

use crate::building::{build, replace_input};
use crate::laying::divides_root;
use crate::reducer::Reducer;
use shuffle_sums::Shelf;
use sqlite_items::Items;
use std::alloc::{AllocError, Global};
use tree_store::TreeId;

// Puts behind `out` the ids of the trees with the parts at their leaves.
fn build_all(
    shelf: &mut Shelf,
    alloc: Global,
    trees: &[TreeId],
    parts: &[TreeId],
    out: &mut Items<TreeId>,
) -> Result<(), AllocError>
    requires shelf { IsShelf shelf.old }
    requires can { All (CanBuild shelf.old parts.now) trees.now }
    ensures made { OnOk result (AreMade shelf.new.trees (built shelf.old.trees parts.now) trees.now out.old out.new) }
    ensures keeps { KeepsShelf shelf.old shelf.new }
    ensures keys { shelf.new.whole ≡ shelf.old.whole }
    ensures shelf { IsShelf shelf.new }
{
    for tree in trees {
        let id = build(shelf, alloc, *tree, parts)?;
        out.push(id)?;
    }
    Ok(())
}

// Puts behind `out` the ids of the trees that the host becomes where these in turn stand in place of its input `at`.
pub fn replace_all(
    shelf: &mut Shelf,
    alloc: Global,
    host: TreeId,
    at: usize,
    others: &[TreeId],
    out: &mut Items<TreeId>,
) -> Result<(), AllocError>
    requires shelf { IsShelf shelf.old }
    requires host { host < length shelf.old.trees }
    requires can { All (CanReplace shelf.old host at) others.now }
    ensures made { OnOk result (AreMade shelf.new.trees (with_other shelf.old.trees host at) others.now out.old out.new) }
    ensures keeps { KeepsShelf shelf.old shelf.new }
    ensures keys { shelf.new.whole ≡ shelf.old.whole }
    ensures shelf { IsShelf shelf.new }
{
    for other in others {
        let id = replace_input(shelf, alloc, host, at, *other)?;
        out.push(id)?;
    }
    Ok(())
}

/// Puts behind `out` the ids of what insertion at the root makes of the trees of the element's tail. Its leading tree divides
/// the host there, and all ids were given by the shelf. `parts` is room for the parts, its contents don't matter. Old ids keep
/// their trees and keys, and no id gets a key, also after an error. `AllocError` comes for want of memory alone.
pub fn insert_at_root(
    shelf: &mut Shelf,
    alloc: Global,
    reducer: &Reducer,
    host: TreeId,
    parts: &mut [TreeId],
    out: &mut Items<TreeId>,
) -> Result<(), AllocError>
    requires reducer { IsReducer shelf.old.trees reducer.now }
    requires host { host < length shelf.old.trees }
    requires room { reducer.now.arity < length parts.old }
    requires divides { (s : ℕ → Tree ℕ) × DividesRoot reducer.now.arity (tree_at shelf.old.trees reducer.now.lead) (tree_at shelf.old.trees host) s }
    ensures made { OnOk result (AddsInsertion shelf.new.trees (tree_at shelf.old.trees host) (tree_at shelf.old.trees reducer.now.lead) (map (tree_at shelf.old.trees) reducer.now.tail) out.old out.new) }
    ensures keeps { KeepsShelf shelf.old shelf.new }
    ensures keys { shelf.new.whole ≡ shelf.old.whole }
    ensures shelf { IsShelf shelf.new }
{
    if divides_root(shelf.store(), reducer.lead, reducer.arity, host, parts) {
        build_all(shelf, alloc, reducer.tail.as_slice(), parts, out)
    } else {
        unreachable!()
    }
}
