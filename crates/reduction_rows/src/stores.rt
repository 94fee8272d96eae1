ghost use Rattle.std.specs.Prelude.{◌≡◌, ◌<◌, length, IfOk, OnOk};
ghost use Rattle.std.specs.List.{All};
ghost use Rattle.shuffle_sums.specs.Putting.{ArePut};
ghost use Rattle.shuffle_sums.specs.Shelves.{IsShelf, IsShelved, KeepsShelf};

use crate::shelves::fits_shelf;
use presentation_text::Document;
use rows::{RowFail, end_tree, most_leaves, shuffles_of};
use shuffle_passage::labels_of;
use shuffle_sums::Shelf;
use shuffle_trees::{Labels, STree};
use std::alloc::{AllocError, Global};
use tree_store::{Store, TreeId};

// The id of the tree; `Refused` where it doesn't fit the shelf, which was made for the labels.
fn shelve_one(
    alloc: Global,
    shelf: &mut Shelf,
    labels: &Labels,
    tree: &STree,
) -> Result<TreeId, RowFail>
    requires own { shelf.old.labels ≡ labels.now }
    ensures found { IfOk result (λ id. IsShelved shelf.new id tree.now) }
    ensures keeps { OnOk result (KeepsShelf shelf.old shelf.new) }
    ensures shelf { OnOk result (IsShelf shelf.new) }
{
    if !fits_shelf(shelf, labels, tree) {
        return Err(RowFail::Refused);
    }
    Ok(shelf.shelve(alloc, tree)?)
}

/// The ids of the trees; `Refused` where one doesn't fit the shelf, which was made for the labels.
pub fn shelve_all(
    alloc: Global,
    shelf: &mut Shelf,
    labels: &Labels,
    trees: &[STree],
) -> Result<Vec<TreeId>, RowFail>
    requires own { shelf.old.labels ≡ labels.now }
    ensures put { IfOk result (λ ids. ArePut shelf.new.trees trees.now ids.items) }
{
    let mut ids = Vec::new(alloc);
    for tree in trees {
        let id = shelve_one(alloc, shelf, labels, tree)?;
        ids.push(id)?;
    }
    Ok(ids)
}

// The ids of the trees that words spell.
fn ids_of(
    alloc: Global,
    shelf: &mut Shelf,
    labels: &Labels,
    words: &[String],
) -> Result<Vec<TreeId>, RowFail>
    requires own { shelf.old.labels ≡ labels.now }
    ensures held { IfOk result (λ ids. All (λ id. id < length shelf.new.trees) ids.items) }
{
    let trees = shuffles_of(alloc, words)?;
    shelve_all(alloc, shelf, labels, trees.as_slice())
}

// The ids of the trees that words spell, in a shelf for these labels.
fn shelved_over(
    alloc: Global,
    labels: &Labels,
    words: &[String],
) -> Result<(Shelf, Vec<TreeId>), RowFail>
    ensures held { IfOk result (λ made. All (λ id. id < length made.0.trees) made.1.items) }
{
    let mut shelf = Shelf::new(alloc, labels, most_leaves(labels))?;
    let ids = ids_of(alloc, &mut shelf, labels, words)?;
    Ok((shelf, ids))
}

/// A shelf for the labels of the document, and the ids of the trees that words spell.
pub fn shelved_trees(
    alloc: Global,
    document: &Document,
    words: &[String],
) -> Result<(Shelf, Vec<TreeId>), RowFail>
    ensures held { IfOk result (λ made. All (λ id. id < length made.0.trees) made.1.items) }
{
    shelved_over(alloc, &labels_of(alloc, &document.gens)?, words)
}

/// Ends a line by the tree with this id.
pub fn end_id(alloc: Global, store: &Store, id: TreeId, out: &mut Vec<u8>) -> Result<(), AllocError>
    requires held { id < length store.now }
{
    end_tree(store.tree_of(alloc, id)?.shape(), out)
}

/// Writes each tree in a line.
pub fn write_trees(
    alloc: Global,
    store: &Store,
    ids: &[TreeId],
    out: &mut Vec<u8>,
) -> Result<(), RowFail>
    requires held { All (λ id. id < length store.now) ids.now }
{
    for id in ids {
        end_id(alloc, store, *id, out)?;
    }
    Ok(())
}
