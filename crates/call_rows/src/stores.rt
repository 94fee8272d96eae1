ghost use Rattle.std.specs.Prelude.{◌<◌, length, IfOk, IfSome};

use presentation_text::{Document, write_number};
use rows::{RowFail, end_tree, shuffle_tree, write_next, write_text};
use smallvec::SmallVec;
use std::alloc::{AllocError, Global};
use tree_store::{NodeView, Store, TreeId};

// A blank, and a label; `-` stands for none.
fn write_label(label: Option<u16>, out: &mut Vec<u8>) -> Result<(), AllocError> {
    match label {
        Some(label) => write_next(u64::from(label), out),
        None => write_text(" -", out),
    }
}

// The id, the label, the least leaf and the number of leaves of a tree of the store, and the tree; `-` stands for no label.
fn write_held(alloc: Global, store: &Store, id: TreeId, out: &mut Vec<u8>) -> Result<(), RowFail>
    requires held { id < length store.now }
{
    write_number(id.index() as u64, out)?;
    write_label(store.label_of(id), out)?;
    write_next(u64::from(store.least_leaf(id)), out)?;
    write_next(u64::from(store.leaves(id)), out)?;
    out.push(b' ')?;
    Ok(end_tree(store.tree_of(alloc, id)?.shape(), out)?)
}

// Puts the tree of the question at a place into the store.
fn put_question(
    alloc: Global,
    store: &mut Store,
    document: &Document,
    at: usize,
) -> Result<TreeId, RowFail>
    ensures held { IfOk result (λ id. id < length store.new) }
{
    Ok(store.put(alloc, &shuffle_tree(alloc, document, at)?)?)
}

/// Puts the trees of all questions into a store, and writes of each what is held with its id.
pub fn put(alloc: Global, document: &Document, out: &mut Vec<u8>) -> Result<(), RowFail> {
    let mut store = Store::new(alloc);
    for at in 0..document.asks.len() {
        let id = put_question(alloc, &mut store, document, at)?;
        write_held(alloc, &store, id, out)?;
    }
    Ok(())
}

// Puts the vertex with this label and the inputs of the tree with this id; none where that is a leaf.
fn relabel(
    alloc: Global,
    store: &mut Store,
    id: TreeId,
    label: u16,
) -> Result<Option<TreeId>, RowFail>
    requires held { id < length store.old }
    ensures held { IfOk result (λ found. IfSome found (λ id. id < length store.new)) }
{
    let inputs = match store.node(id) {
        NodeView::Leaf(_) => return Ok(None),
        NodeView::Node(_, inputs) => SmallVec::from_slice(alloc, inputs)?,
    };
    Ok(Some(store.vertex(label, inputs)?))
}

// Writes what is held with the id of that vertex; `Refused` where the tree is a leaf.
fn write_relabelled(
    alloc: Global,
    store: &mut Store,
    id: TreeId,
    label: u16,
    out: &mut Vec<u8>,
) -> Result<(), RowFail>
    requires held { id < length store.old }
{
    match relabel(alloc, store, id, label)? {
        Some(again) => write_held(alloc, store, again, out),
        None => Err(RowFail::Refused),
    }
}

/// Puts the tree of the question, and then a vertex with the given label and the inputs of its root: what is held with the
/// id of each.
pub fn vertex(
    alloc: Global,
    document: &Document,
    numbers: &[u32],
    out: &mut Vec<u8>,
) -> Result<(), RowFail> {
    let Some(label) = numbers.first() else {
        return Err(RowFail::Refused);
    };
    let mut store = Store::new(alloc);
    let id = put_question(alloc, &mut store, document, 0)?;
    write_held(alloc, &store, id, out)?;
    write_relabelled(alloc, &mut store, id, (*label % 65536) as u16, out)
}
