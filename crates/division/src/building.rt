ghost use Rattle.std.specs.Prelude.{◌≡◌, ◌<◌, ◌≤◌, ℕ, Some, length, map, slice_get, slice_index, slice_set, IfOk};
ghost use Rattle.tree_store.specs.Stores.{tree_at, AddsSubtrees};
ghost use Rattle.shuffle_sums.specs.Shelves.{HasLeavesAmong, IsShelf, KeepsShelf};
ghost use Rattle.division.specs.Parts.{AreHeld, HasRoom, built, replaced};

use shuffle_sums::Shelf;
use smallvec::SmallVec;
use std::alloc::{AllocError, Global};
use tree_store::{NodeView, TreeId};

/// The id of the tree with entry `i` of `parts` at leaf `i`, which is held from now on with its subtrees. It belongs to the
/// shelf, which gave the ids. Old ids keep their trees and keys, and no id gets a key, also after an error.
/// `AllocError` comes for want of memory alone.
pub fn build(
    shelf: &mut Shelf,
    alloc: Global,
    tree: TreeId,
    parts: &[TreeId],
) -> Result<TreeId, AllocError>
    requires tree { tree < length shelf.old.trees }
    requires room { HasRoom parts.now (tree_at shelf.old.trees tree) }
    requires held { AreHeld shelf.old.trees parts.now (tree_at shelf.old.trees tree) }
    requires belongs { HasLeavesAmong shelf.old.labels shelf.old.most (built shelf.old.trees parts.now tree) }
    ensures found { IfOk result (λ id. slice_get shelf.new.trees id ≡ Some (built shelf.old.trees parts.now tree)) }
    ensures added { AddsSubtrees shelf.old.trees shelf.new.trees (built shelf.old.trees parts.now tree) }
    ensures keeps { KeepsShelf shelf.old shelf.new }
    ensures keys { shelf.new.whole ≡ shelf.old.whole }
    ensures shelf { IsShelf shelf.new }
{
    match shelf.store().node(tree) {
        NodeView::Leaf(number) => Ok(parts[number as usize]),
        NodeView::Node(label, inputs) => {
            let inputs = SmallVec::<TreeId, 6>::from_slice(alloc, inputs)?;
            let mut ids = SmallVec::new(alloc);
            for input in inputs.as_slice() {
                let id = build(shelf, alloc, *input, parts)?;
                ids.push(id)?;
            }
            shelf.vertex(label, ids)
        }
    }
}

// The ids with another in place of the one with this number.
fn with_input(
    alloc: Global,
    ids: &[TreeId],
    at: usize,
    other: TreeId,
) -> Result<SmallVec<TreeId, 6>, AllocError>
    ensures changed { IfOk result (λ copy. copy.items ≡ slice_set ids.now at other) }
{
    let mut copy = SmallVec::from_slice(alloc, ids)?;
    if at < ids.len() {
        copy.as_mut_slice()[at] = other;
    }
    Ok(copy)
}

/// The id of the tree with the tree `other` in place of input `at` of its root, counted from 0; it is held from now on. The
/// result belongs to the shelf, which gave the ids. Old ids keep their trees and keys, and no id gets a key, also after an
/// error. `AllocError` comes for want of memory alone.
pub fn replace_input(
    shelf: &mut Shelf,
    alloc: Global,
    host: TreeId,
    at: usize,
    other: TreeId,
) -> Result<TreeId, AllocError>
    requires host { host < length shelf.old.trees }
    requires other { other < length shelf.old.trees }
    requires belongs { HasLeavesAmong shelf.old.labels shelf.old.most (replaced (tree_at shelf.old.trees host) at (tree_at shelf.old.trees other)) }
    ensures found { IfOk result (λ id. slice_get shelf.new.trees id ≡ Some (replaced (tree_at shelf.old.trees host) at (tree_at shelf.old.trees other))) }
    ensures added { AddsSubtrees shelf.old.trees shelf.new.trees (replaced (tree_at shelf.old.trees host) at (tree_at shelf.old.trees other)) }
    ensures keeps { KeepsShelf shelf.old shelf.new }
    ensures keys { shelf.new.whole ≡ shelf.old.whole }
    ensures shelf { IsShelf shelf.new }
{
    match shelf.store().node(host) {
        NodeView::Leaf(_) => Ok(host),
        NodeView::Node(label, inputs) => {
            let ids = with_input(alloc, inputs, at, other)?;
            shelf.vertex(label, ids)
        }
    }
}
