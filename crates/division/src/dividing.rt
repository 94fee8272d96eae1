ghost use Rattle.std.specs.Prelude.{◌≡◌, ◌<◌, ◌≤◌, ℕ, [], Some, None, length, map, slice_get, MatchOption};
ghost use Rattle.std.specs.List.{All};
ghost use Rattle.tree_store.specs.Stores.{tree_at, IsStore};
ghost use Rattle.division.specs.Dividers.{AreCandidates, AreDividers, AreGroups, AreReducers, HaveRoom, IsFirstAtRoot, IsFirstDivider, IsLeastOf, IsLesser};

use crate::laying::divides_root;
use crate::reducer::Reducer;
use sqlite_items::Items;
use tree_store::{NodeView, Store, TreeId};

// The first of the candidates, with a lower number than `bound`, that divides the tree at its root.
fn first_at_root(
    store: &Store,
    reducers: &[Reducer],
    candidates: &[u32],
    bound: usize,
    id: TreeId,
    parts: &mut [TreeId],
) -> Option<u32>
    requires reducers { AreReducers store.now reducers.now }
    requires id { id < length store.now }
    requires candidates { AreCandidates store.now reducers.now (tree_at store.now id) candidates.now }
    requires room { HaveRoom reducers.now (length parts.old) }
    ensures first { IsFirstAtRoot store.now reducers.now (tree_at store.now id) bound result }
{
    for candidate in candidates {
        let element = *candidate;
        if element as usize >= bound {
            return None;
        }
        let reducer = &reducers[element as usize];
        if divides_root(store, reducer.lead, reducer.arity, id, parts) {
            return Some(element);
        }
    }
    None
}

// The lesser of two numbers, as far as they are there.
fn lesser(one: Option<u32>, other: Option<u32>) -> Option<u32>
    ensures lesser { IsLesser one other result }
{
    match one {
        None => other,
        Some(a) => match other {
            None => Some(a),
            Some(b) => Some(if a <= b { a } else { b }),
        },
    }
}

// The least of the dividers of the inputs.
fn least_of_inputs(found: &[Option<u32>], inputs: &[TreeId]) -> Option<u32>
    requires found { All (λ i. i < length found.now) inputs.now }
    ensures least { IsLeastOf found.now inputs.now result }
{
    let mut least = None;
    for input in inputs {
        least = lesser(least, found[input.index()]);
    }
    least
}

// The bound below which a divider at the root is looked for.
fn bound_of(least: Option<u32>, all: usize) -> usize
    ensures bound { MatchOption least (result ≡ all) (λ e. result ≡ e) }
{
    match least {
        Some(element) => element as usize,
        None => all,
    }
}

// The group with this label; no elements where there is none.
fn group(groups: &[Items<u32>], label: u16) -> &[u32]
    ensures group { MatchOption (slice_get groups.now label) (result.now ≡ []) (λ g. result.now ≡ g) }
{
    match groups.get(label as usize) {
        Some(group) => group.as_slice(),
        None => &[],
    }
}

/// The number of the first element whose leading tree divides the tree with this id, found from those of its inputs, which
/// have entries in `found`. `groups` has the numbers of the elements by the labels of their roots, in ascending order, and
/// `parts` is room for the parts of a tree; its contents don't matter. It takes no memory.
pub fn first_divider(
    store: &Store,
    reducers: &[Reducer],
    groups: &[Items<u32>],
    found: &[Option<u32>],
    id: TreeId,
    parts: &mut [TreeId],
) -> Option<u32>
    requires reducers { AreReducers store.now reducers.now }
    requires groups { AreGroups store.now reducers.now groups.now }
    requires found { AreDividers store.now reducers.now found.now }
    requires id { id < length store.now }
    requires inputs { id ≤ length found.now }
    requires room { HaveRoom reducers.now (length parts.old) }
    ensures first { IsFirstDivider store.now reducers.now (tree_at store.now id) result }
{
    match store.node(id) {
        NodeView::Leaf(_) => None,
        NodeView::Node(label, inputs) => {
            let least = least_of_inputs(found, inputs);
            let bound = bound_of(least, reducers.len());
            match first_at_root(store, reducers, group(groups, label), bound, id, parts) {
                Some(element) => Some(element),
                None => least,
            }
        }
    }
}
