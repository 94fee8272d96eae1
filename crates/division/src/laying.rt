ghost use Rattle.std.specs.Prelude.{◌≡◌, ◌↔◌, ◌<◌, ◌≤◌, ℕ, true, false, length, map, slice_index, IsTrue};
ghost use Rattle.std.specs.List.{All};
ghost use Rattle.labelled_trees.specs.Trees.{Tree, graft, node, row, IsNode};
ghost use Rattle.labelled_trees.specs.Leaves.{occurs};
ghost use Rattle.shuffle_insertions.specs.ShuffleTrees.{IsShuffle};
ghost use Rattle.tree_store.specs.Stores.{tree_at, IsStore};
ghost use Rattle.shuffle_places.specs.RootPlaces.{DividesRoot};
ghost use Rattle.division.specs.Parts.{part_at, AreHeld, HasRoom, LeastRise};

use tree_store::{NodeView, Store, TreeId};

// Whether the lead's vertices lie on the host's from the root on, with the same labels; the host's parts at the leaves of the lead.
fn lay(store: &Store, lead: TreeId, host: TreeId, parts: &mut [TreeId]) -> bool
    requires lead { lead < length store.now }
    requires host { host < length store.now }
    requires room { HasRoom parts.old (tree_at store.now lead) }
    ensures laid { result ≡ true → graft (tree_at store.now lead) (part_at store.now parts.new) ≡ tree_at store.now host }
    ensures held { result ≡ true → AreHeld store.now parts.new (tree_at store.now lead) }
    ensures not { result ≡ false → (s : ℕ → Tree ℕ) → graft (tree_at store.now lead) s ≡ tree_at store.now host → ⊥ }
    ensures others { (i : ℕ) → occurs i (tree_at store.now lead) ≡ 0 → slice_index parts.new i ≡ slice_index parts.old i }
{
    match store.node(lead) {
        NodeView::Leaf(number) => {
            parts[number as usize] = host;
            true
        }
        NodeView::Node(label, inputs) => match store.node(host) {
            NodeView::Leaf(_) => false,
            NodeView::Node(other, hosts) => {
                if label != other {
                    return false;
                }
                if inputs.len() != hosts.len() {
                    return false;
                }
                for at in 0..inputs.len() {
                    if !lay(store, inputs[at], hosts[at], parts) {
                        return false;
                    }
                }
                true
            }
        },
    }
}

// Whether the least leaves of the parts 1 to `arity` rise.
fn rises(store: &Store, parts: &[TreeId], arity: usize) -> bool
    requires room { arity < length parts.now }
    requires held { (i : ℕ) → 0 < i → i ≤ arity → slice_index parts.now i < length store.now }
    ensures rises { IsTrue result ↔ LeastRise store.now parts.now arity }
{
    if arity == 0 {
        return true;
    }
    let mut last = store.least_leaf(parts[1]);
    for at in 2..arity + 1 {
        let next = store.least_leaf(parts[at]);
        if next <= last {
            return false;
        }
        last = next;
    }
    true
}

/// Whether the lead, a shuffle tree of this arity, divides the host at its root. If so, entry `i` of `parts` is the part
/// of the host at leaf `i` of the lead; else the entries 1 to `arity` may have changed. Entry 0 is not used. It takes no memory.
/// The ids were given by the store.
pub fn divides_root(
    store: &Store,
    lead: TreeId,
    arity: u8,
    host: TreeId,
    parts: &mut [TreeId],
) -> bool
    requires lead { lead < length store.now }
    requires host { host < length store.now }
    requires valid { IsShuffle arity (tree_at store.now lead) }
    requires room { arity < length parts.old }
    ensures divides { IsTrue result → DividesRoot arity (tree_at store.now lead) (tree_at store.now host) (part_at store.now parts.new) }
    ensures held { IsTrue result → (i : ℕ) → 0 < i → i ≤ arity → slice_index parts.new i < length store.now }
    ensures not { result ≡ false → (s : ℕ → Tree ℕ) → DividesRoot arity (tree_at store.now lead) (tree_at store.now host) s → ⊥ }
{
    if lay(store, lead, host, parts) {
        rises(store, parts, arity as usize)
    } else {
        false
    }
}

// The same for a host that need not be in the store: the vertex with this label and these inputs.
fn lay_inputs(
    store: &Store,
    lead: TreeId,
    label: u16,
    hosts: &[TreeId],
    parts: &mut [TreeId],
) -> bool
    requires lead { lead < length store.now }
    requires vertex { IsNode (tree_at store.now lead) }
    requires hosts { All (λ id. id < length store.now) hosts.now }
    requires room { HasRoom parts.old (tree_at store.now lead) }
    ensures laid { result ≡ true → graft (tree_at store.now lead) (part_at store.now parts.new) ≡ node label (row (map (tree_at store.now) hosts.now)) }
    ensures held { result ≡ true → AreHeld store.now parts.new (tree_at store.now lead) }
    ensures not { result ≡ false → (s : ℕ → Tree ℕ) → graft (tree_at store.now lead) s ≡ node label (row (map (tree_at store.now) hosts.now)) → ⊥ }
{
    match store.node(lead) {
        NodeView::Leaf(_) => false,
        NodeView::Node(own, inputs) => {
            if own != label {
                return false;
            }
            if inputs.len() != hosts.len() {
                return false;
            }
            for at in 0..inputs.len() {
                if !lay(store, inputs[at], hosts[at], parts) {
                    return false;
                }
            }
            true
        }
    }
}

/// Whether the lead, a shuffle tree of this arity with a vertex, divides at its root the vertex with this label and these
/// inputs, which need not be in the store. For `parts` see `divides_root`. It takes no memory. The ids were given by the store.
pub fn divides_inputs(
    store: &Store,
    lead: TreeId,
    arity: u8,
    label: u16,
    inputs: &[TreeId],
    parts: &mut [TreeId],
) -> bool
    requires lead { lead < length store.now }
    requires inputs { All (λ id. id < length store.now) inputs.now }
    requires valid { IsShuffle arity (tree_at store.now lead) }
    requires vertex { IsNode (tree_at store.now lead) }
    requires room { arity < length parts.old }
    ensures divides { IsTrue result → DividesRoot arity (tree_at store.now lead) (node label (row (map (tree_at store.now) inputs.now))) (part_at store.now parts.new) }
    ensures held { IsTrue result → (i : ℕ) → 0 < i → i ≤ arity → slice_index parts.new i < length store.now }
    ensures not { result ≡ false → (s : ℕ → Tree ℕ) → DividesRoot arity (tree_at store.now lead) (node label (row (map (tree_at store.now) inputs.now))) s → ⊥ }
{
    if lay_inputs(store, lead, label, inputs, parts) {
        rises(store, parts, arity as usize)
    } else {
        false
    }
}
