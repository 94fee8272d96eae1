ghost use Rattle.std.specs.Prelude.{◌≡◌, ◌<◌, ◌≤◌, ◌+◌, ℕ, IfOk, MatchOption, slice_index};
ghost use Rattle.labelled_trees.specs.Meaning.{tree_of};
ghost use Rattle.labelled_trees.specs.Trees.{vertices};
ghost use Rattle.labelled_trees.specs.Leaves.{leaf_count};
ghost use Rattle.labelled_trees.specs.Unions.{union};
ghost use Rattle.shuffle_places.specs.Overlays.{shape};
ghost use Rattle.common_multiples.specs.Overlaying.{Agree};
ghost use Rattle.common_multiples.specs.Building.{IsVertexSearch, numbered, over_at};

use labelled_trees::Tree as Shape;
use sqlite_items::Items;
use std::alloc::{AllocError, Global};
use tree_divisors::count_vertices;

// What a search for a vertex answers: the tree from it on, or the number behind those of the tree.
#[derive(Drop)]
pub(crate) enum Vertex<'a> {
    At(&'a Shape),
    Past(u8),
}

// Looks for the vertex with the number `at`, where the root has the number `from`.
pub(crate) fn vertex_at<'a>(tree: &'a Shape, from: u8, at: u8) -> Vertex<'a>
    requires few { from + vertices (tree_of tree.now) < 256 }
    ensures vertex { IsVertexSearch from at (tree_of tree.now) result }
{
    match tree {
        Shape::Leaf(_) => Vertex::Past(from),
        Shape::Node(_, inputs) => {
            if from == at {
                return Vertex::At(tree);
            }
            let mut next = from + 1;
            for input in inputs.as_slice() {
                match vertex_at(input, next, at) {
                    Vertex::At(found) => return Vertex::At(found),
                    Vertex::Past(number) => next = number,
                }
            }
            Vertex::Past(next)
        }
    }
}

// How many leaves a tree has.
pub(crate) fn count_leaves(tree: &Shape) -> u16
    requires few { leaf_count (tree_of tree.now) < 256 }
    ensures count { result ≡ leaf_count (tree_of tree.now) }
{
    match tree {
        Shape::Leaf(_) => 1,
        Shape::Node(_, inputs) => {
            let mut count = 0;
            for input in inputs.as_slice() {
                count += count_leaves(input);
            }
            count
        }
    }
}

// How many leaves there are once the guest is laid over the host, root on root; none where their labels differ somewhere.
// It takes no memory.
pub(crate) fn leaves_over(host: &Shape, guest: &Shape) -> Option<u16>
    requires few { (leaf_count (tree_of host.now) < 256) × (leaf_count (tree_of guest.now) < 256) }
    ensures count { MatchOption result (Agree (tree_of host.now) (tree_of guest.now) → ⊥) (λ count. Agree (tree_of host.now) (tree_of guest.now) × (count ≡ leaf_count (union (shape (tree_of host.now)) (shape (tree_of guest.now))))) }
{
    match (host, guest) {
        (Shape::Leaf(_), _) => Some(count_leaves(guest)),
        (_, Shape::Leaf(_)) => Some(count_leaves(host)),
        (Shape::Node(label, inputs), Shape::Node(other, parts)) => {
            if label != other {
                return None;
            }
            if inputs.len() != parts.len() {
                return None;
            }
            let mut count = 0;
            for (at, input) in inputs.as_slice().iter().enumerate() {
                count += leaves_over(input, &parts.as_slice()[at])?;
            }
            Some(count)
        }
    }
}

// A copy of the tree whose leaves from left to right have the entries of the table behind the first `placed`.
// Answers how many are placed then, too.
fn copy_numbered(
    alloc: Global,
    tree: &Shape,
    placed: u8,
    numbers: &[u8; 256],
) -> Result<(Shape, u8), AllocError>
    requires few { placed + leaf_count (tree_of tree.now) < 256 }
    ensures placed { IfOk result (λ made. made.1 ≡ placed + leaf_count (tree_of tree.now)) }
    ensures tree { IfOk result (λ made. tree_of made.0 ≡ numbered (slice_index numbers.now) placed (shape (tree_of tree.now))) }
{
    match tree {
        Shape::Leaf(_) => Ok((Shape::Leaf(numbers[placed as usize + 1]), placed + 1)),
        Shape::Node(label, inputs) => {
            let mut now = placed;
            let mut made = Items::from_vec(Vec::with_capacity(alloc, inputs.len())?);
            for input in inputs.as_slice() {
                let (part, then) = copy_numbered(alloc, input, now, numbers)?;
                made.push(part)?;
                now = then;
            }
            Ok((Shape::Node(*label, made), now))
        }
    }
}

// The guest laid over the host, root on root, with leaves numbered as in `copy_numbered`.
fn unite(
    alloc: Global,
    host: &Shape,
    guest: &Shape,
    placed: u8,
    numbers: &[u8; 256],
) -> Result<(Shape, u8), AllocError>
    requires few { placed + leaf_count (union (shape (tree_of host.now)) (shape (tree_of guest.now))) < 256 }
    ensures placed { IfOk result (λ made. made.1 ≡ placed + leaf_count (union (shape (tree_of host.now)) (shape (tree_of guest.now)))) }
    ensures tree { IfOk result (λ made. tree_of made.0 ≡ numbered (slice_index numbers.now) placed (union (shape (tree_of host.now)) (shape (tree_of guest.now)))) }
{
    match (host, guest) {
        (Shape::Leaf(_), _) => copy_numbered(alloc, guest, placed, numbers),
        (_, Shape::Leaf(_)) => copy_numbered(alloc, host, placed, numbers),
        (Shape::Node(label, inputs), Shape::Node(_, parts)) => {
            let mut now = placed;
            let mut made = Items::from_vec(Vec::with_capacity(alloc, inputs.len())?);
            for (at, input) in inputs.as_slice().iter().enumerate() {
                let (part, then) = match parts.as_slice().get(at) {
                    Some(other) => unite(alloc, input, other, now, numbers)?,
                    None => copy_numbered(alloc, input, now, numbers)?,
                };
                made.push(part)?;
                now = then;
            }
            Ok((Shape::Node(*label, made), now))
        }
    }
}

// What is made of a tree: the tree, the number behind those of the host's vertices, and how many leaves are placed.
#[derive(Drop)]
pub(crate) struct Made {
    pub(crate) tree: Shape,
    next: u8,
    placed: u8,
}

// The guest laid over the vertex of the host with the number `at`, where the root has the number `from`, with leaves numbered
// as in `copy_numbered`.
pub(crate) fn overlay(
    alloc: Global,
    host: &Shape,
    guest: &Shape,
    from: u8,
    at: u8,
    placed: u8,
    numbers: &[u8; 256],
) -> Result<Made, AllocError>
    requires vertices { from + vertices (tree_of host.now) < 256 }
    requires few { placed + leaf_count (over_at from at (shape (tree_of host.now)) (shape (tree_of guest.now))) < 256 }
    ensures next { IfOk result (λ made. made.next ≡ from + vertices (tree_of host.now)) }
    ensures placed { IfOk result (λ made. made.placed ≡ placed + leaf_count (over_at from at (shape (tree_of host.now)) (shape (tree_of guest.now)))) }
    ensures tree { IfOk result (λ made. tree_of made.tree ≡ numbered (slice_index numbers.now) placed (over_at from at (shape (tree_of host.now)) (shape (tree_of guest.now)))) }
{
    match host {
        Shape::Leaf(_) => {
            let tree = Shape::Leaf(numbers[placed as usize + 1]);
            Ok(Made {
                tree,
                next: from,
                placed: placed + 1,
            })
        }
        Shape::Node(label, inputs) => {
            if from == at {
                let (tree, placed) = unite(alloc, host, guest, placed, numbers)?;
                return Ok(Made {
                    tree,
                    next: from + count_vertices(host),
                    placed,
                });
            }
            let mut next = from + 1;
            let mut now = placed;
            let mut made = Items::from_vec(Vec::with_capacity(alloc, inputs.len())?);
            for input in inputs.as_slice() {
                let part = overlay(alloc, input, guest, next, at, now, numbers)?;
                next = part.next;
                now = part.placed;
                made.push(part.tree)?;
            }
            Ok(Made {
                tree: Shape::Node(*label, made),
                next,
                placed: now,
            })
        }
    }
}
