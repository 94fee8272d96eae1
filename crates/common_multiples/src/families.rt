ghost use Rattle.std.specs.Prelude.{◌≡◌, ◌<◌, ◌≤◌, ◌++◌, ℕ, List, [], Bool, true, false, IfOk, OnOk, slice_index};
ghost use Rattle.labelled_trees.specs.Trees.{IsNode, vertices};
ghost use Rattle.shuffle_insertions.specs.ShuffleTrees.{IsShuffle};
ghost use Rattle.common_multiples.specs.Listing.{AreAllMultiples, AreLaid, AreOverlapsAt, AreOverlapsFrom, FitsAt, IsLayable, IsPattern};

use crate::chains::Chains;
use crate::merging::Site;
use crate::overlays::{Vertex, count_leaves, leaves_over, overlay, vertex_at};
use shuffle_trees::{Labels, STree, vertex_count};
use std::alloc::{AllocError, Global};
use std::cmp::Ordering;
use symmetric_trees::spelling_order;
use tree_divisors::{Place, arity_of, lies, numbers};

/// A small common multiple: a tree with two places that share a vertex and together hold all vertices.
#[derive(Drop)]
pub struct Multiple {
    /// The tree.
    pub tree: STree,
    /// The place whose divisor is the first of the two trees.
    pub first: Place,
    /// The place whose divisor is the second of them.
    pub second: Place,
}

// A tree with a vertex and the leaves 1 to its arity.
#[derive(Drop)]
struct Pattern<'a> {
    tree: &'a STree,
    arity: u8,
}

// The table that has at each number this number.
fn same_numbers() -> [u8; 256]
    ensures same { (i : ℕ) → i < 256 → slice_index result i ≡ i }
{
    let mut numbers = [0; 256];
    for i in 0..256 {
        numbers[i] = i as u8;
    }
    numbers
}

// Whether there are `n` leaves once the guest is laid over the host's vertex `at`; false where their labels differ somewhere.
// It takes no memory.
fn fits_at(host: &Pattern, guest: &Pattern, at: u8, n: u8) -> bool
    requires patterns { IsPattern host.now × IsPattern guest.now }
    requires at { (0 < at) × (at ≤ vertices host.now.tree.now) }
    ensures fits { result ≡ true → FitsAt n host.now.tree.now guest.now.tree.now at }
    ensures none { result ≡ false → (is_turned : Bool) → AreOverlapsAt n host.now.tree.now guest.now.tree.now at is_turned [] }
{
    match vertex_at(host.tree.shape(), 1, at) {
        Vertex::At(part) => match leaves_over(part, guest.tree.shape()) {
            Some(count) => host.arity as u16 + count == n as u16 + count_leaves(part),
            None => false,
        },
        Vertex::Past(_) => unreachable!(),
    }
}

// One tree laid over another: the places of both, and for each number of a leaf of them the first leaf, from left to right, of what
// stands there.
#[derive(Drop)]
struct Laid {
    host_place: Place,
    guest_place: Place,
    first: [u8; 256],
    second: [u8; 256],
}

// The guest laid over the host's vertex `at`.
fn lay_at(alloc: Global, host: &STree, guest: &STree, at: u8) -> Result<Laid, AllocError>
    requires laid { IsLayable host.now guest.now at }
    ensures laid { IfOk result (AreLaid host.now guest.now at) }
{
    let made = overlay(
        alloc,
        host.shape(),
        guest.shape(),
        1,
        at,
        0,
        &same_numbers(),
    )?;
    let mut first = [0; 256];
    let mut second = [0; 256];
    match vertex_at(&made.tree, 1, at) {
        Vertex::At(inner) => {
            lies(host.shape(), &made.tree, &mut first);
            lies(guest.shape(), inner, &mut second);
            let host_place = Place::from_vertices(numbers(alloc, host.shape(), &made.tree, 1)?);
            let guest_place = Place::from_vertices(numbers(alloc, guest.shape(), inner, at)?);
            Ok(Laid {
                host_place,
                guest_place,
                first,
                second,
            })
        }
        Vertex::Past(_) => unreachable!(),
    }
}

// Puts the overlaps of arity `n` behind the others in which the host has the root and the guest lies over its vertex `at`.
fn push_overlaps(
    alloc: Global,
    host: &Pattern,
    guest: &Pattern,
    at: u8,
    n: u8,
    is_turned: bool,
    found: &mut Vec<Multiple>,
) -> Result<(), AllocError>
    requires patterns { IsPattern host.now × IsPattern guest.now }
    requires at { (0 < at) × (at ≤ vertices host.now.tree.now) }
    ensures overlaps { OnOk result ((more : List _) × (found.new.items ≡ found.old.items ++ more) × AreOverlapsAt n host.now.tree.now guest.now.tree.now at is_turned more) }
{
    if !fits_at(host, guest, at, n) {
        return Ok(());
    }
    let laid = lay_at(alloc, host.tree, guest.tree, at)?;
    let chains = Chains::of(laid.first, host.arity, laid.second, guest.arity);
    let site = Site {
        host: host.tree.shape(),
        guest: guest.tree.shape(),
        at,
        host_place: laid.host_place,
        guest_place: laid.guest_place,
        is_turned,
    };
    site.push_merged(alloc, &chains, 0, n, (1, 1), [0; 256], found)?;
    Ok(())
}

// Puts the overlaps of arity `n` behind the others in which the host has the root and the guest's first vertex is the host's
// vertex `from` or a later one.
fn push_family(
    alloc: Global,
    host: &Pattern,
    guest: &Pattern,
    from: u8,
    n: u8,
    is_turned: bool,
    found: &mut Vec<Multiple>,
) -> Result<(), AllocError>
    requires patterns { IsPattern host.now × IsPattern guest.now }
    requires from { 0 < from }
    ensures overlaps { OnOk result ((more : List _) × (found.new.items ≡ found.old.items ++ more) × AreOverlapsFrom n host.now.tree.now guest.now.tree.now from is_turned more) }
{
    let behind = vertex_count(host.tree) as u8 + 1;
    for at in from..behind {
        push_overlaps(alloc, host, guest, at, n, is_turned, found)?;
    }
    Ok(())
}

/// The small common multiples of two trees of arity `n`, each once: the trees with leaves 1 to `n` and two places in them, the first
/// with the divisor `one` and the second with the divisor `other`, that share a vertex and together hold all vertices; where
/// the two trees are one, the first place comes before the second. Both trees belong to the labels and have the leaves 1 to m,
/// each for its own m; a leaf alone has no multiples. `AllocError` comes for want of memory alone.
pub fn multiples(
    alloc: Global,
    _labels: &Labels,
    one: &STree,
    other: &STree,
    n: u8,
) -> Result<Vec<Multiple>, AllocError>
    requires one { (m : ℕ) × IsShuffle m one.now }
    requires other { (m : ℕ) × IsShuffle m other.now }
    ensures multiples { IfOk result (λ found. AreAllMultiples n one.now other.now found.items) }
{
    let mut found = Vec::new(alloc);
    if vertex_count(one) == 0 {
        return Ok(found);
    }
    if vertex_count(other) == 0 {
        return Ok(found);
    }
    let first = Pattern {
        tree: one,
        arity: arity_of(one),
    };
    let second = Pattern {
        tree: other,
        arity: arity_of(other),
    };
    match spelling_order(one.shape(), other.shape()) {
        Ordering::Equal => {
            push_family(alloc, &first, &second, 2, n, false, &mut found)?;
            Ok(found)
        }
        _ => {
            push_family(alloc, &first, &second, 1, n, false, &mut found)?;
            push_family(alloc, &second, &first, 2, n, true, &mut found)?;
            Ok(found)
        }
    }
}
