ghost use Rattle.std.specs.Prelude.{◌≡◌, ◌<◌, ℕ, IfOk, MatchOption, Some, length, slice_get};
ghost use Rattle.shuffle_insertions.specs.ShuffleTrees.{IsShuffle};
ghost use Rattle.tree_divisors.specs.Finding.{HasNoPlace, IsFirstPlace};
ghost use Rattle.tree_store.specs.Stores.{tree_at};
ghost use Rattle.shuffle_sums.specs.Sums.{HaveKeys};
ghost use Rattle.division.specs.Bases.{AllStand, IsIndexedBy, IsLeastDivider, IsMonicSum, NoneDivides, first_id};
ghost use Rattle.division.specs.Roots as spec;

use crate::basis::Basis;
use crate::root::Root;
use path_orders::TreeOrder;
use shuffle_sums::{SSum, Shelf};
use shuffle_trees::STree;
use std::alloc::{AllocError, Global};
use tree_divisors::{Place, first_place};
use tree_store::TreeId;

/// The id of the leading tree of a monic sum. It takes no memory.
pub(crate) fn lead_id<O: TreeOrder>(sum: &SSum<O>) -> TreeId
    requires monic { IsMonicSum sum.now }
    ensures lead { result ≡ first_id sum.now }
{
    match sum.lead() {
        Some(first) => first.1,
        None => unreachable!(),
    }
}

// The first place at which the leading tree of a sum, with this root, divides the tree. One leaf alone divides none.
fn place_of_lead<O: TreeOrder>(
    alloc: Global,
    shelf: &Shelf,
    root: Root,
    sum: &SSum<O>,
    tree: &STree,
) -> Result<Option<Place>, AllocError>
    requires stands { HaveKeys shelf.now sum.now }
    requires monic { IsMonicSum sum.now }
    requires root { root ≡ spec.root_of (tree_at shelf.now.trees (first_id sum.now)) }
    ensures first { IfOk result (λ found. MatchOption found (HasNoPlace (tree_at shelf.now.trees (first_id sum.now)) tree.now) (IsFirstPlace (tree_at shelf.now.trees (first_id sum.now)) tree.now)) }
{
    match root.label {
        None => Ok(None),
        Some(_) => {
            let lead = shelf.store().tree_of(alloc, lead_id(sum))?;
            first_place(alloc, &lead, tree)
        }
    }
}

impl<O: TreeOrder> Basis<O> {
    /// The first element whose leading tree divides the tree, by its position, with the first place at which it does; `None`
    /// exactly where no leading tree divides it. The elements stand in the shelf, by which the basis is indexed.
    /// `AllocError` comes for want of memory alone.
    pub fn divider(
        &self,
        alloc: Global,
        shelf: &Shelf,
        tree: &STree,
    ) -> Result<Option<(u32, Place)>, AllocError>
        requires stands { AllStand shelf.now self.now.elements }
        requires indexed { IsIndexedBy shelf.now self.now }
        ensures divider { IfOk result (λ found. MatchOption found (NoneDivides shelf.now self.now.elements tree.now) (λ x. IsLeastDivider shelf.now self.now.elements tree.now x.0 x.1)) }
    {
        let elements = self.elements();
        let roots = self.roots();
        for at in 0..elements.len() {
            let found = place_of_lead(alloc, shelf, roots[at], &elements[at], tree)?;
            if let Some(place) = found {
                return Ok(Some((at as u32, place)));
            }
        }
        Ok(None)
    }
}
