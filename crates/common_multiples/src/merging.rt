ghost use Rattle.std.specs.Prelude.{◌≡◌, ◌<◌, ◌≤◌, ◌+◌, ◌++◌, ℕ, List, map, IfOk, OnOk, slice_set};
ghost use Rattle.labelled_trees.specs.Meaning.{tree_of};
ghost use Rattle.labelled_trees.specs.Trees.{vertices};
ghost use Rattle.labelled_trees.specs.Leaves.{leaf_count};
ghost use Rattle.modular_sums.specs.Lists.{Mem};
ghost use Rattle.shuffle_trees.specs.ValidTrees.{IsValid};
ghost use Rattle.common_multiples.specs.Merging.{merges, assigned};
ghost use Rattle.common_multiples.specs.Listing.{IsRoom, chains_of, multiple_at, numbered_at};

use crate::Multiple;
use crate::chains::Chains;
use crate::overlays::overlay;
use labelled_trees::Tree as Shape;
use shuffle_trees::STree;
use std::alloc::{AllocError, Global};
use tree_divisors::Place;

// Where one tree is laid over another, and the places of both in what comes out, whatever the numbers of its leaves are.
#[derive(Drop)]
pub(crate) struct Site<'a> {
    pub(crate) host: &'a Shape,
    pub(crate) guest: &'a Shape,
    pub(crate) at: u8,
    pub(crate) host_place: Place,
    pub(crate) guest_place: Place,
    pub(crate) is_turned: bool,
}

// The table with another entry for the leaf.
fn with_number(mut numbers: [u8; 256], leaf: u8, number: u8) -> [u8; 256]
    ensures table { result ≡ slice_set numbers leaf number }
{
    numbers[leaf as usize] = number;
    numbers
}

impl Site<'_> {
    // The tree with these numbers at its leaves, from left to right, and the two places.
    fn multiple(&self, alloc: Global, numbers: &[u8; 256]) -> Result<Multiple, AllocError>
        requires room { IsRoom self.now }
        requires valid { IsValid (numbered_at self.now numbers.now) }
        ensures multiple { IfOk result (λ made. made ≡ multiple_at self.now numbers.now) }
    {
        let made = overlay(alloc, self.host, self.guest, 1, self.at, 0, numbers)?;
        let tree = STree::from_valid(made.tree);
        let host_place = self.host_place.copy(alloc)?;
        let guest_place = self.guest_place.copy(alloc)?;
        if self.is_turned {
            Ok(Multiple {
                tree,
                first: guest_place,
                second: host_place,
            })
        } else {
            Ok(Multiple {
                tree,
                first: host_place,
                second: guest_place,
            })
        }
    }

    // Gives the numbers behind `given` to the `left` leaves that have none yet, in each way that keeps both chains in order, where
    // the places `i` and `j` of the chains come next; puts the trees that come out behind the others.
    pub(crate) fn push_merged(
        &self,
        alloc: Global,
        chains: &Chains,
        given: u8,
        left: u8,
        next: (usize, usize),
        numbers: [u8; 256],
        found: &mut Vec<Multiple>,
    ) -> Result<(), AllocError>
        requires room { IsRoom self.now }
        requires few { given + left < 256 }
        requires valid { (s : List ℕ) → Mem s (merges (chains_of chains.now) left next.0 next.1) → IsValid (numbered_at self.now (assigned s (given + 1) numbers)) }
        ensures found { OnOk result (found.new.items ≡ found.old.items ++ map (λ s. multiple_at self.now (assigned s (given + 1) numbers)) (merges (chains_of chains.now) left next.0 next.1)) }
    {
        if left == 0 {
            found.push(self.multiple(alloc, &numbers)?)?;
            return Ok(());
        }
        if let Some((leaf, i, j)) = chains.by_first(next.0, next.1) {
            let now = with_number(numbers, leaf, given + 1);
            self.push_merged(alloc, chains, given + 1, left - 1, (i, j), now, found)?;
        }
        if let Some((leaf, i, j)) = chains.by_second(next.0, next.1) {
            let now = with_number(numbers, leaf, given + 1);
            self.push_merged(alloc, chains, given + 1, left - 1, (i, j), now, found)?;
        }
        Ok(())
    }
}
