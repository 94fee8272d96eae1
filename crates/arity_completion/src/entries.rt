ghost use Rattle.std.specs.Prelude.{◌≡◌, ◌*◌, ◌-◌, ◌<◌, ◌++◌, ℕ, List, IfOk, length};
ghost use Rattle.std.specs.List.{All};
ghost use Rattle.modular_sums.specs.Sums.{AllTerms};
ghost use Rattle.shuffle_insertions.specs.ShuffleTrees.{IsShuffleTree};
ghost use Rattle.shuffle_trees.specs.LabelLists.{arity_in};
ghost use Rattle.shuffle_transfer.specs.Labels.{inputs_of};
ghost use Rattle.cofactor_log.specs.Entries.{elements_of};
ghost use Rattle.arity_completion.specs.Entries.{IsEntryFor};
ghost use Rattle.arity_completion.specs.Trails.{IsPlaced};
ghost use Rattle.arity_completion.specs.Uses.{IsElementFor, UsesAddUp};
ghost use Rattle.symmetric_trees.specs.Generators.{generators_of};

use crate::{Start, symmetric_element, uses_of};
use cofactor_log::{Entry, Log};
use division::Cofactor;
use shuffle_sums::Shelf;
use shuffle_trees::STree;
use std::alloc::{AllocError, Global};

/// The entry for a sum of shuffle trees that is a residue times what a row is after the steps of a reduction: its element is the
/// symmetric one of the terms, and its uses are those of `uses_of`.
/// `AllocError` comes for want of memory alone.
pub fn entry_for(
    alloc: Global,
    log: &Log,
    shelf: &Shelf,
    entries: &[u32],
    starts: &[Start],
    cofactors: &[Cofactor],
    factor: u32,
    terms: &[(u32, STree)],
) -> Result<Entry, AllocError>
    requires factor { factor < log.now.field }
    requires labels { (l : ℕ) → arity_in shelf.now.labels l ≡ inputs_of (generators_of log.now.gens) l }
    requires placed { All (IsPlaced shelf.now (length entries.now)) cofactors.now }
    requires residues { All (λ x. (0 < x.0) × (x.0 < log.now.field)) terms.now }
    requires trees { (n : ℕ) × AllTerms terms.now (IsShuffleTree (inputs_of (generators_of log.now.gens)) n) }
    ensures entry { IfOk result (IsEntryFor log.now.field log.now.gens log.now.rels (elements_of log.now.entries) shelf.now entries.now starts.now cofactors.now factor terms.now) }
{
    Ok(Entry {
        element: symmetric_element(alloc, log, terms)?,
        uses: uses_of(alloc, log, shelf, entries, starts, cofactors, factor)?,
    })
}
