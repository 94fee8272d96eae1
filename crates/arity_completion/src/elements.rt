ghost use Rattle.std.specs.Prelude.{◌≡◌, ◌<◌, ◌++◌, ◌∷◌, [], ℕ, IfOk, OnOk};
ghost use Rattle.std.specs.List.{All};
ghost use Rattle.modular_sums.specs.Sums.{AllTerms};
ghost use Rattle.shuffle_insertions.specs.ShuffleTrees.{IsShuffleTree};
ghost use Rattle.shuffle_transfer.specs.Labels.{inputs_of, symmetric_tree};
ghost use Rattle.symmetric_sums.specs.Terms.{HaveArity, terms_of};
ghost use Rattle.arity_completion.specs.Uses.{IsElementFor};
ghost use Rattle.symmetric_trees.specs.Generators.{generators_of};

use cofactor_log::Log;
use shuffle_passage::to_symmetric;
use shuffle_trees::STree;
use std::alloc::{AllocError, Global};
use symmetric_sums::{Sum, SumFail, collected};

// Puts a term, with its tree passed back, behind those of the sum.
fn push_back(alloc: Global, log: &Log, term: &(u32, STree), sum: &mut Sum) -> Result<(), AllocError>
    requires residue { (0 < term.now.0) × (term.now.0 < log.now.field) }
    requires arity { (n : ℕ) × IsShuffleTree (inputs_of (generators_of log.now.gens)) n term.now.1 × HaveArity n sum.old }
    ensures { OnOk result (terms_of sum.new ≡ terms_of sum.old ++ (term.now.0, symmetric_tree (generators_of log.now.gens) term.now.1) ∷ []) }
{
    let tree = to_symmetric(alloc, log.table(), &term.1)?;
    match sum.add_term(alloc, log.field(), log.table(), term.0, tree) {
        Ok(()) => Ok(()),
        Err(SumFail::NoMemory) => Err(AllocError),
        Err(SumFail::ArityDiffers) => unreachable!(),
    }
}

/// The symmetric element, collected, of a sum of shuffle trees with residues other than 0.
/// `AllocError` comes for want of memory alone.
pub fn symmetric_element(
    alloc: Global,
    log: &Log,
    terms: &[(u32, STree)],
) -> Result<Sum, AllocError>
    requires residues { All (λ x. (0 < x.0) × (x.0 < log.now.field)) terms.now }
    requires trees { (n : ℕ) × AllTerms terms.now (IsShuffleTree (inputs_of (generators_of log.now.gens)) n) }
    ensures element { IfOk result (IsElementFor log.now.field log.now.gens log.now.rels terms.now) }
{
    let mut sum = Sum::new(alloc);
    for term in terms {
        push_back(alloc, log, term, &mut sum)?;
    }
    collected(alloc, log.field(), log.table(), &sum)
}
