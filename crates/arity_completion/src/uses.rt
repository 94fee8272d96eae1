ghost use Rattle.std.specs.Prelude.{◌≡◌, ◌<◌, ℕ, IfOk, length, map};
ghost use Rattle.labelled_trees.specs.Meaning.{tree_of};
ghost use Rattle.labelled_trees.specs.Trees.{leaf};
ghost use Rattle.std.specs.List.{All};
ghost use Rattle.shuffle_transfer.specs.Labels.{inputs_of};
ghost use Rattle.shuffle_trees.specs.LabelLists.{arity_in};
ghost use Rattle.shuffle_sums.specs.Shelves.{IsShelf};
ghost use Rattle.cofactor_log.specs.Entries.{elements_of};
ghost use Rattle.arity_completion.specs.Trails.{IsPlaced};
ghost use Rattle.arity_completion.specs.Uses.{AreUsesOf, IsStartUse, IsStepUse, UsesAddUp};
ghost use Rattle.symmetric_trees.specs.Generators.{generators_of};

use cofactor_log::Log;
use division::Cofactor;
use shuffle_passage::frame_to_context;
use shuffle_sums::Shelf;
use sqlite_items::Items;
use std::alloc::{AllocError, Global};
use symmetric_sums::{Instance, Rule};
use symmetric_trees::Tree;
use tree_divisors::frame_at;

/// Where a row starts: a relation or an entry, and a permutation of 1 to its arity.
#[derive(Drop)]
pub struct Start {
    pub rule: Rule,
    pub permutation: Items<u8>,
}

// The leaves with these numbers.
fn leaves_of(alloc: Global, numbers: &[u8]) -> Result<Items<Tree>, AllocError>
    ensures { IfOk result (λ leaves. map tree_of leaves ≡ map leaf numbers.now) }
{
    let mut leaves = Items::from_vec(Vec::with_capacity(alloc, numbers.len())?);
    for number in numbers {
        leaves.push(Tree::Leaf(*number))?;
    }
    Ok(leaves)
}

// The starts as uses, each so many times.
fn start_uses(alloc: Global, factor: u32, starts: &[Start]) -> Result<Items<Instance>, AllocError>
    ensures { IfOk result (AreUsesOf (IsStartUse factor) starts.now) }
{
    let mut uses = Items::new(alloc);
    for start in starts {
        uses.push(Instance {
            coef: factor,
            context: Tree::Leaf(0),
            rule: start.rule,
            inputs: leaves_of(alloc, start.permutation.as_slice())?,
        })?;
    }
    Ok(uses)
}

// So many times what a step subtracts, as a use of the entry of its element.
fn step_use(
    alloc: Global,
    log: &Log,
    shelf: &Shelf,
    entries: &[u32],
    factor: u32,
    cofactor: &Cofactor,
) -> Result<Instance, AllocError>
    requires factor { factor < log.now.field }
    requires labels { (l : ℕ) → arity_in shelf.now.labels l ≡ inputs_of (generators_of log.now.gens) l }
    requires placed { IsPlaced shelf.now (length entries.now) cofactor.now }
    ensures { IfOk result (IsStepUse log.now.field log.now.gens shelf.now entries.now factor cofactor.now) }
{
    let field = log.field();
    let host = shelf.store().tree_of(alloc, cofactor.host)?;
    let frame = frame_at(alloc, &host, &cofactor.place)?;
    let (context, inputs) = frame_to_context(alloc, log.table(), &frame)?;
    let number = field.neg(field.of_number(u64::from(cofactor.coef)));
    Ok(Instance {
        coef: field.mul(factor, number),
        context,
        rule: Rule::Step(entries[cofactor.element as usize]),
        inputs,
    })
}

// So many times what the steps subtract, each as a use.
fn step_uses(
    alloc: Global,
    log: &Log,
    shelf: &Shelf,
    entries: &[u32],
    factor: u32,
    cofactors: &[Cofactor],
) -> Result<Items<Instance>, AllocError>
    requires factor { factor < log.now.field }
    requires labels { (l : ℕ) → arity_in shelf.now.labels l ≡ inputs_of (generators_of log.now.gens) l }
    requires placed { All (IsPlaced shelf.now (length entries.now)) cofactors.now }
    ensures { IfOk result (AreUsesOf (IsStepUse log.now.field log.now.gens shelf.now entries.now factor) cofactors.now) }
{
    let mut uses = Items::new(alloc);
    for cofactor in cofactors {
        uses.push(step_use(alloc, log, shelf, entries, factor, cofactor)?)?;
    }
    Ok(uses)
}

/// A residue times what a row is after the steps of a reduction, as uses: of the relations and entries where it starts, and
/// for each cofactor of the entry of its element; `entries` has the number of the entry of each element. The cofactors' hosts
/// stand in the shelf. `AllocError` comes for want of memory alone.
pub fn uses_of(
    alloc: Global,
    log: &Log,
    shelf: &Shelf,
    entries: &[u32],
    starts: &[Start],
    cofactors: &[Cofactor],
    factor: u32,
) -> Result<Items<Instance>, AllocError>
    requires factor { factor < log.now.field }
    requires labels { (l : ℕ) → arity_in shelf.now.labels l ≡ inputs_of (generators_of log.now.gens) l }
    requires placed { All (IsPlaced shelf.now (length entries.now)) cofactors.now }
    ensures uses { IfOk result (UsesAddUp log.now.field log.now.gens log.now.rels (elements_of log.now.entries) shelf.now entries.now starts.now cofactors.now factor) }
{
    let prime = log.field().prime();
    prove!(1 < prime);
    let mut uses = start_uses(alloc, factor, starts)?;
    let steps = step_uses(alloc, log, shelf, entries, factor, cofactors)?;
    uses.append(steps)?;
    Ok(uses)
}
