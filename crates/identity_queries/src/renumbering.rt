ghost use Rattle.std.specs.Prelude.{◌≡◌, ◌<◌, ◌≤◌, ◌^◌, ℕ, IfOk, length, map};
ghost use Rattle.std.specs.List.{All};
ghost use Rattle.modular_sums.specs.Lists.{Mem, Rises};
ghost use Rattle.symmetric_sums.specs.Terms.{HaveResidues};
ghost use Rattle.cofactor_log.specs.Marks.{CitesWithin, IsFounded};
ghost use Rattle.identity_queries.specs.Renumbering.{AreWithin, AreNewPlaces, CitesNumber, number_in, renumbered_rule, renumbered_step, renumbered_use, steps_at};

use certificate_text::Step;
use cofactor_log::Entry;
use prime_field::Field;
use sqlite_items::Items;
use std::alloc::{AllocError, Global};
use symmetric_sums::{Instance, Rule, Sum};
use symmetric_trees::Tree;

// For each of so many entries its place among those found, from 1; 0 for the others.
pub(crate) fn new_numbers(
    alloc: Global,
    count: usize,
    found: &[u32],
) -> Result<Vec<u32>, AllocError>
    requires rises { Rises found.now }
    requires within { AreWithin count found.now }
    requires few { count ≤ 2 ^ 31 }
    ensures places { IfOk result (λ numbers. AreNewPlaces found.now numbers.items) }
    ensures length { IfOk result (λ numbers. length numbers.items ≡ count) }
{
    let mut numbers = Vec::new(alloc);
    numbers.resize(count, 0)?;
    let mut place: u32 = 0;
    for number in found {
        place += 1;
        numbers[*number as usize - 1] = place;
    }
    Ok(numbers)
}

// The rule with the entry's new number.
fn new_rule(numbers: &[u32], rule: Rule) -> Rule
    requires within { CitesNumber (length numbers.now) rule }
    ensures { result ≡ renumbered_rule (number_in numbers.now) rule }
{
    match rule {
        Rule::Rel(number) => Rule::Rel(number),
        Rule::Swap { generator, at } => Rule::Swap { generator, at },
        Rule::Step(number) => Rule::Step(numbers[number as usize - 1]),
    }
}

fn copies(alloc: Global, trees: &[Tree]) -> Result<Items<Tree>, AllocError>
    ensures { IfOk result (λ made. made ≡ trees.now) }
{
    let mut made = Items::from_vec(Vec::with_capacity(alloc, trees.len())?);
    for tree in trees {
        made.push(tree.copy(alloc)?)?;
    }
    Ok(made)
}

// The use with the entry's new number.
fn new_use(alloc: Global, numbers: &[u32], item: &Instance) -> Result<Instance, AllocError>
    requires within { CitesNumber (length numbers.now) item.now.rule }
    ensures { IfOk result (λ made. made ≡ renumbered_use (number_in numbers.now) item.now) }
{
    Ok(Instance {
        coef: item.coef,
        context: item.context.copy(alloc)?,
        rule: new_rule(numbers, item.rule),
        inputs: copies(alloc, item.inputs.as_slice())?,
    })
}

fn new_uses(
    alloc: Global,
    numbers: &[u32],
    uses: &[Instance],
) -> Result<Items<Instance>, AllocError>
    requires within { CitesWithin (length numbers.now) uses.now }
    ensures { IfOk result (λ made. made ≡ map (renumbered_use (number_in numbers.now)) uses.now) }
{
    let mut made = Items::from_vec(Vec::with_capacity(alloc, uses.len())?);
    for item in uses {
        made.push(new_use(alloc, numbers, item)?)?;
    }
    Ok(made)
}

// An equal sum.
pub(crate) fn copy(alloc: Global, field: Field, sum: &Sum) -> Result<Sum, AllocError>
    requires residues { HaveResidues field sum.now }
    ensures { IfOk result (λ made. made ≡ sum.now) }
{
    let prime = field.prime();
    prove!(1 < prime);
    sum.scaled(alloc, field, 1)
}

// The entry as a step, with the new numbers of the entries that it cites.
pub(crate) fn new_step(
    alloc: Global,
    field: Field,
    numbers: &[u32],
    entry: &Entry,
) -> Result<Step, AllocError>
    requires residues { HaveResidues field entry.now.element }
    requires within { CitesWithin (length numbers.now) entry.now.uses }
    ensures { IfOk result (λ step. step ≡ renumbered_step (number_in numbers.now) entry.now) }
{
    Ok(Step {
        element: copy(alloc, field, &entry.element)?,
        uses: new_uses(alloc, numbers, entry.uses.as_slice())?,
    })
}

// The entries with these numbers as steps.
pub(crate) fn new_steps(
    alloc: Global,
    field: Field,
    numbers: &[u32],
    entries: &[Entry],
    found: &[u32],
) -> Result<Items<Step>, AllocError>
    requires residues { All (λ entry. HaveResidues field entry.element) entries.now }
    requires founded { IsFounded entries.now }
    requires within { AreWithin (length entries.now) found.now }
    requires long { length numbers.now ≡ length entries.now }
    ensures { IfOk result (λ made. made ≡ steps_at (number_in numbers.now) entries.now found.now) }
{
    let mut made = Items::new(alloc);
    for number in found {
        let entry = &entries[*number as usize - 1];
        made.push(new_step(alloc, field, numbers, entry)?)?;
    }
    Ok(made)
}
