ghost use Rattle.std.specs.Prelude.{◌≡◌, ◌<◌, ◌≤◌, ◌↔◌, IfOk, IsTrue, length, min};
ghost use Rattle.std.specs.List.{All};
ghost use Rattle.labelled_trees.specs.Leaves.{AllLeaves, occurs};
ghost use Rattle.labelled_trees.specs.Meaning.{tree_of};
ghost use Rattle.symmetric_trees.specs.Trees.{IsLabelled};
ghost use Rattle.symmetric_sums.specs.Terms.{FitsOver, HaveArity, HaveResidues, terms_of};
ghost use Rattle.symmetric_sums.specs.Instances.{IsExpanded, IsExpandedTo, rule_element, sum_at};
ghost use Rattle.symmetric_sums.specs.Membership.{InstancesAreMembers};
ghost use Rattle.symmetric_sums.specs.PlainInstances.{ExpandAnswersInstances};
ghost use Rattle.symmetric_sums.specs.Expanding.{HasPlace, IsFilled};

use crate::symmetry::symmetry_rule;
use crate::{Instance, Rule, Sum, Term};
use prime_field::Field;
use sqlite_items::Items;
use std::alloc::{AllocError, Global};
use symmetric_trees::{GenTable, Tree, arity_of, fill};
use thiserror::Error;

/// Why an instance isn't expanded.
#[derive(Clone, Copy, Debug, PartialEq, Eq, Error)]
pub enum ExpandFail {
    /// The instance names no rule with terms, or it isn't valid in any arity.
    #[error("the instance names no rule, or its parts don't fit")]
    Unfit,
    /// Memory has run out.
    #[error("out of memory")]
    NoMemory,
}

impl From<AllocError> for ExpandFail {
    ghost use Rattle.symmetric_sums.specs.declared.expanding.ExpandFail.TheVariants.{NoMemory};
    ghost use Rattle.std.specs.Prelude.{◌≡◌};

    ghost from_gives = { λ _ fail. fail ≡ NoMemory };

    fn from(_refused: AllocError) -> ExpandFail {
        ExpandFail::NoMemory
    }
}

/// The element of an instance, with the arity of the filled trees. They have it also where the element has no terms,
/// since the residue of the instance is 0.
#[derive(Drop)]
pub struct Expanded {
    pub sum: Sum,
    pub arity: u8,
}

/// The element of an instance: for each term of its rule's element in order, the product of the residues beside the
/// filled context; zero products are left out. The instance's residue, and those of the sums, are of the field, and the
/// trees of the sums fit the table. `NoMemory` comes for want of memory alone, `Unfit` exactly where one of these holds:
/// - the number or place of the rule is out of range;
/// - the inputs `at` and `at + 1` aren't two inputs of one symmetric or skew part of the generator;
/// - the rule's element has no terms;
/// - the number of inputs isn't the arity of the rule's element;
/// - leaf 0 doesn't stand in the context exactly once, or it stands in an input;
/// - a vertex has the wrong number of inputs;
/// - the filled trees don't carry 1 to `n`, each once, for one `n`.
pub fn expand(
    alloc: Global,
    field: Field,
    table: &GenTable,
    rels: &[Sum],
    steps: &[Sum],
    instance: &Instance,
) -> Result<Sum, ExpandFail>
    requires coef { instance.now.coef < field }
    requires rels { All (FitsOver field table.now) rels.now }
    requires steps { All (FitsOver field table.now) steps.now }
    ensures answer { IsExpanded field table.now (rule_element field table.now rels.now steps.now instance.now.rule) instance.now result }
    ensures fits { IfOk result (FitsOver field table.now) }
{
    let Expanded { sum, arity: _ } = expand_with_arity(alloc, field, table, rels, steps, instance)?;
    Ok(sum)
}

/// As `expand`, with the arity of the filled trees.
pub fn expand_with_arity(
    alloc: Global,
    field: Field,
    table: &GenTable,
    rels: &[Sum],
    steps: &[Sum],
    instance: &Instance,
) -> Result<Expanded, ExpandFail>
    requires coef { instance.now.coef < field }
    requires rels { All (FitsOver field table.now) rels.now }
    requires steps { All (FitsOver field table.now) steps.now }
    ensures answer { IsExpandedTo field table.now (rule_element field table.now rels.now steps.now instance.now.rule) instance.now result }
    ensures residues { IfOk result (λ expanded. HaveResidues field expanded.sum) }
    ensures labelled { IfOk result (λ expanded. All (λ term. IsLabelled table.now expanded.arity (tree_of term.tree)) expanded.sum) }
{
    match instance.rule {
        Rule::Rel(number) => expand_numbered(alloc, field, table, rels, number, instance),
        Rule::Swap { generator, at } => {
            let rule = symmetry_rule(alloc, field, table, generator, at)?;
            expand_around(alloc, field, table, &rule, instance)
        }
        Rule::Step(number) => expand_numbered(alloc, field, table, steps, number, instance),
    }
}

// The instance around the sum with this number, counted from 1.
fn expand_numbered(
    alloc: Global,
    field: Field,
    table: &GenTable,
    sums: &[Sum],
    number: u32,
    instance: &Instance,
) -> Result<Expanded, ExpandFail>
    requires coef { instance.now.coef < field }
    requires sums { All (FitsOver field table.now) sums.now }
    ensures answer { IsExpandedTo field table.now (sum_at sums.now number) instance.now result }
    ensures residues { IfOk result (λ expanded. HaveResidues field expanded.sum) }
    ensures labelled { IfOk result (λ expanded. All (λ term. IsLabelled table.now expanded.arity (tree_of term.tree)) expanded.sum) }
{
    if number == 0 {
        return Err(ExpandFail::Unfit);
    }
    match sums.get(number as usize - 1) {
        Some(element) => expand_around(alloc, field, table, element, instance),
        None => Err(ExpandFail::Unfit),
    }
}

/// As `expand_with_arity`, with this sum for the element of the instance's rule. So a caller may keep its relations and
/// steps as it likes.
pub fn expand_around(
    alloc: Global,
    field: Field,
    table: &GenTable,
    element: &Sum,
    instance: &Instance,
) -> Result<Expanded, ExpandFail>
    requires coef { instance.now.coef < field }
    requires element { FitsOver field table.now element.now }
    ensures answer { IsExpandedTo field table.now (terms_of element.now) instance.now result }
    ensures residues { IfOk result (λ expanded. HaveResidues field expanded.sum) }
    ensures labelled { IfOk result (λ expanded. All (λ term. IsLabelled table.now expanded.arity (tree_of term.tree)) expanded.sum) }
{
    if !has_place(element, instance) {
        return Err(ExpandFail::Unfit);
    }
    let mut terms = Items::new(alloc);
    let mut arity = None;
    for term in element.terms() {
        let (filled, own) = filled_term(alloc, field, table, instance, term)?;
        if let Some(others) = arity {
            if others != own {
                return Err(ExpandFail::Unfit);
            }
        }
        arity = Some(own);
        if filled.coef != 0 {
            terms.push(filled)?;
        }
    }
    let Some(arity) = arity else {
        return Err(ExpandFail::Unfit);
    };
    Ok(Expanded {
        sum: Sum::with_arity(terms, arity),
        arity,
    })
}

// A term of the element in its place in the instance, and the arity of its tree.
fn filled_term(
    alloc: Global,
    field: Field,
    table: &GenTable,
    instance: &Instance,
    term: &Term,
) -> Result<(Term, u8), ExpandFail>
    requires coef { instance.now.coef < field }
    requires residue { term.now.coef < field }
    requires numbers { AllLeaves (tree_of term.now.tree) (λ i. (0 < i) × (i ≤ length instance.now.inputs)) }
    ensures { IsFilled field table.now instance.now term.now result }
{
    let inputs = instance.inputs.as_slice();
    let tree = fill(alloc, &instance.context, &term.tree, inputs)?;
    let Some(arity) = arity_of(&tree, table) else {
        return Err(ExpandFail::Unfit);
    };
    let coef = field.mul(instance.coef, term.coef);
    Ok((Term { coef, tree }, arity))
}

// Whether there are as many inputs as the element's arity, and leaf 0 stands once in the context and in no input.
fn has_place(element: &Sum, instance: &Instance) -> bool
    ensures place { IsTrue result ↔ HasPlace element.now instance.now }
    ensures arity { IsTrue result → HaveArity (length instance.now.inputs) element.now }
{
    let Some(arity) = element.arity() else {
        return false;
    };
    if instance.inputs.len() != arity as usize {
        return false;
    }
    if holes(&instance.context) != 1 {
        return false;
    }
    for input in instance.inputs.as_slice() {
        if holes(input) != 0 {
            return false;
        }
    }
    true
}

// How many leaves are 0, or 2 where they are more.
fn holes(tree: &Tree) -> u8
    ensures { result ≡ min 2 (occurs 0 (tree_of tree.now)) }
{
    match tree {
        Tree::Leaf(0) => 1,
        Tree::Leaf(_) => 0,
        Tree::Node(_, inputs) => {
            let mut found = 0;
            for input in inputs.as_slice() {
                found = 2.min(found + holes(input));
            }
            found
        }
    }
}

/// Law: where the steps are in the ideal of the relations, each valid instance of a relation, of a symmetry rule or of a step has
/// an element in the ideal.
pub fn instances_are_members()
    ensures law { InstancesAreMembers }
{}

/// Law: an instance of a relation or of a symmetry rule is valid exactly where it is an instance of the definitions around a
/// rule with terms, and its element is that instance's; so what `expand` answers is the element of an instance of the
/// definitions, and where it refuses there is none.
pub fn expand_answers_instances()
    ensures law { ExpandAnswersInstances }
{}
