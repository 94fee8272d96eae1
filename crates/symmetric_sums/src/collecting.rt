ghost use Rattle.std.specs.Prelude.{◌≡◌, ◌+◌, ◌<◌, ℕ, IfOk, IsPermutation, OnOk};
ghost use Rattle.std.specs.List.{All, AllByRecursion};
ghost use Rattle.labelled_trees.specs.Meaning.{tree_of};
ghost use Rattle.operad_ideals.specs.Presentations.{Presentation};
ghost use Rattle.symmetric_trees.specs.Generators.{parts_at};
ghost use Rattle.symmetric_trees.specs.Trees.{Fits, IsLabelled};
ghost use Rattle.symmetric_sums.specs.Terms.{HaveArity, HaveResidues, terms_of};
ghost use Rattle.operad_ideals.specs.Collected.{CollectedFormsDecide, IsCollected, OneCollectedForm};
ghost use Rattle.symmetric_sums.specs.Collecting.{AreJoined, AreSpellings, IsResidue, IsSpellingOf, JoinedTo, NotBefore};
ghost use Rattle.operad_ideals.specs.Pairs.{Pairs};

use crate::{Sum, Term};
use prime_field::Field;
use sqlite_items::Items;
use std::alloc::{AllocError, Global};
use std::cmp::Ordering;
use symmetric_trees::{GenTable, Sign, spelled, spelling_order};

/// The collected form of a sum: each tree is replaced by its sorted spelling with the sign, equal trees are put together,
/// zeros are dropped, and the terms stand in the spelling order, each tree once. The residues of the sum are of the field,
/// and its trees fit the table. `AllocError` comes for want of memory alone.
pub fn collected(
    alloc: Global,
    field: Field,
    table: &GenTable,
    sum: &Sum,
) -> Result<Sum, AllocError>
    requires residues { HaveResidues field sum.now }
    requires fit { All (λ term. Fits table.now (tree_of term.tree)) sum.now }
    ensures collected { IfOk result (λ form. IsCollected field (parts_at table.now) (terms_of sum.now) (terms_of form)) }
    ensures residues { IfOk result (HaveResidues field) }
    ensures labelled { (n : ℕ) → HaveArity n sum.now → IfOk result (All (λ term. IsLabelled table.now n (tree_of term.tree))) }
{
    let Some(arity) = sum.arity() else {
        return Ok(Sum::new(alloc));
    };
    let mut spellings = spelled_terms(alloc, field, table, sum.terms())?;
    sort_from_last(spellings.as_mut_slice());
    let terms = joined(alloc, field, spellings)?;
    if terms.is_empty() {
        return Ok(Sum::new(alloc));
    }
    Ok(Sum::of_terms(terms, Some(arity)))
}

// Each term as its sorted spelling with the sign.
fn spelled_terms(
    alloc: Global,
    field: Field,
    table: &GenTable,
    terms: &[Term],
) -> Result<Vec<Term>, AllocError>
    requires residues { All (IsResidue field) terms.now }
    requires labelled { All (λ term. (n : ℕ) × IsLabelled table.now n (tree_of term.tree)) terms.now }
    ensures { IfOk result (λ spellings. AreSpellings field table.now terms.now spellings.items) }
{
    let mut spellings = Vec::with_capacity(alloc, terms.len())?;
    for term in terms {
        spellings.push(spelled_term(alloc, field, table, term)?)?;
    }
    Ok(spellings)
}

fn spelled_term(
    alloc: Global,
    field: Field,
    table: &GenTable,
    term: &Term,
) -> Result<Term, AllocError>
    requires residue { IsResidue field term.now }
    requires labelled { (n : ℕ) × IsLabelled table.now n (tree_of term.now.tree) }
    ensures { IfOk result (IsSpellingOf field table.now term.now) }
{
    let (sign, tree) = spelled(alloc, table, &term.tree)?;
    Ok(Term {
        coef: signed(field, sign, term.coef),
        tree,
    })
}

// The residue times the sign.
fn signed(field: Field, sign: Sign, coef: u32) -> u32
    requires positive { 0 < coef }
    requires residue { coef < field }
    ensures plus { sign ≡ Sign.Plus → result ≡ coef }
    ensures minus { sign ≡ Sign.Minus → result + coef ≡ field }
{
    match sign {
        Sign::Plus => coef,
        Sign::Minus => field.neg(coef),
    }
}

// Sorts the terms by their trees, the last one of the spelling order first.
fn sort_from_last(terms: &mut [Term])
    ensures permutation { IsPermutation terms.old terms.new }
    ensures order { Pairs NotBefore terms.new }
{
    terms.sort_unstable_by(|one, other| spelling_order(&other.tree, &one.tree));
}

// The terms in the spelling order, with equal trees put together and zeros dropped. They come off the end of the list,
// which is sorted from the last one of the order to the first.
fn joined(alloc: Global, field: Field, mut rest: Vec<Term>) -> Result<Items<Term>, AllocError>
    requires order { Pairs NotBefore rest.items }
    requires residues { AllByRecursion (IsResidue field) rest.items }
    ensures { IfOk result (AreJoined field rest.items) }
{
    let mut terms = Items::new(alloc);
    while let Some(term) = rest.pop() {
        join(field, &mut terms, term)?;
    }
    Ok(terms)
}

// Puts a term behind the others, or adds it to the last one where that has the same tree, which is dropped if it becomes 0.
fn join(field: Field, terms: &mut Items<Term>, term: Term) -> Result<(), AllocError>
    requires residue { IsResidue field term }
    requires residues { AllByRecursion (IsResidue field) terms.old }
    ensures { OnOk result (JoinedTo field terms.old term terms.new) }
{
    let Some(last) = terms.pop() else {
        terms.push(term)?;
        return Ok(());
    };
    if spelling_order(&last.tree, &term.tree).is_ne() {
        terms.push(last)?;
        terms.push(term)?;
        return Ok(());
    }
    let coef = field.add(last.coef, term.coef);
    if coef != 0 {
        let tree = term.tree;
        terms.push(Term { coef, tree })?;
    }
    Ok(())
}

/// Law: a sum has one collected form.
pub fn one_collected_form()
    ensures law { OneCollectedForm }
{}

/// Law: a sum less its collected form is a sum of instances of symmetry rules, and two sums have one collected form exactly
/// where their difference is such a sum.
pub fn collected_forms_decide()
    ensures law { (p : Presentation) (n : ℕ) → CollectedFormsDecide p n }
{}
