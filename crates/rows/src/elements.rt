ghost use Rattle.std.specs.Prelude.{ℕ, ◌<◌, ◌≤◌, IfOk};
ghost use Rattle.std.specs.List.{All};
ghost use Rattle.modular_sums.specs.Sums.{AllTerms};
ghost use Rattle.shuffle_insertions.specs.ShuffleTrees.{IsShuffleTree};
ghost use Rattle.shuffle_transfer.specs.Labels.{inputs_of};
ghost use Rattle.symmetric_trees.specs.Generators.{generators_of};

use crate::arguments::element;
use crate::fail::RowFail;
use presentation_text::{Document, GREATEST_ARITY};
use prime_field::Field;
use shuffle_passage::to_shuffle;
use shuffle_trees::STree;
use sqlite_items::Items;
use std::alloc::Global;
use symmetric_sums::Term;
use symmetric_trees::{Sign, arity_of};

/// The terms of the element of the question at a place by the shuffle forms of their trees, each residue with the sign of its
/// form; no residue is 0.
pub fn shuffle_terms(
    alloc: Global,
    document: &Document,
    at: usize,
) -> Result<Items<(u32, STree)>, RowFail>
    ensures residues { IfOk result (All (λ x. (0 < x.0) × (x.0 < document.now.field))) }
    ensures trees { IfOk result (λ terms. (n : ℕ) × (n ≤ 9) × AllTerms terms (IsShuffleTree (inputs_of (generators_of document.now.gens)) n)) }
{
    let sum = element(document, at)?;
    let arity = sum.arity().unwrap_or(0);
    if arity > GREATEST_ARITY {
        return Err(RowFail::Refused);
    }
    let mut terms = Items::new(alloc);
    for term in sum.terms() {
        terms.push(shuffle_term(alloc, document, arity, term)?)?;
    }
    Ok(terms)
}

// A term by the shuffle form of its tree, which has so many leaves.
fn shuffle_term(
    alloc: Global,
    document: &Document,
    arity: u8,
    term: &Term,
) -> Result<(u32, STree), RowFail>
    ensures residue { IfOk result (λ x. (0 < x.0) × (x.0 < document.now.field)) }
    ensures tree { IfOk result (λ x. IsShuffleTree (inputs_of (generators_of document.now.gens)) arity x.1) }
{
    let Some(leaves) = arity_of(&term.tree, &document.gens) else {
        return Err(RowFail::Refused);
    };
    if leaves != arity {
        return Err(RowFail::Refused);
    }
    let (sign, form) = to_shuffle(alloc, &document.gens, &term.tree)?;
    let coef = signed(document.field, sign, term.coef);
    if coef == 0 {
        return Err(RowFail::Refused);
    }
    Ok((coef, form))
}

// The residue of a number with a sign.
fn signed(field: Field, sign: Sign, number: u32) -> u32
    ensures residue { result < field }
{
    let coef = field.of_number(u64::from(number));
    match sign {
        Sign::Plus => coef,
        Sign::Minus => field.neg(coef),
    }
}
