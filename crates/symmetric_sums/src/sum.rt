ghost use Rattle.std.specs.Prelude.{◌≡◌, ◌++◌, ◌<◌, [], ℕ, IfOk, IfSome, IfNone, IsTrue, ◌↔◌, MatchResult, OnErr, OnOk, ◌∷◌, length};
ghost use Rattle.std.specs.List.{All};
ghost use Rattle.labelled_trees.specs.Meaning.{tree_of};
ghost use Rattle.symmetric_trees.specs.Trees.{IsLabelled};
ghost use Rattle.symmetric_sums.specs.Terms.{ArityIs, FitsOver, HaveArity, HaveOneArity, HaveResidues, IsSum, multiples, negated};
ghost use Rattle.symmetric_sums.specs.Calls.{TermIsAdded, Subtracted};

use crate::Term;
use prime_field::Field;
use sqlite_items::Items;
use std::alloc::{AllocError, Global};
use std::marker::Model;
use symmetric_trees::{GenTable, Tree, arity_of, numbered};
use thiserror::Error;

/// Why a term isn't added to a sum, or a sum not subtracted from one.
#[derive(Clone, Copy, Debug, PartialEq, Eq, Error)]
pub enum SumFail {
    /// The arities differ.
    #[error("the arities differ")]
    ArityDiffers,
    /// The arities agree, but memory has run out.
    #[error("out of memory")]
    NoMemory,
}

/// A sum: a list of terms, each a residue other than 0 beside a tree whose leaves carry 1 to `n`, each once, with one `n`
/// for all: the arity of the sum. The sum without terms is 0 and has no arity. Equal trees may stand apart.
/// Contracts see the list of the terms.
#[derive(Drop)]
pub struct Sum {
    terms: Items<Term>,
    arity: Option<u8>,
}

impl Model for Sum {
    ghost use Rattle.std.specs.Prelude.{List};
    ghost use Rattle.symmetric_sums.specs.declared.term.Term.{Term};
    ghost use Rattle.symmetric_sums.specs.Terms.{IsSum};

    ghost Value = { List Term };

    ghost use Rattle.std.specs.Coded.{coded_list};
    ghost use Rattle.symmetric_sums.specs.contracts.term.Term as stored;

    ghost coded = { coded_list stored.the_row.coded };

    ghost view = { λ sum. sum.terms };

    ghost invariant = { λ sum. IsSum sum.terms sum.arity };
}

impl Sum {
    /// The sum without terms. It takes no memory yet.
    pub fn new(alloc: Global) -> Sum
        ensures empty { result ≡ [] }
    {
        Sum {
            terms: Items::new(alloc),
            arity: None,
        }
    }

    // The sum of these terms.
    pub(crate) fn of_terms(terms: Items<Term>, arity: Option<u8>) -> Sum
        requires sum { IsSum terms arity }
        ensures terms { result ≡ terms }
    {
        Sum { terms, arity }
    }

    // The sum of these terms, if any, of one arity.
    pub(crate) fn with_arity(terms: Items<Term>, arity: u8) -> Sum
        requires nonzero { All (λ term. 0 < term.coef) terms }
        requires arity { HaveArity arity terms }
        ensures terms { result ≡ terms }
    {
        let theirs = if terms.is_empty() { None } else { Some(arity) };
        Sum::of_terms(terms, theirs)
    }

    /// The terms in their order. No residue is 0.
    pub fn terms(&self) -> &[Term]
        ensures terms { result.now ≡ self.now }
        ensures nonzero { All (λ term. 0 < term.coef) self.now }
    {
        self.terms.as_slice()
    }

    /// The number of leaves of each tree of the sum, at most 255; `None` exactly where it has no terms.
    pub fn arity(&self) -> Option<u8>
        ensures arity { ArityIs self.now result }
    {
        self.arity
    }

    /// Whether the sum fits a field and a table: its residues are of the field, and each vertex of its trees names a generator
    /// of the table and has as many inputs as its arity.
    pub fn fits(&self, field: Field, table: &GenTable) -> bool
        ensures exact { IsTrue result ↔ FitsOver field table.now self.now }
    {
        let Some(_) = self.arity() else {
            return true;
        };
        for term in self.terms() {
            if term.coef >= field.prime() {
                return false;
            }
            let Some(_) = arity_of(&term.tree, table) else {
                return false;
            };
        }
        true
    }

    /// Puts a term behind the others: a residue of the field, beside a tree that fits the table and carries 1 to `n`, each
    /// once (`arity_of` isn't `None`). A residue 0 adds nothing. `ArityDiffers` comes exactly where the residue isn't 0, the
    /// sum has terms and the tree's arity isn't theirs, `NoMemory` for want of memory alone. After an error the sum is as before.
    pub fn add_term(
        &mut self,
        alloc: Global,
        field: Field,
        table: &GenTable,
        coef: u32,
        tree: Tree,
    ) -> Result<(), SumFail>
        requires residue { coef < field }
        requires labelled { (n : ℕ) × IsLabelled table.now n (tree_of tree) }
        ensures answer { TermIsAdded coef tree self.old result self.new }
    {
        if coef == 0 {
            return Ok(());
        }
        let Some(arity) = numbered(&tree) else {
            unreachable!();
        };
        if let Some(theirs) = self.arity() {
            if theirs != arity {
                return Err(SumFail::ArityDiffers);
            }
        }
        match push_term(alloc, &mut self.terms, Term { coef, tree }) {
            Ok(()) => {
                self.arity = Some(arity);
                Ok(())
            }
            Err(_) => Err(SumFail::NoMemory),
        }
    }

    /// The terms of this sum, then the negated terms of the other one, whose residues are of the field. Where those of this
    /// sum are of the field too, so are those of the answer.
    /// `ArityDiffers` comes exactly where both have terms and their arities differ, `NoMemory` for want of memory alone.
    pub fn minus(&self, alloc: Global, field: Field, other: &Sum) -> Result<Sum, SumFail>
        requires residues { HaveResidues field other.now }
        ensures answer { Subtracted field self.now other.now result }
        ensures residues { HaveResidues field self.now → IfOk result (HaveResidues field) }
    {
        let arity = self.joint_arity(other)?;
        match difference(alloc, field, self.terms(), other.terms()) {
            Ok(terms) => Ok(Sum::of_terms(terms, arity)),
            Err(_) => Err(SumFail::NoMemory),
        }
    }

    // The arity that the terms of both sums have.
    fn joint_arity(&self, other: &Sum) -> Result<Option<u8>, SumFail>
        ensures { MatchResult result (ArityIs (self.now ++ other.now)) (λ fail. (fail ≡ SumFail.ArityDiffers) × (HaveOneArity self.now other.now → ⊥)) }
    {
        let Some(own) = self.arity() else {
            return Ok(other.arity());
        };
        if let Some(theirs) = other.arity() {
            if theirs != own {
                return Err(SumFail::ArityDiffers);
            }
        }
        Ok(Some(own))
    }

    /// The terms of this sum, then those of the other one. Where both have terms, these have one arity.
    /// `AllocError` comes for want of memory alone, and then both sums are gone.
    pub fn followed_by(self, more: Sum) -> Result<Sum, AllocError>
        requires arity { HaveOneArity self more }
        ensures terms { IfOk result (λ sum. sum ≡ self ++ more) }
    {
        let arity = if self.terms.is_empty() {
            more.arity
        } else {
            self.arity
        };
        let Sum {
            mut terms,
            arity: _,
        } = self;
        terms.append(more.terms)?;
        Ok(Sum::of_terms(terms, arity))
    }

    /// The terms of this sum in their order, each residue times `coef`; no terms where `coef` is 0. All residues are of the
    /// field. So scaling by 1 gives a copy. `AllocError` comes for want of memory alone.
    pub fn scaled(&self, alloc: Global, field: Field, coef: u32) -> Result<Sum, AllocError>
        requires residue { coef < field }
        requires residues { HaveResidues field self.now }
        ensures terms { IfOk result (λ sum. sum ≡ multiples field coef self.now) }
        ensures residues { IfOk result (HaveResidues field) }
    {
        if coef == 0 {
            return Ok(Sum::new(alloc));
        }
        // Modulo a prime of the list no product of these residues is 0.
        let prime = field.prime();
        prove!(coef < prime);
        let arity = self.arity();
        let mut terms = Items::from_vec(Vec::with_capacity(alloc, self.terms().len())?);
        for term in self.terms() {
            terms.push(Term {
                coef: field.mul(coef, term.coef),
                tree: term.tree.copy(alloc)?,
            })?;
        }
        Ok(Sum::of_terms(terms, arity))
    }
}

// Most sums have one term: so the first one takes room for itself alone.
fn push_term(alloc: Global, terms: &mut Items<Term>, term: Term) -> Result<(), AllocError>
    ensures ok { OnOk result (terms.new ≡ terms.old ++ term ∷ []) }
    ensures err { OnErr result (terms.new ≡ terms.old) }
{
    if terms.is_empty() {
        *terms = Items::from_vec(Vec::with_capacity(alloc, 1)?);
    }
    terms.push(term)
}

// The terms of the one list, then the negated terms of the other.
fn difference(
    alloc: Global,
    field: Field,
    one: &[Term],
    other: &[Term],
) -> Result<Items<Term>, AllocError>
    requires nonzero { All (λ term. 0 < term.coef) other.now }
    requires residues { HaveResidues field other.now }
    ensures { IfOk result (λ terms. terms ≡ one.now ++ negated field other.now) }
{
    let mut terms = copied(alloc, one)?;
    for term in other {
        terms.push(Term {
            coef: field.neg(term.coef),
            tree: term.tree.copy(alloc)?,
        })?;
    }
    Ok(terms)
}

fn copied(alloc: Global, terms: &[Term]) -> Result<Items<Term>, AllocError>
    ensures { IfOk result (λ copies. copies ≡ terms.now) }
{
    let mut copies = Items::from_vec(Vec::with_capacity(alloc, terms.len())?);
    for term in terms {
        copies.push(Term {
            coef: term.coef,
            tree: term.tree.copy(alloc)?,
        })?;
    }
    Ok(copies)
}
