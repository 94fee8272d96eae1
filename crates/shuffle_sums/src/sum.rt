ghost use Rattle.std.specs.Prelude.{◌≡◌, ◌<◌, ◌++◌, ◌-◌, ℕ, [], Some, None, Err, length, slice_get, IfOk, IfSome, IfNone, OnOk, OnErr};
ghost use Rattle.modular_sums.specs.Sums.{Same, scale};
ghost use Rattle.labelled_trees.specs.Equality.{tree_discrete};
ghost use Rattle.modular_sums.specs.Falling.{AreNonzeroResidues};
ghost use Rattle.shuffle_sums.specs.Settings.{compares, field_of, labels_of};
ghost use Rattle.shuffle_sums.specs.Shelves.{IsShelf, KeepsShelf};
ghost use Rattle.shuffle_sums.specs.Sums.{AreTerms, AreTrees, FallsBy, IsSumOf, OneArity, HaveKeys, over, pairs};
ghost use Rattle.shuffle_sums.specs.Multiples.{IsMadeMonic, times};

use crate::arity::are_of_one_arity;
use crate::making::collect_terms;
use crate::merging::merged;
use crate::{Setting, Shelf};
use path_orders::TreeOrder;
use prime_field::Field;
use shuffle_trees::STree;
use sqlite_items::Items;
use std::alloc::{AllocError, Global};
use std::marker::{Model, PhantomData};
use thiserror::Error;
use tree_store::TreeId;

/// Why a multiple of a sum isn't added to one.
#[derive(Clone, Copy, Debug, PartialEq, Eq, Error)]
pub enum SSumFail {
    /// The arities differ.
    #[error("the arities differ")]
    ArityDiffers,
    /// The arities agree, but memory has run out.
    #[error("out of memory")]
    NoMemory,
}

/// A residue beside the id of a tree. The fields are free here; what a sum asks of them is said at its calls.
#[derive(Clone, Copy, Debug)]
pub struct Term {
    /// The residue.
    pub coef: u32,
    /// The id of the tree.
    pub tree: TreeId,
}

/// A sum of residues times trees of a shelf. Contracts see the list of the pairs of a residue and an id.
#[derive(Drop)]
pub struct SSum<O: TreeOrder> {
    terms: Items<Term>,
    order: PhantomData<O>,
}

impl<O: TreeOrder> Model for SSum<O> {
    ghost use Rattle.std.specs.Prelude.{List, ℕ};
    ghost use Rattle.shuffle_sums.specs.Sums.{pairs};

    ghost Value = { List (ℕ × ℕ) };

    ghost view = { λ sum. pairs sum.terms };
}

impl<O: TreeOrder> SSum<O> {
    /// The sum without terms. It takes no memory yet.
    pub fn new(alloc: Global) -> SSum<O>
        ensures empty { result ≡ [] }
    {
        SSum {
            terms: Items::new(alloc),
            order: PhantomData,
        }
    }

    /// The sum with these terms, in this order. Nothing is put together and nothing dropped. It takes no memory.
    pub fn from_terms(terms: Items<Term>) -> SSum<O>
        ensures terms { result ≡ pairs terms }
    {
        SSum {
            terms,
            order: PhantomData,
        }
    }

    /// The terms in their order, without a copy. It takes no memory.
    pub fn into_terms(self) -> Items<Term>
        ensures terms { pairs result ≡ self }
    {
        let SSum { terms, .. } = self;
        terms
    }

    /// The sum of the terms: equal trees are put together, and zeros are dropped. It stands in the shelf and falls for the setting.
    /// The numbers are residues, and the trees belong to the labels of the setting, for which the shelf was made, and have the
    /// leaves 1 to `n` for one `n`, at most that of the shelf. `AllocError` comes for want of memory alone.
    pub fn from_sum(
        alloc: Global,
        context: &Setting<O>,
        shelf: &mut Shelf,
        terms: &[(u32, STree)],
    ) -> Result<SSum<O>, AllocError>
        requires labels { shelf.old.labels ≡ labels_of context.now }
        requires terms { AreTerms shelf.old (field_of context.now) terms.now }
        ensures sum { IfOk result (IsSumOf (compares O.weights O.by_keys context.now) (field_of context.now) shelf.new terms.now) }
        ensures keeps { KeepsShelf shelf.old shelf.new }
        ensures shelf { IsShelf shelf.new }
    {
        let _ = shelf.store();
        Ok(SSum {
            terms: collect_terms(alloc, context, shelf, terms)?,
            order: PhantomData,
        })
    }

    /// The terms, the first of which has the greatest tree where the sum falls. It takes no memory.
    pub fn terms(&self) -> &[Term]
        ensures terms { pairs result.now ≡ self.now }
    {
        self.terms.as_slice()
    }

    /// The first term; `None` exactly for the empty sum. It takes no memory.
    pub fn lead(&self) -> Option<(u32, TreeId)>
        ensures lead { result ≡ slice_get self.now 0 }
    {
        match self.terms.as_slice() {
            [first, ..] => Some((first.coef, first.tree)),
            [] => None,
        }
    }

    /// Adds `coef` times the other sum. Both fall for the setting by the shelf, which was made for the labels of the setting,
    /// and so does the sum afterwards. `ArityDiffers` comes exactly where both have terms and the arities differ, `NoMemory`
    /// for want of memory alone. After an error the sum is as before.
    pub fn add_scaled(
        &mut self,
        alloc: Global,
        setting: &Setting<O>,
        shelf: &Shelf,
        coef: u32,
        other: &SSum<O>,
    ) -> Result<(), SSumFail>
        requires residue { coef < field_of setting.now }
        requires labels { shelf.now.labels ≡ labels_of setting.now }
        requires own { FallsBy (compares O.weights O.by_keys setting.now) (field_of setting.now) shelf.now self.old }
        requires other { FallsBy (compares O.weights O.by_keys setting.now) (field_of setting.now) shelf.now other.now }
        ensures sum { OnOk result (Same tree_discrete (field_of setting.now - 1) (over shelf.now self.new) (over shelf.now self.old ++ scale coef (over shelf.now other.now))) }
        ensures falls { FallsBy (compares O.weights O.by_keys setting.now) (field_of setting.now) shelf.now self.new }
        ensures agree { OnOk result (OneArity shelf.now self.old other.now) }
        ensures differ { result ≡ Err SSumFail.ArityDiffers → OneArity shelf.now self.old other.now → ⊥ }
        ensures trees { (n : ℕ) → AreTrees shelf.now n self.old → AreTrees shelf.now n other.now → AreTrees shelf.now n self.new }
        ensures unchanged { OnErr result (self.new ≡ self.old) }
    {
        if !are_of_one_arity(shelf, self.terms(), other.terms()) {
            return Err(SSumFail::ArityDiffers);
        }
        match merged(alloc, setting, shelf, self.terms(), coef, other.terms()) {
            Ok(terms) => {
                self.terms = terms;
                Ok(())
            }
            Err(_) => Err(SSumFail::NoMemory),
        }
    }

    /// The terms in their order, each with its tree. The sum stands in the shelf. `AllocError` comes for want of memory alone.
    pub fn to_sum(&self, alloc: Global, shelf: &Shelf) -> Result<Items<(u32, STree)>, AllocError>
        requires stands { HaveKeys shelf.now self.now }
        ensures terms { IfOk result (λ terms. terms ≡ over shelf.now self.now) }
    {
        let store = shelf.store();
        let mut terms = Items::new(alloc);
        for term in self.terms() {
            terms.push((term.coef, store.tree_of(alloc, term.tree)?))?;
        }
        Ok(terms)
    }

    /// Divides by the leading coefficient. The sum isn't empty, and its coefficients are residues of the setting's field other
    /// than 0. No id changes. It takes no memory.
    pub fn monic(&mut self, setting: &Setting<O>)
        requires some { 0 < length self.old }
        requires residues { AreNonzeroResidues (field_of setting.now) self.old }
        ensures monic { IsMadeMonic (field_of setting.now) self.old self.new }
    {
        let field = setting.field();
        if let Some((lead, _)) = self.lead() {
            multiply(field, &mut self.terms, field.inv(lead));
        }
    }
}

// Multiplies each residue.
fn multiply(field: Field, terms: &mut Items<Term>, factor: u32)
    requires factor { factor < field }
    requires residues { AreNonzeroResidues field (pairs terms.old) }
    ensures multiplied { pairs terms.new ≡ times field factor (pairs terms.old) }
{
    for at in 0..terms.len() {
        let term = terms.as_slice()[at];
        let coef = field.mul(factor, term.coef);
        terms.set(at, Term { coef, ..term });
    }
}
