ghost use Rattle.std.specs.Prelude.{◌≡◌, ◌<◌, ℕ, length, map, IfOk, OnOk};
ghost use Rattle.std.specs.declared.cmp.Ordering.{Ordering};
ghost use Rattle.labelled_trees.specs.Trees.{Tree};
ghost use Rattle.tree_store.specs.Stores.{HasLabel, tree_at};
ghost use Rattle.shuffle_sums.specs.declared.sum.Term as declared;
ghost use Rattle.division.specs.Bases.{BasisFalls, IsMonicSum, first_id, setting_over};
ghost use Rattle.division.specs.Dividers.{AreGroups, AreReducers, HaveRoom};
ghost use Rattle.division.specs.Insertions.{IsReducer};
ghost use Rattle.division.specs.Given as spec;
ghost use Rattle.division.specs.Given.{AreGiven};

use crate::basis::Basis;
use crate::index::enter_at;
use crate::reducer::Reducer;
use path_orders::TreeOrder;
use shuffle_sums::{SSum, Shelf, Term};
use sqlite_items::Items;
use std::alloc::{AllocError, Global};
use tree_store::{Store, TreeId};

/// The elements of a basis as `gather` and `cone_of` take them: as ids, their numbers by the labels of the roots of their
/// leading trees, and the coefficients of their tails.
#[derive(Drop)]
pub struct Given {
    pub reducers: Items<Reducer>,
    pub groups: Vec<Items<u32>>,
    pub coefs: Items<Items<u32>>,
}

// The ids of terms.
fn ids_of(alloc: Global, terms: &[Term]) -> Result<Items<TreeId>, AllocError>
    ensures ids { IfOk result (λ ids. ids ≡ map (λ (term : declared.Term). term.tree) terms.now) }
{
    let mut ids = Items::new(alloc);
    for term in terms {
        ids.push(term.tree)?;
    }
    Ok(ids)
}

// The residues of terms.
fn residues_of(alloc: Global, terms: &[Term]) -> Result<Items<u32>, AllocError>
    ensures residues { IfOk result (λ residues. residues ≡ map (λ (term : declared.Term). term.coef) terms.now) }
{
    let mut residues = Items::new(alloc);
    for term in terms {
        residues.push(term.coef)?;
    }
    Ok(residues)
}

// A monic sum as an element over ids, and the coefficients of its tail.
fn reducer_of<O: TreeOrder>(
    alloc: Global,
    store: &Store,
    sum: &SSum<O>,
) -> Result<(Reducer, Items<u32>), AllocError>
    requires monic { IsMonicSum sum.now }
    requires held { first_id sum.now < length store.now }
    ensures reducer { IfOk result (λ made. made.0 ≡ spec.reducer_of store.now sum.now) }
    ensures coefs { IfOk result (λ made. made.1 ≡ spec.coefs_of sum.now) }
{
    match sum.terms() {
        [] => unreachable!(),
        [first, rest @ ..] => {
            let reducer = Reducer {
                arity: store.leaves(first.tree),
                lead: first.tree,
                tail: ids_of(alloc, rest)?,
            };
            Ok((reducer, residues_of(alloc, rest)?))
        }
    }
}

// The label of the root of an element's leading tree.
fn lead_label(store: &Store, reducer: &Reducer) -> u16
    requires reducer { IsReducer store.now reducer.now }
    ensures label { HasLabel result (tree_at store.now reducer.now.lead) }
{
    match store.label_of(reducer.lead) {
        None => unreachable!(),
        Some(label) => label,
    }
}

// The numbers of elements by the labels of the roots of their leading trees, each group rising.
fn groups_of(
    alloc: Global,
    store: &Store,
    reducers: &[Reducer],
) -> Result<Vec<Items<u32>>, AllocError>
    requires reducers { AreReducers store.now reducers.now }
    requires few { length reducers.now < 4294967296 }
    ensures groups { IfOk result (λ groups. AreGroups store.now reducers.now groups.items) }
{
    let mut groups = Vec::new(alloc);
    for at in 0..reducers.len() {
        let label = lead_label(store, &reducers[at]);
        enter_at(alloc, &mut groups, label as usize, at as u32)?;
    }
    Ok(groups)
}

/// The elements of a basis as reductions take them. They fall by the shelf for some order and prime, and for each such what is
/// made is given for the setting of the basis over the shelf. `AllocError` comes for want of memory alone.
pub fn given_of<O: TreeOrder>(
    alloc: Global,
    shelf: &Shelf,
    basis: &Basis<O>,
) -> Result<Given, AllocError>
    requires falls { (compare : Tree ℕ → Tree ℕ → Ordering) × ((p : ℕ) × BasisFalls compare p shelf.now basis.now.elements) }
    ensures reducers { IfOk result (λ given. AreReducers shelf.now.trees given.reducers) }
    ensures room { IfOk result (λ given. HaveRoom given.reducers 10) }
    ensures groups { IfOk result (λ given. AreGroups shelf.now.trees given.reducers given.groups.items) }
    ensures given { IfOk result (λ given. (compare : Tree ℕ → Tree ℕ → Ordering) (p : ℕ) → BasisFalls compare p shelf.now basis.now.elements → AreGiven shelf.now.trees given.reducers given.coefs (setting_over compare p shelf.now basis.now.elements)) }
    ensures positions { IfOk result (λ given. given.reducers ≡ map (spec.reducer_of shelf.now.trees) basis.now.elements) }
{
    let mut reducers = Items::new(alloc);
    let mut coefs = Items::new(alloc);
    for sum in basis.elements() {
        let (reducer, residues) = reducer_of(alloc, shelf.store(), sum)?;
        reducers.push(reducer)?;
        coefs.push(residues)?;
    }
    let groups = groups_of(alloc, shelf.store(), reducers.as_slice())?;
    Ok(Given {
        reducers,
        groups,
        coefs,
    })
}
