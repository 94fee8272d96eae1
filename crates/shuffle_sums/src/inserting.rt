ghost use Rattle.std.specs.Prelude.{◌≡◌, ℕ, IfOk};
ghost use Rattle.shuffle_insertions.specs.ShuffleTrees.{IsShuffle};
ghost use Rattle.shuffle_insertions.specs.Frames as spec;
ghost use Rattle.shuffle_places.specs.Connected.{IsConnected};
ghost use Rattle.tree_store.specs.Stores.{tree_at};
ghost use Rattle.shuffle_sums.specs.Settings.{compares, field_of, labels_of};
ghost use Rattle.shuffle_sums.specs.Shelves.{HasKey, IsShelf, IsShelved, KeepsShelf};
ghost use Rattle.shuffle_sums.specs.Sums.{AreTrees, FallsBy, HaveKeys, over, pairs};
ghost use Rattle.shuffle_sums.specs.Inserting.{AreInserted, FitFrame, FitPlace, FitsFrame, inserted_at};

use crate::{SSum, Setting, Shelf, Term};
use path_orders::TreeOrder;
use shuffle_trees::{Frame, insert};
use sqlite_items::Items;
use std::alloc::{AllocError, Global};
use tree_divisors::{Place, frame_at};
use tree_store::TreeId;

// The id of the tree with this id when it is inserted into the frame.
fn insert_tree(
    alloc: Global,
    shelf: &mut Shelf,
    frame: &Frame,
    id: TreeId,
) -> Result<TreeId, AllocError>
    requires key { HasKey shelf.old id }
    requires fits { FitsFrame shelf.old frame.now (tree_at shelf.old.trees id) }
    ensures inserted { IfOk result (λ made. IsShelved shelf.new made (spec.insert frame.now (tree_at shelf.old.trees id))) }
    ensures keeps { KeepsShelf shelf.old shelf.new }
    ensures shelf { IsShelf shelf.new }
{
    let tree = shelf.store().tree_of(alloc, id)?;
    let inserted = insert(alloc, frame, &tree)?;
    shelf.shelve(alloc, &inserted)
}

// The terms in their order, each with its tree inserted into the frame.
fn insert_trees(
    alloc: Global,
    shelf: &mut Shelf,
    frame: &Frame,
    terms: &[Term],
) -> Result<Items<Term>, AllocError>
    requires shelf { IsShelf shelf.old }
    requires stand { HaveKeys shelf.old (pairs terms.now) }
    requires fit { FitFrame shelf.old frame.now (pairs terms.now) }
    ensures inserted { IfOk result (AreInserted shelf.old shelf.new frame.now terms.now) }
    ensures keeps { KeepsShelf shelf.old shelf.new }
    ensures shelf { IsShelf shelf.new }
{
    let mut made = Items::from_vec(Vec::with_capacity(alloc, terms.len())?);
    for term in terms {
        let tree = insert_tree(alloc, shelf, frame, term.tree)?;
        made.push(Term { tree, ..*term })?;
    }
    Ok(made)
}

impl<O: TreeOrder> SSum<O> {
    /// The sum with each tree inserted into the frame of the host at the place, in the same order with the same coefficients.
    /// The shelf was made for the labels of the setting, and has a key of the host; the place is one of the host. The sum falls
    /// for the setting by the shelf, and its trees have as many leaves as the divisor at the place. What is made falls too, and
    /// its trees have the leaves of the host. Old ids keep their trees and keys, also after an error.
    /// `AllocError` comes for want of memory alone.
    pub fn insert_at(
        alloc: Global,
        setting: &Setting<O>,
        shelf: &mut Shelf,
        host: TreeId,
        place: &Place,
        sum: &SSum<O>,
    ) -> Result<SSum<O>, AllocError>
        requires labels { shelf.old.labels ≡ labels_of setting.now }
        requires host { HasKey shelf.old host }
        requires place { IsConnected (tree_at shelf.old.trees host) place.now }
        requires sum { FallsBy (compares O.weights O.by_keys setting.now) (field_of setting.now) shelf.old sum.now }
        requires fit { FitPlace place.now (tree_at shelf.old.trees host) (over shelf.old sum.now) }
        ensures inserted { IfOk result (λ made. over shelf.new made ≡ inserted_at place.now (tree_at shelf.old.trees host) (over shelf.old sum.now)) }
        ensures falls { IfOk result (FallsBy (compares O.weights O.by_keys setting.now) (field_of setting.now) shelf.new) }
        ensures trees { IfOk result (λ made. (n : ℕ) → IsShuffle n (tree_at shelf.old.trees host) → AreTrees shelf.new n made) }
        ensures keeps { KeepsShelf shelf.old shelf.new }
        ensures shelf { IsShelf shelf.new }
    {
        let tree = shelf.store().tree_of(alloc, host)?;
        let frame = frame_at(alloc, &tree, place)?;
        let terms = insert_trees(alloc, shelf, &frame, sum.terms())?;
        Ok(SSum::from_terms(terms))
    }
}
