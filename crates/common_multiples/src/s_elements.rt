ghost use Rattle.std.specs.Prelude.{◌≡◌, ◌++◌, ◌-◌, ℕ, IfOk};
ghost use Rattle.modular_sums.specs.Sums.{Same, scale};
ghost use Rattle.labelled_trees.specs.Equality.{tree_discrete};
ghost use Rattle.shuffle_insertions.specs.ShuffleTrees.{IsShuffle};
ghost use Rattle.shuffle_sums.specs.Settings.{compares, field_of, labels_of};
ghost use Rattle.shuffle_sums.specs.Shelves.{FitsShelf, IsShelf, KeepsShelf};
ghost use Rattle.shuffle_sums.specs.Sums.{AreTrees, FallsBy, OneArity, over};
ghost use Rattle.common_multiples.specs.SElements.{HasLeadAt, IsSElementOf};

use crate::families::Multiple;
use path_orders::TreeOrder;
use shuffle_sums::{SSum, SSumFail, Setting, Shelf};
use std::alloc::{AllocError, Global};

// The first sum minus the other. Their trees have one arity.
fn difference<O: TreeOrder>(
    alloc: Global,
    setting: &Setting<O>,
    shelf: &Shelf,
    one: SSum<O>,
    other: &SSum<O>,
) -> Result<SSum<O>, AllocError>
    requires labels { shelf.now.labels ≡ labels_of setting.now }
    requires one { FallsBy (compares O.weights O.by_keys setting.now) (field_of setting.now) shelf.now one }
    requires other { FallsBy (compares O.weights O.by_keys setting.now) (field_of setting.now) shelf.now other.now }
    requires arity { OneArity shelf.now one other.now }
    ensures difference { IfOk result (λ made. Same tree_discrete (field_of setting.now - 1) (over shelf.now made) (over shelf.now one ++ scale (field_of setting.now - 1) (over shelf.now other.now))) }
    ensures falls { IfOk result (FallsBy (compares O.weights O.by_keys setting.now) (field_of setting.now) shelf.now) }
    ensures trees { IfOk result (λ made. (n : ℕ) → AreTrees shelf.now n one → AreTrees shelf.now n other.now → AreTrees shelf.now n made) }
{
    let minus_one = setting.field().prime() - 1;
    let mut sum = one;
    match sum.add_scaled(alloc, setting, shelf, minus_one, other) {
        Ok(()) => Ok(sum),
        Err(SSumFail::NoMemory) => Err(AllocError),
        Err(SSumFail::ArityDiffers) => unreachable!(),
    }
}

/// The S-element of two sums at a small common multiple: `a` inserted at its first place minus `b` inserted at its second.
/// The shelf was made for the labels of the setting, and the tree of the multiple belongs to them and has the leaves 1 to `n`,
/// with `n` at most the number for which the shelf was made. Both sums fall for the setting by the shelf, with the leading
/// coefficient 1; the leading tree of `a` is the divisor at the first place, and that of `b` the one at the second. What is made
/// falls too, and its trees have the leaves of the multiple. Old ids keep their trees and keys, also after an error.
/// `AllocError` comes for want of memory alone.
pub fn s_element<O: TreeOrder>(
    alloc: Global,
    setting: &Setting<O>,
    shelf: &mut Shelf,
    a: &SSum<O>,
    b: &SSum<O>,
    multiple: &Multiple,
) -> Result<SSum<O>, AllocError>
    requires labels { shelf.old.labels ≡ labels_of setting.now }
    requires tree { FitsShelf shelf.old multiple.now.tree }
    requires first { FallsBy (compares O.weights O.by_keys setting.now) (field_of setting.now) shelf.old a.now }
    requires second { FallsBy (compares O.weights O.by_keys setting.now) (field_of setting.now) shelf.old b.now }
    requires first_lead { HasLeadAt shelf.old multiple.now.tree multiple.now.first a.now }
    requires second_lead { HasLeadAt shelf.old multiple.now.tree multiple.now.second b.now }
    ensures element { IfOk result (IsSElementOf (field_of setting.now) multiple.now shelf.old a.now b.now shelf.new) }
    ensures falls { IfOk result (FallsBy (compares O.weights O.by_keys setting.now) (field_of setting.now) shelf.new) }
    ensures trees { IfOk result (λ made. (n : ℕ) → IsShuffle n multiple.now.tree → AreTrees shelf.new n made) }
    ensures keeps { KeepsShelf shelf.old shelf.new }
    ensures shelf { IsShelf shelf.new }
{
    let _ = shelf.store();
    let host = shelf.shelve(alloc, &multiple.tree)?;
    let first = SSum::insert_at(alloc, setting, shelf, host, &multiple.first, a)?;
    let second = SSum::insert_at(alloc, setting, shelf, host, &multiple.second, b)?;
    difference(alloc, setting, shelf, first, &second)
}
