ghost use Rattle.std.specs.Prelude.{◌≡◌, ◌<◌, ◌≤◌, ◌-◌, ℕ, length, IfOk};
ghost use Rattle.std.specs.List.{All};
ghost use Rattle.shuffle_bases.specs.Elements.{Setting};
ghost use Rattle.shuffle_sums.specs.Shelves.{KeepsShelf};
ghost use Rattle.division.specs.Dividers.{FoundGrows, HaveRoom};
ghost use Rattle.division.specs.Gathered.{ArePlaces, IsWorking};
ghost use Rattle.shuffle_sums.specs.Sorting.{compare_by};
ghost use Rattle.division.specs.Cones.{CanGather, IsCone, IsConeOver};

use crate::ranks::ranks_of;
use crate::rules::table_of;
use crate::{Reducer, gather};
use path_orders::TreeOrder;
use row_sweeps::RuleTable;
use shuffle_sums::{Shelf, sorted};
use sqlite_items::Items;
use std::alloc::{AllocError, Global};
use tree_store::TreeId;

/// The trees of one arity that steps can meet: their ids, in the order in which they were met; the place of each id; the place
/// of each position and the position of each place, where positions rise by the order; and for each position its rule.
#[derive(Drop)]
pub struct Cone {
    pub ids: Items<TreeId>,
    pub places: Items<Option<u32>>,
    pub order: Vec<usize>,
    pub ranks: Vec<u32>,
    pub table: RuleTable,
}

/// Gathers what steps can reach from the given ids, sorts it, and gives each position the rule of its insertion. The elements are
/// given as ids, by groups and with the coefficients of their tails; `found`, `kept` and `parts` are as for `gather`, and `places`
/// has the places of the given ids. Old ids keep their trees and keys, and no id gets a key, also after an error. `AllocError`
/// comes for want of memory alone.
pub fn cone_of<O: TreeOrder>(
    alloc: Global,
    shelf: &mut Shelf,
    order: &O,
    prime: u32,
    reducers: &[Reducer],
    groups: &[Items<u32>],
    coefs: &[Items<u32>],
    found: &mut Items<Option<u32>>,
    kept: &mut Items<Option<Items<TreeId>>>,
    parts: &mut [TreeId],
    places: Items<Option<u32>>,
    given: Items<TreeId>,
) -> Result<Cone, AllocError>
    requires working { IsWorking shelf.old.trees reducers.now groups.now found.old kept.old }
    requires room { HaveRoom reducers.now (length parts.old) }
    requires places { ArePlaces places given }
    requires held { All (λ i. i < length shelf.old.trees) given }
    requires positive { 0 < prime }
    requires small { prime ≤ 65537 }
    requires fit { (s : Setting) × (n : ℕ) × CanGather (compare_by O.by_keys (O.weights order.now)) (prime - 1) shelf.old.trees reducers.now coefs.now given s n }
    ensures cone { IfOk result (IsCone given) }
    ensures prime { IfOk result (λ cone. cone.table.q ≡ prime - 1) }
    ensures over { IfOk result (λ cone. (s : Setting) (n : ℕ) → CanGather (compare_by O.by_keys (O.weights order.now)) (prime - 1) shelf.old.trees reducers.now coefs.now given s n → IsConeOver s n shelf.new.trees cone) }
    ensures held { IfOk result (λ cone. All (λ i. i < length shelf.new.trees) cone.ids) }
    ensures working { IsWorking shelf.new.trees reducers.now groups.now found.new kept.new }
    ensures keeps { KeepsShelf shelf.old shelf.new }
    ensures keys { shelf.new.whole ≡ shelf.old.whole }
{
    let mut places = places;
    let mut ids = given;
    let tails = gather(
        shelf,
        alloc,
        reducers,
        groups,
        found,
        kept,
        parts,
        &mut places,
        &mut ids,
    )?;
    let sorting = sorted(alloc, shelf.store(), order, ids.as_slice())?;
    let ranks = ranks_of(alloc, sorting.as_slice(), ids.len())?;
    let table = table_of(
        alloc,
        prime,
        coefs,
        found.as_slice(),
        ids.as_slice(),
        tails.as_slice(),
        sorting.as_slice(),
        ranks.as_slice(),
    )?;
    Ok(Cone {
        ids,
        places,
        order: sorting,
        ranks,
        table,
    })
}
