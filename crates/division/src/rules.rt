ghost use Rattle.std.specs.Prelude.{◌≡◌, ◌≢◌, ◌<◌, ◌≤◌, ◌-◌, ◌^◌, ℕ, length, map, slice_get, slice_index, Some, None, IfOk, OnOk};
ghost use Rattle.std.specs.List.{All};
ghost use Rattle.division.specs.Ranks.{AreRules, AreStored, CanRule, IsRuledBy};

use row_sweeps::RuleTable;
use sqlite_items::Items;
use std::alloc::{AllocError, Global};
use tree_store::TreeId;

// The positions of these places.
fn positions_of(ranks: &[u32], places: &[u32], out: &mut Vec<u32>) -> Result<(), AllocError>
    requires low { All (λ j. j < length ranks.now) places.now }
    ensures positions { OnOk result (out.new.items ≡ map (slice_index ranks.now) places.now) }
{
    out.clear();
    for place in places {
        out.push(ranks[*place as usize])?;
    }
    Ok(())
}

// Puts the coefficients of each element into the table, and answers where they begin.
fn store_coefs(
    alloc: Global,
    table: &mut RuleTable,
    coefs: &[Items<u32>],
) -> Result<Vec<usize>, AllocError>
    ensures stored { IfOk result (λ froms. AreStored table.new.coefs froms.items coefs.now) }
    ensures rules { table.new.rules ≡ table.old.rules }
    ensures prime { table.new.q ≡ table.old.q }
{
    let mut froms = Vec::new(alloc);
    for element in coefs {
        let from = table.add_coefs(element.as_slice())?;
        froms.push(from)?;
    }
    Ok(froms)
}

// Gives a position its rule.
fn rule_position(
    table: &mut RuleTable,
    coefs: &[Items<u32>],
    froms: &[usize],
    found: &[Option<u32>],
    ids: &[TreeId],
    tails: &[Items<u32>],
    order: &[usize],
    ranks: &[u32],
    at: usize,
    positions: &mut Vec<u32>,
) -> Result<(), AllocError>
    requires can { CanRule table.old.q coefs.now found.now ids.now tails.now order.now ranks.now }
    requires stored { AreStored table.old.coefs froms.now coefs.now }
    requires low { at < length ids.now }
    requires none { slice_get table.old.rules at ≡ Some None }
    ensures ruled { OnOk result (IsRuledBy coefs.now found.now ids.now tails.now order.now ranks.now at (slice_get table.new.rules at)) }
    ensures others { (p : ℕ) → p ≢ at → slice_get table.new.rules p ≡ slice_get table.old.rules p }
    ensures sized { length table.new.rules ≡ length table.old.rules }
    ensures prime { table.new.q ≡ table.old.q }
    ensures coefs { table.new.coefs ≡ table.old.coefs }
{
    let place = order[at];
    if let Some(element) = found[ids[place].index()] {
        positions_of(ranks, tails[place].as_slice(), positions)?;
        table.add_rule(at, froms[element as usize], positions.as_slice())?;
    }
    Ok(())
}

// The table of the gathered trees, sorted: each position with its rule.
pub fn table_of(
    alloc: Global,
    prime: u32,
    coefs: &[Items<u32>],
    found: &[Option<u32>],
    ids: &[TreeId],
    tails: &[Items<u32>],
    order: &[usize],
    ranks: &[u32],
) -> Result<RuleTable, AllocError>
    requires positive { 0 < prime }
    requires small { prime ≤ 65537 }
    requires few { length ids.now ≤ 2 ^ 30 }
    requires can { CanRule (prime - 1) coefs.now found.now ids.now tails.now order.now ranks.now }
    ensures rules { IfOk result (λ table. AreRules coefs.now found.now ids.now tails.now order.now ranks.now table.rules) }
    ensures prime { IfOk result (λ table. table.q ≡ prime - 1) }
{
    let mut table = RuleTable::new(alloc, prime, ids.len())?;
    let froms = store_coefs(alloc, &mut table, coefs)?;
    let mut positions = Vec::new(alloc);
    for at in 0..ids.len() {
        rule_position(
            &mut table,
            coefs,
            froms.as_slice(),
            found,
            ids,
            tails,
            order,
            ranks,
            at,
            &mut positions,
        )?;
    }
    Ok(table)
}
