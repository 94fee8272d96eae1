ghost use Rattle.std.specs.Prelude.{◌≡◌, ◌<◌, ◌≤◌, ◌-◌, ℕ, length, min, slice_index};
ghost use Rattle.shuffle_insertions.specs.Counting.{binomial, row_count, trees};
ghost use Rattle.labelled_trees.specs.RangeSums.{range_sum};
ghost use Rattle.shuffle_trees.specs.LabelLists.{arity_in};
ghost use Rattle.shuffle_trees.specs.Capped.{capped};

use crate::Labels;

// The numbers here are counted up to `u64::MAX` and stay there.

// In how many ways `chosen` of `things` are chosen.
fn ways(things: u8, chosen: u8) -> u64
    ensures { result ≡ capped (binomial things chosen) }
{
    if chosen == 0 {
        return 1;
    }
    if things == 0 {
        return 0;
    }
    ways(things - 1, chosen - 1).saturating_add(ways(things - 1, chosen))
}

// The number of rows of so many inputs over so many leaves, where the table tells the number of trees over fewer.
fn count_rows(table: &[u64], inputs: u8, leaves: u8) -> u64
    requires { leaves < length table.now }
    ensures { result ≡ capped (row_count (slice_index table.now) inputs leaves) }
{
    if inputs == 0 {
        return if leaves == 0 { 1 } else { 0 };
    }
    if leaves == 0 {
        return 0;
    }
    let others = leaves - 1;
    let mut sum: u64 = 0;
    for more in 0..leaves {
        let first = table[more as usize + 1];
        let rest = count_rows(table, inputs - 1, others - more);
        sum = sum.saturating_add(ways(others, more).saturating_mul(first.saturating_mul(rest)));
    }
    sum
}

// The number of rows over so many leaves by the number of their inputs, for two to six inputs.
fn rows_by_arity(table: &[u64], leaves: u8) -> [u64; 7]
    requires { leaves < length table.now }
    ensures { (k : ℕ) → 2 ≤ k → k ≤ 6 → slice_index result k ≡ capped (row_count (slice_index table.now) k leaves) }
{
    let mut rows = [0; 7];
    for inputs in 2..7u8 {
        rows[inputs as usize] = count_rows(table, inputs, leaves);
    }
    rows
}

// The number of trees with a vertex over so many leaves, where the table tells the number of trees over fewer.
fn count_vertices(labels: &Labels, count: u16, table: &[u64], leaves: u8) -> u64
    requires all { count ≡ length labels.now }
    requires table { leaves < length table.now }
    ensures { result ≡ capped (range_sum (length labels.now) (λ g. row_count (slice_index table.now) (arity_in labels.now g) leaves)) }
{
    let rows = rows_by_arity(table, leaves);
    let mut sum: u64 = 0;
    for label in 0..count {
        sum = sum.saturating_add(rows[labels.arity(label) as usize]);
    }
    sum
}

/// The lesser of `cap` and the number of shuffle trees over the labels whose leaves are 1 to `n`; `n` is at most 9.
pub fn count_trees(labels: &Labels, n: u8, cap: u64) -> u64
    requires arity { n ≤ 9 }
    ensures count { result ≡ min cap (trees (length labels.now) (arity_in labels.now) n) }
{
    let count = labels.len();
    let mut table = [0; 10];
    table[1] = 1;
    for leaves in 2..n + 1 {
        table[leaves as usize] = count_vertices(labels, count, &table, leaves);
    }
    table[n as usize].min(cap)
}
