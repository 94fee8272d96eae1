ghost use Rattle.std.specs.Prelude.{◌≡◌, ◌<◌, ◌≤◌, ◌^◌, ◌-◌, ℕ, length, slice_index, IsTrue};
ghost use Rattle.std.specs.List.{zip};
ghost use Rattle.modular_sums.specs.RuleTables.{IsRuleTail};

use presentation_text::write_number;
use row_sweeps::{RuleTable, Steps, SweepFail, Term, sweep};
use rows::{RowFail, end_line, numbers_of, write_next, write_text};
use std::alloc::{AllocError, Global};

// Whether the positions fall from below `at` on and the coefficients are residues other than 0: then they are a tail for `at`.
fn is_falling_tail(prime: u32, at: usize, positions: &[u32], coefs: &[u32]) -> bool
    requires prime { 0 < prime }
    requires lengths { length positions.now ≡ length coefs.now }
    ensures tail { IsTrue result → IsRuleTail (prime - 1) at (zip coefs.now positions.now) }
{
    let mut last = at;
    for i in 0..positions.len() {
        let position = positions[i] as usize;
        let coef = coefs[i];
        if position >= last || coef == 0 || coef >= prime {
            return false;
        }
        last = position;
    }
    true
}

// Gives a position the rule with these coefficients and as many positions.
fn add_rule(
    table: &mut RuleTable,
    position: usize,
    coefs: &[u32],
    positions: &[u32],
) -> Result<(), RowFail>
    requires lengths { length positions.now ≡ length coefs.now }
{
    if position >= table.len() || !is_falling_tail(table.prime(), position, positions, coefs) {
        return Err(RowFail::Refused);
    }
    let from = table.add_coefs(coefs)?;
    table.add_rule(position, from, positions)?;
    Ok(())
}

// Adds the rules that numbers spell: each by its position, how many terms its tail has, their coefficients and their positions.
fn add_rules(table: &mut RuleTable, numbers: &[u32]) -> Result<(), RowFail> {
    let mut rest = numbers;
    for _ in 0..numbers.len() {
        let [position, count, behind @ ..] = rest else {
            break;
        };
        let count = *count as usize;
        if behind.len() < 2 * count {
            return Err(RowFail::Refused);
        }
        let (tail, further) = behind.split_at(2 * count);
        let (coefs, positions) = tail.split_at(count);
        add_rule(table, *position as usize, coefs, positions)?;
        rest = further;
    }
    Ok(())
}

// Ends a line by a word and by the residue and the position of each term.
fn end_terms(word: &str, terms: &[Term], out: &mut Vec<u8>) -> Result<(), AllocError> {
    write_text(word, out)?;
    for term in terms {
        write_next(u64::from(term.coef), out)?;
        write_next(u64::from(term.position), out)?;
    }
    end_line("", out)
}

// Writes the rest of a row, or that the bound was spent, and what the row is then.
fn end_rest(rest: Result<Vec<Term>, SweepFail>, out: &mut Vec<u8>) -> Result<(), RowFail> {
    match rest {
        Ok(rest) => Ok(end_terms("rest", rest.as_slice(), out)?),
        Err(SweepFail::Spent { row }) => Ok(end_terms("Spent", row.as_slice(), out)?),
        Err(SweepFail::NoMemory) => Err(RowFail::NoMemory),
    }
}

// Sweeps a row: what it leaves, the steps that were logged, and how many were counted.
fn end_swept(
    alloc: Global,
    table: &RuleTable,
    row: &mut [u64],
    steps: &mut Steps,
    log: &mut Vec<Term>,
    out: &mut Vec<u8>,
) -> Result<(), RowFail>
    requires sized { length row.old ≡ length table.now.rules }
    requires small { (t : ℕ) → slice_index row.old t < 2 ^ 63 }
{
    let end = row.len();
    end_rest(sweep(alloc, table, row, end, steps, log, true), out)?;
    end_terms("log", log.as_slice(), out)?;
    write_text("steps", out)?;
    write_next(steps.spent(), out)?;
    Ok(end_line("", out)?)
}

// Sweeps a number at one position.
fn sweep_number(
    alloc: Global,
    table: &RuleTable,
    bound: u32,
    at: usize,
    number: u32,
    out: &mut Vec<u8>,
) -> Result<(), RowFail> {
    let size = table.len();
    if at >= size {
        return Err(RowFail::Refused);
    }
    let mut row = vec![in alloc; 0u64; size]?;
    row[at] = u64::from(number);
    let mut steps = Steps::new(u64::from(bound));
    let mut log = Vec::new(alloc);
    end_swept(alloc, table, row.as_mut_slice(), &mut steps, &mut log, out)
}

// A table of so many positions modulo a number, without rules.
fn table_of(alloc: Global, prime: u32, size: usize) -> Result<RuleTable, RowFail> {
    if prime == 0 || prime > 65537 || size > 1 << 30 {
        return Err(RowFail::Refused);
    }
    Ok(RuleTable::new(alloc, prime, size)?)
}

fn sweep_with(
    alloc: Global,
    table: &mut RuleTable,
    numbers: &[u32],
    out: &mut Vec<u8>,
) -> Result<(), RowFail> {
    let [bound, at, number, rules @ ..] = numbers else {
        return Err(RowFail::Refused);
    };
    add_rules(table, rules)?;
    sweep_number(alloc, table, *bound, *at as usize, *number, out)
}

fn sweep_numbers(alloc: Global, numbers: &[u32], out: &mut Vec<u8>) -> Result<(), RowFail> {
    let [prime, size, behind @ ..] = numbers else {
        return Err(RowFail::Refused);
    };
    let mut table = table_of(alloc, *prime, *size as usize)?;
    sweep_with(alloc, &mut table, behind, out)
}

/// Modulo the first number, over as many positions as the second one says, and by at most as many steps as the third one says: a
/// sweep of the fifth number at the fourth, a position. The numbers behind them spell the rules: each by its position, how many
/// terms its tail has, their coefficients and their positions. What is written is the rest, or `Spent` and the row; the steps in
/// order, each by its residue and its position; and how many there were.
pub fn swept(alloc: Global, words: &[String], out: &mut Vec<u8>) -> Result<(), RowFail> {
    let numbers = numbers_of(alloc, words)?;
    sweep_numbers(alloc, numbers.as_slice(), out)
}
