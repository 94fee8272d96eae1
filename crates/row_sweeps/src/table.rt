ghost use Rattle.std.specs.Prelude.{◌≡◌, ◌<◌, ◌≤◌, ◌+◌, ◌++◌, ◌^◌, ◌-◌, ℕ, List, [], Some, None, length, slice_get, slice_set, slice_range, IfOk, OnOk, OnErr, MatchOption, map};
ghost use Rattle.std.specs.List.{zip};
ghost use Rattle.std.proofs.Common.{suc};
ghost use Rattle.modular_sums.specs.RuleTables.{HasRule, IsRuleTail, IsUnruled};
ghost use Rattle.row_sweeps.specs.Terms.{pairs};
ghost use Rattle.row_sweeps.specs.Rules.{unruled};
ghost use Rattle.row_sweeps.specs.Stored.{nothing_stored};

use crate::Term;
use std::alloc::{AllocError, Global};
use std::marker::Model;

// Where the positions of a tail begin, where its coefficients do, and how many there are.
#[derive(Clone, Copy)]
pub struct Stored {
    at: usize,
    from: usize,
    len: usize,
}

// A tail of a rule.
#[derive(Drop)]
pub struct Tail<'a> {
    pub positions: &'a [u32],
    pub coefs: &'a [u32],
}

/// For each position a rule or none, modulo a number from 1 to 65537. Coefficients are put in once, for all rules that share them.
/// Contracts see this number less 1, the coefficients, and for each position the tail of its rule.
#[derive(Drop)]
pub struct RuleTable {
    prime: u32,
    rules: Vec<Option<Stored>>,
    tails: Vec<u32>,
    coefs: Vec<u32>,
}

impl Model for RuleTable {
    ghost use Rattle.row_sweeps.specs.Rules.{Rules};

    ghost Value = { Rules };

    ghost use Rattle.row_sweeps.specs.Stored.{shown, IsStored};

    ghost view = { shown };

    ghost invariant = { IsStored };
}

// So many positions without a rule.
fn no_rules(alloc: Global, size: usize) -> Result<Vec<Option<Stored>>, AllocError>
    ensures none { IfOk result (λ rules. rules.items ≡ nothing_stored size) }
{
    let mut rules = Vec::with_capacity(alloc, size)?;
    for _ in 0..size {
        rules.push(None)?;
    }
    Ok(rules)
}

fn coefs_of(alloc: Global, tail: &[Term]) -> Result<Vec<u32>, AllocError>
    ensures coefs { IfOk result (λ coefs. coefs.items ≡ map (λ term. term.coef) tail.now) }
{
    tail.iter().map(|term| term.coef).collect(alloc)
}

fn positions_of(alloc: Global, tail: &[Term]) -> Result<Vec<u32>, AllocError>
    ensures positions { IfOk result (λ positions. positions.items ≡ map (λ term. term.position) tail.now) }
{
    tail.iter().map(|term| term.position).collect(alloc)
}

impl RuleTable {
    /// A table of so many positions, at most 2^30, without rules, modulo a number from 1 to 65537.
    /// `AllocError` comes for want of memory alone.
    pub fn new(alloc: Global, prime: u32, size: usize) -> Result<RuleTable, AllocError>
        requires positive { 0 < prime }
        requires small { prime ≤ 65537 }
        requires few { size ≤ 2 ^ 30 }
        ensures empty { IfOk result (λ table. table ≡ record { q = prime - 1; coefs = []; rules = unruled size }) }
    {
        Ok(RuleTable {
            prime,
            rules: no_rules(alloc, size)?,
            tails: Vec::new(alloc),
            coefs: Vec::new(alloc),
        })
    }

    /// The number modulo which rules are, from 1 to 65537. It takes no memory.
    pub fn prime(&self) -> u32
        ensures prime { result ≡ suc self.now.q }
        ensures small { result ≤ 65537 }
    {
        self.prime
    }

    /// How many positions there are, at most 2^30. It takes no memory.
    pub fn len(&self) -> usize
        ensures len { result ≡ length self.now.rules }
        ensures few { result ≤ 2 ^ 30 }
    {
        self.rules.len()
    }

    /// Puts coefficients, of any size, behind the others, and answers where they begin. `AllocError` comes for want of memory
    /// alone; nothing was put then.
    pub fn add_coefs(&mut self, coefs: &[u32]) -> Result<usize, AllocError>
        ensures from { IfOk result (λ from. from ≡ length self.old.coefs) }
        ensures added { OnOk result (self.new ≡ record self.old { coefs = self.old.coefs ++ coefs.now }) }
        ensures unchanged { OnErr result (self.new ≡ self.old) }
    {
        let from = self.coefs.len();
        self.coefs.extend_from_slice(coefs)?;
        Ok(from)
    }

    /// Gives a position, which is below `len()`, the rule with the positions of this tail, whose coefficients are as many of those
    /// that were put, from `from` on. The positions are different and below that of the rule, and the coefficients are residues
    /// other than 0. `AllocError` comes for want of memory alone; the table is as before then.
    pub fn add_rule(&mut self, position: usize, from: usize, tail: &[u32]) -> Result<(), AllocError>
        requires position { position < length self.old.rules }
        requires from { from + length tail.now ≤ length self.old.coefs }
        requires tail { IsRuleTail self.old.q position (zip (slice_range self.old.coefs from (from + length tail.now)) tail.now) }
        ensures added { OnOk result (self.new ≡ record self.old { rules = slice_set self.old.rules position (Some (zip (slice_range self.old.coefs from (from + length tail.now)) tail.now)) }) }
        ensures unchanged { OnErr result (self.new ≡ self.old) }
    {
        let at = self.tails.len();
        self.tails.extend_from_slice(tail)?;
        self.rules[position] = Some(Stored {
            at,
            from,
            len: tail.len(),
        });
        Ok(())
    }

    /// Gives a position, which is below `len()`, the rule with the tail of these terms. Their positions are different and below
    /// that of the rule, and their coefficients are residues other than 0. `AllocError` comes for want of memory alone; the
    /// rules are as before then.
    pub fn add_terms(
        &mut self,
        alloc: Global,
        position: usize,
        tail: &[Term],
    ) -> Result<(), AllocError>
        requires position { position < length self.old.rules }
        requires tail { IsRuleTail self.old.q position (pairs tail.now) }
        ensures added { OnOk result (self.new.rules ≡ slice_set self.old.rules position (Some (pairs tail.now))) }
        ensures unchanged { OnErr result (self.new.rules ≡ self.old.rules) }
        ensures prime { self.new.q ≡ self.old.q }
    {
        let coefs = coefs_of(alloc, tail)?;
        let positions = positions_of(alloc, tail)?;
        let from = self.add_coefs(coefs.as_slice())?;
        self.add_rule(position, from, positions.as_slice())?;
        Ok(())
    }

    // The tail of the position's rule, if it has one.
    pub fn tail(&self, position: usize) -> Option<Tail<'_>>
        requires position { position < length self.now.rules }
        ensures tail { MatchOption result (IsUnruled self.now.rules position) (λ t. HasRule self.now.rules position (zip t.coefs.now t.positions.now)) }
        ensures lengths { MatchOption result (IsUnruled self.now.rules position) (λ t. length t.positions.now ≡ length t.coefs.now) }
        ensures lower { MatchOption result (IsUnruled self.now.rules position) (λ t. IsRuleTail self.now.q position (zip t.coefs.now t.positions.now)) }
    {
        match self.rules[position] {
            None => None,
            Some(stored) => Some(Tail {
                positions: &self.tails[stored.at..stored.at + stored.len],
                coefs: &self.coefs[stored.from..stored.from + stored.len],
            }),
        }
    }
}
