//! Arithmetic modulo a prime of a short list.
#![tactic(auto)]

ghost use Rattle.std.specs.Prelude.{ℕ, ◌≡◌, ◌+◌, ◌-◌, ◌*◌, ◌/◌, ◌<◌, ◌≤◌, pos, ◌-ℤ◌, SomeIff};
ghost use Rattle.prime_field.specs.Laws.{Fields};
ghost use Rattle.prime_field.specs.Primes.{IsFieldPrime};
ghost use Rattle.prime_field.specs.Residues.{Congruent, CongruentSigned};

use std::marker::Model;

/// The field of the residues modulo a prime, one of 3, 5, 7, 101, 32003 and 65537. A residue is a
/// number below the prime, and stands for all numbers that differ from it by multiples of the
/// prime. Contracts see the field as its prime.
#[derive(Clone, Copy, Debug, PartialEq, Eq)]
pub struct Field {
    prime: u32,
}

impl Model for Field {
    ghost Value = { ℕ };

    ghost view = { λ field. field.prime };

    ghost invariant = { λ field. IsFieldPrime field.prime };

    ghost inverse = { λ p. record { prime = p } };
}

impl Field {
    /// The field of `p` elements. `None` comes exactly where `p` is none of the primes above.
    pub fn of(p: u64) -> Option<Field>
        ensures listed { SomeIff result (IsFieldPrime p) p }
    {
        match p {
            3 | 5 | 7 | 101 | 32003 | 65537 => Some(Field { prime: p as u32 }),
            _ => None,
        }
    }

    /// The prime, from 3 to 65537.
    pub fn prime(&self) -> u32
        ensures value { result ≡ self.now }
        ensures listed { IsFieldPrime result }
    {
        self.prime
    }

    /// The residue of the sum of two residues.
    pub fn add(&self, a: u32, b: u32) -> u32
        requires first { a < self.now }
        requires second { b < self.now }
        ensures residue { result < self.now }
        ensures sum { Congruent self.now result (a + b) }
    {
        self.of_number(u64::from(a) + u64::from(b))
    }

    /// The residue of the difference `a - b` of two residues.
    pub fn sub(&self, a: u32, b: u32) -> u32
        requires first { a < self.now }
        requires second { b < self.now }
        ensures residue { result < self.now }
        ensures difference { Congruent self.now (result + b) a }
    {
        if a >= b { a - b } else { a + self.prime - b }
    }

    /// The residue of the product of two residues.
    pub fn mul(&self, a: u32, b: u32) -> u32
        requires first { a < self.now }
        requires second { b < self.now }
        ensures residue { result < self.now }
        ensures product { Congruent self.now result (a * b) }
    {
        self.of_number(u64::from(a) * u64::from(b))
    }

    /// The residue of the negative of a residue: their sum is 0.
    pub fn neg(&self, a: u32) -> u32
        requires operand { a < self.now }
        ensures residue { result < self.now }
        ensures negative { Congruent self.now (a + result) 0 }
    {
        self.sub(0, a)
    }

    /// The inverse of a residue other than 0: the residue whose product with it is 1. It takes
    /// time logarithmic in the prime.
    pub fn inv(&self, a: u32) -> u32
        requires operand { a < self.now }
        requires nonzero { 0 < a }
        ensures residue { result < self.now }
        ensures inverse { Congruent self.now (a * result) 1 }
    {
        let prime = self.prime();
        let mut inverse = 1;
        let mut rest = a;
        // `rest` is the product of `a` and `inverse`. The next `rest` is how far the prime is from
        // the nearest multiple of this one: at most half of it.
        while rest > 1 {
            let quotient = prime / rest;
            let remainder = prime % rest;
            if remainder <= rest / 2 {
                inverse = self.mul(inverse, self.neg(quotient));
                rest = remainder;
            } else {
                inverse = self.mul(inverse, quotient + 1);
                rest -= remainder;
            }
        }
        inverse
    }

    /// The number of least absolute value that a residue stands for: `a` where it is at most half
    /// of the prime, else `a` less the prime, which is negative for a residue.
    pub fn signed(&self, a: u32) -> i64
        ensures small { a ≤ (self.now - 1) / 2 → result ≡ pos a }
        ensures large { (self.now - 1) / 2 < a → result ≡ pos a -ℤ pos self.now }
        ensures same { CongruentSigned self.now result a }
    {
        if a <= (self.prime - 1) / 2 {
            i64::from(a)
        } else {
            i64::from(a) - i64::from(self.prime)
        }
    }

    /// The residue of any integer.
    pub fn of_signed(&self, c: i64) -> u32
        ensures residue { result < self.now }
        ensures same { CongruentSigned self.now c result }
    {
        c.rem_euclid(i64::from(self.prime)) as u32
    }

    /// The residue of any natural number.
    pub fn of_number(&self, c: u64) -> u32
        ensures residue { result < self.now }
        ensures same { Congruent self.now result c }
    {
        (c % u64::from(self.prime)) as u32
    }
}

/// Law: modulo each of the primes that a field may have, residues are a field.
pub fn residues_are_a_field()
    ensures law { Fields }
{}
