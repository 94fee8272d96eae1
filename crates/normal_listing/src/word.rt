ghost use Rattle.std.specs.Prelude.{◌≡◌, ◌+◌, ◌<◌, ◌≤◌, ◌++◌, ◌∷◌, [], ℕ, List, drop, length, map, slice_index};
ghost use Rattle.normal_listing.specs.Places.{IsSymbol, IsShortWord};

use std::marker::Model;

/// A word of at most 25 symbols from 1 to 31, five bits each, the first in the highest bits: so words compare as their
/// numbers do. Contracts see the list of the symbols.
#[derive(Clone, Copy, Debug, PartialEq, Eq, PartialOrd, Ord)]
pub struct SpellingWord {
    bits: u128,
}

impl Model for SpellingWord {
    ghost use Rattle.std.specs.Prelude.{◌≡◌, ℕ, List};
    ghost use Rattle.normal_listing.specs.Places.{number_of, word_in};
    ghost use Rattle.std.proofs.Common.{ap};

    ghost Value = { List ℕ };

    ghost view = { λ word. word_in word.bits };

    ghost invariant = { λ word. number_of (word_in word.bits) ≡ word.bits };

    ghost inverse = { λ l. record { bits = number_of l } };

    ghost inverse_ok = { λ a h. ap (λ n. record { bits = n }) h };
}

/// The place of the first symbol.
const FIRST: u128 = 1 << 120;

impl SpellingWord {
    /// The word of one symbol.
    pub fn symbol(symbol: u8) -> SpellingWord
        requires some { 0 < symbol }
        requires small { symbol < 32 }
        ensures symbol { result ≡ symbol ∷ [] }
    {
        SpellingWord {
            bits: u128::from(symbol) * FIRST,
        }
    }

    /// How many symbols there are.
    pub fn len(self) -> u32
        ensures length { result ≡ length self }
        ensures word { IsShortWord self }
    {
        25 - self.bits.trailing_zeros() / 5
    }

    /// The word, and behind it the other one.
    pub fn then(self, other: SpellingWord) -> SpellingWord
        requires room { length self + length other ≤ 25 }
        ensures joined { result ≡ self ++ other }
    {
        SpellingWord {
            bits: self.bits + (other.bits >> (5 * self.len())),
        }
    }

    /// The first symbol, or 0 where there is none.
    pub fn first(self) -> u8
        ensures word { IsShortWord self }
        ensures first { (s : ℕ) (l : List ℕ) → self ≡ s ∷ l → result ≡ s }
        ensures none { self ≡ [] → result ≡ 0 }
    {
        (self.bits / FIRST) as u8
    }

    /// The word without its first symbol.
    pub fn rest(self) -> SpellingWord
        ensures rest { result ≡ drop 1 self }
    {
        SpellingWord {
            bits: self.bits % FIRST * 32,
        }
    }

    /// The word with other symbols in place of its own: that for `s` stands at index `s`.
    pub fn renamed(self, symbols: &[u8; 32]) -> SpellingWord
        requires symbols { (s : ℕ) → IsSymbol s → IsSymbol (slice_index symbols.now s) }
        ensures renamed { result ≡ map (λ s. slice_index symbols.now s) self }
    {
        let mut bits = 0;
        let mut place = FIRST;
        let mut left = self;
        for _at in 0..self.len() {
            bits += u128::from(symbols[left.first() as usize]) * place;
            place /= 32;
            left = left.rest();
        }
        SpellingWord { bits }
    }
}
