ghost use Rattle.std.specs.Prelude.{◌≡◌, ◌+◌, ◌*◌, ◌≤◌, ◌<◌, ◌++◌, ◌∷◌, [], List, ℕ, length, map, take};
ghost use Rattle.shuffle_insertions.specs.KeyBlocks.{digits, mark, marked};
ghost use Rattle.shuffle_trees.specs.FlatKeys.{letters};

use shuffle_trees::FlatWord;
use std::marker::Model;

const ROOM: usize = 288;

// A block of at most 288 numbers. Contracts see the list of the numbers.
#[derive(Drop)]
pub(crate) struct Block {
    numbers: [u16; ROOM],
    len: usize,
}

impl Model for Block {
    ghost Value = { List ℕ };

    ghost view = { λ block. take block.len block.numbers };

    ghost invariant = { λ block. block.len ≤ 288 };
}

// The mark of a word's length.
fn mark(length: u8, short: bool) -> u16
    ensures { result ≡ mark short length }
{
    if short {
        u16::MAX - u16::from(length)
    } else {
        u16::from(length)
    }
}

impl Block {
    pub(crate) fn new() -> Block
        ensures { result ≡ [] }
    {
        Block {
            numbers: [0; ROOM],
            len: 0,
        }
    }

    pub(crate) fn numbers(&self) -> &[u16]
        ensures { result.now ≡ self.now }
    {
        &self.numbers[..self.len]
    }

    fn push(&mut self, number: u16)
        requires { length self.old < 288 }
        ensures { self.new ≡ self.old ++ number ∷ [] }
    {
        self.numbers[self.len] = number;
        self.len += 1;
    }

    // Puts the numbers behind the others.
    pub(crate) fn push_all(&mut self, numbers: &[u16])
        requires { length self.old + length numbers.now ≤ 288 }
        ensures { self.new ≡ self.old ++ numbers.now }
    {
        for number in numbers {
            self.push(*number);
        }
    }

    // Puts the words behind the others, each behind the mark of its length.
    pub(crate) fn push_words(&mut self, words: &[FlatWord], short: bool)
        requires { length self.old + 16 * length words.now ≤ 288 }
        ensures pushed { self.new ≡ self.old ++ marked short (map letters words.now) }
        ensures room { length self.new ≤ length self.old + 16 * length words.now }
    {
        for word in words {
            self.push(mark(word.len(), short));
            self.push_all(word.letters());
        }
    }

    // Puts a weight behind the others, by its digits.
    pub(crate) fn push_weight(&mut self, weight: u64)
        requires { length self.old + 4 ≤ 288 }
        ensures { self.new ≡ self.old ++ digits weight }
    {
        self.push((weight / 65536 / 65536 / 65536) as u16);
        self.push((weight / 65536 / 65536 % 65536) as u16);
        self.push((weight / 65536 % 65536) as u16);
        self.push((weight % 65536) as u16);
    }
}
