ghost use Rattle.std.specs.Prelude.{◌≡◌, ◌<◌, ◌≤◌, ◌++◌, ◌∷◌, [], List, ℕ, length, slice_index, slice_index_or, is_ok, if◌then◌else◌};
ghost use Rattle.path_orders.specs.Joined.{parts, start_of, AreEnds};

use std::alloc::{AllocError, Global};
use std::marker::Model;

/// Blocks of numbers, one after another in one list. Contracts see the list of the blocks.
#[derive(Drop)]
pub struct Blocks {
    numbers: Vec<u16>,
    ends: Vec<usize>,
}

impl Model for Blocks {
    ghost Value = { List (List ℕ) };

    ghost view = { λ blocks. parts 0 blocks.ends.items blocks.numbers.items };

    ghost invariant = { λ blocks. AreEnds 0 blocks.ends.items (length blocks.numbers.items) };
}

// Where the block at this place begins.
fn start(ends: &[usize], at: usize) -> usize
    requires { at ≤ length ends.now }
    ensures { result ≡ start_of 0 ends.now at }
{
    if at == 0 { 0 } else { ends[at - 1] }
}

// From where and up to where the block at this place stands among so many numbers.
fn bounds(ends: &[usize], at: usize, count: usize) -> (usize, usize)
    requires place { at < length ends.now }
    requires ends { AreEnds 0 ends.now count }
    ensures from { result.0 ≡ start_of 0 ends.now at }
    ensures to { result.1 ≡ slice_index ends.now at }
    ensures within { (result.0 ≤ result.1) × (result.1 ≤ count) }
{
    let from = start(ends, at);
    (from, ends[at])
}

impl Blocks {
    /// No blocks. It takes no memory yet.
    pub fn new(alloc: Global) -> Blocks
        ensures { result ≡ [] }
    {
        Blocks {
            numbers: Vec::new(alloc),
            ends: Vec::new(alloc),
        }
    }

    /// How many blocks there are. It takes no memory.
    pub fn len(&self) -> usize
        ensures { result ≡ length self.now }
    {
        self.ends.len()
    }

    /// Puts a block, of any numbers and any length, behind the others. `AllocError` comes for want of memory alone, and then nothing was put.
    pub fn push(&mut self, block: &[u16]) -> Result<(), AllocError>
        ensures { self.new ≡ (if is_ok result then self.old ++ block.now ∷ [] else self.old) }
    {
        let before = self.numbers.len();
        self.numbers.extend_from_slice(block)?;
        let end = self.numbers.len();
        match self.ends.push(end) {
            Ok(()) => Ok(()),
            Err(_) => {
                self.numbers.truncate(before);
                Err(AllocError)
            }
        }
    }

    /// The block at this place, counted from 0 and below `len()`. It takes no memory.
    pub fn get(&self, at: usize) -> &[u16]
        requires { at < length self.now }
        ensures { result.now ≡ slice_index_or self.now at [] }
    {
        let numbers = self.numbers.as_slice();
        let (from, to) = bounds(self.ends.as_slice(), at, numbers.len());
        &numbers[from..to]
    }
}
