//! Devices in memory that never fail.
ghost use Rattle.std.specs.Prelude.{◌≡◌, ◌≤◌, ◌<◌, ◌+◌, ◌++◌, Some, Ok, [], length, take, vec_len};
ghost use Rattle.std.specs.Io.{ReadsAtMost};
ghost use Rattle.std.specs.Io.KnownBytes.{ReadConsumes};
ghost use Rattle.outside_io.specs.Causes.{HasCause};
ghost use Rattle.outside_io.specs.SureSink.{SureSinkState, taken_with};
ghost use Rattle.outside_io.specs.SureSource.{SureSourceState, SurelyReads};
ghost use Rattle.outside_io.specs.Taken.{SkipsEmpty, WritesSome, WriteTakes};

use crate::memory::give;
use crate::{Failed, Sink, Source};
use std::marker::Model;

/// Bytes in memory, given in chunks, without a fault.
#[derive(Drop)]
pub struct SureSource {
    bytes: Vec<u8>,
    at: usize,
    chunk: usize,
}

impl Model for SureSource {
    ghost use Rattle.std.specs.Prelude.{◌≤◌, ◌<◌, drop, vec_len};
    ghost use Rattle.outside_io.specs.SureSource.{SureSourceState};

    ghost Value = { SureSourceState };

    ghost view = { λ s. record { left = drop s.at s.bytes.items; chunk = s.chunk } };

    ghost invariant = { λ s. (0 < s.chunk) × (s.at ≤ vec_len s.bytes) };
}

impl SureSource {
    /// A source that gives `bytes`, at most `chunk` of them at a call, and never fails.
    pub fn new(bytes: Vec<u8>, chunk: usize) -> SureSource
        requires { 0 < chunk }
        ensures left { result.left ≡ bytes.items }
        ensures chunk { result.chunk ≡ chunk }
    {
        SureSource {
            bytes,
            at: 0,
            chunk,
        }
    }
}

impl Source for SureSource {
    ghost left = { λ s. Some s.left };

    ghost faults = { λ _. 0 };

    fn read(&mut self, buf: &mut [u8]) -> Result<usize, Failed>
        ensures bound { ReadsAtMost result buf.new }
        ensures bytes { ReadConsumes (Some self.old.left) (Some self.new.left) result buf.new }
        ensures cause { HasCause 0 0 result }
        ensures exact { SurelyReads self.old buf.old result self.new buf.new }
    {
        let count = give(&self.bytes[self.at..], self.chunk, buf);
        self.at += count;
        Ok(count)
    }
}

/// Slots in memory, filled from the first on, without a fault. Each piece is taken whole. The sink
/// tells its bytes as long as there are slots for all of them. From the first piece on that does
/// not fit, it drops what comes and tells nothing.
#[derive(Drop)]
pub struct SureSink {
    slots: Vec<u8>,
    filled: Option<usize>,
}

impl Model for SureSink {
    ghost use Rattle.std.specs.Prelude.{◌≤◌, take, vec_len};
    ghost use Rattle.std.specs.Option.{ForSome, option_map};
    ghost use Rattle.outside_io.specs.SureSink.{SureSinkState};

    ghost Value = { SureSinkState };

    ghost view = { λ s. record { taken = option_map (λ n. take n s.slots.items) s.filled; room = vec_len s.slots } };

    ghost invariant = { λ s. ForSome s.filled (λ n. n ≤ vec_len s.slots) };
}

impl SureSink {
    /// A sink with room for as many bytes as `slots` has, which are written over.
    pub fn new(slots: Vec<u8>) -> SureSink
        ensures taken { result.taken ≡ Some [] }
        ensures room { result.room ≡ vec_len slots }
    {
        SureSink {
            slots,
            filled: Some(0),
        }
    }
}

impl Sink for SureSink {
    ghost taken = { λ s. s.taken };

    ghost faults = { λ _. 0 };

    fn write(&mut self, piece: &[u8]) -> Result<usize, Failed>
        ensures bound { WritesSome result piece.now }
        ensures bytes { WriteTakes self.old.taken self.new.taken result piece.now }
        ensures cause { HasCause 0 0 result }
        ensures empty { SkipsEmpty self.old.taken self.new.taken 0 0 result piece.now }
        ensures whole { result ≡ Ok (length piece.now) }
        ensures taken { self.new.taken ≡ taken_with self.old.room self.old.taken piece.now }
        ensures room { self.new.room ≡ self.old.room }
    {
        self.filled = match self.filled {
            Some(filled) if piece.len() <= self.slots.len() - filled => {
                put(&mut self.slots, filled, piece);
                Some(filled + piece.len())
            }
            _ => None,
        };
        Ok(piece.len())
    }
}

// Writes the piece into the slots from `at` on.
fn put(slots: &mut [u8], at: usize, piece: &[u8])
    requires { at + length piece.now ≤ length slots.old }
    ensures { take (at + length piece.now) slots.new ≡ take at slots.old ++ piece.now }
{
    slots[at..at + piece.len()].copy_from_slice(piece);
}
