//! Where bytes come from and go to, with a count of the faults, and where a program has its words from.
#![tactic(auto)]

mod calls;
mod memory;
mod real;
mod sure;
mod whole;
mod words;

ghost use Rattle.std.specs.Prelude.{List, ℕ, Option};
ghost use Rattle.std.specs.Io.{ReadsAtMost};
ghost use Rattle.std.specs.Io.KnownBytes.{ReadConsumes};
ghost use Rattle.outside_io.specs.Causes.{HasCause};
ghost use Rattle.outside_io.specs.Taken.{SkipsEmpty, WritesSome, WriteTakes};

pub use memory::{MemorySink, MemorySource};
pub use real::{RealSink, RealSource};
pub use sure::{SureSink, SureSource};
pub use whole::{ReadFail, WriteFail, read_all, write_all};
pub use words::words_of;

/// A read or a write that was not carried out.
#[derive(Clone, Copy, Debug, PartialEq, Eq)]
pub struct Failed;

/// Where bytes come from.
pub trait Source {
    // The bytes that are still to come, where it tells them.
    ghost left: { Self → Option (List ℕ) };

    // How often it failed. The count never falls, and stops at 2^64 - 1.
    ghost faults: { Self → ℕ };

    /// Puts the next bytes at the front of `buf`, and answers how many they are, at most
    /// `buf.len()`. No byte for a buffer that is not empty is the end of the input.
    /// `Failed` comes only where the count of faults rose in this call; no byte is lost then.
    fn read(&mut self, buf: &mut [u8]) -> Result<usize, Failed>
        ensures bound { ReadsAtMost result buf.new }
        ensures bytes { ReadConsumes (left self.old) (left self.new) result buf.new }
        ensures cause { HasCause (faults self.old) (faults self.new) result };
}

/// Where bytes go to.
pub trait Sink {
    // The bytes that it has, where it tells them.
    ghost taken: { Self → Option (List ℕ) };

    // How often it failed. The count never falls, and stops at 2^64 - 1.
    ghost faults: { Self → ℕ };

    /// Takes the first bytes of `piece`, at least one unless it is empty, and answers how many.
    /// `Failed` comes only where the count of faults rose in this call; no byte is taken then.
    fn write(&mut self, piece: &[u8]) -> Result<usize, Failed>
        ensures bound { WritesSome result piece.now }
        ensures bytes { WriteTakes (taken self.old) (taken self.new) result piece.now }
        ensures cause { HasCause (faults self.old) (faults self.new) result }
        ensures empty { SkipsEmpty (taken self.old) (taken self.new)
            (faults self.old) (faults self.new) result piece.now };
}
