//! The readers and writers of std. What they are told and tell of the world is trusted.
ghost use Rattle.std.specs.Prelude.{◌≡◌, ◌≤◌, None};
ghost use Rattle.std.specs.Io.{ReadsAtMost};
ghost use Rattle.std.specs.Io.KnownBytes.{ReadConsumes};
ghost use Rattle.outside_io.specs.Causes.{CountsOne, HasCause, next_count};
ghost use Rattle.outside_io.specs.Real.{inner_reader, inner_writer, source_faults, sink_faults, PassesOn};
ghost use Rattle.outside_io.specs.Taken.{SkipsEmpty, WritesSome, WriteTakes};

use crate::{Failed, Sink, Source};
use std::io::{Read, Write};

/// A reader of std, whose faults are counted.
#[derive(Drop)]
pub struct RealSource<R> {
    inner: R,
    faults: u64,
}

impl<R: Read> RealSource<R> {
    /// The reader, which has had no fault yet.
    pub fn new(inner: R) -> RealSource<R>
        ensures inner { inner_reader result ≡ inner }
        ensures faults { source_faults result ≡ 0 }
    {
        RealSource { inner, faults: 0 }
    }
}

impl<R: Read> Source for RealSource<R> {
    ghost left = { λ _. None };

    ghost faults = { source_faults };

    // A fault is an error of the reader.
    fn read(&mut self, buf: &mut [u8]) -> Result<usize, Failed>
        ensures bound { ReadsAtMost result buf.new }
        ensures bytes { ReadConsumes None None result buf.new }
        ensures cause { HasCause (source_faults self.old) (source_faults self.new) result }
        ensures counts { CountsOne (source_faults self.old) (source_faults self.new) result }
        ensures passed { ReadConsumes (R.remaining (inner_reader self.old))
            (R.remaining (inner_reader self.new)) result buf.new }
    {
        match self.inner.read(buf) {
            Ok(count) => Ok(count),
            Err(_) => {
                self.faults = self.faults.saturating_add(1);
                Err(Failed)
            }
        }
    }
}

/// A writer of std, whose faults are counted. It is flushed after each write.
#[derive(Drop)]
pub struct RealSink<W> {
    inner: W,
    faults: u64,
}

impl<W: Write> RealSink<W> {
    /// The writer, which has had no fault yet.
    pub fn new(inner: W) -> RealSink<W>
        ensures inner { inner_writer result ≡ inner }
        ensures faults { sink_faults result ≡ 0 }
    {
        RealSink { inner, faults: 0 }
    }

    fn fail(&mut self) -> Failed
        ensures inner { inner_writer self.new ≡ inner_writer self.old }
        ensures later { sink_faults self.old ≤ sink_faults self.new }
        ensures faults { sink_faults self.new ≡ next_count (sink_faults self.old) }
    {
        self.faults = self.faults.saturating_add(1);
        Failed
    }
}

impl<W: Write> Sink for RealSink<W> {
    ghost taken = { λ _. None };

    ghost faults = { sink_faults };

    // A fault is an error of the writer, a write that took nothing, or a flush that failed.
    fn write(&mut self, piece: &[u8]) -> Result<usize, Failed>
        ensures bound { WritesSome result piece.now }
        ensures bytes { WriteTakes None None result piece.now }
        ensures cause { HasCause (sink_faults self.old) (sink_faults self.new) result }
        ensures empty { SkipsEmpty None None (sink_faults self.old) (sink_faults self.new)
            result piece.now }
        ensures counts { CountsOne (sink_faults self.old) (sink_faults self.new) result }
        ensures passed { PassesOn (W.contents (inner_writer self.old))
            (W.contents (inner_writer self.new)) result piece.now }
    {
        if piece.is_empty() {
            return Ok(0);
        }
        match self.inner.write(piece) {
            Ok(count) if count > 0 => match self.inner.flush() {
                Ok(()) => Ok(count),
                Err(_) => Err(self.fail()),
            },
            _ => Err(self.fail()),
        }
    }
}
