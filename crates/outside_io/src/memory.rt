//! Devices in memory, with calls that fail where they are told to.
ghost use Rattle.std.specs.Prelude.{◌≡◌, ◌≤◌, ◌<◌, ◌+◌, ◌++◌, IfOk, IsOk, Some, [], length, take, drop, min};
ghost use Rattle.std.specs.Io.{ReadsAtMost};
ghost use Rattle.std.specs.Io.KnownBytes.{ReadConsumes};
ghost use Rattle.outside_io.specs.Calls.{new_log};
ghost use Rattle.outside_io.specs.Causes.{HasCause};
ghost use Rattle.outside_io.specs.MemorySink.{SinkState, Writes};
ghost use Rattle.outside_io.specs.MemorySource.{SourceState, Reads};
ghost use Rattle.outside_io.specs.Taken.{SkipsEmpty, WritesSome, WriteTakes};

use crate::calls::Calls;
use crate::{Failed, Sink, Source};
use std::alloc::{AllocError, Global};
use std::marker::Model;

/// Bytes in memory, given in chunks.
#[derive(Drop)]
pub struct MemorySource {
    bytes: Vec<u8>,
    at: usize,
    chunk: usize,
    calls: Calls,
}

impl Model for MemorySource {
    ghost use Rattle.std.specs.Prelude.{◌≤◌, ◌<◌, drop, vec_len};
    ghost use Rattle.outside_io.specs.MemorySource.{SourceState};

    ghost Value = { SourceState };

    ghost view = { λ s. record { left = drop s.at s.bytes.items; chunk = s.chunk; calls = s.calls } };

    ghost invariant = { λ s. (0 < s.chunk) × (s.at ≤ vec_len s.bytes) };
}

impl MemorySource {
    /// A source that gives `bytes`, at most `chunk` of them at a call. Its calls with a buffer
    /// that is not empty are numbered from 1, and those whose numbers stand in `fail_at` fail.
    /// Calls after the 4,294,967,295th have no number.
    pub fn new(bytes: Vec<u8>, chunk: usize, fail_at: Vec<u32>) -> MemorySource
        requires { 0 < chunk }
        ensures left { result.left ≡ bytes.items }
        ensures chunk { result.chunk ≡ chunk }
        ensures calls { result.calls ≡ new_log fail_at.items }
    {
        MemorySource {
            bytes,
            at: 0,
            chunk,
            calls: Calls::new(fail_at),
        }
    }
}

impl Source for MemorySource {
    ghost left = { λ s. Some s.left };

    ghost faults = { λ s. s.calls.faults };

    fn read(&mut self, buf: &mut [u8]) -> Result<usize, Failed>
        ensures bound { ReadsAtMost result buf.new }
        ensures bytes { ReadConsumes (Some self.old.left) (Some self.new.left) result buf.new }
        ensures cause { HasCause self.old.calls.faults self.new.calls.faults result }
        ensures exact { Reads self.old buf.old result self.new buf.new }
    {
        if buf.is_empty() {
            return Ok(0);
        }
        self.calls.begin()?;
        let count = give(&self.bytes[self.at..], self.chunk, buf);
        self.at += count;
        Ok(count)
    }
}

// Copies the first bytes of `rest` to the front of `buf`, at most `chunk` of them.
pub(crate) fn give(rest: &[u8], chunk: usize, buf: &mut [u8]) -> usize
    ensures count { result ≡ min chunk (min (length buf.old) (length rest.now)) }
    ensures given { buf.new ≡ take result rest.now ++ drop result buf.old }
{
    let count = chunk.min(buf.len()).min(rest.len());
    buf[..count].copy_from_slice(&rest[..count]);
    count
}

/// Room in memory, filled in chunks.
#[derive(Drop)]
pub struct MemorySink {
    taken: Vec<u8>,
    room: usize,
    chunk: usize,
    calls: Calls,
}

impl Model for MemorySink {
    ghost use Rattle.std.specs.Prelude.{◌≤◌, ◌<◌, vec_len, vec_capacity};
    ghost use Rattle.outside_io.specs.MemorySink.{SinkState};

    ghost Value = { SinkState };

    ghost view = { λ s. record { taken = s.taken.items; room = s.room; chunk = s.chunk; calls = s.calls } };

    ghost invariant = { λ s. (0 < s.chunk) × (vec_len s.taken ≤ s.room) × (s.room ≤ vec_capacity s.taken) };
}

impl MemorySink {
    /// A sink with room for `room` bytes, which it reserves at once, and which takes at most
    /// `chunk` of them at a call. Its calls with a piece that is not empty are numbered from 1;
    /// those whose numbers stand in `fail_at` fail, and so do those that find no room left.
    /// Calls after the 4,294,967,295th have no number. The error is that memory ran out.
    pub fn new(
        alloc: Global,
        room: usize,
        chunk: usize,
        fail_at: Vec<u32>,
    ) -> Result<MemorySink, AllocError>
        requires { 0 < chunk }
        ensures taken { IfOk result (λ sink. sink.taken ≡ []) }
        ensures room { IfOk result (λ sink. sink.room ≡ room) }
        ensures chunk { IfOk result (λ sink. sink.chunk ≡ chunk) }
        ensures calls { IfOk result (λ sink. sink.calls ≡ new_log fail_at.items) }
        ensures succeeds { room ≡ 0 → IsOk result }
    {
        Ok(MemorySink {
            taken: Vec::with_capacity(alloc, room)?,
            room,
            chunk,
            calls: Calls::new(fail_at),
        })
    }

    /// The bytes that it has.
    pub fn bytes(&self) -> &[u8]
        ensures { result.now ≡ self.now.taken }
    {
        self.taken.as_slice()
    }
}

impl Sink for MemorySink {
    ghost taken = { λ s. Some s.taken };

    ghost faults = { λ s. s.calls.faults };

    fn write(&mut self, piece: &[u8]) -> Result<usize, Failed>
        ensures bound { WritesSome result piece.now }
        ensures bytes { WriteTakes (Some self.old.taken) (Some self.new.taken) result piece.now }
        ensures cause { HasCause self.old.calls.faults self.new.calls.faults result }
        ensures empty { SkipsEmpty (Some self.old.taken) (Some self.new.taken)
            self.old.calls.faults self.new.calls.faults result piece.now }
        ensures exact { Writes self.old piece.now result self.new }
    {
        if piece.is_empty() {
            return Ok(0);
        }
        self.calls.begin()?;
        let count = self
            .chunk
            .min(piece.len())
            .min(self.room - self.taken.len());
        if count == 0 {
            return Err(self.calls.fail());
        }
        self.taken.extend_from_slice(&piece[..count]).unwrap();
        Ok(count)
    }
}
