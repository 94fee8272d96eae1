//! All bytes of a source, and all bytes into a sink.
ghost use Rattle.std.specs.Prelude.{◌≡◌, ◌≤◌, ◌<◌, ◌+◌, ◌^◌, ℕ, List, IfOk, OnOk, OnErr, length, take};
ghost use Rattle.std.specs.Io.KnownBytes.{Consumes, IsAtEnd};
ghost use Rattle.outside_io.specs.Causes.{Rose};
ghost use Rattle.outside_io.specs.Taken.{Takes};

use crate::{Sink, Source};
use std::alloc::Global;
use thiserror::Error;

/// Why a source was not read to its end.
#[derive(Clone, Copy, Debug, PartialEq, Eq, Error)]
pub enum ReadFail {
    /// The source failed.
    #[error("the source failed")]
    Fault,
    /// More bytes came than the limit allows.
    #[error("too many bytes")]
    TooLong,
    /// There was no memory for the bytes.
    #[error("out of memory")]
    NoMemory,
}

/// Why the bytes were not all written.
#[derive(Clone, Copy, Debug, PartialEq, Eq, Error)]
pub enum WriteFail {
    /// The sink failed.
    #[error("the sink failed")]
    Fault,
}

const BUFFER: usize = 4096;

/// All bytes up to the end of the input, of which there are at most `limit`, below 2^32.
///
/// `TooLong` where more than `limit` bytes come before the end: one more is read then, and no other.
/// `Fault` comes only where the source's count of faults rose in this call. `NoMemory` comes where
/// there was no memory for bytes that came. The bytes read until then are lost.
pub fn read_all<S: Source>(alloc: Global, source: &mut S, limit: u64) -> Result<Vec<u8>, ReadFail>
    requires { limit < 2 ^ 32 }
    ensures later { S.faults source.old ≤ S.faults source.new }
    ensures fault { result ≡ Err ReadFail.Fault → Rose (S.faults source.old) (S.faults source.new) }
    ensures kept { OnOk result (S.faults source.new ≡ S.faults source.old) }
    ensures whole { IfOk result (λ bytes. Consumes (S.left source.old) (S.left source.new) bytes.items
        × IsAtEnd (S.left source.new) × (length bytes.items ≤ limit)) }
    ensures long { result ≡ Err ReadFail.TooLong → (S.faults source.new ≡ S.faults source.old)
        × (bytes : List ℕ) × (length bytes ≡ limit + 1)
        × Consumes (S.left source.old) (S.left source.new) bytes }
    ensures memory { result ≡ Err ReadFail.NoMemory → (S.faults source.new ≡ S.faults source.old)
        × (bytes : List ℕ) × (0 < length bytes) × (length bytes ≤ limit + 1)
        × Consumes (S.left source.old) (S.left source.new) bytes }
    ensures lost { result ≡ Err ReadFail.Fault → ((bytes : List ℕ) × (length bytes ≤ limit)
        × Consumes (S.left source.old) (S.left source.new) bytes) }
{
    let mut bytes = Vec::new(alloc);
    let mut buf = [0u8; BUFFER];
    while bytes.len() as u64 <= limit {
        let room = (limit as usize + 1 - bytes.len()).min(BUFFER);
        match source.read(&mut buf[..room]) {
            Ok(0) => return Ok(bytes),
            Ok(count) => match bytes.extend_from_slice(&buf[..count]) {
                Ok(()) => {}
                Err(_) => return Err(ReadFail::NoMemory),
            },
            Err(_) => return Err(ReadFail::Fault),
        }
    }
    Err(ReadFail::TooLong)
}

/// Hands over all of the bytes. `Fault` comes only where the sink's count of faults rose in this
/// call; the sink then has a first part of them, and not all.
pub fn write_all<K: Sink>(sink: &mut K, bytes: &[u8]) -> Result<(), WriteFail>
    ensures later { K.faults sink.old ≤ K.faults sink.new }
    ensures fault { OnErr result (Rose (K.faults sink.old) (K.faults sink.new)) }
    ensures kept { OnOk result (K.faults sink.new ≡ K.faults sink.old) }
    ensures all { OnOk result (Takes (K.taken sink.old) (K.taken sink.new) bytes.now) }
    ensures part { OnErr result ((n : ℕ) × (n < length bytes.now)
        × Takes (K.taken sink.old) (K.taken sink.new) (take n bytes.now)) }
{
    let mut at = 0;
    while at < bytes.len() {
        match sink.write(&bytes[at..]) {
            Ok(count) => at += count,
            Err(_) => return Err(WriteFail::Fault),
        }
    }
    Ok(())
}
