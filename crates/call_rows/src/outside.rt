ghost use Rattle.std.specs.Prelude.{◌<◌, IfOk};

use outside_io::{
    Failed, MemorySink, MemorySource, ReadFail, RealSink, RealSource, Sink, Source, SureSink,
    SureSource, WriteFail, read_all, write_all,
};
use rows::{RowFail, end_line, end_number, number_of, write_text};
use std::alloc::{AllocError, Global};
use std::io;
use std::io::{ErrorKind, Write};

// How a piece is handed over.
#[derive(Clone, Copy, Debug)]
enum Way {
    // By `write_all`.
    Whole,
    // By one call.
    Once,
}

// A writer that takes at most so many bytes in a call, and fails at each flush unless `flushes` is true.
#[derive(Drop)]
struct ShortWriter {
    count: usize,
    flushes: bool,
}

impl Write for ShortWriter {
    fn write(&mut self, buf: &[u8]) -> io::Result<usize> {
        Ok(self.count.min(buf.len()))
    }

    fn flush(&mut self) -> io::Result<()> {
        if self.flushes {
            Ok(())
        } else {
            Err(io::Error::from(ErrorKind::Other))
        }
    }
}

// How many bytes there are in a call; at least 1.
fn chunk_of(word: &String) -> Result<usize, RowFail>
    ensures positive { IfOk result (λ chunk. 0 < chunk) }
{
    Ok(number_of(word)?.max(1) as usize)
}

// Ends a line by a word and by bytes, if there are some.
fn end_bytes(word: &str, bytes: &[u8], out: &mut Vec<u8>) -> Result<(), AllocError> {
    write_text(word, out)?;
    if !bytes.is_empty() {
        out.push(b' ')?;
        out.extend_from_slice(bytes)?;
    }
    end_line("", out)
}

// Writes what was read, behind a word, or why it wasn't.
fn end_read(word: &str, read: Result<Vec<u8>, ReadFail>, out: &mut Vec<u8>) -> Result<(), RowFail> {
    match read {
        Ok(bytes) => Ok(end_bytes(word, bytes.as_slice(), out)?),
        Err(ReadFail::Fault) => Ok(end_line("Fault", out)?),
        Err(ReadFail::TooLong) => Ok(end_line("TooLong", out)?),
        Err(ReadFail::NoMemory) => Err(RowFail::NoMemory),
    }
}

// Writes what is read of a source, at most so many bytes, and then what is left.
fn read_of<S: Source>(
    alloc: Global,
    source: &mut S,
    most: u32,
    out: &mut Vec<u8>,
) -> Result<(), RowFail> {
    end_read("read", read_all(alloc, source, u64::from(most)), out)?;
    end_read("left", read_all(alloc, source, u64::from(u32::MAX)), out)
}

// Reads a source that gives so many bytes in a call; a call that is told, or 0 for none, fails.
fn read_memory(alloc: Global, words: &[String], out: &mut Vec<u8>) -> Result<(), RowFail> {
    let [chunk, failing, most, text] = words else {
        return Err(RowFail::Refused);
    };
    let chunk = chunk_of(chunk)?;
    let failing = number_of(failing)?;
    let most = number_of(most)?;
    let bytes = text.as_bytes().to_vec(alloc)?;
    let fail_at = [failing].to_vec(alloc)?;
    read_of(
        alloc,
        &mut MemorySource::new(bytes, chunk, fail_at),
        most,
        out,
    )
}

// Reads a source that gives so many bytes in a call and never fails.
fn read_surely(alloc: Global, words: &[String], out: &mut Vec<u8>) -> Result<(), RowFail> {
    let [chunk, most, text] = words else {
        return Err(RowFail::Refused);
    };
    let chunk = chunk_of(chunk)?;
    let most = number_of(most)?;
    let bytes = text.as_bytes().to_vec(alloc)?;
    read_of(alloc, &mut SureSource::new(bytes, chunk), most, out)
}

// Reads a reader of std.
fn read_reader(alloc: Global, words: &[String], out: &mut Vec<u8>) -> Result<(), RowFail> {
    let [most, text] = words else {
        return Err(RowFail::Refused);
    };
    let most = number_of(most)?;
    read_of(alloc, &mut RealSource::new(text.as_bytes()), most, out)
}

fn end_written(written: Result<(), WriteFail>, out: &mut Vec<u8>) -> Result<(), AllocError> {
    match written {
        Ok(()) => end_line("written", out),
        Err(WriteFail::Fault) => end_line("Fault", out),
    }
}

fn end_count(taken: Result<usize, Failed>, out: &mut Vec<u8>) -> Result<(), AllocError> {
    match taken {
        Ok(count) => end_number(count as u64, out),
        Err(Failed) => end_line("Failed", out),
    }
}

// Hands over each piece, and writes what is answered.
fn hand_over<K: Sink>(
    sink: &mut K,
    way: Way,
    pieces: &[String],
    out: &mut Vec<u8>,
) -> Result<(), AllocError> {
    for piece in pieces {
        match way {
            Way::Whole => end_written(write_all(sink, piece.as_bytes()), out)?,
            Way::Once => end_count(sink.write(piece.as_bytes()), out)?,
        }
    }
    Ok(())
}

fn fill_memory(
    sink: &mut MemorySink,
    way: Way,
    pieces: &[String],
    out: &mut Vec<u8>,
) -> Result<(), AllocError> {
    hand_over(sink, way, pieces, out)?;
    end_bytes("taken", sink.bytes(), out)
}

// Fills a sink with room for so many bytes that takes so many in a call; a call that is told, or 0 for none, fails.
fn write_memory(
    alloc: Global,
    way: Way,
    words: &[String],
    out: &mut Vec<u8>,
) -> Result<(), RowFail> {
    let [room, chunk, failing, pieces @ ..] = words else {
        return Err(RowFail::Refused);
    };
    let room = number_of(room)? as usize;
    let chunk = chunk_of(chunk)?;
    let fail_at = [number_of(failing)?].to_vec(alloc)?;
    let mut sink = MemorySink::new(alloc, room, chunk, fail_at)?;
    Ok(fill_memory(&mut sink, way, pieces, out)?)
}

// Fills a sink with so many slots that never fails.
fn write_surely(
    alloc: Global,
    way: Way,
    words: &[String],
    out: &mut Vec<u8>,
) -> Result<(), RowFail> {
    let [room, pieces @ ..] = words else {
        return Err(RowFail::Refused);
    };
    let slots = vec![in alloc; 0; number_of(room)? as usize]?;
    Ok(hand_over(&mut SureSink::new(slots), way, pieces, out)?)
}

fn fill_writer(
    written: &mut Vec<u8>,
    way: Way,
    pieces: &[String],
    out: &mut Vec<u8>,
) -> Result<(), AllocError> {
    hand_over(&mut RealSink::new(&mut *written), way, pieces, out)?;
    end_bytes("taken", written.as_slice(), out)
}

// Fills a writer of std.
fn write_writer(
    alloc: Global,
    way: Way,
    pieces: &[String],
    out: &mut Vec<u8>,
) -> Result<(), RowFail> {
    let mut written = Vec::new(alloc);
    Ok(fill_writer(&mut written, way, pieces, out)?)
}

// Fills a writer that takes at most so many bytes in a call; its flushes fail where the second number is 0.
fn write_short(way: Way, words: &[String], out: &mut Vec<u8>) -> Result<(), RowFail> {
    let [count, flushes, pieces @ ..] = words else {
        return Err(RowFail::Refused);
    };
    let writer = ShortWriter {
        count: number_of(count)? as usize,
        flushes: number_of(flushes)? > 0,
    };
    Ok(hand_over(&mut RealSink::new(writer), way, pieces, out)?)
}

// Reads a source of the kind that the first word names.
fn read(alloc: Global, words: &[String], out: &mut Vec<u8>) -> Result<(), RowFail> {
    let [kind, given @ ..] = words else {
        return Err(RowFail::Refused);
    };
    match kind.as_str() {
        "memory" => read_memory(alloc, given, out),
        "sure" => read_surely(alloc, given, out),
        "reader" => read_reader(alloc, given, out),
        _ => Err(RowFail::Refused),
    }
}

// Hands pieces to a sink of the kind that the first word names.
fn write(alloc: Global, way: Way, words: &[String], out: &mut Vec<u8>) -> Result<(), RowFail> {
    let [kind, given @ ..] = words else {
        return Err(RowFail::Refused);
    };
    match kind.as_str() {
        "memory" => write_memory(alloc, way, given, out),
        "sure" => write_surely(alloc, way, given, out),
        "writer" => write_writer(alloc, way, given, out),
        "short" => write_short(way, given, out),
        _ => Err(RowFail::Refused),
    }
}

/// Answers the calls of `outside_io`. False where it has none of this name.
pub fn answer(
    alloc: Global,
    name: &str,
    words: &[String],
    out: &mut Vec<u8>,
) -> Result<bool, RowFail> {
    match name {
        "read_all" => read(alloc, words, out)?,
        "write_all" => write(alloc, Way::Whole, words, out)?,
        "Sink::write" => write(alloc, Way::Once, words, out)?,
        _ => return Ok(false),
    }
    Ok(true)
}
