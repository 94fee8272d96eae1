use operad_run::{Status, check_run, operad_run};
use outside_io::{MemorySink, MemorySource};
use presentation_text::write_number;
use rows::RowFail;
use std::alloc::{AllocError, Global};
use std::mem;

const ROOM: usize = 65536;

// How the source and the sink of a run behave.
#[derive(Clone, Copy, Debug)]
struct Outside {
    // How many bytes the source gives, and the sink takes, in a call; at least 1.
    chunk: u32,
    // Which call of the source fails, counted from 1; 0 for none.
    failing_read: u32,
    // Which call of the sink fails, counted from 1; 0 for none.
    failing_write: u32,
    // How many bytes of a comment stand before the row's text.
    comment: u32,
}

impl Outside {
    // Ten bytes a call, no failures, no comment.
    fn plain() -> Outside {
        Outside {
            chunk: 10,
            failing_read: 0,
            failing_write: 0,
            comment: 0,
        }
    }
}

// What the row says that begins with `> outside`.
fn outside_of(words: &[String]) -> Outside {
    Outside {
        chunk: number(words.first()),
        failing_read: number(words.get(1)),
        failing_write: number(words.get(2)),
        comment: number(words.get(3)),
    }
}

// The number that a word says; 0 where it says none.
fn number(word: Option<&String>) -> u32 {
    match word {
        Some(word) => word.as_str().parse::<u32>().unwrap_or(0),
        None => 0,
    }
}

// The bytes that the source gives.
fn text_behind(alloc: Global, comment: u32, text: &[u8]) -> Result<Vec<u8>, AllocError> {
    let mut bytes = vec![in alloc; b'#'; comment as usize]?;
    bytes.extend_from_slice(text)?;
    Ok(bytes)
}

// The source of a run.
fn source_of(alloc: Global, outside: Outside, text: &[u8]) -> Result<MemorySource, AllocError> {
    let bytes = text_behind(alloc, outside.comment, text)?;
    let failing = [outside.failing_read].to_vec(alloc)?;
    let chunk = outside.chunk.max(1) as usize;
    Ok(MemorySource::new(bytes, chunk, failing))
}

// The sink of a run.
fn sink_of(alloc: Global, outside: Outside) -> Result<MemorySink, AllocError> {
    let failing = [outside.failing_write].to_vec(alloc)?;
    let chunk = outside.chunk.max(1) as usize;
    MemorySink::new(alloc, ROOM, chunk, failing)
}

// The status of a run of the program that the first word names.
fn status_of(
    alloc: Global,
    words: &[String],
    source: &mut MemorySource,
    sink: &mut MemorySink,
) -> Status {
    match words {
        [program, given @ ..] if program.as_str() == "operad_check" => {
            check_run(alloc, given, source, sink)
        }
        [_, given @ ..] => operad_run(alloc, given, source, sink),
        [] => operad_run(alloc, words, source, sink),
    }
}

// Writes the status of a run, and what the run wrote.
fn write_run(status: Status, bytes: &[u8], out: &mut Vec<u8>) -> Result<(), AllocError> {
    out.extend_from_slice(b"> ")?;
    write_number(u64::from(status.code()), out)?;
    out.push(b'\n')?;
    out.extend_from_slice(bytes)
}

// What a run of a program writes on a text, with its status before it. The first word names the program.
fn run(
    alloc: Global,
    words: &[String],
    outside: Outside,
    text: &[u8],
    out: &mut Vec<u8>,
) -> Result<(), AllocError> {
    let mut source = source_of(alloc, outside, text)?;
    let mut sink = sink_of(alloc, outside)?;
    let status = status_of(alloc, words, &mut source, &mut sink);
    write_run(status, sink.bytes(), out)
}

/// Runs of the programs.
#[derive(Clone, Copy, Debug)]
pub struct Runs {
    // How the source and the sink of the next run behave.
    outside: Outside,
}

impl Runs {
    /// The next run has a source and a sink that don't fail.
    pub fn new() -> Runs {
        Runs {
            outside: Outside::plain(),
        }
    }

    /// Writes what the program that the first word names writes on a text, with its status before it. A row `outside CHUNK READ
    /// WRITE COMMENT` prints nothing: it says how the source and the sink of the next run behave.
    pub fn run(
        &mut self,
        alloc: Global,
        words: &[String],
        text: &[u8],
        out: &mut Vec<u8>,
    ) -> Result<(), RowFail> {
        match words {
            [first, numbers @ ..] if first.as_str() == "outside" => {
                self.outside = outside_of(numbers);
                Ok(())
            }
            given => {
                let used = mem::replace(&mut self.outside, Outside::plain());
                Ok(run(alloc, given, used, text, out)?)
            }
        }
    }
}
