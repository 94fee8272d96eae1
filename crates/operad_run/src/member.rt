//! A run of the checker: the words and the bytes of a source in, the verdict into a sink.
ghost use Rattle.std.specs.Prelude.{◌≡◌, ◌↔◌, IsTrue, map, string_bytes};
ghost use Rattle.operad_run.specs.CheckRuns.{IsMemberWord, IsCheckRun};

use crate::checks::check_text;
use crate::run::{source_bytes, tell};
use crate::status::Status;
use outside_io::{Sink, Source};
use std::alloc::Global;

fn is_same(text: &str, word: &str) -> bool
    ensures { IsTrue result ↔ (text.now ≡ word.now) }
{
    text == word
}

fn is_member(words: &[String]) -> bool
    ensures { IsTrue result ↔ IsMemberWord (map string_bytes words.now) }
{
    match words {
        [command] => is_same(command.as_str(), "member"),
        _ => false,
    }
}

/// All that the checker does. The word is `member`; the source gives a text of at most 16,777,216 bytes: a presentation and
/// blocks of a certificate. Where all blocks hold, the status is `Done` and the sink takes the line `accepted K`, K the number
/// of blocks; then each wanted element is in the ideal that the relations and the symmetry of the generators generate, whoever
/// wrote the blocks. Where one doesn't hold, the status is `Refused` and the sink takes the line `refused BLOCK STEP CAUSE`: the
/// first such block, counted from 1, its failing step and the cause.
///
/// Each other end has its cause, its status and its text: other words, a source or a sink that failed, a text that is
/// longer, or a line that isn't as said, the first of which is named. `NoMemory` comes for want of memory alone, and writes
/// nothing.
pub fn check_run<S: Source, K: Sink>(
    alloc: Global,
    words: &[String],
    source: &mut S,
    sink: &mut K,
) -> Status
    ensures run { IsCheckRun result (map string_bytes words.now) (record {
      left = S.left source.old;
      left_now = S.left source.new;
      read_faults = S.faults source.old;
      read_faults_now = S.faults source.new;
      taken = K.taken sink.old;
      taken_now = K.taken sink.new;
      write_faults = K.faults sink.old;
      write_faults_now = K.faults sink.new;
    }) }
{
    if !is_member(words) {
        return tell(sink, b"fault usage\n", Status::Usage);
    }
    let bytes = match source_bytes(alloc, source, sink) {
        Ok(bytes) => bytes,
        Err(status) => return status,
    };
    match check_text(alloc, bytes.as_slice()) {
        Ok((status, text)) => tell(sink, text.as_slice(), status),
        Err(_) => Status::NoMemory,
    }
}
