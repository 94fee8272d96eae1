ghost use Rattle.std.specs.Prelude.{◌≡◌, ◌⊎◌, IfErr};

use std::{env, io};

// What a program ends with where there is no memory for its words: the number of the status for want of memory.
const NO_MEMORY: u8 = 8;

// What it ends with where its words can't be had otherwise, which is the number of no status.
const NO_WORDS: u8 = 9;

fn code_of(error: &io::Error) -> u8
    ensures { (result ≡ 8) ⊎ (result ≡ 9) }
{
    match error.kind() {
        io::ErrorKind::OutOfMemory => NO_MEMORY,
        _ => NO_WORDS,
    }
}

fn all_words(rt: &HostRuntime) -> io::Result<Vec<String>> {
    Ok(env::args(rt)?.collect(rt.alloc())?)
}

/// The words of the command line, the program's name first. Where the system refuses them the answer is the number with which
/// the program ends: 8 for want of memory, 9 for another cause.
pub fn words_of(rt: &HostRuntime) -> Result<Vec<String>, u8>
    ensures refused { IfErr result (λ code. (code ≡ 8) ⊎ (code ≡ 9)) }
{
    match all_words(rt) {
        Ok(words) => Ok(words),
        Err(error) => Err(code_of(&error)),
    }
}
