//! Lists all shuffle trees of an arity over one binary label and compares keys of them; behind the word `multiples` counts small
//! common multiples, behind `frames` makes frames, and behind `store` puts trees into a store and sorts their ids: to be timed.
#![tactic(auto)]

mod frames;
mod keys;
mod overlaps;
mod stores;

use std::alloc::{AllocError, Global};
use std::{env, io};

// The number that a word says; 0 where it says none.
fn number(word: Option<&String>) -> u8 {
    match word {
        Some(word) => word.as_str().parse::<u8>().unwrap_or(0),
        None => 0,
    }
}

// What the words behind the program's name ask for.
fn answer(alloc: Global, words: &[String]) -> Result<String, AllocError> {
    match words {
        [name, numbers @ ..] if name.as_str() == "multiples" => overlaps::counted(alloc, numbers),
        [name, numbers @ ..] if name.as_str() == "frames" => frames::counted(alloc, numbers),
        [name, numbers @ ..] if name.as_str() == "store" => stores::counted(alloc, numbers),
        _ => keys::counted(alloc, words),
    }
}

fn main(rt: HostRuntime) -> io::Result<()> {
    let alloc = rt.alloc();
    let words = env::args(&rt)?.skip(1).collect::<Vec<String>>(alloc)?;
    let answer = answer(alloc, words.as_slice())?;
    println!(rt; "{answer}")
}
