//! Reads the document on standard input so many times, and prints it so many times, to be timed. The two words are these
//! numbers. It writes how many bytes were read and printed; what is printed goes nowhere.
#![tactic(auto)]

use outside_io::{RealSource, read_all};
use presentation_text::{MOST_BYTES, print_document, read_document};
use std::alloc::{AllocError, Global};
use std::{env, io};

// The number that a word says; 0 where it says none.
fn number(word: Option<&String>) -> u8 {
    match word {
        Some(word) => word.as_str().parse::<u8>().unwrap_or(0),
        None => 0,
    }
}

// How many bytes the document has when it is printed; 0 where the text is none.
fn printed(alloc: Global, bytes: &[u8], prints: u8) -> Result<usize, AllocError> {
    if bytes.len() > MOST_BYTES as usize {
        return Ok(0);
    }
    let Ok(document) = read_document(alloc, bytes) else {
        return Ok(0);
    };
    let mut length = 0;
    for _ in 0..prints {
        length = print_document(alloc, &document)?.len();
    }
    Ok(length)
}

// Reads the text so many times.
fn read_often(alloc: Global, bytes: &[u8], reads: u8) -> Result<usize, AllocError> {
    let mut read = 0;
    for _ in 0..reads {
        read = bytes.len();
        let _ = printed(alloc, bytes, 0)?;
    }
    Ok(read)
}

fn main(rt: HostRuntime) -> io::Result<()> {
    let alloc = rt.alloc();
    let words = env::args(&rt)?.collect::<Vec<String>>(alloc)?;
    let reads = number(words.as_slice().get(1));
    let prints = number(words.as_slice().get(2));
    let mut source = RealSource::new(rt.stdin());
    let Ok(bytes) = read_all(alloc, &mut source, MOST_BYTES) else {
        println!(rt; "no document")?;
        return Ok(());
    };
    let read = read_often(alloc, &bytes, reads)?;
    println!(rt; "{read} bytes read")?;
    let length = printed(alloc, &bytes, prints)?;
    println!(rt; "{length} bytes printed")
}
