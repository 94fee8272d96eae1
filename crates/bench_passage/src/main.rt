//! Passes a tree to its shuffle form and back, to be timed. The words are the number of its leaves, and how many hundred times
//! it is passed. At each vertex of the tree the inputs stand in the other order than in the shuffle form.
#![tactic(auto)]

use shuffle_passage::{to_shuffle, to_symmetric};
use sqlite_items::Items;
use std::alloc::{AllocError, Global};
use std::{env, io};
use symmetric_trees::{GenTable, Generator, Name, Part, PartKind, Tree, arity_of};

// The number that a word says; 0 where it says none.
fn number(word: Option<&String>) -> u8 {
    match word {
        Some(word) => word.as_str().parse::<u8>().unwrap_or(0),
        None => 0,
    }
}

// One generator without symmetry, with two inputs.
fn free_generator(alloc: Global) -> Result<Generator, AllocError> {
    let part = Part {
        kind: PartKind::Free,
        size: 2,
    };
    Ok(Generator {
        name: Name::new(alloc, "p")?,
        arity: 2,
        parts: Items::from_slice(alloc, &[part])?,
    })
}

// p(n,p(n - 1,..p(2,1))).
fn comb(alloc: Global, leaves: u8) -> Result<Tree, AllocError> {
    let mut tree = Tree::Leaf(1);
    for below in 1..leaves {
        let mut inputs = Items::new(alloc);
        inputs.push(Tree::Leaf(below + 1))?;
        inputs.push(tree)?;
        tree = Tree::Node(0, inputs);
    }
    Ok(tree)
}

// Whether the tree was passed there and back: it fits the table.
fn pass(alloc: Global, table: &GenTable, tree: &Tree) -> Result<bool, AllocError> {
    let Some(_) = arity_of(tree, table) else {
        return Ok(false);
    };
    let (_, shuffle) = to_shuffle(alloc, table, tree)?;
    let _back = to_symmetric(alloc, table, &shuffle)?;
    Ok(true)
}

fn main(rt: HostRuntime) -> io::Result<()> {
    let alloc = rt.alloc();
    let words = env::args(&rt)?.collect::<Vec<String>>(alloc)?;
    let leaves = number(words.as_slice().get(1));
    let times = u32::from(number(words.as_slice().get(2))) * 100;
    let mut table = GenTable::new(alloc);
    let Ok(()) = table.add(alloc, free_generator(alloc)?) else {
        return println!(rt; "no table");
    };
    let tree = comb(alloc, leaves)?;
    let mut passed: u32 = 0;
    for _ in 0..times {
        if pass(alloc, &table, &tree)? {
            passed = passed.saturating_add(1);
        }
    }
    println!(rt; "{passed} passes of {leaves} leaves")
}
