ghost use Rattle.std.specs.Prelude.{ℕ, IfOk};
ghost use Rattle.std.specs.List.{All};
ghost use Rattle.shuffle_insertions.specs.ShuffleTrees.{IsShuffleTree};
ghost use Rattle.shuffle_transfer.specs.Labels.{inputs_of};
ghost use Rattle.symmetric_sums.specs.Terms.{FitsOver};
ghost use Rattle.symmetric_trees.specs.Generators.{generators_of};

use crate::fail::RowFail;
use presentation_text::{AskKind, Document, MOST_BYTES, ReadDocFail, read_document};
use shuffle_passage::to_shuffle;
use shuffle_trees::STree;
use std::alloc::Global;
use symmetric_sums::Sum;
use symmetric_trees::{GenTable, Tree, arity_of};

/// The document of a text; `Refused` where it is none.
pub fn document_of(alloc: Global, bytes: &[u8]) -> Result<Document, RowFail>
    ensures fit { IfOk result (λ document. All (FitsOver document.field document.gens) document.rels) }
{
    if bytes.len() > MOST_BYTES as usize {
        return Err(RowFail::Refused);
    }
    match read_document(alloc, bytes) {
        Ok(document) => Ok(document),
        Err(ReadDocFail::NoMemory) => Err(RowFail::NoMemory),
        Err(ReadDocFail::At(_)) => Err(RowFail::Refused),
    }
}

/// The numbers that words say; `Refused` where one says none.
pub fn numbers_of(alloc: Global, words: &[String]) -> Result<Vec<u32>, RowFail> {
    let mut numbers = Vec::new(alloc);
    for word in words {
        match word.as_str().parse::<u32>() {
            Ok(number) => numbers.push(number)?,
            Err(_) => return Err(RowFail::Refused),
        }
    }
    Ok(numbers)
}

/// The numbers as numbers of vertices; `Refused` where one is greater than 255.
pub fn vertices_of(alloc: Global, numbers: &[u32]) -> Result<Vec<u8>, RowFail> {
    let mut vertices = Vec::new(alloc);
    for number in numbers {
        match u8::try_from(*number) {
            Ok(vertex) => vertices.push(vertex)?,
            Err(_) => return Err(RowFail::Refused),
        }
    }
    Ok(vertices)
}

/// The element of the question at a place, from 0 on; `Refused` where there is none.
pub fn element(document: &Document, at: usize) -> Result<&Sum, RowFail> {
    match document.asks.as_slice().get(at) {
        Some(ask) => match &ask.kind {
            AskKind::Query(sum) => Ok(sum),
            AskKind::Same(_, _) => Err(RowFail::Refused),
        },
        None => Err(RowFail::Refused),
    }
}

/// The tree of the first term of that element; `Refused` where there is none.
pub fn tree(document: &Document, at: usize) -> Result<&Tree, RowFail> {
    match element(document, at)?.terms() {
        [first, ..] => Ok(&first.tree),
        [] => Err(RowFail::Refused),
    }
}

/// The shuffle form of a tree; `Refused` where its leaves aren't 1 to some number.
pub fn form(alloc: Global, table: &GenTable, tree: &Tree) -> Result<STree, RowFail>
    ensures shuffle { IfOk result (λ form. (n : ℕ) × IsShuffleTree (inputs_of (generators_of table.now)) n form) }
{
    match arity_of(tree, table) {
        Some(_) => {
            let (_, form) = to_shuffle(alloc, table, tree)?;
            Ok(form)
        }
        None => Err(RowFail::Refused),
    }
}

/// The shuffle form of the tree of the question at a place.
pub fn shuffle_tree(alloc: Global, document: &Document, at: usize) -> Result<STree, RowFail>
    ensures shuffle { IfOk result (λ form. (n : ℕ) × IsShuffleTree (inputs_of (generators_of document.now.gens)) n form) }
{
    form(alloc, &document.gens, tree(document, at)?)
}
