ghost use Rattle.std.specs.Prelude.{ℕ, IfOk};
ghost use Rattle.labelled_trees.specs.Trees.{IsNode};
ghost use Rattle.shuffle_insertions.specs.ShuffleTrees.{IsShuffle};
ghost use Rattle.shuffle_places.specs.Connected.{IsConnected};

use labelled_trees::Tree;
use presentation_text::Document;
use rows::{RowFail, end_line, end_tree, shuffle_tree, vertices_of, write_line};
use shuffle_trees::{Frame, STree};
use std::alloc::{AllocError, Global};
use tree_divisors::{Place, first_place, frame_at, places_of, restrict};

// The first tree, if it has a vertex.
fn pattern(alloc: Global, document: &Document) -> Result<STree, RowFail>
    ensures leaves { IfOk result (λ made. (m : ℕ) × IsShuffle m made) }
    ensures vertex { IfOk result (λ made. IsNode made) }
{
    let tree = shuffle_tree(alloc, document, 0)?;
    if let Tree::Leaf(_) = tree.shape() {
        return Err(RowFail::Refused);
    }
    Ok(tree)
}

/// The places in the second tree whose divisor is the first tree, each in a line.
pub fn all(alloc: Global, document: &Document, out: &mut Vec<u8>) -> Result<(), RowFail> {
    let host = shuffle_tree(alloc, document, 1)?;
    let found = places_of(alloc, &pattern(alloc, document)?, &host)?;
    Ok(write_places(found.as_slice(), out)?)
}

// Writes each place in a line.
fn write_places(places: &[Place], out: &mut Vec<u8>) -> Result<(), AllocError> {
    for place in places {
        write_line(place.vertices(), out)?;
    }
    Ok(())
}

/// The first of them, or `none`.
pub fn first(alloc: Global, document: &Document, out: &mut Vec<u8>) -> Result<(), RowFail> {
    let host = shuffle_tree(alloc, document, 1)?;
    match first_place(alloc, &pattern(alloc, document)?, &host)? {
        Some(place) => Ok(write_line(place.vertices(), out)?),
        None => Ok(end_line("none", out)?),
    }
}

/// Of the place with the given vertices in the tree, each in a line: the divisor, the context and the inputs; `none` where it is none.
pub fn cut(
    alloc: Global,
    document: &Document,
    numbers: &[u32],
    out: &mut Vec<u8>,
) -> Result<(), RowFail> {
    let host = shuffle_tree(alloc, document, 0)?;
    let vertices = vertices_of(alloc, numbers)?;
    match Place::of(alloc, &host, vertices.as_slice())? {
        Some(place) => write_cut(alloc, &host, &place, out),
        None => Ok(end_line("none", out)?),
    }
}

// Writes in a line each the divisor at a place, and the context and the inputs around it.
fn write_cut(alloc: Global, host: &STree, place: &Place, out: &mut Vec<u8>) -> Result<(), RowFail>
    requires place { IsConnected host.now place.now }
{
    end_tree(restrict(alloc, host, place)?.shape(), out)?;
    write_frame(&frame_at(alloc, host, place)?, out)
}

// Writes the context and the inputs of a frame, each in a line.
fn write_frame(frame: &Frame, out: &mut Vec<u8>) -> Result<(), RowFail> {
    end_tree(frame.context(), out)?;
    for input in frame.inputs() {
        end_tree(input.shape(), out)?;
    }
    Ok(())
}
