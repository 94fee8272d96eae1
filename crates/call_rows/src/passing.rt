ghost use Rattle.std.specs.Prelude.{IfOk};
ghost use Rattle.labelled_trees.specs.Labelled.{Fits};
ghost use Rattle.shuffle_transfer.specs.Labels.{inputs_of};
ghost use Rattle.symmetric_trees.specs.Generators.{generators_of};

use crate::checks::all_belong;
use crate::symmetric::sign_text;
use presentation_text::{Document, write_number};
use rows::{
    RowFail, belongs, element, end_line, end_terms, end_tree, shuffle_of, shuffles_of, tree_of,
    write_before, write_line, write_next, write_plain, write_text,
};
use shuffle_passage::{
    frame_to_context, labels_of, relabelled, relabellings, to_shuffle, to_symmetric,
};
use shuffle_trees::{Frame, Labels, STree};
use sqlite_items::Items;
use std::alloc::{AllocError, Global};
use symmetric_sums::Sum;
use symmetric_trees::{GenTable, Sign, Tree, arity_of};

// Writes how many labels there are, and the number of inputs of each of the first nine.
fn write_labels(labels: &Labels, out: &mut Vec<u8>) -> Result<(), RowFail> {
    write_number(u64::from(labels.len()), out)?;
    for label in 0..labels.len().min(9) {
        write_next(u64::from(labels.arity(label)), out)?;
    }
    Ok(end_line("", out)?)
}

// The same of the labels of the table.
fn labels(alloc: Global, table: &GenTable, out: &mut Vec<u8>) -> Result<(), RowFail> {
    write_labels(&labels_of(alloc, table)?, out)
}

// The sign of a tree, and its shuffle form.
fn form_of(alloc: Global, table: &GenTable, tree: &Tree) -> Result<(Sign, STree), RowFail>
    ensures belongs { IfOk result (λ found. Fits (inputs_of (generators_of table.now)) found.1) }
{
    match arity_of(tree, table) {
        Some(_) => Ok(to_shuffle(alloc, table, tree)?),
        None => Err(RowFail::Refused),
    }
}

// Ends a line by what a shuffle tree is spelled back to.
fn end_back(
    alloc: Global,
    table: &GenTable,
    tree: &STree,
    out: &mut Vec<u8>,
) -> Result<(), AllocError>
    requires belongs { Fits (inputs_of (generators_of table.now)) tree.now }
{
    end_tree(&to_symmetric(alloc, table, tree)?, out)
}

// Writes of a tree its sign, its shuffle form, and what that is spelled back to.
fn passed(
    alloc: Global,
    table: &GenTable,
    word: &String,
    out: &mut Vec<u8>,
) -> Result<(), RowFail> {
    let (sign, form) = form_of(alloc, table, &tree_of(alloc, word)?)?;
    write_before(word.as_str(), out)?;
    write_text(sign_text(sign), out)?;
    write_plain(form.shape(), out)?;
    out.push(b' ')?;
    Ok(end_back(alloc, table, &form, out)?)
}

fn all_passed(
    alloc: Global,
    table: &GenTable,
    words: &[String],
    out: &mut Vec<u8>,
) -> Result<(), RowFail> {
    for word in words {
        passed(alloc, table, word, out)?;
    }
    Ok(())
}

// The shuffle tree that a word spells, over the labels of the table.
fn own_tree(alloc: Global, table: &GenTable, word: &String) -> Result<STree, RowFail>
    ensures belongs { IfOk result (λ tree. Fits (inputs_of (generators_of table.now)) tree) }
{
    let tree = shuffle_of(alloc, word)?;
    if belongs(tree.shape(), &labels_of(alloc, table)?) {
        Ok(tree)
    } else {
        Err(RowFail::Refused)
    }
}

// Writes what a shuffle tree over the labels of the table is spelled back to.
fn spelled(
    alloc: Global,
    table: &GenTable,
    word: &String,
    out: &mut Vec<u8>,
) -> Result<(), RowFail> {
    let tree = own_tree(alloc, table, word)?;
    write_before(word.as_str(), out)?;
    Ok(end_back(alloc, table, &tree, out)?)
}

fn all_spelled(
    alloc: Global,
    table: &GenTable,
    words: &[String],
    out: &mut Vec<u8>,
) -> Result<(), RowFail> {
    for word in words {
        spelled(alloc, table, word, out)?;
    }
    Ok(())
}

// The frame of a context and inputs.
fn frame_of(alloc: Global, words: &[String]) -> Result<Frame, RowFail> {
    let [context, inputs @ ..] = words else {
        return Err(RowFail::Refused);
    };
    let inputs = shuffles_of(alloc, inputs)?;
    match Frame::of(tree_of(alloc, context)?, inputs) {
        Some(frame) => Ok(frame),
        None => Err(RowFail::Refused),
    }
}

// Writes a context and inputs.
fn write_context(context: &Tree, inputs: &[Tree], out: &mut Vec<u8>) -> Result<(), RowFail> {
    write_plain(context, out)?;
    for input in inputs {
        out.push(b' ')?;
        write_plain(input, out)?;
    }
    Ok(end_line("", out)?)
}

// The context and the inputs of a frame over the labels of the table, as they are spelled back.
fn context_of(
    alloc: Global,
    table: &GenTable,
    frame: &Frame,
) -> Result<(Tree, Items<Tree>), RowFail> {
    let labels = labels_of(alloc, table)?;
    if !belongs(frame.context(), &labels) || !all_belong(frame.inputs(), &labels) {
        return Err(RowFail::Refused);
    }
    Ok(frame_to_context(alloc, table, frame)?)
}

// Writes the context and the inputs of a frame as they are spelled back.
fn framed(
    alloc: Global,
    table: &GenTable,
    words: &[String],
    out: &mut Vec<u8>,
) -> Result<(), RowFail> {
    let (context, inputs) = context_of(alloc, table, &frame_of(alloc, words)?)?;
    write_context(&context, inputs.as_slice(), out)
}

// Writes each permutation and the terms of the element that it relabels.
fn all_relabelled(alloc: Global, document: &Document, out: &mut Vec<u8>) -> Result<(), RowFail> {
    let rel = element(document, 0)?;
    if !rel.fits(document.field, &document.gens) {
        return Err(RowFail::Refused);
    }
    let found = relabellings(alloc, document.field, &document.gens, rel)?;
    for relabelled in found.as_slice() {
        write_line(relabelled.permutation.as_slice(), out)?;
        end_terms(relabelled.sum.terms(), out)?;
    }
    Ok(())
}

// The element of arity 2 with its leaves in each other's place.
fn turn_round(alloc: Global, document: &Document, rel: &Sum) -> Result<Sum, RowFail> {
    if !rel.fits(document.field, &document.gens) {
        return Err(RowFail::Refused);
    }
    match rel.arity() {
        Some(2) => Ok(relabelled(alloc, document.field, &document.gens, rel, &[2, 1])?),
        _ => Err(RowFail::Refused),
    }
}

fn turned(alloc: Global, document: &Document, out: &mut Vec<u8>) -> Result<(), RowFail> {
    let turned = turn_round(alloc, document, element(document, 0)?)?;
    Ok(end_terms(turned.terms(), out)?)
}

/// Answers the calls of `shuffle_passage`. False where it has none of this name.
pub fn answer(
    alloc: Global,
    name: &str,
    words: &[String],
    document: &Document,
    out: &mut Vec<u8>,
) -> Result<bool, RowFail> {
    let table = &document.gens;
    match name {
        "labels_of" => labels(alloc, table, out)?,
        "to_shuffle" => all_passed(alloc, table, words, out)?,
        "to_symmetric" => all_spelled(alloc, table, words, out)?,
        "frame_to_context" => framed(alloc, table, words, out)?,
        "relabellings" => all_relabelled(alloc, document, out)?,
        "relabelled" => turned(alloc, document, out)?,
        _ => return Ok(false),
    }
    Ok(true)
}
