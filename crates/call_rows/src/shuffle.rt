ghost use Rattle.std.specs.Prelude.{◌≤◌, IfOk};

use presentation_text::write_number;
use rows::{
    RowFail, end_found, end_line, end_number, end_tree, number_of, shuffle_of, shuffles_of,
    small_number_of, tree_of, write_before, write_line, write_next, write_plain, write_text,
};
use shuffle_trees::{
    Frame, Key, Labels, STree, all_trees, count_trees, insert, leaf_row, vertex_count, words,
};
use sqlite_items::Items;
use std::alloc::{AllocError, Global};

// Ends a line by the copy of a tree, the number of its vertices and its arity.
fn end_copy(alloc: Global, tree: &STree, out: &mut Vec<u8>) -> Result<(), AllocError> {
    write_plain(tree.copy(alloc)?.shape(), out)?;
    write_next(u64::from(vertex_count(tree)), out)?;
    out.push(b' ')?;
    end_found(tree.arity(), out)
}

// Ends a line by the shuffle tree that the word spells, or by `none`.
fn end_made(alloc: Global, word: &String, out: &mut Vec<u8>) -> Result<(), RowFail> {
    match STree::of(tree_of(alloc, word)?) {
        Some(tree) => Ok(end_copy(alloc, &tree, out)?),
        None => Ok(end_line("none", out)?),
    }
}

// Writes of each tree whether it is a shuffle tree.
fn made(alloc: Global, given: &[String], out: &mut Vec<u8>) -> Result<(), RowFail> {
    for word in given {
        write_before(word.as_str(), out)?;
        end_made(alloc, word, out)?;
    }
    Ok(())
}

// The frame of a context and inputs, if they make one.
fn frame_of(alloc: Global, given: &[String]) -> Result<Option<Frame>, RowFail> {
    let [context, inputs @ ..] = given else {
        return Err(RowFail::Refused);
    };
    let inputs = shuffles_of(alloc, inputs)?;
    Ok(Frame::of(tree_of(alloc, context)?, inputs))
}

/// Writes the context of a frame, and its inputs.
pub fn write_frame(frame: &Frame, out: &mut Vec<u8>) -> Result<(), RowFail> {
    write_plain(frame.context(), out)?;
    for input in frame.inputs() {
        out.push(b' ')?;
        write_plain(input.shape(), out)?;
    }
    Ok(end_line("", out)?)
}

// Writes the frame of a context and inputs, or `none`.
fn framed(alloc: Global, given: &[String], out: &mut Vec<u8>) -> Result<(), RowFail> {
    match frame_of(alloc, given)? {
        Some(frame) => write_frame(&frame, out),
        None => Ok(end_line("none", out)?),
    }
}

// Ends a line by the tree inserted into the frame, which has as many inputs as the tree has leaves.
fn end_inserted(
    alloc: Global,
    frame: &Frame,
    inner: &STree,
    out: &mut Vec<u8>,
) -> Result<(), RowFail> {
    let Some(arity) = inner.arity() else {
        return Err(RowFail::Refused);
    };
    if frame.inputs().len() != arity as usize {
        return Err(RowFail::Refused);
    }
    Ok(end_tree(insert(alloc, frame, inner)?.shape(), out)?)
}

// Inserts the first tree into the frame of the words behind it.
fn inserted(alloc: Global, given: &[String], out: &mut Vec<u8>) -> Result<(), RowFail> {
    let [inner, behind @ ..] = given else {
        return Err(RowFail::Refused);
    };
    let inner = shuffle_of(alloc, inner)?;
    match frame_of(alloc, behind)? {
        Some(frame) => end_inserted(alloc, &frame, &inner, out),
        None => Err(RowFail::Refused),
    }
}

// Puts a word of labels in brackets behind `out`.
fn write_letters(letters: &[u16], out: &mut Vec<u8>) -> Result<(), RowFail> {
    out.push(b'[')?;
    for (at, letter) in letters.iter().enumerate() {
        if at > 0 {
            out.push(b' ')?;
        }
        write_number(u64::from(*letter), out)?;
    }
    out.push(b']')?;
    Ok(())
}

// Ends a line by words.
fn end_words(words: &[Items<u16>], out: &mut Vec<u8>) -> Result<(), RowFail> {
    for word in words {
        write_letters(word.as_slice(), out)?;
    }
    Ok(end_line("", out)?)
}

// Writes the words of the leaves of each tree.
fn spelled(alloc: Global, given: &[String], out: &mut Vec<u8>) -> Result<(), RowFail> {
    for word in given {
        write_before(word.as_str(), out)?;
        end_words(words(alloc, &shuffle_of(alloc, word)?)?.as_slice(), out)?;
    }
    Ok(())
}

// Writes the leaf row of each tree.
fn rows(alloc: Global, given: &[String], out: &mut Vec<u8>) -> Result<(), RowFail> {
    for word in given {
        write_before(word.as_str(), out)?;
        write_line(leaf_row(alloc, &shuffle_of(alloc, word)?)?.as_slice(), out)?;
    }
    Ok(())
}

// The key of the tree that a word spells.
fn key_of(alloc: Global, word: &String) -> Result<Key, RowFail> {
    Ok(Key::of(alloc, &shuffle_of(alloc, word)?)?)
}

// Writes a key in three lines: its words, its leaf row, and the labels in preorder.
fn write_key(key: &Key, out: &mut Vec<u8>) -> Result<(), RowFail> {
    end_words(key.words(), out)?;
    write_line(key.row(), out)?;
    write_letters(key.vertices(), out)?;
    Ok(end_line("", out)?)
}

// Writes the key of each tree.
fn keys(alloc: Global, given: &[String], out: &mut Vec<u8>) -> Result<(), RowFail> {
    for word in given {
        write_key(&key_of(alloc, word)?, out)?;
    }
    Ok(())
}

// The arity of a label that a word says, from 2 to 6.
fn label_arity(word: &String) -> Result<u8, RowFail>
    ensures least { IfOk result (λ arity. 2 ≤ arity) }
    ensures most { IfOk result (λ arity. arity ≤ 6) }
{
    let arity = small_number_of(word)?;
    if arity < 2 || arity > 6 {
        return Err(RowFail::Refused);
    }
    Ok(arity)
}

// The number of labels that a word says, at most 255.
fn label_count(word: &String) -> Result<u16, RowFail>
    ensures most { IfOk result (λ count. count ≤ 255) }
{
    Ok(u16::from(small_number_of(word)?))
}

// The labels of two kinds: so many of one arity, and so many of another, which is none.
fn labels_of(alloc: Global, given: &[String]) -> Result<Labels, RowFail> {
    let [arity, count, other, more] = given else {
        return Err(RowFail::Refused);
    };
    let kinds = [
        (label_arity(arity)?, label_count(count)?),
        (label_arity(other)?, label_count(more)?),
    ];
    Ok(Labels::of(alloc, &kinds)?)
}

// Writes the number of inputs of each label.
fn label_arities(labels: &Labels, out: &mut Vec<u8>) -> Result<(), RowFail> {
    write_number(u64::from(labels.len()), out)?;
    for label in 0..labels.len() {
        write_next(u64::from(labels.arity(label)), out)?;
    }
    Ok(end_line("", out)?)
}

// Writes each tree in a line, or their number alone where they are more than 9.
fn write_trees(trees: &[STree], out: &mut Vec<u8>) -> Result<(), RowFail> {
    if trees.len() > 9 {
        return Ok(end_number(trees.len() as u64, out)?);
    }
    for tree in trees {
        end_tree(tree.shape(), out)?;
    }
    Ok(())
}

// All trees of an arity over labels.
fn trees_over(alloc: Global, arity: u8, kinds: &[String]) -> Result<Items<STree>, RowFail> {
    let labels = labels_of(alloc, kinds)?;
    Ok(all_trees(alloc, &labels, arity)?)
}

// Lists all trees of an arity over labels.
fn listed(alloc: Global, given: &[String], out: &mut Vec<u8>) -> Result<(), RowFail> {
    let [arity, kinds @ ..] = given else {
        return Err(RowFail::Refused);
    };
    let trees = trees_over(alloc, small_number_of(arity)?, kinds)?;
    write_trees(trees.as_slice(), out)
}

// Writes the numbers of trees over labels, each at most the cap, of the arities from 1 to `most`, which is at most 9.
fn write_counts(labels: &Labels, most: u8, cap: u64, out: &mut Vec<u8>) -> Result<(), RowFail> {
    for below in 0..most.min(9) {
        if below > 0 {
            out.push(b' ')?;
        }
        write_number(count_trees(labels, below + 1, cap), out)?;
    }
    Ok(end_line("", out)?)
}

// Writes the numbers of trees over labels: the greatest arity and the cap stand before the labels.
fn counted(alloc: Global, given: &[String], out: &mut Vec<u8>) -> Result<(), RowFail> {
    let [most, cap, kinds @ ..] = given else {
        return Err(RowFail::Refused);
    };
    let most = small_number_of(most)?;
    let cap = u64::from(number_of(cap)?);
    let labels = labels_of(alloc, kinds)?;
    write_counts(&labels, most, cap, out)
}

/// Answers the calls of `shuffle_trees`. False where it has none of this name.
pub fn answer(
    alloc: Global,
    name: &str,
    given: &[String],
    out: &mut Vec<u8>,
) -> Result<bool, RowFail> {
    match name {
        "STree::of" => made(alloc, given, out)?,
        "Frame::of" => framed(alloc, given, out)?,
        "insert" => inserted(alloc, given, out)?,
        "words" => spelled(alloc, given, out)?,
        "leaf_row" => rows(alloc, given, out)?,
        "Key::of" => keys(alloc, given, out)?,
        "Labels::of" => label_arities(&labels_of(alloc, given)?, out)?,
        "all_trees" => listed(alloc, given, out)?,
        "count_trees" => counted(alloc, given, out)?,
        _ => return Ok(false),
    }
    Ok(true)
}
