ghost use Rattle.std.specs.Prelude.{◌≡◌, ◌↔◌, ◌≤◌, ◌<◌, ◌+◌, ℕ, true, false, length, IfOk, IfSome, IfNone, IsTrue, slice_index};
ghost use Rattle.labelled_trees.specs.Meaning.{tree_of};
ghost use Rattle.labelled_trees.specs.Trees.{row};
ghost use Rattle.labelled_trees.specs.Leaves.{occurs, occurs_row};
ghost use Rattle.shuffle_insertions.specs.Frames.{IsFrame};
ghost use Rattle.shuffle_insertions.specs.ShuffleTrees.{IsRisingRow};
ghost use Rattle.shuffle_trees.specs.ValidFrames.{IsValidFrame, frame_from};
ghost use Rattle.shuffle_trees.specs.Checks.{AddedInputs, AreTwice};

use crate::checks::{count_once, least_leaf};
use crate::{STree, Shape};
use sqlite_items::Items;
use std::alloc::{AllocError, Global};
use std::marker::Model;

/// A frame: a context with one hole, which is its leaf 0, and the inputs that stand for the leaves 1, 2 and so on
/// of a tree that is inserted. The least leaves of the inputs rise, and a shuffle tree of that many leaves
/// gives a shuffle tree.
#[derive(Drop)]
pub struct Frame {
    context: Shape,
    inputs: Items<STree>,
}

impl Model for Frame {
    ghost use Rattle.shuffle_insertions.specs.Frames as spec;
    ghost use Rattle.shuffle_trees.specs.Codes.{frame_code};
    ghost use Rattle.labelled_trees.specs.Meaning.{tree_of};

    ghost Value = { spec.Frame };

    ghost coded = { frame_code };

    ghost use Rattle.shuffle_trees.specs.ValidFrames.{IsValidFrame, frame_from};

    ghost view = { λ frame. frame_from (tree_of frame.context) frame.inputs };

    ghost invariant = { λ frame. IsValidFrame (frame_from (tree_of frame.context) frame.inputs) };
}

// Whether the least leaves of the inputs rise.
fn inputs_rise(inputs: &[STree]) -> bool
    ensures { IsTrue result ↔ IsRisingRow (row inputs.now) }
{
    let mut floor = 0;
    for input in inputs {
        let least = input.least();
        if u16::from(least) < floor {
            return false;
        }
        floor = u16::from(least) + 1;
    }
    true
}

// Counts the leaves of the inputs, by their numbers. False where a number then stands twice; the counts say nothing then.
fn count_inputs(times: &mut [u8; 256], inputs: &[STree]) -> bool
    requires { (k : ℕ) → slice_index times.old k ≤ 1 }
    ensures added { result ≡ true → AddedInputs times.old times.new inputs.now }
    ensures twice { result ≡ false → AreTwice times.old inputs.now }
{
    for input in inputs {
        if !count_once(times, input.shape()) {
            return false;
        }
    }
    true
}

// Whether a context and inputs make a frame.
fn is_frame(context: &Shape, inputs: &[STree]) -> bool
    ensures { IsTrue result ↔ IsValidFrame (frame_from (tree_of context.now) inputs.now) }
{
    let [first, ..] = inputs else {
        return false;
    };
    if !inputs_rise(inputs) {
        return false;
    }
    let mut times = [0; 256];
    if !count_once(&mut times, context) {
        return false;
    }
    if times[0] != 1 {
        return false;
    }
    if !count_inputs(&mut times, inputs) {
        return false;
    }
    least_leaf(context, first.least()).is_some()
}

impl Frame {
    /// The frame of a context, whose leaf 0 is the hole, and inputs. It takes no memory.
    /// `None` exactly where one of these holds: there is no input; the least leaves of the inputs don't rise;
    /// leaf 0 doesn't stand in the context exactly once; a number stands twice in the context and the inputs together;
    /// a vertex of the context has fewer than two inputs; the inputs of a vertex of the context don't stand in
    /// ascending order of least leaves, where the hole counts with the least leaf of the first input.
    pub fn of(context: Shape, inputs: Items<STree>) -> Option<Frame>
        ensures frame { IfSome result (λ frame. frame ≡ frame_from (tree_of context) inputs) }
        ensures none { IfNone result (IsValidFrame (frame_from (tree_of context) inputs) → ⊥) }
    {
        if is_frame(&context, inputs.as_slice()) {
            Some(Frame { context, inputs })
        } else {
            None
        }
    }

    /// The frame of a context and inputs that make one. It takes no memory and no time.
    pub fn from_valid(context: Shape, inputs: Items<STree>) -> Frame
        requires { IsValidFrame (frame_from (tree_of context) inputs) }
        ensures { result ≡ frame_from (tree_of context) inputs }
    {
        Frame { context, inputs }
    }

    /// The context, whose leaf 0 is the hole. It takes no memory.
    pub fn context(&self) -> &Shape
        ensures context { tree_of result.now ≡ self.now.hole }
        ensures valid { IsValidFrame self.now }
    {
        &self.context
    }

    /// The inputs, whose least leaves rise. It takes no memory.
    pub fn inputs(&self) -> &[STree]
        ensures inputs { result.now ≡ self.now.inputs }
        ensures frame { IsFrame (length result.now) self.now }
    {
        self.inputs.as_slice()
    }
}
