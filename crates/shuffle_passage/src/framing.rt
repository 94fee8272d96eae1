ghost use Rattle.std.specs.Prelude.{◌≡◌, ℕ, IfOk, map};
ghost use Rattle.std.specs.List.{All};
ghost use Rattle.labelled_trees.specs.Insertions.{IsContext};
ghost use Rattle.labelled_trees.specs.Labelled.{Fits};
ghost use Rattle.labelled_trees.specs.Meaning.{tree_of};
ghost use Rattle.operad_ideals.specs.Ideals.{placed};
ghost use Rattle.shuffle_insertions.specs.Frames.{insert};
ghost use Rattle.shuffle_transfer.specs.Labels.{inputs_of, symmetric_tree};
ghost use Rattle.shuffle_passage.specs.WordTables.{words_from};
ghost use Rattle.symmetric_trees.specs.Generators.{generators_of};

use crate::spelling_back::spell_back;
use crate::words::{Words, words_of};
use shuffle_trees::{Frame, STree};
use sqlite_items::Items;
use std::alloc::{AllocError, Global};
use symmetric_trees::{GenTable, Tree};

// The trees of shuffle trees over the labels of the table.
fn spell_all(
    alloc: Global,
    table: &GenTable,
    words: &[Words],
    trees: &[STree],
) -> Result<Items<Tree>, AllocError>
    requires words { words.now ≡ words_from 0 table.now }
    requires fit { All (Fits (inputs_of (generators_of table.now))) trees.now }
    ensures { IfOk result (λ made. map tree_of made ≡ map (symmetric_tree (generators_of table.now)) trees.now) }
{
    let mut made = Items::from_vec(Vec::with_capacity(alloc, trees.len())?);
    for tree in trees {
        made.push(spell_back(alloc, table, words, tree.shape())?)?;
    }
    Ok(made)
}

/// The context and the inputs of a frame, each spelled back as by `to_symmetric`. Filled with `to_symmetric` of a tree they
/// give `to_symmetric` of the insertion of the tree into the frame. Each vertex of the frame has as many inputs as its label.
/// `AllocError` comes for want of memory alone.
pub fn frame_to_context(
    alloc: Global,
    table: &GenTable,
    frame: &Frame,
) -> Result<(Tree, Items<Tree>), AllocError>
    requires context { Fits (inputs_of (generators_of table.now)) frame.now.hole }
    requires inputs { All (Fits (inputs_of (generators_of table.now))) frame.now.inputs }
    ensures context { IfOk result (λ found. tree_of found.0 ≡ symmetric_tree (generators_of table.now) frame.now.hole) }
    ensures inputs { IfOk result (λ found. map tree_of found.1 ≡ map (symmetric_tree (generators_of table.now)) frame.now.inputs) }
    ensures hole { IfOk result (λ found. IsContext (tree_of found.0)) }
    ensures filled { IfOk result (λ found. (x : _) → Fits (inputs_of (generators_of table.now)) x
        → placed (tree_of found.0) (map tree_of found.1) (symmetric_tree (generators_of table.now) x) ≡ symmetric_tree (generators_of table.now) (insert frame.now x)) }
{
    let words = words_of(alloc, table)?;
    let context = spell_back(alloc, table, words.as_slice(), frame.context())?;
    let inputs = spell_all(alloc, table, words.as_slice(), frame.inputs())?;
    Ok((context, inputs))
}
