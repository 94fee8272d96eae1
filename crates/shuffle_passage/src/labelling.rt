ghost use Rattle.std.specs.Prelude.{IfOk};
ghost use Rattle.shuffle_passage.specs.Passage.{AreLabelsOf};

use crate::words::words_of;
use shuffle_trees::Labels;
use std::alloc::{AllocError, Global};
use symmetric_trees::GenTable;

/// The labels of a table: one for each generator and each permutation of 1 to its arity that rises within each symmetric
/// and each skew part. They are numbered from 0: the generators in the order of the table, and of each its words in
/// lexicographic order. `AllocError` comes for want of memory alone.
pub fn labels_of(alloc: Global, table: &GenTable) -> Result<Labels, AllocError>
    ensures labels { IfOk result (AreLabelsOf table.now) }
{
    let mut kinds = Vec::new(alloc);
    let words = words_of(alloc, table)?;
    for index in 0..table.len() {
        let own = &words.as_slice()[index as usize];
        kinds.push((table.get(index).arity, own.end - own.first))?;
    }
    Labels::of(alloc, kinds.as_slice())
}
