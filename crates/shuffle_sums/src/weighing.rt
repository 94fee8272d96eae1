ghost use Rattle.std.specs.Prelude.{◌≡◌, ◌++◌, IfOk, OnOk, length, replicate};
ghost use Rattle.path_orders.specs.SeenKeys.{weights_of};
ghost use Rattle.shuffle_sums.specs.LabelArities.{AreLabelWeights};

use crate::counting::count_labels;
use path_orders::WeightPath;
use sqlite_items::Items;
use std::alloc::{AllocError, Global};
use symmetric_trees::GenTable;

// Puts so many labels of one weight behind the others.
fn push_copies(weights: &mut Items<u32>, weight: u32, count: u16) -> Result<(), AllocError>
    ensures { OnOk result (weights.new ≡ weights.old ++ replicate count weight) }
{
    for _ in 0..count {
        weights.push(weight)?;
    }
    Ok(())
}

/// The order by weight in which each label of the table has the weight of its generator. There are as many weights, of any
/// size, as generators. `AllocError` comes for want of memory alone.
pub fn weight_order(
    alloc: Global,
    table: &GenTable,
    weights: &[u32],
) -> Result<WeightPath, AllocError>
    requires count { length weights.now ≡ length table.now }
    ensures weights { IfOk result (λ order. AreLabelWeights table.now weights.now (weights_of order)) }
{
    let mut label_weights = Items::new(alloc);
    for index in 0..table.len() {
        let count = count_labels(table.get(index));
        push_copies(&mut label_weights, weights[index as usize], count)?;
    }
    Ok(WeightPath::new(label_weights))
}
