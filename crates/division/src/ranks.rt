ghost use Rattle.std.specs.Prelude.{◌≤◌, ◌^◌, length, IfOk};
ghost use Rattle.std.specs.List.{range_with_len};
ghost use Rattle.std.specs.List.Sorted.{IsPermutation};
ghost use Rattle.division.specs.Ranks.{AreRanks};

use std::alloc::{AllocError, Global};

// The position of each place, where these are the places of the positions.
pub fn ranks_of(alloc: Global, order: &[usize], count: usize) -> Result<Vec<u32>, AllocError>
    requires each { IsPermutation (range_with_len 0 count) order.now }
    requires few { count ≤ 2 ^ 30 }
    ensures ranks { IfOk result (λ ranks. AreRanks order.now ranks.items count) }
{
    let mut ranks = vec![in alloc; 0u32; count]?;
    for position in 0..order.len() {
        ranks[order[position]] = position as u32;
    }
    Ok(ranks)
}
