ghost use Rattle.shuffle_places.specs.Connected.{IsConnected};

use crate::number;
use labelled_trees::Tree;
use shuffle_trees::STree;
use sqlite_items::Items;
use std::alloc::{AllocError, Global};
use tree_divisors::{Place, frame_at};

// 0(0(..0(1,2)..,n - 1),n).
fn comb(alloc: Global, leaves: u8) -> Result<Tree, AllocError> {
    let mut tree = Tree::Leaf(1);
    for below in 1..leaves {
        let mut inputs = Items::new(alloc);
        inputs.push(tree)?;
        inputs.push(Tree::Leaf(below + 1))?;
        tree = Tree::Node(0, inputs);
    }
    Ok(tree)
}

// Makes the frame so many times: how many inputs they have together.
fn count_inputs(alloc: Global, host: &STree, place: &Place, times: u32) -> Result<usize, AllocError>
    requires place { IsConnected host.now place.now }
{
    let mut count: usize = 0;
    for _ in 0..times {
        count = count.saturating_add(frame_at(alloc, host, place)?.inputs().len());
    }
    Ok(count)
}

// How many inputs the frames have; 0 where there is no such place.
fn count_at(alloc: Global, leaves: u8, times: u32) -> Result<usize, AllocError> {
    let Some(host) = STree::of(comb(alloc, leaves)?) else {
        return Ok(0);
    };
    match Place::of(alloc, &host, &[3, 4, 5])? {
        Some(place) => count_inputs(alloc, &host, &place, times),
        None => Ok(0),
    }
}

/// The words are a number of leaves, and how many hundred times the frame is made of the place with the vertices 3, 4 and 5 in the
/// tree that leans to the left: how many inputs these frames have together.
pub fn counted(alloc: Global, words: &[String]) -> Result<String, AllocError> {
    let times = u32::from(number(words.get(1))) * 100;
    let count = count_at(alloc, number(words.get(0)), times)?;
    format!(in alloc; "{count} inputs of frames")
}
