//! Shuffle trees: frames and insertion, four orders, and the list of all of them. Definitions and laws, without code.
#![tactic(auto)]

ghost use Rattle.shuffle_insertions.specs.Laws.{FirstIsLeast, FourOrders, FramesAreSlots, InsertionKeeps, ShuffleTreesAreLabelled, TreesListed};
ghost use Rattle.shuffle_insertions.specs.BlockLaws.{BlocksCompare};

/// Law: where inputs stand in ascending order, the first leaf is the least.
pub fn first_is_least()
    ensures law { FirstIsLeast }
{}

/// Law: a shuffle tree over labels is a labelled tree whose inputs rise.
pub fn shuffle_trees_are_labelled()
    ensures law { ShuffleTreesAreLabelled }
{}

/// Law: insertion keeps shuffle trees.
pub fn insertion_keeps_shuffle_trees()
    ensures law { InsertionKeeps }
{}

/// Law: frames with a hole and a list do what contexts with a function do.
pub fn frames_are_slots()
    ensures law { FramesAreSlots }
{}

/// Law: the four comparisons are orders of shuffle trees, kept by insertion.
pub fn four_orders()
    ensures law { FourOrders }
{}

/// Law: all shuffle trees over labels, each once, and their number.
pub fn trees_listed()
    ensures law { TreesListed }
{}

/// Law: blocks of alike keys compare, number by number, as the keys do by each of the four orders.
pub fn blocks_compare()
    ensures law { BlocksCompare }
{}
