use sqlite_items::Items;
use symmetric_sums::{Instance, Sum};

/// A block: the wanted element, and steps that lead to it.
#[derive(Drop)]
pub struct Block {
    pub want: Sum,
    pub steps: Items<Step>,
}

/// A step: an element, and the uses whose sum it is. A use is an instance of a relation or of an earlier step.
#[derive(Drop)]
pub struct Step {
    pub element: Sum,
    pub uses: Items<Instance>,
}
