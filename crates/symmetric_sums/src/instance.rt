use sqlite_items::Items;
use symmetric_trees::Tree;

/// What an instance is made of: the number of a rule, and where that rule is put.
#[derive(Drop)]
pub struct Instance {
    /// A residue, by which the rule's element is multiplied.
    pub coef: u32,
    /// A tree in which leaf 0 marks the place of the rule's trees.
    pub context: Tree,
    pub rule: Rule,
    /// Input `i`, counted from 1, takes the place of leaf `i` of the rule's trees.
    pub inputs: Items<Tree>,
}

/// A rule by its number.
#[derive(Clone, Copy, Debug, PartialEq, Eq)]
pub enum Rule {
    /// A relation, counted from 1.
    Rel(u32),
    /// The symmetry rule that exchanges the inputs `at` and `at + 1`, counted from 1, of a generator.
    Swap { generator: u16, at: u8 },
    /// A step, counted from 1.
    Step(u32),
}
