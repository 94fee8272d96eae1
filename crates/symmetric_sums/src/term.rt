use symmetric_trees::Tree;

/// A term of a sum: a residue and the tree beside it.
#[derive(Drop)]
pub struct Term {
    pub coef: u32,
    pub tree: Tree,
}
