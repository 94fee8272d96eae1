use tree_divisors::Place;
use tree_store::TreeId;

/// A step of a reduction: its residue, the position of its element in the basis, the tree from which the multiple of the
/// element's insertion was subtracted, and the place of the insertion in that tree.
#[derive(Debug, Drop)]
pub struct Cofactor {
    pub coef: u32,
    pub element: u32,
    pub host: TreeId,
    pub place: Place,
}
