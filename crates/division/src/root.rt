/// The root of a tree: its label, none for a leaf, and how many leaves the tree has.
#[derive(Clone, Copy, Debug)]
pub struct Root {
    pub label: Option<u16>,
    pub arity: u8,
}
