use prime_field::Field;
use sqlite_items::Items;
use symmetric_sums::Sum;
use symmetric_trees::GenTable;

/// A presentation as it is written: a field, an order, generators and relations, with what is asked of it.
#[derive(Drop)]
pub struct Document {
    /// 1 or 2.
    pub version: u8,
    pub field: Field,
    pub order: OrderName,
    /// The weight of each generator, which no other order than `WeightPath` reads.
    pub weights: Items<u32>,
    pub gens: GenTable,
    pub rels: Items<Sum>,
    /// The questions, in their order.
    pub asks: Items<Ask>,
    /// Where a certificate follows, its beginning.
    pub tail: Option<Tail>,
}

/// The name of an order of trees.
#[derive(Clone, Copy, Debug, PartialEq, Eq)]
pub enum OrderName {
    Path,
    PathShort,
    LeafPath,
    WeightPath,
}

/// A question and the number of its line.
#[derive(Drop)]
pub struct Ask {
    pub line: u32,
    pub kind: AskKind,
}

/// What is asked.
#[derive(Drop)]
pub enum AskKind {
    /// The normal form of a sum.
    Query(Sum),
    /// Whether two sums are the same modulo the relations.
    Same(Sum, Sum),
}

/// The first line of a certificate, and the place of its first byte.
#[derive(Clone, Copy, Debug, PartialEq, Eq)]
pub struct Tail {
    pub line: u32,
    pub from: usize,
}
