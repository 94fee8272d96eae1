use crate::document::{Ask, OrderName};
use prime_field::Field;
use sqlite_items::Items;
use std::alloc::Global;
use symmetric_sums::Sum;
use symmetric_trees::GenTable;

// What the lines of a presentation say so far.
#[derive(Drop)]
pub struct Draft {
    pub version: u8,
    pub field: Option<Field>,
    pub order: Option<OrderName>,
    pub gens: GenTable,
    /// The weight of each generator that has a line for it.
    pub weights: Items<Option<u32>>,
    pub rels: Items<Sum>,
    pub asks: Items<Ask>,
    /// The section of the last line: 1 for the header, then 2 for the field, 3 for the order, 4 for generators and weights,
    /// 5 for relations, and 6 for questions.
    pub section: u8,
}

impl Draft {
    ghost use Rattle.std.specs.Prelude.{◌≡◌};
    ghost use Rattle.presentation_text.specs.DraftReadings.{IsSoundDraft, contents_of};
    ghost use Rattle.presentation_text.specs.LineReadings.{contents_by_header};

    // What a header of this version says.
    pub fn new(alloc: Global, version: u8) -> Draft
        ensures contents { contents_of result ≡ contents_by_header version }
        ensures sound { IsSoundDraft result }
    {
        Draft {
            version,
            field: None,
            order: None,
            gens: GenTable::new(alloc),
            weights: Items::new(alloc),
            rels: Items::new(alloc),
            asks: Items::new(alloc),
            section: 1,
        }
    }
}
