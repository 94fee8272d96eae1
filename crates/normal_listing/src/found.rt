ghost use Rattle.std.specs.Prelude.{◌≡◌, ◌++◌, OnOk};

use crate::SpellingWord;
use sqlite_items::Items;
use std::alloc::AllocError;
use tree_store::TreeId;

/// The vertices that were found: the ids of their inputs, those of one vertex behind those of the other, and their words.
#[derive(Drop)]
pub struct Found {
    pub inputs: Items<TreeId>,
    pub words: Items<SpellingWord>,
}

// Puts ids behind others.
pub fn push_all(out: &mut Items<TreeId>, ids: &[TreeId]) -> Result<(), AllocError>
    ensures pushed { OnOk result (out.new ≡ out.old ++ ids.now) }
{
    for id in ids {
        out.push(*id)?;
    }
    Ok(())
}
