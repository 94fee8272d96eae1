ghost use Rattle.std.specs.Prelude.{◌≡◌, ◌+◌, ◌<◌, ◌^◌, ◌∷◌, [], ℕ, IfOk};
ghost use Rattle.std.specs.List.{All, flat_map};
ghost use Rattle.normal_listing.specs.Parting.{with_last, BothBelow};

use crate::parts::Part;
use sqlite_items::Items;
use std::alloc::{AllocError, Global};

/// The ways to part a set with one more leaf, above the others, whose bit is `unit`: from those of the set without it,
/// which has the number `below`.
pub fn part_with_last(
    alloc: Global,
    before: &[Part],
    below: u16,
    unit: u16,
) -> Result<Items<Part>, AllocError>
    requires below { below < unit }
    requires unit { unit < 2 ^ 15 }
    requires parts { All (BothBelow unit) before.now }
    ensures parts { IfOk result (λ parts. parts ≡ with_last below unit before.now) }
{
    let mut parts = Items::new(alloc);
    parts.push(Part {
        own: below,
        others: unit,
    })?;
    for part in before {
        parts.push(Part {
            own: part.own + unit,
            others: part.others,
        })?;
        parts.push(Part {
            own: part.own,
            others: part.others + unit,
        })?;
    }
    Ok(parts)
}
