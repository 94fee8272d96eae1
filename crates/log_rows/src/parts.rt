ghost use Rattle.std.specs.Prelude.{◌<◌, ◌^◌, IfOk};
ghost use Rattle.std.specs.List.{All};
ghost use Rattle.normal_listing.specs.Parting.{BothBelow};

use normal_listing::{Part, part_with_last};
use presentation_text::write_number;
use rows::{RowFail, end_line, write_next};
use std::alloc::Global;

// The part with these numbers, which are below the unit.
fn part_below(unit: u16, own: u32, others: u32) -> Result<Part, RowFail>
    ensures below { IfOk result (BothBelow unit) }
{
    let limit = u32::from(unit);
    if own >= limit || others >= limit {
        return Err(RowFail::Refused);
    }
    Ok(Part {
        own: own as u16,
        others: others as u16,
    })
}

// The parts with these numbers, two for each.
fn parts_below(alloc: Global, unit: u16, numbers: &[u32]) -> Result<Vec<Part>, RowFail>
    ensures below { IfOk result (λ parts. All (BothBelow unit) parts.items) }
{
    if numbers.len() % 2 == 1 {
        return Err(RowFail::Refused);
    }
    let mut parts = Vec::new(alloc);
    for at in 0..numbers.len() / 2 {
        let part = part_below(unit, numbers[2 * at], numbers[2 * at + 1])?;
        parts.push(part)?;
    }
    Ok(parts)
}

// Writes each part in a line.
fn write_parts(parts: &[Part], out: &mut Vec<u8>) -> Result<(), RowFail> {
    for part in parts {
        write_number(u64::from(part.own), out)?;
        write_next(u64::from(part.others), out)?;
        end_line("", out)?;
    }
    Ok(())
}

// Writes the ways to part a set with this leaf behind those of the set without it.
fn write_with_last(
    alloc: Global,
    before: &[Part],
    below: u16,
    unit: u16,
    out: &mut Vec<u8>,
) -> Result<(), RowFail>
    requires below { below < unit }
    requires small { unit < 2 ^ 15 }
    requires before { All (BothBelow unit) before.now }
{
    write_parts(part_with_last(alloc, before, below, unit)?.as_slice(), out)
}

/// The ways to part a set with one more leaf, each in a line. The numbers are that of the set without it, the leaf's bit, and
/// two for each way to part that set.
pub fn part(alloc: Global, numbers: &[u32], out: &mut Vec<u8>) -> Result<(), RowFail> {
    let [below, unit, before @ ..] = numbers else {
        return Err(RowFail::Refused);
    };
    if *below >= *unit || *unit >= 32768 {
        return Err(RowFail::Refused);
    }
    let unit = *unit as u16;
    let before = parts_below(alloc, unit, before)?;
    write_with_last(alloc, &before, *below as u16, unit, out)
}
