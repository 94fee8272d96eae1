ghost use Rattle.std.specs.Prelude.{◌≡◌, ◌<◌, ◌≤◌, length};
ghost use Rattle.shuffle_sums.specs.Settings.{compares, field_of, labels_of};
ghost use Rattle.shuffle_sums.specs.Sums.{FallsBy};

use crate::sums::{spelled_sum, write_sum};
use path_orders::TreeOrder;
use rows::{RowFail, end_line, number_of};
use shuffle_sums::{SSum, SSumFail, Setting, Shelf};
use std::alloc::Global;

/// The place of the word `+`; behind the last word where there is none.
pub fn plus_of(words: &[String]) -> usize
    ensures within { result ≤ length words.now }
{
    for at in 0..words.len() {
        if words[at].as_str() == "+" {
            return at;
        }
    }
    words.len()
}

// Adds the other sum, so many times, and writes the fault, if there is one, and the sum.
fn write_added<O: TreeOrder>(
    alloc: Global,
    setting: &Setting<O>,
    shelf: &Shelf,
    sum: &mut SSum<O>,
    coef: u32,
    other: &SSum<O>,
    out: &mut Vec<u8>,
) -> Result<(), RowFail>
    requires residue { coef < field_of setting.now }
    requires labels { shelf.now.labels ≡ labels_of setting.now }
    requires own { FallsBy (compares O.weights O.by_keys setting.now) (field_of setting.now) shelf.now sum.old }
    requires other { FallsBy (compares O.weights O.by_keys setting.now) (field_of setting.now) shelf.now other.now }
{
    match sum.add_scaled(alloc, setting, shelf, coef, other) {
        Ok(()) => {}
        Err(SSumFail::ArityDiffers) => end_line("ArityDiffers", out)?,
        Err(SSumFail::NoMemory) => return Err(RowFail::NoMemory),
    }
    write_sum(alloc, shelf, sum, out)
}

// Adds the second sum, so many times, to the first one.
fn write_both<O: TreeOrder>(
    alloc: Global,
    setting: &Setting<O>,
    shelf: &mut Shelf,
    ones: &[String],
    factor: u32,
    others: &[String],
    out: &mut Vec<u8>,
) -> Result<(), RowFail>
    requires own { shelf.old.labels ≡ labels_of setting.now }
{
    let mut sum = spelled_sum(alloc, setting, shelf, ones)?;
    let other = spelled_sum(alloc, setting, shelf, others)?;
    let coef = setting.field().of_number(u64::from(factor));
    write_added(alloc, setting, shelf, &mut sum, coef, &other, out)
}

/// Adds the terms behind `+` and a factor, that many times, to those before it: what the sum is then, term by term, behind the
/// fault if there is one.
pub fn added<O: TreeOrder>(
    alloc: Global,
    setting: &Setting<O>,
    shelf: &mut Shelf,
    words: &[String],
    out: &mut Vec<u8>,
) -> Result<(), RowFail>
    requires own { shelf.old.labels ≡ labels_of setting.now }
{
    let (ones, behind) = words.split_at(plus_of(words));
    let [_, factor, others @ ..] = behind else {
        return Err(RowFail::Refused);
    };
    let factor = number_of(factor)?;
    write_both(alloc, setting, shelf, ones, factor, others, out)
}
