ghost use Rattle.std.specs.Prelude.{◌≡◌, ◌+◌, ◌-◌, ◌≤◌, ◌<◌, ◌++◌, true, length, map, IfOk, OnOk};
ghost use Rattle.symmetric_trees.specs.Generators.{generators_of, kind_of, part_of, parts_at};
ghost use Rattle.shuffle_transfer.specs.Labels.{gen, labels};
ghost use Rattle.shuffle_passage.specs.Words as spec;
ghost use Rattle.shuffle_passage.specs.WordTables.{words_from};

use sqlite_items::Items;
use std::alloc::{AllocError, Global};
use symmetric_trees::{GenTable, Part, PartKind};

// The words of a generator: the label of the first one, the one after the label of the last, and for each place whether
// its number must be above the one before it. So the words are counted and numbered without a list of them.
#[derive(Drop)]
pub struct Words {
    pub first: u16,
    pub end: u16,
    pub bounds: Items<bool>,
}

// Puts the bounds of one part behind the others.
fn push_bounds(bounds: &mut Items<bool>, part: Part) -> Result<(), AllocError>
    ensures { OnOk result (bounds.new ≡ bounds.old ++ spec.part_bounds (kind_of part.kind) part.size) }
{
    if part.size == 0 {
        return Ok(());
    }
    bounds.push(false)?;
    let rising = part.kind != PartKind::Free;
    for _ in 1..part.size {
        bounds.push(rising)?;
    }
    Ok(())
}

// The bounds of a generator with these parts.
fn bounds_of(alloc: Global, parts: &[Part]) -> Result<Items<bool>, AllocError>
    ensures { IfOk result (λ bounds. bounds ≡ spec.bounds_of (map part_of parts.now)) }
{
    let mut bounds = Items::new(alloc);
    for part in parts {
        push_bounds(&mut bounds, *part)?;
    }
    Ok(bounds)
}

// In how many ways a word is ended with these bounds, where so many of the numbers left are below the last number.
#[cycle(endings)]
pub fn count_endings(bounds: &[bool], below: usize) -> u16
    requires { length bounds.now ≤ 6 }
    ensures { result ≡ spec.endings bounds.now below }
{
    let [bound, later @ ..] = bounds else {
        return 1;
    };
    let from = first_place(*bound, below);
    sum_endings(later, from, later.len() + 1)
}

// The sum of `count_endings` over the places from `from` up to `to`, which is left out.
#[cycle(endings)]
fn sum_endings(bounds: &[bool], from: usize, to: usize) -> u16
    requires few { length bounds.now ≤ 5 }
    requires within { to ≤ length bounds.now + 1 }
    ensures { result ≡ spec.sum_from (spec.endings bounds.now) from (to - from) }
{
    if is_free(bounds) {
        return to.saturating_sub(from) as u16 * count_endings(bounds, 0);
    }
    let mut sum = 0;
    for below in from..to {
        sum += count_endings(bounds, below);
    }
    sum
}

// Whether the next number may be any of those left.
fn is_free(bounds: &[bool]) -> bool
    ensures { (below : _) → result ≡ true → spec.endings bounds.now below ≡ spec.endings bounds.now 0 }
{
    match bounds {
        [bound, ..] => !*bound,
        [] => true,
    }
}

// The first place for the next number, where so many of the numbers left are below the last number.
pub fn first_place(bound: bool, below: usize) -> usize
    ensures { result ≡ spec.first_place bound below }
{
    if bound { below } else { 0 }
}

// How many words stand before this one, in lexicographic order.
pub fn word_number(bounds: &[bool], below: usize, word: &[u8]) -> u16
    requires few { length bounds.now ≤ 6 }
    requires same { length word.now ≡ length bounds.now }
    ensures { result ≡ spec.word_number bounds.now below (spec.digits word.now) }
{
    let [bound, later @ ..] = bounds else {
        return 0;
    };
    let [number, others @ ..] = word else {
        return 0;
    };
    let place = others.iter().filter(|other| **other < *number).count();
    let before = sum_endings(later, first_place(*bound, below), place);
    before + word_number(later, place, others)
}

// The first place from `from` on whose endings, with those of the places before it, are more than `number`,
// and what is left of the number.
pub fn find_place(bounds: &[bool], from: usize, number: u16) -> (usize, u16)
    requires { length bounds.now ≤ 5 }
    ensures place { result.0 ≡ (spec.find_place (spec.endings bounds.now) from number (length bounds.now + 1 - from)).at }
    ensures over { result.1 ≡ (spec.find_place (spec.endings bounds.now) from number (length bounds.now + 1 - from)).over }
{
    if from > bounds.len() {
        return (from, number);
    }
    let count = count_endings(bounds, from);
    if number < count {
        return (from, number);
    }
    find_place(bounds, from + 1, number - count)
}

// The words of each generator of the table.
pub fn words_of(alloc: Global, table: &GenTable) -> Result<Items<Words>, AllocError>
    ensures { IfOk result (λ words. words ≡ words_from 0 table.now) }
{
    let mut words = Items::new(alloc);
    let mut first = 0;
    for index in 0..table.len() {
        let bounds = bounds_of(alloc, table.get(index).parts.as_slice())?;
        let end = first + count_endings(bounds.as_slice(), 0);
        words.push(Words { first, end, bounds })?;
        first = end;
    }
    Ok(words)
}

// The index of the generator of a label.
pub fn generator_of(table: &GenTable, words: &[Words], label: u16) -> u16
    requires words { words.now ≡ words_from 0 table.now }
    requires label { label < labels (generators_of table.now) }
    ensures held { result < length table.now }
    ensures few { length (spec.bounds_of (parts_at table.now result)) ≤ 6 }
    ensures generator { result ≡ gen (generators_of table.now) label }
    ensures first { spec.first_label (generators_of table.now) result ≤ label }
    ensures end { label < spec.first_label (generators_of table.now) result + spec.endings (spec.bounds_of (parts_at table.now result)) 0 }
{
    for index in 0..table.len() {
        if label < words[index as usize].end {
            return index;
        }
    }
    unreachable!()
}
