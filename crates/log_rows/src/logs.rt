ghost use Rattle.std.specs.Prelude.{◌≡◌, ◌<◌, ◌≤◌, ℕ, List, IfOk, length};
ghost use Rattle.std.specs.List.{All};
ghost use Rattle.symmetric_trees.specs.declared.generators.Generator.{Generator};
ghost use Rattle.symmetric_sums.specs.declared.term.Term.{Term};
ghost use Rattle.symmetric_sums.specs.Terms.{FitsOver};
ghost use Rattle.cofactor_log.specs.Entries.{KeepsRule};

use certificate_text::Block;
use cofactor_log::{Entry, Log};
use identity_queries::block_of;
use presentation_text::{Document, write_number};
use rows::{RowFail, end_line, end_number, write_next};
use sqlite_items::Items;
use std::alloc::{AllocError, Global};
use symmetric_sums::Sum;

/// The log over the document's relations.
pub fn log_of(alloc: Global, document: &Document) -> Result<Log, RowFail>
    requires fit { All (FitsOver document.now.field document.now.gens) document.now.rels }
    ensures field { IfOk result (λ log. log.field ≡ document.now.field) }
    ensures table { IfOk result (λ log. log.gens ≡ document.now.gens) }
{
    let rels = document.rels.as_slice();
    Ok(Log::new(alloc, document.field, &document.gens, rels)?)
}

// The entry of the element 0, which uses nothing: it keeps the rule over any log.
fn zero(alloc: Global) -> Entry
    ensures kept { (p : ℕ) (generators : List Generator) (rels earlier : List (List Term)) → KeepsRule p generators rels earlier result }
{
    Entry {
        element: Sum::new(alloc),
        uses: Items::new(alloc),
    }
}

// Pushes that entry, and writes its number.
fn push_zero(alloc: Global, log: &mut Log, out: &mut Vec<u8>) -> Result<(), RowFail> {
    match log.push(alloc, zero(alloc)) {
        Ok(number) => Ok(write_next(u64::from(number), out)?),
        Err(_) => Err(RowFail::NoMemory),
    }
}

// Ends a line by numbers, with a blank before each.
fn end_numbers(numbers: &[u32], out: &mut Vec<u8>) -> Result<(), RowFail> {
    for number in numbers {
        write_next(u64::from(*number), out)?;
    }
    Ok(end_line("", out)?)
}

// Writes the numbers of the entries on which the entry with this number rests.
fn write_rest(alloc: Global, log: &Log, number: u32, out: &mut Vec<u8>) -> Result<(), RowFail>
    requires held { (0 < number) × (number ≤ length log.now.entries) }
{
    write_number(u64::from(number), out)?;
    out.push(b':')?;
    end_numbers(&log.rests_on(alloc, number)?, out)
}

// The same for each entry.
fn write_rests(alloc: Global, log: &Log, out: &mut Vec<u8>) -> Result<(), RowFail> {
    for at in 0..log.entries().len() {
        write_rest(alloc, log, at as u32 + 1, out)?;
    }
    Ok(())
}

// Pushes that entry so many times: in a line how many entries there were, and the number of each.
fn push_zeros(alloc: Global, log: &mut Log, times: u32, out: &mut Vec<u8>) -> Result<(), RowFail> {
    write_number(log.entries().len() as u64, out)?;
    for _ in 0..times {
        push_zero(alloc, log, out)?;
    }
    Ok(end_line("", out)?)
}

// On how many entries no uses rest.
fn count_without_uses(alloc: Global, log: &Log) -> Result<usize, AllocError> {
    Ok(log.uses_rest_on(alloc, &[])?.len())
}

// Pushes that entry so many times to the log, and writes what the log is then.
fn push_over(alloc: Global, log: &mut Log, times: u32, out: &mut Vec<u8>) -> Result<(), RowFail> {
    push_zeros(alloc, log, times, out)?;
    end_number(log.entries().len() as u64, out)?;
    write_rests(alloc, log, out)?;
    let rest = count_without_uses(alloc, log)?;
    Ok(end_number(rest as u64, out)?)
}

/// Pushes the entry of the element 0 so many times to the log over the document's relations: in a line how many entries there
/// were and the number of each; how many there are; in a line for each what it rests on; and on how many no uses rest.
pub fn push(
    alloc: Global,
    document: &Document,
    numbers: &[u32],
    out: &mut Vec<u8>,
) -> Result<(), RowFail>
    requires fit { All (FitsOver document.now.field document.now.gens) document.now.rels }
{
    let [times] = numbers else {
        return Err(RowFail::Refused);
    };
    push_over(alloc, &mut log_of(alloc, document)?, *times, out)
}

// The block that wants the element 0 by an entry that uses nothing.
fn zero_block(alloc: Global, log: &Log) -> Result<Block, AllocError> {
    block_of(alloc, log, &zero(alloc))
}

// Writes how many terms the block wants, and how many steps it has.
fn write_block(block: &Block, out: &mut Vec<u8>) -> Result<(), RowFail> {
    write_number(block.want.terms().len() as u64, out)?;
    write_next(block.steps.len() as u64, out)?;
    Ok(end_line("", out)?)
}

// The same of the block that wants the element 0 over this log.
fn write_zero_block(alloc: Global, log: &Log, out: &mut Vec<u8>) -> Result<(), RowFail> {
    write_block(&zero_block(alloc, log)?, out)
}

/// Of the block that wants the element 0 by an entry that uses nothing: the number of terms that are wanted, and that of steps.
pub fn block(alloc: Global, document: &Document, out: &mut Vec<u8>) -> Result<(), RowFail>
    requires fit { All (FitsOver document.now.field document.now.gens) document.now.rels }
{
    write_zero_block(alloc, &log_of(alloc, document)?, out)
}
