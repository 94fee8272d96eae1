ghost use Rattle.std.specs.Prelude.{IfOk};
ghost use Rattle.cofactor_log.specs.Entries.{KeepsRule, elements_of};
ghost use Rattle.certificate_check.specs.Blocks.{BlockHolds};
ghost use Rattle.identity_queries.specs.Blocks.{IsBlockOf, IsWritableEntry};
ghost use Rattle.identity_queries.specs.Short.{ShortEntriesAreWritable};
ghost use Rattle.std.specs.List.{All};
ghost use Rattle.certificate_text.specs.Plain.{plain_block};
ghost use Rattle.certificate_text.specs.Writable.{IsWritableBlock};

use crate::renumbering::{copy, new_numbers, new_step, new_steps};
use certificate_text::Block;
use cofactor_log::{Entry, Log};
use std::alloc::{AllocError, Global};

/// The block that wants the element of an entry: its steps are the entries of the log on which the entry's uses rest, each once,
/// in the order of their numbers, numbered anew from 1, and then the entry itself. The entry needn't stand in the log, but
/// keeps the rule over it. The block holds, and may be written where the entries may be. `AllocError` comes for want of memory alone.
pub fn block_of(alloc: Global, log: &Log, last: &Entry) -> Result<Block, AllocError>
    requires kept { KeepsRule log.now.field log.now.gens log.now.rels (elements_of log.now.entries) last.now }
    ensures block { IfOk result (IsBlockOf log.now.entries last.now) }
    ensures holds { IfOk result (λ block. BlockHolds log.now.field log.now.gens log.now.rels block.want block.steps) }
    ensures writable { All (IsWritableEntry log.now.field log.now.gens) log.now.entries → IsWritableEntry log.now.field log.now.gens last.now
        → IfOk result (λ block. IsWritableBlock log.now.field log.now.gens (plain_block block)) }
{
    let field = log.field();
    let entries = log.entries();
    let found = log.uses_rest_on(alloc, last.uses.as_slice())?;
    let numbers = new_numbers(alloc, entries.len(), found.as_slice())?;
    let mut steps = new_steps(alloc, field, numbers.as_slice(), entries, found.as_slice())?;
    let step = new_step(alloc, field, numbers.as_slice(), last)?;
    let want = copy(alloc, field, &last.element)?;
    steps.push(step)?;
    Ok(Block { want, steps })
}

/// Law: an entry whose element and uses have an arity of at most 9 may be written, whatever its trees are.
pub fn short_entries_are_writable()
    ensures law { ShortEntriesAreWritable }
{}
