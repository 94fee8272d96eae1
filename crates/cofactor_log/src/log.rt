ghost use Rattle.std.specs.Prelude.{◌≡◌, ◌<◌, ◌≤◌, ◌-◌, ◌++◌, ◌∷◌, [], ℕ, List, IfOk, length, take, slice_get, Some};
ghost use Rattle.std.specs.List.{All};
ghost use Rattle.symmetric_sums.specs.Terms.{FitsOver, HaveResidues};
ghost use Rattle.cofactor_log.specs.Entries.{KeepsRule, elements_of};
ghost use Rattle.cofactor_log.specs.Logs.{IsLog, IsPushed, IsSomeSum, logged};
ghost use Rattle.cofactor_log.specs.Members.{EntriesAreMembers};
ghost use Rattle.cofactor_log.specs.Resting.{ListsReached, RestsOn, UsesRestOn};
ghost use Rattle.symmetric_sums.specs.Uses.{AreGoodUses};

use crate::Entry;
use crate::resting::{mark_all, mark_cited, marked, unmarked};
use prime_field::Field;
use sqlite_items::Items;
use std::alloc::{AllocError, Global};
use std::marker::Model;
use symmetric_sums::{Instance, Sum};
use symmetric_trees::GenTable;
use thiserror::Error;

/// Why an entry isn't added to a log.
#[derive(Clone, Copy, Debug, PartialEq, Eq, Error)]
pub enum LogFail {
    /// The log holds 2^31 entries, as many as it may.
    #[error("the log is full")]
    LogFull,
    /// The log has room, but memory has run out.
    #[error("out of memory")]
    NoMemory,
}

/// A log over relations: a list of entries, numbered from 1. The uses of each entry are valid instances, in one arity, of the
/// relations or of earlier entries, and its element and the sum of their elements collect to the same sum.
/// Contracts see the field, the generators, the relations and the entries.
#[derive(Drop)]
pub struct Log {
    field: Field,
    table: GenTable,
    rels: Items<Sum>,
    entries: Items<Entry>,
}

impl Model for Log {
    ghost use Rattle.cofactor_log.specs.Logs.{Logged};

    ghost Value = { Logged };

    ghost use Rattle.std.specs.Prelude.{ℕ, List, refl};
    ghost use Rattle.std.specs.Coded.{code_by, coded×, coded_ℕ, coded_list};
    ghost use Rattle.symmetric_trees.specs.declared.generators.Generator.{Generator};
    ghost use Rattle.symmetric_trees.specs.contracts.generators.Generator as generator;
    ghost use Rattle.symmetric_sums.specs.declared.term.Term.{Term};
    ghost use Rattle.symmetric_sums.specs.contracts.term.Term as term;
    ghost use Rattle.cofactor_log.specs.declared.entry.Entry.{Entry as Shown};
    ghost use Rattle.cofactor_log.specs.contracts.entry.Entry as entry;

    ghost coded = { code_by (ℕ × (List Generator × (List (List Term) × List Shown)))
        (coded× coded_ℕ (coded× (coded_list generator.the_row.coded) (coded× (coded_list (coded_list term.the_row.coded)) (coded_list entry.the_row.coded))))
        (λ log. (log.field, (log.gens, (log.rels, log.entries))))
        (λ parts. record { field = parts.0; gens = parts.1.0; rels = parts.1.1.0; entries = parts.1.1.1 })
        (λ _. refl) };

    ghost use Rattle.cofactor_log.specs.Logs.{logged, IsLog};

    ghost view = { λ log. logged log.field log.table log.rels log.entries };

    ghost invariant = { λ log. IsLog (logged log.field log.table log.rels log.entries) };
}

const MOST_ENTRIES: usize = 1 << 31;

impl Log {
    /// A log without entries, over equal copies of the table and of the relations, which fit the field and the table.
    /// `AllocError` comes for want of memory alone.
    pub fn new(
        alloc: Global,
        field: Field,
        table: &GenTable,
        rels: &[Sum],
    ) -> Result<Log, AllocError>
        requires rels { All (FitsOver field table.now) rels.now }
        ensures empty { IfOk result (λ log. log ≡ logged field table.now rels.now []) }
    {
        Ok(Log {
            field,
            table: table.copy(alloc)?,
            rels: copies(alloc, field, rels)?,
            entries: Items::new(alloc),
        })
    }

    /// The field. It takes no memory.
    pub fn field(&self) -> Field
        ensures field { result ≡ self.now.field }
        ensures log { IsLog self.now }
    {
        self.field
    }

    /// The table. It takes no memory.
    pub fn table(&self) -> &GenTable
        ensures table { result.now ≡ self.now.gens }
        ensures log { IsLog self.now }
    {
        &self.table
    }

    /// The relations. It takes no memory.
    pub fn rels(&self) -> &[Sum]
        ensures rels { result.now ≡ self.now.rels }
        ensures log { IsLog self.now }
    {
        self.rels.as_slice()
    }

    /// The entries. It takes no memory.
    pub fn entries(&self) -> &[Entry]
        ensures entries { result.now ≡ self.now.entries }
        ensures log { IsLog self.now }
    {
        self.entries.as_slice()
    }

    /// The entry with this number, from 1 to the number of entries. It keeps the rule over those before it,
    /// and so over all. It takes no memory.
    pub fn entry(&self, number: u32) -> &Entry
        requires held { (0 < number) × (number ≤ length self.now.entries) }
        ensures entry { slice_get self.now.entries (number - 1) ≡ Some result.now }
        ensures kept { KeepsRule self.now.field self.now.gens self.now.rels (elements_of (take (number - 1) self.now.entries)) result.now }
        ensures again { KeepsRule self.now.field self.now.gens self.now.rels (elements_of self.now.entries) result.now }
    {
        &self.entries.as_slice()[number as usize - 1]
    }

    /// Puts an entry behind the others and answers its number. The entry keeps the rule: its element fits the field and the
    /// table, its coefficients are residues, its uses are valid instances, in one arity, of relations or of the entries
    /// that are there, and the element is their sum, up to symmetry. `LogFull` comes exactly where the log holds 2^31
    /// entries, else `NoMemory` for want of memory alone. After an error the log is as before.
    pub fn push(&mut self, _alloc: Global, entry: Entry) -> Result<u32, LogFail>
        requires kept { KeepsRule self.old.field self.old.gens self.old.rels (elements_of self.old.entries) entry }
        ensures answer { IsPushed self.old entry result self.new }
    {
        is_sum(&entry.element);
        let before = self.entries.len();
        if before >= MOST_ENTRIES {
            return Err(LogFail::LogFull);
        }
        match self.entries.push(entry) {
            Ok(()) => Ok(before as u32 + 1),
            Err(_) => Err(LogFail::NoMemory),
        }
    }

    /// The numbers, rising, of all entries that the entry with this number cites, directly or through others, and this number,
    /// which is the last. The number is from 1 to the number of entries. `AllocError` comes for want of memory alone.
    pub fn rests_on(&self, alloc: Global, number: u32) -> Result<Vec<u32>, AllocError>
        requires held { (0 < number) × (number ≤ length self.now.entries) }
        ensures rest { IfOk result (λ found. ListsReached (RestsOn self.now.entries number) found.items) }
        ensures last { IfOk result (λ found. (front : List ℕ) × (found.items ≡ front ++ number ∷ [])) }
    {
        let mut marks = unmarked(alloc, number as usize)?;
        marks[number as usize - 1] = true;
        let reached = marks.as_mut_slice();
        mark_all(self.entries(), reached);
        marked(alloc, reached)
    }

    /// The numbers, rising, of all entries that the uses cite, directly or through others. The uses are valid instances, in
    /// one arity, of relations or of entries. `AllocError` comes for want of memory alone.
    pub fn uses_rest_on(&self, alloc: Global, uses: &[Instance]) -> Result<Vec<u32>, AllocError>
        requires good { AreGoodUses self.now.field self.now.gens self.now.rels (elements_of self.now.entries) uses.now }
        ensures rest { IfOk result (λ found. ListsReached (UsesRestOn self.now.entries uses.now) found.items) }
    {
        let mut marks = unmarked(alloc, self.entries().len())?;
        let reached = marks.as_mut_slice();
        mark_cited(uses, reached);
        mark_all(self.entries(), reached);
        marked(alloc, reached)
    }
}

/// Law: the element of each entry is in the ideal of the relations.
pub fn entries_are_members()
    ensures law { EntriesAreMembers }
{}

// The terms are a sum: its type keeps that.
fn is_sum(sum: &Sum)
    ensures { IsSomeSum sum.now }
{
    let _arity = sum.arity();
    let _terms = sum.terms();
}

// Equal sums.
fn copies(alloc: Global, field: Field, sums: &[Sum]) -> Result<Items<Sum>, AllocError>
    requires residues { All (HaveResidues field) sums.now }
    ensures same { IfOk result (λ made. made ≡ sums.now) }
    ensures sums { IfOk result (All IsSomeSum) }
{
    let prime = field.prime();
    prove!(1 < prime);
    let mut made = Items::from_vec(Vec::with_capacity(alloc, sums.len())?);
    for sum in sums {
        is_sum(sum);
        made.push(sum.scaled(alloc, field, 1)?)?;
    }
    Ok(made)
}
