ghost use Rattle.std.specs.Prelude.{◌≡◌, ◌≤◌, ◌<◌, ◌+◌, ℕ, IfOk, IsTrue, Some, drop, length, MatchResult, Ok, Err, None};
ghost use Rattle.std.specs.Option.{is_some};
ghost use Rattle.presentation_text.specs.DraftReadings.{AskFits, GivesAsk, GivesDraft, IsSoundDraft, asked_kind, contents_of};
ghost use Rattle.presentation_text.specs.LineReadings as spec;
ghost use Rattle.presentation_text.specs.Readings.{StopsAs};
ghost use Rattle.symmetric_trees.specs.Generators.{IsTable};
ghost use Rattle.presentation_text.specs.declared.kinds.PartFail.TheVariants.{NoMemory};

use crate::document::{Ask, AskKind, OrderName};
use crate::draft::Draft;
use crate::kinds::{DocKind, PartFail};
use crate::lexing::Token;
use crate::parts::{end_at, fail, mark_at, number_at, word_at};
use crate::terms::element_at;
use prime_field::Field;
use sqlite_items::Items;
use std::alloc::Global;
use symmetric_trees::{GenFail, GenTable, Generator, MOST_GENERATORS, Name, Part, PartKind};

const LONGEST_NAME: usize = 16;

const MOST_RELATIONS: usize = 1000;

const GREATEST_WEIGHT: u64 = 1_000_000;

// ---- the field and the order

// The rest of a line `field P`.
pub(crate) fn field_line(draft: Draft, tokens: &[Token<'_>]) -> Result<Draft, PartFail>
    requires word { 1 ≤ length tokens.now }
    requires sound { IsSoundDraft draft }
    requires first { draft.field ≡ None }
    ensures { GivesDraft tokens.now (spec.field_line (contents_of draft) (drop 1 tokens.now)) result }
{
    let number = number_at(tokens, 1)?;
    let Some(field) = Field::of(number) else {
        return fail(1, DocKind::FieldUnknown);
    };
    end_at(tokens, 2)?;
    let mut draft = draft;
    draft.field = Some(field);
    draft.section = 2;
    Ok(draft)
}

fn order_named(version: u8, name: &str) -> Option<OrderName>
    ensures { result ≡ spec.order_named version name.now }
{
    match name {
        "path" => Some(OrderName::Path),
        "pathshort" => Some(OrderName::PathShort),
        "leafpath" => Some(OrderName::LeafPath),
        "weightpath" if version == 2 => Some(OrderName::WeightPath),
        _ => None,
    }
}

// The rest of a line `order NAME`.
pub(crate) fn order_line(draft: Draft, tokens: &[Token<'_>]) -> Result<Draft, PartFail>
    requires word { 1 ≤ length tokens.now }
    requires sound { IsSoundDraft draft }
    ensures { GivesDraft tokens.now (spec.order_line (contents_of draft) (drop 1 tokens.now)) result }
{
    let name = word_at(tokens, 1)?;
    let Some(order) = order_named(draft.version, name) else {
        return fail(1, DocKind::OrderUnknown);
    };
    end_at(tokens, 2)?;
    let mut draft = draft;
    draft.order = Some(order);
    draft.section = 3;
    Ok(draft)
}

// ---- generators and weights

fn symmetry_named(word: &str) -> Option<PartKind>
    ensures { result ≡ spec.symmetry_named word.now }
{
    match word {
        "sym" => Some(PartKind::Sym),
        "alt" => Some(PartKind::Alt),
        "reg" => Some(PartKind::Free),
        _ => None,
    }
}

fn part_named(word: &str) -> Option<PartKind>
    ensures { result ≡ spec.part_named word.now }
{
    match word {
        "sym" => Some(PartKind::Sym),
        "alt" => Some(PartKind::Alt),
        "free" => Some(PartKind::Free),
        _ => None,
    }
}

// The one part that a symmetry of version 1 is.
fn symmetry_at(
    alloc: Global,
    arity: u8,
    tokens: &[Token<'_>],
    at: usize,
) -> Result<Items<Part>, PartFail>
    requires within { at ≤ length tokens.now }
    ensures { MatchResult result (λ parts. spec.symmetry_in arity (drop at tokens.now) ≡ Ok parts)
        (StopsAs tokens.now (spec.symmetry_in arity (drop at tokens.now))) }
{
    let word = word_at(tokens, at)?;
    let Some(kind) = symmetry_named(word) else {
        return fail(at, DocKind::Syntax);
    };
    end_at(tokens, at + 1)?;
    let mut parts = Items::new(alloc);
    parts.push(Part { kind, size: arity })?;
    Ok(parts)
}

// A part, of two tokens; the sizes before it add up to `sum`.
fn part_at(arity: u8, sum: u8, tokens: &[Token<'_>], at: usize) -> Result<Part, PartFail>
    requires within { at ≤ length tokens.now }
    requires small { sum ≤ arity }
    ensures read { MatchResult result (λ part. spec.part_in arity sum (drop at tokens.now) ≡ Ok (part, drop (at + 2) tokens.now))
        (StopsAs tokens.now (spec.part_in arity sum (drop at tokens.now))) }
    ensures small { IfOk result (λ part. sum + part.size ≤ arity) }
    ensures within { IfOk result (λ part. at + 2 ≤ length tokens.now) }
{
    let word = word_at(tokens, at)?;
    let Some(kind) = part_named(word) else {
        return fail(at, DocKind::Syntax);
    };
    let size = number_at(tokens, at + 1)?;
    if size == 0 || size > u64::from(arity - sum) {
        return fail(at + 1, DocKind::PartsOut);
    }
    Ok(Part {
        kind,
        size: size as u8,
    })
}

// The parts of version 2, one at least, to the end of the line.
fn parts_at(
    alloc: Global,
    arity: u8,
    tokens: &[Token<'_>],
    at: usize,
) -> Result<Items<Part>, PartFail>
    requires within { at ≤ length tokens.now }
    ensures { MatchResult result (λ parts. spec.all_parts_in arity 0 (drop at tokens.now) ≡ Ok parts)
        (StopsAs tokens.now (spec.all_parts_in arity 0 (drop at tokens.now))) }
{
    let mut parts = Items::new(alloc);
    let mut sum = 0;
    let mut next = at;
    loop {
        let part = part_at(arity, sum, tokens, next)?;
        sum += part.size;
        next += 2;
        parts.push(part)?;
        if next == tokens.len() {
            break;
        }
    }
    if sum < arity {
        return fail(next, DocKind::PartsOut);
    }
    Ok(parts)
}

fn is_taken(table: &GenTable, name: &str) -> bool
    requires table { IsTable table.now }
    ensures { result ≡ spec.is_known name.now table.now }
{
    table.find(name).is_some()
}

// What stands against the name of a generator.
fn name_fault(table: &GenTable, name: &str) -> Option<DocKind>
    requires table { IsTable table.now }
    ensures { result ≡ spec.name_fault table.now name.now }
{
    if name.len() > LONGEST_NAME {
        return Some(DocKind::NameBad);
    }
    if is_taken(table, name) {
        return Some(DocKind::NameTaken);
    }
    None
}

// The name and the arity of a `gen` line.
fn named_arity<'a>(table: &GenTable, tokens: &'a [Token<'_>]) -> Result<(&'a str, u8), PartFail>
    requires word { 1 ≤ length tokens.now }
    ensures { MatchResult result (λ found. (spec.named_arity_in table.now (drop 1 tokens.now) ≡ Ok ((found.0.now, found.1), drop 3 tokens.now)) × (2 < length tokens.now))
        (StopsAs tokens.now (spec.named_arity_in table.now (drop 1 tokens.now))) }
{
    if table.len() >= MOST_GENERATORS {
        return fail(0, DocKind::TooManyGens);
    }
    let name = word_at(tokens, 1)?;
    if let Some(kind) = name_fault(table, name) {
        return fail(1, kind);
    }
    let arity = number_at(tokens, 2)?;
    if arity < 2 || arity > 6 {
        return fail(2, DocKind::ArityOut);
    }
    Ok((name, arity as u8))
}

// The parts that a symmetry is in version 1, or those of version 2.
fn inputs_at(
    alloc: Global,
    version: u8,
    arity: u8,
    tokens: &[Token<'_>],
    at: usize,
) -> Result<Items<Part>, PartFail>
    requires within { at ≤ length tokens.now }
    ensures { MatchResult result (λ parts. spec.inputs_in version arity (drop at tokens.now) ≡ Ok parts)
        (StopsAs tokens.now (spec.inputs_in version arity (drop at tokens.now))) }
{
    if version == 2 {
        return parts_at(alloc, arity, tokens, at);
    }
    symmetry_at(alloc, arity, tokens, at)
}

// The generator of a `gen` line.
fn generator_at(
    alloc: Global,
    version: u8,
    table: &GenTable,
    tokens: &[Token<'_>],
) -> Result<Generator, PartFail>
    requires word { 1 ≤ length tokens.now }
    ensures { MatchResult result (λ generator. spec.generator_in version table.now (drop 1 tokens.now) ≡ Ok generator)
        (StopsAs tokens.now (spec.generator_in version table.now (drop 1 tokens.now))) }
{
    let (name, arity) = named_arity(table, tokens)?;
    let parts = inputs_at(alloc, version, arity, tokens, 3)?;
    Ok(Generator {
        name: Name::new(alloc, name)?,
        arity,
        parts,
    })
}

// Why a generator against which nothing stands isn't added.
fn out_of_memory(fail: GenFail) -> PartFail
    requires { fail ≡ GenFail.NoMemory }
    ensures { result ≡ NoMemory }
{
    match fail {
        GenFail::NoMemory => PartFail::NoMemory,
        _ => unreachable!(),
    }
}

// The rest of a line `gen NAME ARITY SYMMETRY`, or in version 2 `gen NAME ARITY PART` with any number of further parts.
pub(crate) fn gen_line(alloc: Global, draft: Draft, tokens: &[Token<'_>]) -> Result<Draft, PartFail>
    requires word { 1 ≤ length tokens.now }
    requires sound { IsSoundDraft draft }
    ensures { GivesDraft tokens.now (spec.gen_line (contents_of draft) (drop 1 tokens.now)) result }
{
    let generator = generator_at(alloc, draft.version, &draft.gens, tokens)?;
    let mut draft = draft;
    match draft.gens.add(alloc, generator) {
        Ok(()) => {}
        Err(fail) => return Err(out_of_memory(fail)),
    }
    draft.weights.push(None)?;
    draft.section = 4;
    Ok(draft)
}

// The rest of a line `weight NAME W`.
pub(crate) fn weight_line(draft: Draft, tokens: &[Token<'_>]) -> Result<Draft, PartFail>
    requires word { 1 ≤ length tokens.now }
    requires sound { IsSoundDraft draft }
    ensures { GivesDraft tokens.now (spec.weight_line (contents_of draft) (drop 1 tokens.now)) result }
{
    let name = word_at(tokens, 1)?;
    let Some(generator) = draft.gens.find(name) else {
        return fail(1, DocKind::NameUnknown);
    };
    let index = generator as usize;
    if draft.weights.as_slice()[index].is_some() {
        return fail(1, DocKind::WeightTaken);
    }
    let weight = number_at(tokens, 2)?;
    if weight > GREATEST_WEIGHT {
        return fail(2, DocKind::WeightOut);
    }
    end_at(tokens, 3)?;
    let mut draft = draft;
    draft.weights.set(index, Some(weight as u32));
    draft.section = 4;
    Ok(draft)
}

// ---- relations and questions

// The rest of a line `rel ELEMENT`.
pub(crate) fn rel_line(alloc: Global, draft: Draft, tokens: &[Token<'_>]) -> Result<Draft, PartFail>
    requires word { 1 ≤ length tokens.now }
    requires sound { IsSoundDraft draft }
    requires field { IsTrue (is_some draft.field) }
    ensures { GivesDraft tokens.now (spec.rel_line (contents_of draft) (drop 1 tokens.now)) result }
{
    if draft.rels.len() >= MOST_RELATIONS {
        return fail(0, DocKind::TooManyRelations);
    }
    let Some(field) = draft.field else {
        unreachable!();
    };
    let element = element_at(alloc, field, &draft.gens, tokens, 1, 2, None)?;
    end_at(tokens, element.next)?;
    let mut draft = draft;
    draft.rels.push(element.sum)?;
    draft.section = 5;
    Ok(draft)
}

// The question of a line `query ELEMENT`.
fn query_at(
    alloc: Global,
    field: Field,
    table: &GenTable,
    tokens: &[Token<'_>],
) -> Result<AskKind, PartFail>
    requires word { 1 ≤ length tokens.now }
    ensures { GivesAsk field table.now tokens.now (spec.query_in field table.now (drop 1 tokens.now)) result }
{
    let element = element_at(alloc, field, table, tokens, 1, 1, None)?;
    end_at(tokens, element.next)?;
    Ok(AskKind::Query(element.sum))
}

// The question of a line `same ELEMENT = ELEMENT`.
fn same_at(
    alloc: Global,
    field: Field,
    table: &GenTable,
    tokens: &[Token<'_>],
) -> Result<AskKind, PartFail>
    requires word { 1 ≤ length tokens.now }
    ensures { GivesAsk field table.now tokens.now (spec.same_in field table.now (drop 1 tokens.now)) result }
{
    let left = element_at(alloc, field, table, tokens, 1, 1, None)?;
    let next = mark_at(tokens, left.next, b'=')?;
    let right = element_at(alloc, field, table, tokens, next, 1, left.arity)?;
    end_at(tokens, right.next)?;
    Ok(AskKind::Same(left.sum, right.sum))
}

// A question joins the others.
fn with_ask(draft: Draft, number: u32, kind: AskKind) -> Result<Draft, PartFail>
    requires sound { IsSoundDraft draft }
    requires field { IsTrue (is_some draft.field) }
    requires fits { AskFits (spec.prime_of draft.field) draft.gens kind }
    ensures { MatchResult result (λ new. (contents_of new ≡ spec.with_ask (contents_of draft) number (asked_kind kind)) × IsSoundDraft new)
        (λ fail. fail ≡ NoMemory) }
{
    let mut draft = draft;
    draft.asks.push(Ask { line: number, kind })?;
    draft.section = 6;
    Ok(draft)
}

// The rest of a line `query ELEMENT`.
pub(crate) fn query_line(
    alloc: Global,
    draft: Draft,
    number: u32,
    tokens: &[Token<'_>],
) -> Result<Draft, PartFail>
    requires word { 1 ≤ length tokens.now }
    requires sound { IsSoundDraft draft }
    requires field { IsTrue (is_some draft.field) }
    ensures { GivesDraft tokens.now (spec.query_line (contents_of draft) number (drop 1 tokens.now)) result }
{
    let Some(field) = draft.field else {
        unreachable!();
    };
    let kind = query_at(alloc, field, &draft.gens, tokens)?;
    with_ask(draft, number, kind)
}

// The rest of a line `same ELEMENT = ELEMENT`.
pub(crate) fn same_line(
    alloc: Global,
    draft: Draft,
    number: u32,
    tokens: &[Token<'_>],
) -> Result<Draft, PartFail>
    requires word { 1 ≤ length tokens.now }
    requires sound { IsSoundDraft draft }
    requires field { IsTrue (is_some draft.field) }
    ensures { GivesDraft tokens.now (spec.same_line (contents_of draft) number (drop 1 tokens.now)) result }
{
    let Some(field) = draft.field else {
        unreachable!();
    };
    let kind = same_at(alloc, field, &draft.gens, tokens)?;
    with_ask(draft, number, kind)
}
