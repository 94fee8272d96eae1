ghost use Rattle.std.specs.Prelude.{◌≡◌, ◌≤◌, ◌<◌, ◌+◌, Err, IfOk, MatchResult, Ok, drop, length, map, min};
ghost use Rattle.std.specs.List.{All};
ghost use Rattle.labelled_trees.specs.Meaning.{tree_of};
ghost use Rattle.presentation_text.specs.Readings.{StopsAs};
ghost use Rattle.certificate_text.specs.BlockReadings as spec;
ghost use Rattle.certificate_text.specs.Plain.{plain_use};
ghost use Rattle.certificate_text.specs.UseText.{greatest_cited, signed_residue as residue_of};

use presentation_text::{DocKind, PartFail, Token, has_mark, mark_at, number_at, tree_at, word_at};
use prime_field::Field;
use sqlite_items::Items;
use std::alloc::Global;
use symmetric_sums::{Instance, Rule};
use symmetric_trees::{GenTable, Tree};

fn fail<T>(token: usize, kind: DocKind) -> Result<T, PartFail>
    ensures { result ≡ Err (PartFail.At token kind) }
{
    Err(PartFail::At { token, kind })
}

// The greatest number of a rule.
const GREATEST_CITED: u64 = 4_294_967_295;

// A number that is cited; greater ones stand for the greatest.
fn cited_number(number: u64) -> u32
    ensures { result ≡ min number greatest_cited }
{
    if number > GREATEST_CITED {
        return u32::MAX;
    }
    number as u32
}

// Whether the word cites a step, or else a relation.
fn cites_step(word: &str) -> Option<bool>
    ensures { result ≡ spec.cites_step word.now }
{
    match word {
        "step" => Some(true),
        "rel" => Some(false),
        _ => None,
    }
}

// What is cited at a place, with two tokens.
fn cited_at(tokens: &[Token<'_>], at: usize) -> Result<Rule, PartFail>
    requires within { at ≤ length tokens.now }
    ensures { MatchResult result (λ rule. (spec.cited_in (drop at tokens.now) ≡ Ok (rule, drop (at + 2) tokens.now)) × (at + 2 ≤ length tokens.now))
        (StopsAs tokens.now (spec.cited_in (drop at tokens.now))) }
{
    let word = word_at(tokens, at)?;
    let Some(step) = cites_step(word) else {
        return fail(at, DocKind::Syntax);
    };
    let number = cited_number(number_at(tokens, at + 1)?);
    if step {
        return Ok(Rule::Step(number));
    }
    Ok(Rule::Rel(number))
}

// The inputs from a place to the end of the line, with ';' before each.
fn inputs_at(
    alloc: Global,
    table: &GenTable,
    tokens: &[Token<'_>],
    at: usize,
) -> Result<Items<Tree>, PartFail>
    requires within { at ≤ length tokens.now }
    ensures { MatchResult result (λ inputs. spec.inputs_in (length (drop at tokens.now)) table.now (drop at tokens.now) ≡ Ok (map tree_of inputs))
        (StopsAs tokens.now (spec.inputs_in (length (drop at tokens.now)) table.now (drop at tokens.now))) }
{
    let mut inputs = Items::new(alloc);
    let mut next = at;
    while next < tokens.len() {
        let begin = mark_at(tokens, next, b';')?;
        let (tree, end) = tree_at(alloc, table, tokens, begin, true)?;
        inputs.push(tree)?;
        next = end;
    }
    Ok(inputs)
}

fn signed_residue(field: Field, negative: bool, number: u64) -> u32
    ensures small { result < field }
    ensures residue { result ≡ residue_of field negative number }
{
    let coef = field.of_number(number);
    if negative { field.neg(coef) } else { coef }
}

// The sign and the number at a place, and the place behind them.
fn coefficient_at(tokens: &[Token<'_>], at: usize) -> Result<(bool, u64, usize), PartFail>
    requires within { at ≤ length tokens.now }
    ensures { MatchResult result (λ found. (spec.coefficient_in (drop at tokens.now) ≡ Ok ((found.0, found.1), drop found.2 tokens.now)) × (found.2 ≤ length tokens.now))
        (StopsAs tokens.now (spec.coefficient_in (drop at tokens.now))) }
{
    if has_mark(tokens, at, b'-') {
        let number = number_at(tokens, at + 1)?;
        return Ok((true, number, at + 2));
    }
    let number = number_at(tokens, at)?;
    Ok((false, number, at + 1))
}

// The use of a line `use COEF ; TREE ; rel K`, or `step K` in the third part, with `; TREE` for each input.
pub fn use_line(
    alloc: Global,
    field: Field,
    table: &GenTable,
    tokens: &[Token<'_>],
) -> Result<Instance, PartFail>
    requires word { 1 ≤ length tokens.now }
    ensures read { MatchResult result (λ item. spec.use_in field table.now (drop 1 tokens.now) ≡ Ok (plain_use item))
        (StopsAs tokens.now (spec.use_in field table.now (drop 1 tokens.now))) }
    ensures coef { IfOk result (λ item. item.coef < field) }
{
    let (negative, number, behind) = coefficient_at(tokens, 1)?;
    let begin = mark_at(tokens, behind, b';')?;
    let (context, end) = tree_at(alloc, table, tokens, begin, true)?;
    let third = mark_at(tokens, end, b';')?;
    let rule = cited_at(tokens, third)?;
    let inputs = inputs_at(alloc, table, tokens, third + 2)?;
    Ok(Instance {
        coef: signed_residue(field, negative, number),
        context,
        rule,
        inputs,
    })
}
