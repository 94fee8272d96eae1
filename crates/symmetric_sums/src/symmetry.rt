ghost use Rattle.std.specs.Prelude.{◌≡◌, ◌-◌, ◌<◌, IfOk, map};
ghost use Rattle.std.specs.List.{range_with_len};
ghost use Rattle.labelled_trees.specs.Meaning.{tree_of};
ghost use Rattle.labelled_trees.specs.Trees.{leaf, node, row};
ghost use Rattle.operad_ideals.specs.Parts.{minus, times};
ghost use Rattle.operad_ideals.specs.Presentations.{residue_of};
ghost use Rattle.symmetric_trees.specs.Generators.{kind_of, part_of};
ghost use Rattle.symmetric_trees.specs.Spelling.{meaning_of};
ghost use Rattle.symmetric_sums.specs.Terms.{FitsOver, terms_of};
ghost use Rattle.symmetric_sums.specs.Instances as spec;
ghost use Rattle.symmetric_sums.specs.Symmetries as made;

use crate::{Sum, Term};
use prime_field::Field;
use sqlite_items::Items;
use std::alloc::{AllocError, Global};
use symmetric_trees::{GenTable, Part, PartKind, Sign, Tree};

// The symmetry rule that exchanges the inputs `at` and `at + 1` of a generator, counted from 1: the vertex over the leaves
// less the sign times the vertex over the exchanged leaves. No terms where these aren't two inputs of one symmetric or skew part.
pub(crate) fn symmetry_rule(
    alloc: Global,
    field: Field,
    table: &GenTable,
    generator: u16,
    at: u8,
) -> Result<Sum, AllocError>
    ensures terms { IfOk result (λ rule. terms_of rule ≡ spec.symmetry_rule field table.now generator at) }
    ensures fits { IfOk result (FitsOver field table.now) }
{
    match rule_sign(table, generator, at) {
        Some(sign) => signed_rule(alloc, field, table, generator, at, sign),
        None => Ok(Sum::new(alloc)),
    }
}

// The symmetry rule where the exchange has this sign.
fn signed_rule(
    alloc: Global,
    field: Field,
    table: &GenTable,
    generator: u16,
    input: u8,
    sign: Sign,
) -> Result<Sum, AllocError>
    requires sign { spec.rule_sign table.now generator input ≡ Some (meaning_of sign) }
    ensures terms { IfOk result (λ rule. terms_of rule ≡ spec.symmetry_terms field table.now generator input (Some (meaning_of sign))) }
    ensures fits { IfOk result (FitsOver field table.now) }
{
    let arity = table.get(generator).arity;
    let mut terms = Items::new(alloc);
    terms.push(Term {
        coef: 1,
        tree: vertex(alloc, generator, arity, input, input)?,
    })?;
    terms.push(Term {
        coef: opposite(field, sign),
        tree: vertex(alloc, generator, arity, input, input + 1)?,
    })?;
    Ok(Sum::of_terms(terms, Some(arity)))
}

// The residue that stands for the opposite of a sign.
fn opposite(field: Field, sign: Sign) -> u32
    ensures residue { result ≡ residue_of (field - 1) (times minus (meaning_of sign)) }
    ensures positive { 0 < result }
    ensures below { result < field }
{
    match sign {
        Sign::Plus => field.prime() - 1,
        Sign::Minus => 1,
    }
}

// The sign of the exchange of the inputs `at` and `at + 1`, counted from 1, where they are two of one part that isn't free.
fn rule_sign(table: &GenTable, generator: u16, at: u8) -> Option<Sign>
    ensures { made.sign_meant result ≡ spec.rule_sign table.now generator at }
{
    if at == 0 {
        return None;
    }
    if generator >= table.len() {
        return None;
    }
    exchange_sign(table.get(generator).parts.as_slice(), at as usize - 1)
}

// The sign of the exchange of the inputs `input` and `input + 1`, counted from 0, where they are two of one part that isn't free.
fn exchange_sign(parts: &[Part], mut input: usize) -> Option<Sign>
    ensures { made.sign_meant result ≡ spec.exchange_sign (map part_of parts.now) input }
{
    for part in parts {
        let size = part.size as usize;
        if input < size {
            return if input + 1 < size {
                kind_sign(part.kind)
            } else {
                None
            };
        }
        input -= size;
    }
    None
}

fn kind_sign(kind: PartKind) -> Option<Sign>
    ensures { made.sign_meant result ≡ spec.kind_sign (kind_of kind) }
{
    match kind {
        PartKind::Sym => Some(Sign::Plus),
        PartKind::Alt => Some(Sign::Minus),
        PartKind::Free => None,
    }
}

// The vertex over the leaves 1 to `arity`, with the leaves `one` and `other` in each other's place.
fn vertex(alloc: Global, generator: u16, arity: u8, one: u8, other: u8) -> Result<Tree, AllocError>
    ensures { IfOk result (λ tree. tree_of tree ≡ node generator (row (map (λ n. leaf (made.exchanged one other n)) (range_with_len 1 arity)))) }
{
    let mut inputs = Items::new(alloc);
    for before in 0..arity {
        inputs.push(Tree::Leaf(exchanged(one, other, before + 1)))?;
    }
    Ok(Tree::Node(generator, inputs))
}

// The number after the exchange of two numbers.
fn exchanged(one: u8, other: u8, number: u8) -> u8
    ensures { result ≡ made.exchanged one other number }
{
    if number == one {
        other
    } else if number == other {
        one
    } else {
        number
    }
}
