ghost use Rattle.std.specs.Prelude.{◌≡◌, ◌≤◌, ◌<◌, ◌++◌, ◌∷◌, ℕ, [], IfOk, OnOk, IsTrue, Some, drop, false, length, if◌then◌else◌, Option};
ghost use Rattle.labelled_trees.specs.Meaning.{tree_of};
ghost use Rattle.symmetric_trees.specs.Trees.{IsLabelled};
ghost use Rattle.symmetric_sums.specs.Terms.{FitsOver, terms_of};
ghost use Rattle.presentation_text.specs.Accepted.{ElementsAreAccepted, ElementsAreRefusedRightly, RefusedElementsBegin};
ghost use Rattle.presentation_text.specs.Elements as elements;
ghost use Rattle.presentation_text.specs.ElementReadings as spec;
ghost use Rattle.presentation_text.specs.Laws.{ElementsAreReadOnce};
ghost use Rattle.presentation_text.specs.PrintedElements.{PrintedElementsAreRead};
ghost use Rattle.presentation_text.specs.TreeReadings.{begins_with, demands_of};

use crate::kinds::PartFail;
use crate::lexing::Token;
use crate::parts::{has_mark, token_at};
use crate::trees::{Demands, TreeRead, demanded_tree_at};
use prime_field::Field;
use std::alloc::{AllocError, Global};
use symmetric_sums::{Sum, SumFail};
use symmetric_trees::GenTable;

/// An element that was read.
#[derive(Drop)]
pub struct ElementAt {
    /// Its terms in their order, without those of residue 0.
    pub sum: Sum,
    /// The arity of its first tree, also where the terms have residue 0; `None` where no tree is written.
    pub arity: Option<u8>,
    /// The place behind it among the tokens.
    pub next: usize,
}

// A term that was read.
#[derive(Drop)]
struct TermRead {
    negative: bool,
    coefficient: Option<u64>,
    tree: TreeRead,
}

// Whether the number 0 stands at the place, not followed by '*'.
fn is_nothing(tokens: &[Token<'_>], at: usize) -> bool
    requires within { at ≤ length tokens.now }
    ensures { result ≡ spec.is_nothing (drop at tokens.now) }
{
    match token_at(tokens, at) {
        Some(Token::Number(number)) => *number == 0 && !has_mark(tokens, at + 1, b'*'),
        _ => false,
    }
}

// The number before '*' at the place, and the place behind the two; else nothing and the place itself.
fn coefficient_at(tokens: &[Token<'_>], at: usize) -> (Option<u64>, usize)
    requires within { at ≤ length tokens.now }
    ensures coefficient { result.0 ≡ spec.coefficient (drop at tokens.now) }
    ensures behind { drop result.1 tokens.now ≡ spec.behind_coefficient result.0 (drop at tokens.now) }
    ensures within { (at ≤ result.1) × (result.1 ≤ length tokens.now) }
{
    match token_at(tokens, at) {
        Some(Token::Number(number)) => {
            if has_mark(tokens, at + 1, b'*') {
                (Some(*number), at + 2)
            } else {
                (None, at)
            }
        }
        _ => (None, at),
    }
}

// The sign before a further term: whether it is '-'.
fn sign_at(tokens: &[Token<'_>], at: usize) -> Option<bool>
    requires within { at ≤ length tokens.now }
    ensures { result ≡ spec.sign (drop at tokens.now) }
{
    match token_at(tokens, at) {
        Some(Token::Byte(b'+')) => Some(false),
        Some(Token::Byte(b'-')) => Some(true),
        _ => None,
    }
}

// Whether '-' stands at the place, and the place behind it; else the place itself.
fn minus_at(tokens: &[Token<'_>], at: usize) -> (bool, usize)
    requires within { at ≤ length tokens.now }
    ensures minus { result.0 ≡ begins_with 45 (drop at tokens.now) }
    ensures behind { drop result.1 tokens.now ≡ (if result.0 then spec.behind_one (drop at tokens.now) else drop at tokens.now) }
    ensures within { (at ≤ result.1) × (result.1 ≤ length tokens.now) }
{
    if has_mark(tokens, at, b'-') {
        (true, at + 1)
    } else {
        (false, at)
    }
}

// A term at a place, of which the sign is known.
fn term_at(
    alloc: Global,
    table: &GenTable,
    demands: Demands,
    tokens: &[Token<'_>],
    at: usize,
    negative: bool,
) -> Result<TermRead, PartFail>
    requires within { at ≤ length tokens.now }
    requires numbered { demands.loose ≡ false }
    ensures read { spec.GivesTerm tokens.now (spec.term_in table.now demands negative (drop at tokens.now)) result }
    ensures labelled { IfOk result (λ term. IsLabelled table.now term.tree.leaves (tree_of term.tree.tree)) }
    ensures arity { IfOk result (λ term. (n : ℕ) → demands.arity ≡ Some n → term.tree.leaves ≡ n) }
    ensures further { IfOk result (λ term. at < term.tree.end) }
{
    let (coefficient, begin) = coefficient_at(tokens, at);
    let tree = demanded_tree_at(alloc, table, demands, tokens, begin)?;
    Ok(TermRead {
        negative,
        coefficient,
        tree,
    })
}

fn residue(field: Field, term: &TermRead) -> u32
    ensures small { result < field }
    ensures residue { result ≡ elements.residue field (spec.written term.now) }
{
    let coef = match term.coefficient {
        Some(number) => field.of_number(number),
        None => field.of_number(1),
    };
    if term.negative { field.neg(coef) } else { coef }
}

// Puts a term behind a sum of its arity.
fn add(
    alloc: Global,
    field: Field,
    table: &GenTable,
    term: TermRead,
    sum: &mut Sum,
) -> Result<(), AllocError>
    requires labelled { IsLabelled table.now term.tree.leaves (tree_of term.tree.tree) }
    requires over { spec.IsSumOver field table.now term.tree.leaves sum.old }
    ensures says { OnOk result (terms_of sum.new ≡ terms_of sum.old ++ elements.written_sum field (spec.written term ∷ [])) }
    ensures over { OnOk result (spec.IsSumOver field table.now term.tree.leaves sum.new) }
{
    let coef = residue(field, &term);
    let tree = term.tree.tree;
    match sum.add_term(alloc, field, table, coef, tree) {
        Ok(()) => Ok(()),
        Err(SumFail::NoMemory) => Err(AllocError),
        Err(SumFail::ArityDiffers) => unreachable!(),
    }
}

// The element with its further terms, of which the terms so far are given.
fn further_at(
    alloc: Global,
    field: Field,
    table: &GenTable,
    tokens: &[Token<'_>],
    least: u8,
    begun: ElementAt,
) -> Result<ElementAt, PartFail>
    requires within { begun.next ≤ length tokens.now }
    requires under_way { spec.IsUnderWay field table.now begun }
    ensures read { spec.GivesFurther field tokens.now (spec.further_in (length (drop begun.next tokens.now)) table.now (demands_of least begun.arity) (drop begun.next tokens.now)) begun result }
    ensures fits { IfOk result (λ found. FitsOver field table.now found.sum) }
    ensures further { IfOk result (λ found. begun.next ≤ found.next) }
{
    let arity = begun.arity;
    let demands = Demands {
        loose: false,
        least,
        arity,
    };
    let mut sum = begun.sum;
    let mut next = begun.next;
    while let Some(negative) = sign_at(tokens, next) {
        let term = term_at(alloc, table, demands, tokens, next + 1, negative)?;
        next = term.tree.end;
        add(alloc, field, table, term, &mut sum)?;
    }
    Ok(ElementAt { sum, arity, next })
}

/// The element that stands at a place among the tokens of a line: the number 0 alone, not followed by '*'; or '-' or
/// nothing, a term, and any number of further terms with '+' or '-' before each. A term is `number *`, which may be left
/// out, and a tree whose leaves are 1 to n, each once. So a number that is followed by '*' is no leaf.
/// Each tree has at least `least` leaves (from 1 on), and the arity that is given, if one is; else that of the first tree.
/// That holds for the tree of a term of residue 0 too, which the sum leaves out.
///
/// `At` names the first token that is refused. Its kind is as for a tree; at the last token of a tree it is the first of
/// these that holds: `Labels`; `ArityOut` for fewer than `least` leaves; `MixedArity` for another arity than is asked.
/// An element ends before the first token that can't go on with it. `NoMemory` comes for want of memory alone.
/// The sum fits the field and the table.
pub fn element_at(
    alloc: Global,
    field: Field,
    table: &GenTable,
    tokens: &[Token<'_>],
    at: usize,
    least: u8,
    arity: Option<u8>,
) -> Result<ElementAt, PartFail>
    requires within { at ≤ length tokens.now }
    ensures read { spec.GivesElement field tokens.now (spec.element_in table.now (demands_of least arity) (drop at tokens.now)) result }
    ensures fits { IfOk result (λ found. FitsOver field table.now found.sum) }
    ensures further { IfOk result (λ found. at < found.next) }
{
    if is_nothing(tokens, at) {
        return Ok(ElementAt {
            sum: Sum::new(alloc),
            arity: None,
            next: at + 1,
        });
    }
    let (negative, begin) = minus_at(tokens, at);
    let demands = Demands {
        loose: false,
        least,
        arity,
    };
    let first = term_at(alloc, table, demands, tokens, begin, negative)?;
    let arity = Some(first.tree.leaves);
    let next = first.tree.end;
    let mut sum = Sum::new(alloc);
    add(alloc, field, table, first, &mut sum)?;
    further_at(
        alloc,
        field,
        table,
        tokens,
        least,
        ElementAt { sum, arity, next },
    )
}

/// Law: reading accepts an element exactly where the tokens begin with those of one whose trees have one arity, as is
/// demanded, and go on with no further term.
pub fn elements_are_accepted()
    ensures law { ElementsAreAccepted }
{}

/// Law: tokens are those of at most one element.
pub fn elements_are_read_once()
    ensures law { ElementsAreReadOnce }
{}

/// Law: where reading refuses a token, no element over the table goes on with it behind the tokens before, where a number
/// before '*' is another token than one that is a leaf; and where it refuses the end of the line, these are the tokens
/// of none. If a limit is passed, this is said of the elements within it; and if leaf numbers or arities are refused, of
/// those that are as demanded.
pub fn elements_are_refused_rightly()
    ensures law { ElementsAreRefusedRightly }
{}

/// Law: where reading refuses a token, or the end of the line, the tokens before begin an element over the table.
pub fn refused_elements_begin()
    ensures law { RefusedElementsBegin }
{}

/// Law: the text of a sum whose trees may be read is read back to the sum, whatever stands behind it that ends an element.
pub fn printed_elements_are_read()
    ensures law { PrintedElementsAreRead }
{}
