ghost use Rattle.std.specs.Prelude.{◌<◌, IsTrue};
ghost use Rattle.std.specs.List.{All};
ghost use Rattle.symmetric_sums.specs.Terms.{FitsOver};

use crate::checks::all_fit;
use presentation_text::{Document, write_number};
use rows::{
    RowFail, element, end_line, end_terms, number_of, small_number_of, tree_of, trees_of,
    write_before,
};
use sqlite_items::Items;
use std::alloc::Global;
use symmetric_sums::{
    ExpandFail, Instance, Rule, Sum, SumFail, collected, expand, expand_with_arity, have_one_form,
};
use symmetric_trees::arity_of;

/// A copy of the element of the question at a place.
pub fn copy(alloc: Global, document: &Document, at: usize) -> Result<Sum, RowFail> {
    multiple(alloc, document, element(document, at)?, 1)
}

// A sum times a number, which is a residue.
fn multiple(alloc: Global, document: &Document, sum: &Sum, coef: u32) -> Result<Sum, RowFail> {
    if coef >= document.field.prime() || !sum.fits(document.field, &document.gens) {
        return Err(RowFail::Refused);
    }
    Ok(sum.scaled(alloc, document.field, coef)?)
}

// Ends a line by the arity of a sum, or `-` where it has none, and its terms.
fn end_sum(sum: &Sum, out: &mut Vec<u8>) -> Result<(), RowFail> {
    match sum.arity() {
        Some(arity) => write_number(u64::from(arity), out)?,
        None => out.push(b'-')?,
    }
    out.push(b' ')?;
    Ok(end_terms(sum.terms(), out)?)
}

// Writes what adding a term gives.
fn write_added(added: Result<(), SumFail>, out: &mut Vec<u8>) -> Result<(), RowFail> {
    match added {
        Ok(()) => Ok(write_before("added", out)?),
        Err(SumFail::ArityDiffers) => Ok(write_before("ArityDiffers", out)?),
        Err(SumFail::NoMemory) => Err(RowFail::NoMemory),
    }
}

// Adds the term of a residue and a tree to the first element.
fn add_term(
    alloc: Global,
    document: &Document,
    words: &[String],
    out: &mut Vec<u8>,
) -> Result<(), RowFail> {
    let [coef, tree] = words else {
        return Err(RowFail::Refused);
    };
    let coef = number_of(coef)?;
    let tree = tree_of(alloc, tree)?;
    let mut sum = copy(alloc, document, 0)?;
    if coef >= document.field.prime() {
        return Err(RowFail::Refused);
    }
    let Some(_) = arity_of(&tree, &document.gens) else {
        return Err(RowFail::Refused);
    };
    write_added(
        sum.add_term(alloc, document.field, &document.gens, coef, tree),
        out,
    )?;
    end_sum(&sum, out)
}

// Takes the second element from the first one.
fn minus(alloc: Global, document: &Document, out: &mut Vec<u8>) -> Result<(), RowFail> {
    let other = element(document, 1)?;
    if !other.fits(document.field, &document.gens) {
        return Err(RowFail::Refused);
    }
    match element(document, 0)?.minus(alloc, document.field, other) {
        Ok(sum) => end_sum(&sum, out),
        Err(SumFail::ArityDiffers) => Ok(end_line("ArityDiffers", out)?),
        Err(SumFail::NoMemory) => Err(RowFail::NoMemory),
    }
}

// Multiplies the first element by each of the numbers.
fn scaled(
    alloc: Global,
    document: &Document,
    words: &[String],
    out: &mut Vec<u8>,
) -> Result<(), RowFail> {
    let sum = element(document, 0)?;
    for word in words {
        end_sum(&multiple(alloc, document, sum, number_of(word)?)?, out)?;
    }
    Ok(())
}

// Collects the first element.
fn collect(alloc: Global, document: &Document, out: &mut Vec<u8>) -> Result<(), RowFail> {
    let sum = element(document, 0)?;
    if !sum.fits(document.field, &document.gens) {
        return Err(RowFail::Refused);
    }
    let form = collected(alloc, document.field, &document.gens, sum)?;
    end_sum(&form, out)
}

// Writes whether the first two elements have one form.
fn compare(alloc: Global, document: &Document, out: &mut Vec<u8>) -> Result<(), RowFail> {
    let one = element(document, 0)?;
    let other = element(document, 1)?;
    if !one.fits(document.field, &document.gens) || !other.fits(document.field, &document.gens) {
        return Err(RowFail::Refused);
    }
    let same = have_one_form(alloc, document.field, &document.gens, one, other)?;
    Ok(end_line(if same { "same" } else { "different" }, out)?)
}

// The rule that words name by its kind and numbers, and the words behind.
fn rule_of(words: &[String]) -> Result<(Rule, &[String]), RowFail> {
    let [kind, number, behind @ ..] = words else {
        return Err(RowFail::Refused);
    };
    let number = number_of(number)?;
    match (kind.as_str(), behind) {
        ("rel", _) => Ok((Rule::Rel(number), behind)),
        ("step", _) => Ok((Rule::Step(number), behind)),
        ("swap", [at, behind @ ..]) => {
            let generator = (number % 65536) as u16;
            let at = small_number_of(at)?;
            Ok((Rule::Swap { generator, at }, behind))
        }
        _ => Err(RowFail::Refused),
    }
}

/// The instance that words name: its residue, its rule, its context and its inputs.
pub fn instance_of(alloc: Global, words: &[String]) -> Result<Instance, RowFail> {
    let [coef, behind @ ..] = words else {
        return Err(RowFail::Refused);
    };
    let (rule, behind) = rule_of(behind)?;
    let [context, inputs @ ..] = behind else {
        return Err(RowFail::Refused);
    };
    Ok(Instance {
        coef: number_of(coef)?,
        context: tree_of(alloc, context)?,
        rule,
        inputs: trees_of(alloc, inputs)?,
    })
}

// Copies of the elements of all questions.
fn elements_of(alloc: Global, document: &Document) -> Result<Items<Sum>, RowFail> {
    let mut elements = Items::new(alloc);
    for at in 0..document.asks.len() {
        elements.push(copy(alloc, document, at)?)?;
    }
    Ok(elements)
}

// Whether an instance's residue, the relations and the steps fit the document.
fn can_expand(document: &Document, rels: &[Sum], steps: &[Sum], item: &Instance) -> bool
    ensures coef { IsTrue result → item.now.coef < document.now.field }
    ensures rels { IsTrue result → All (FitsOver document.now.field document.now.gens) rels.now }
    ensures steps { IsTrue result → All (FitsOver document.now.field document.now.gens) steps.now }
{
    let relations_fit = all_fit(document.field, &document.gens, rels);
    let steps_fit = all_fit(document.field, &document.gens, steps);
    item.coef < document.field.prime() && relations_fit && steps_fit
}

// The arity of an instance's expansion.
fn expanded_arity(
    alloc: Global,
    document: &Document,
    rels: &[Sum],
    steps: &[Sum],
    item: &Instance,
) -> Result<u8, ExpandFail>
    requires coef { item.now.coef < document.now.field }
    requires rels { All (FitsOver document.now.field document.now.gens) rels.now }
    requires steps { All (FitsOver document.now.field document.now.gens) steps.now }
{
    let found = expand_with_arity(alloc, document.field, &document.gens, rels, steps, item)?;
    Ok(found.arity)
}

// Ends a line by the arity of an instance's expansion, and its terms.
fn end_expanded(
    alloc: Global,
    document: &Document,
    rels: &[Sum],
    steps: &[Sum],
    item: &Instance,
    out: &mut Vec<u8>,
) -> Result<(), RowFail> {
    if !can_expand(document, rels, steps, item) {
        return Err(RowFail::Refused);
    }
    match expanded_arity(alloc, document, rels, steps, item) {
        Ok(arity) => write_number(u64::from(arity), out)?,
        Err(fail) => return end_unfit(fail, out),
    }
    out.push(b' ')?;
    match expand(alloc, document.field, &document.gens, rels, steps, item) {
        Ok(sum) => Ok(end_terms(sum.terms(), out)?),
        Err(fail) => end_unfit(fail, out),
    }
}

// Ends a line by why an instance has no expansion.
fn end_unfit(fail: ExpandFail, out: &mut Vec<u8>) -> Result<(), RowFail> {
    match fail {
        ExpandFail::Unfit => Ok(end_line("Unfit", out)?),
        ExpandFail::NoMemory => Err(RowFail::NoMemory),
    }
}

// Expands an instance of a relation, a symmetry rule, or a question's element as a step: the arity and the terms.
fn expanded(
    alloc: Global,
    document: &Document,
    words: &[String],
    out: &mut Vec<u8>,
) -> Result<(), RowFail> {
    let item = instance_of(alloc, words)?;
    let steps = elements_of(alloc, document)?;
    end_expanded(
        alloc,
        document,
        document.rels.as_slice(),
        steps.as_slice(),
        &item,
        out,
    )
}

/// Answers the calls of `symmetric_sums`. False where it has none of this name.
pub fn answer(
    alloc: Global,
    name: &str,
    words: &[String],
    document: &Document,
    out: &mut Vec<u8>,
) -> Result<bool, RowFail> {
    match name {
        "Sum::add_term" => add_term(alloc, document, words, out)?,
        "Sum::minus" => minus(alloc, document, out)?,
        "Sum::scaled" => scaled(alloc, document, words, out)?,
        "collected" => collect(alloc, document, out)?,
        "have_one_form" => compare(alloc, document, out)?,
        "expand" => expanded(alloc, document, words, out)?,
        _ => return Ok(false),
    }
    Ok(true)
}
