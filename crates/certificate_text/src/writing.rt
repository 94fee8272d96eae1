ghost use Rattle.std.specs.Prelude.{◌≡◌, ◌<◌, ◌++◌, IfOk, OnOk, map};
ghost use Rattle.std.specs.List.{All, flat_map};
ghost use Rattle.labelled_trees.specs.Meaning.{tree_of};
ghost use Rattle.symmetric_trees.specs.Trees.{Fits};
ghost use Rattle.symmetric_sums.specs.Terms.{terms_of};
ghost use Rattle.presentation_text.specs.DocumentText.{blank_before};
ghost use Rattle.certificate_text.specs.Plain.{plain_block, plain_step, plain_use};
ghost use Rattle.certificate_text.specs.PrintedBlocks as text;
ghost use Rattle.certificate_text.specs.PrintedBlocks.{PrintedBlocksAreReadBack};
ghost use Rattle.certificate_text.specs.Writable.{IsCited, IsWrittenSum, IsWritableBlock, IsWritableStep, IsWritableUse};

use crate::block::{Block, Step};
use presentation_text::{Document, write_number, write_sum, write_tree};
use prime_field::Field;
use std::alloc::{AllocError, Global};
use symmetric_sums::{Instance, Rule, Sum};
use symmetric_trees::{GenTable, Tree};

// Puts a word behind `out`.
fn write_word(word: &str, out: &mut Vec<u8>) -> Result<(), AllocError>
    ensures { OnOk result (out.new.items ≡ out.old.items ++ word.now) }
{
    out.extend_from_slice(word.as_bytes())?;
    Ok(())
}

// Puts a residue behind `out`, as the number of least absolute value.
fn write_coefficient(field: Field, coef: u32, out: &mut Vec<u8>) -> Result<(), AllocError>
    requires residue { coef < field }
    ensures { OnOk result (out.new.items ≡ out.old.items ++ text.coefficient_text field coef) }
{
    let signed = field.signed(coef);
    if signed < 0 {
        out.push(b'-')?;
    }
    write_number(signed.unsigned_abs(), out)
}

// Puts what a use cites behind `out`.
fn write_rule(rule: Rule, out: &mut Vec<u8>) -> Result<(), AllocError>
    requires cited { IsCited rule }
    ensures { OnOk result (out.new.items ≡ out.old.items ++ blank_before (text.rule_words rule)) }
{
    let number = match rule {
        Rule::Rel(number) => {
            write_word(" rel ", out)?;
            number
        }
        Rule::Step(number) => {
            write_word(" step ", out)?;
            number
        }
        Rule::Swap { .. } => unreachable!(),
    };
    write_number(u64::from(number), out)
}

// Puts ';' and a tree behind `out` for each input.
fn write_inputs(table: &GenTable, inputs: &[Tree], out: &mut Vec<u8>) -> Result<(), AllocError>
    requires fit { All (λ tree. Fits table.now (tree_of tree)) inputs.now }
    ensures { OnOk result (out.new.items ≡ out.old.items ++ blank_before (text.input_words table.now (map tree_of inputs.now))) }
{
    for input in inputs {
        write_word(" ; ", out)?;
        write_tree(table, input, out)?;
    }
    Ok(())
}

// Puts the line of a use behind `out`.
fn write_use(
    field: Field,
    table: &GenTable,
    item: &Instance,
    out: &mut Vec<u8>,
) -> Result<(), AllocError>
    requires writable { IsWritableUse field table.now (plain_use item.now) }
    ensures { OnOk result (out.new.items ≡ out.old.items ++ text.use_text field table.now (plain_use item.now)) }
{
    write_word("use ", out)?;
    write_coefficient(field, item.coef, out)?;
    write_word(" ; ", out)?;
    write_tree(table, &item.context, out)?;
    write_word(" ;", out)?;
    write_rule(item.rule, out)?;
    write_inputs(table, item.inputs.as_slice(), out)?;
    out.push(b'\n')?;
    Ok(())
}

// Puts the line of a word and an element behind `out`.
fn write_sum_line(
    field: Field,
    table: &GenTable,
    word: &str,
    sum: &Sum,
    out: &mut Vec<u8>,
) -> Result<(), AllocError>
    requires said { IsWrittenSum field table.now (terms_of sum.now) }
    ensures { OnOk result (out.new.items ≡ out.old.items ++ text.sum_line field table.now word.now (terms_of sum.now)) }
{
    write_word(word, out)?;
    out.push(b' ')?;
    write_sum(field, table, sum, out)?;
    out.push(b'\n')?;
    Ok(())
}

// Puts the lines of a step behind `out`.
fn write_step(
    field: Field,
    table: &GenTable,
    step: &Step,
    out: &mut Vec<u8>,
) -> Result<(), AllocError>
    requires writable { IsWritableStep field table.now (plain_step step.now) }
    ensures { OnOk result (out.new.items ≡ out.old.items ++ text.step_text field table.now (plain_step step.now)) }
{
    write_sum_line(field, table, "step", &step.element, out)?;
    for item in step.uses.as_slice() {
        write_use(field, table, item, out)?;
    }
    Ok(())
}

/// Puts the text of a block behind `out`: the lines of its wanted element and of its steps, each with those of its uses, and
/// `end`. Its elements may be said over the document's field and generators, the coefficients of its uses are residues, they
/// cite relations and steps, and their trees may be read. `AllocError` comes for want of memory alone; `out` may then hold a
/// part of the text.
pub fn write_block(document: &Document, block: &Block, out: &mut Vec<u8>) -> Result<(), AllocError>
    requires writable { IsWritableBlock document.now.field document.now.gens (plain_block block.now) }
    ensures text { OnOk result (out.new.items ≡ out.old.items ++ text.block_text document.now.field document.now.gens (plain_block block.now)) }
{
    write_sum_line(document.field, &document.gens, "want", &block.want, out)?;
    for step in block.steps.as_slice() {
        write_step(document.field, &document.gens, step, out)?;
    }
    write_word("end\n", out)
}

/// The text of a block, as `write_block` puts it. `AllocError` comes for want of memory alone.
pub fn print_block(alloc: Global, document: &Document, block: &Block) -> Result<Vec<u8>, AllocError>
    requires writable { IsWritableBlock document.now.field document.now.gens (plain_block block.now) }
    ensures text { IfOk result (λ found. found.items ≡ text.block_text document.now.field document.now.gens (plain_block block.now)) }
{
    let mut out = Vec::new(alloc);
    write_block(document, block, &mut out)?;
    Ok(out)
}

/// Law: the text of writable blocks is read back to the same blocks, over a table whose names are words.
pub fn printed_blocks_are_read_back()
    ensures law { PrintedBlocksAreReadBack }
{}
