ghost use Rattle.std.specs.Prelude.{◌≡◌, ◌≤◌, ◌++◌, IfOk, OnOk, length};
ghost use Rattle.std.specs.List.{All, flat_map};
ghost use Rattle.symmetric_sums.specs.Terms.{FitsOver, terms_of};
ghost use Rattle.presentation_text.specs.DocumentText as text;
ghost use Rattle.presentation_text.specs.DraftReadings.{AskFits};
ghost use Rattle.presentation_text.specs.ReadBack.{PrintedDocumentsAreReadBack, ReadDocumentsAreWritable};

use crate::document::{Ask, AskKind, Document, OrderName};
use crate::writing::{write_number, write_sum};
use prime_field::Field;
use std::alloc::{AllocError, Global};
use symmetric_sums::Sum;
use symmetric_trees::{GenTable, Generator, Part, PartKind};

fn order_word(order: OrderName) -> &'static str
    ensures { result.now ≡ text.order_word order }
{
    match order {
        OrderName::Path => "path",
        OrderName::PathShort => "pathshort",
        OrderName::LeafPath => "leafpath",
        OrderName::WeightPath => "weightpath",
    }
}

fn symmetry_word(kind: PartKind) -> &'static str
    ensures { result.now ≡ text.symmetry_word kind }
{
    match kind {
        PartKind::Sym => "sym",
        PartKind::Alt => "alt",
        PartKind::Free => "reg",
    }
}

fn part_word(kind: PartKind) -> &'static str
    ensures { result.now ≡ text.part_word kind }
{
    match kind {
        PartKind::Sym => "sym",
        PartKind::Alt => "alt",
        PartKind::Free => "free",
    }
}

// Puts a word behind `out`.
fn write_word(word: &str, out: &mut Vec<u8>) -> Result<(), AllocError>
    ensures { OnOk result (out.new.items ≡ out.old.items ++ word.now) }
{
    out.extend_from_slice(word.as_bytes())?;
    Ok(())
}

// Puts the word and the size of each part behind `out`, with a blank before each.
fn write_parts(parts: &[Part], out: &mut Vec<u8>) -> Result<(), AllocError>
    ensures { OnOk result (out.new.items ≡ out.old.items ++ text.blank_before (text.part_words parts.now)) }
{
    for part in parts {
        out.push(b' ')?;
        write_word(part_word(part.kind), out)?;
        out.push(b' ')?;
        write_number(u64::from(part.size), out)?;
    }
    Ok(())
}

// Puts the word of the first part's kind behind `out`, with a blank before it.
fn write_symmetry(parts: &[Part], out: &mut Vec<u8>) -> Result<(), AllocError>
    ensures { OnOk result (out.new.items ≡ out.old.items ++ text.blank_before (text.symmetry_words parts.now)) }
{
    if let [part, ..] = parts {
        out.push(b' ')?;
        write_word(symmetry_word(part.kind), out)?;
    }
    Ok(())
}

// Puts the line of a generator behind `out`.
fn write_generator(version: u8, generator: &Generator, out: &mut Vec<u8>) -> Result<(), AllocError>
    ensures { OnOk result (out.new.items ≡ out.old.items ++ text.generator_text version generator.now) }
{
    write_word("gen ", out)?;
    write_word(generator.name.as_str(), out)?;
    out.push(b' ')?;
    write_number(u64::from(generator.arity), out)?;
    if version == 2 {
        write_parts(generator.parts.as_slice(), out)?;
    } else {
        write_symmetry(generator.parts.as_slice(), out)?;
    }
    out.push(b'\n')?;
    Ok(())
}

// Puts the line of a weight behind `out`, where it isn't 0.
fn write_weight(generator: &Generator, weight: u32, out: &mut Vec<u8>) -> Result<(), AllocError>
    ensures { OnOk result (out.new.items ≡ out.old.items ++ text.weight_text generator.now weight) }
{
    if weight == 0 {
        return Ok(());
    }
    write_word("weight ", out)?;
    write_word(generator.name.as_str(), out)?;
    out.push(b' ')?;
    write_number(u64::from(weight), out)?;
    out.push(b'\n')?;
    Ok(())
}

// Puts the lines of all generators and their weights behind `out`.
fn write_generators(document: &Document, out: &mut Vec<u8>) -> Result<(), AllocError>
    requires weights { length document.now.weights ≡ length document.now.gens }
    ensures { OnOk result (out.new.items ≡ out.old.items ++ text.generators_text document.now.version document.now.gens document.now.weights) }
{
    for index in 0..document.gens.len() {
        let generator = document.gens.get(index);
        write_generator(document.version, generator, out)?;
        write_weight(generator, document.weights.as_slice()[index as usize], out)?;
    }
    Ok(())
}

// Puts the line of a question behind `out`.
fn write_ask(
    field: Field,
    table: &GenTable,
    kind: &AskKind,
    out: &mut Vec<u8>,
) -> Result<(), AllocError>
    requires fits { AskFits field table.now kind.now }
    ensures { OnOk result (out.new.items ≡ out.old.items ++ text.ask_text field table.now kind.now) }
{
    match kind {
        AskKind::Query(sum) => {
            write_word("query ", out)?;
            write_sum(field, table, sum, out)?;
        }
        AskKind::Same(left, right) => {
            write_word("same ", out)?;
            write_sum(field, table, left, out)?;
            write_word(" = ", out)?;
            write_sum(field, table, right, out)?;
        }
    }
    out.push(b'\n')?;
    Ok(())
}

// Puts the lines of the header, the field and the order behind `out`.
fn write_opening(document: &Document, out: &mut Vec<u8>) -> Result<(), AllocError>
    ensures { OnOk result (out.new.items ≡ out.old.items ++ text.opening_text document.now) }
{
    write_word("operad ", out)?;
    write_number(u64::from(document.version), out)?;
    write_word("\nfield ", out)?;
    write_number(u64::from(document.field.prime()), out)?;
    write_word("\norder ", out)?;
    write_word(order_word(document.order), out)?;
    out.push(b'\n')?;
    Ok(())
}

// Puts the line of a relation behind `out`.
fn write_relation(
    field: Field,
    table: &GenTable,
    relation: &Sum,
    out: &mut Vec<u8>,
) -> Result<(), AllocError>
    requires fits { FitsOver field table.now relation.now }
    ensures { OnOk result (out.new.items ≡ out.old.items ++ text.relation_text field table.now (terms_of relation.now)) }
{
    write_word("rel ", out)?;
    write_sum(field, table, relation, out)?;
    out.push(b'\n')?;
    Ok(())
}

// Puts the lines of the relations behind `out`.
fn write_relations(
    field: Field,
    table: &GenTable,
    relations: &[Sum],
    out: &mut Vec<u8>,
) -> Result<(), AllocError>
    requires fit { All (FitsOver field table.now) relations.now }
    ensures { OnOk result (out.new.items ≡ out.old.items ++ flat_map (λ sum. text.relation_text field table.now (terms_of sum)) relations.now) }
{
    for relation in relations {
        write_relation(field, table, relation, out)?;
    }
    Ok(())
}

// Puts the lines of the questions behind `out`.
fn write_asks(
    field: Field,
    table: &GenTable,
    asks: &[Ask],
    out: &mut Vec<u8>,
) -> Result<(), AllocError>
    requires fit { All (λ ask. AskFits field table.now ask.kind) asks.now }
    ensures { OnOk result (out.new.items ≡ out.old.items ++ flat_map (λ ask. text.ask_text field table.now ask.kind) asks.now) }
{
    for ask in asks {
        write_ask(field, table, &ask.kind, out)?;
    }
    Ok(())
}

/// The text of a document, which has a weight for each generator and whose sums fit its field and its generators: the lines
/// `operad`, `field` and `order`, one for each generator with its weight behind it where that isn't 0, and one for each
/// relation and each question, with one blank between words. The numbers of lines and the tail aren't printed.
/// `AllocError` comes for want of memory alone.
pub fn print_document(alloc: Global, document: &Document) -> Result<Vec<u8>, AllocError>
    requires weights { length document.now.weights ≡ length document.now.gens }
    requires relations { All (FitsOver document.now.field document.now.gens) document.now.rels }
    requires asks { All (λ ask. AskFits document.now.field document.now.gens ask.kind) document.now.asks }
    ensures text { IfOk result (λ found. found.items ≡ text.document_text document.now) }
{
    let mut out = Vec::new(alloc);
    write_opening(document, &mut out)?;
    write_generators(document, &mut out)?;
    write_relations(
        document.field,
        &document.gens,
        document.rels.as_slice(),
        &mut out,
    )?;
    write_asks(
        document.field,
        &document.gens,
        document.asks.as_slice(),
        &mut out,
    )?;
    Ok(out)
}

/// Law: a document that was read may be written.
pub fn read_documents_are_writable()
    ensures law { ReadDocumentsAreWritable }
{}

/// Law: the text of a writable document is read back to the same, apart from the numbers of lines and the tail, whatever its
/// length.
pub fn printed_documents_are_read_back()
    ensures law { PrintedDocumentsAreReadBack }
{}
