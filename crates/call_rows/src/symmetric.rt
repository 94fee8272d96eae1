use crate::checks::is_within;
use rows::{
    RowFail, end_found, end_line, end_number, end_tree, small_number_of, tree_of, trees_of,
    write_before, write_next, write_text,
};
use sqlite_items::Items;
use std::alloc::Global;
use symmetric_trees::{
    GenFail, GenTable, Generator, Name, Part, PartKind, Sign, Tree, arity_of, fill, graft,
    numbered, spelled, spelling_order,
};

// The kind of a part that a word names.
fn kind_of(word: &String) -> Result<PartKind, RowFail> {
    match word.as_str() {
        "sym" => Ok(PartKind::Sym),
        "alt" => Ok(PartKind::Alt),
        "free" => Ok(PartKind::Free),
        _ => Err(RowFail::Refused),
    }
}

// The parts that words name: each by its kind and its size.
fn parts_of(alloc: Global, words: &[String]) -> Result<Items<Part>, RowFail> {
    let mut parts = Items::new(alloc);
    let mut kind = None;
    for word in words {
        kind = match kind {
            None => Some(kind_of(word)?),
            Some(kind) => {
                let size = small_number_of(word)?;
                parts.push(Part { kind, size })?;
                None
            }
        };
    }
    Ok(parts)
}

// The generator that words name: its name, its arity and its parts.
fn generator_of(alloc: Global, words: &[String]) -> Result<Generator, RowFail> {
    let [name, arity, parts @ ..] = words else {
        return Err(RowFail::Refused);
    };
    Ok(Generator {
        name: Name::new(alloc, name.as_str())?,
        arity: small_number_of(arity)?,
        parts: parts_of(alloc, parts)?,
    })
}

fn end_generator(generator: &Generator, out: &mut Vec<u8>) -> Result<(), RowFail> {
    write_text(generator.name.as_str(), out)?;
    write_next(u64::from(generator.arity), out)?;
    for part in generator.parts.as_slice() {
        let kind = match part.kind {
            PartKind::Sym => " sym",
            PartKind::Alt => " alt",
            PartKind::Free => " free",
        };
        write_text(kind, out)?;
        write_next(u64::from(part.size), out)?;
    }
    Ok(end_line("", out)?)
}

fn end_table(table: &GenTable, out: &mut Vec<u8>) -> Result<(), RowFail> {
    for index in 0..table.len() {
        end_generator(table.get(index), out)?;
    }
    Ok(())
}

// Writes what adding a generator gives.
fn write_added(
    alloc: Global,
    added: Result<(), GenFail>,
    out: &mut Vec<u8>,
) -> Result<(), RowFail> {
    match added {
        Ok(()) => Ok(write_text("added", out)?),
        Err(GenFail::NoMemory) => Err(RowFail::NoMemory),
        Err(fail) => Ok(write_text(format!(in alloc; "{fail:?}")?.as_str(), out)?),
    }
}

// Adds a generator to a copy of the table, and writes what is answered and how many generators there are then.
fn add(
    alloc: Global,
    table: &GenTable,
    words: &[String],
    out: &mut Vec<u8>,
) -> Result<(), RowFail> {
    let mut longer = table.copy(alloc)?;
    write_added(alloc, longer.add(alloc, generator_of(alloc, words)?), out)?;
    write_next(u64::from(longer.len()), out)?;
    Ok(end_line("", out)?)
}

// Writes the index of each name.
fn find(table: &GenTable, words: &[String], out: &mut Vec<u8>) -> Result<(), RowFail> {
    for word in words {
        write_before(word.as_str(), out)?;
        match table.find(word.as_str()) {
            Some(index) => end_number(u64::from(index), out)?,
            None => end_line("none", out)?,
        }
    }
    Ok(())
}

// Writes the arity of each tree.
fn arities(
    alloc: Global,
    table: &GenTable,
    words: &[String],
    out: &mut Vec<u8>,
) -> Result<(), RowFail> {
    for word in words {
        let tree = tree_of(alloc, word)?;
        write_before(word.as_str(), out)?;
        end_found(arity_of(&tree, table), out)?;
    }
    Ok(())
}

// Writes the number of leaves of each tree.
fn numbers(alloc: Global, words: &[String], out: &mut Vec<u8>) -> Result<(), RowFail> {
    for word in words {
        let tree = tree_of(alloc, word)?;
        write_before(word.as_str(), out)?;
        end_found(numbered(&tree), out)?;
    }
    Ok(())
}

// Writes the sorted spelling of each tree, behind its sign.
fn spellings(
    alloc: Global,
    table: &GenTable,
    words: &[String],
    out: &mut Vec<u8>,
) -> Result<(), RowFail> {
    for word in words {
        let tree = tree_of(alloc, word)?;
        let Some(_) = arity_of(&tree, table) else {
            return Err(RowFail::Refused);
        };
        let (sign, sorted) = spelled(alloc, table, &tree)?;
        write_before(word.as_str(), out)?;
        write_text(sign_text(sign), out)?;
        end_tree(&sorted, out)?;
    }
    Ok(())
}

/// The text of a sign.
pub fn sign_text(sign: Sign) -> &'static str {
    match sign {
        Sign::Plus => "+",
        Sign::Minus => "-",
    }
}

// Writes the first tree with the others grafted on it.
fn grafted(alloc: Global, words: &[String], out: &mut Vec<u8>) -> Result<(), RowFail> {
    let [tree, inputs @ ..] = words else {
        return Err(RowFail::Refused);
    };
    let tree = tree_of(alloc, tree)?;
    let given = trees_of(alloc, inputs)?;
    let inputs = given.as_slice();
    if !is_within(&tree, inputs.len()) {
        return Err(RowFail::Refused);
    }
    Ok(end_tree(&graft(alloc, &tree, inputs)?, out)?)
}

// Ends a line by a context filled with a tree, on which the inputs are grafted.
fn end_filled(
    alloc: Global,
    context: &Tree,
    tree: &Tree,
    inputs: &[Tree],
    out: &mut Vec<u8>,
) -> Result<(), RowFail> {
    if !is_within(tree, inputs.len()) {
        return Err(RowFail::Refused);
    }
    Ok(end_tree(&fill(alloc, context, tree, inputs)?, out)?)
}

// Writes the first tree, a context, filled with the second one, on which the others are grafted.
fn filled(alloc: Global, words: &[String], out: &mut Vec<u8>) -> Result<(), RowFail> {
    let [context, tree, inputs @ ..] = words else {
        return Err(RowFail::Refused);
    };
    let context = tree_of(alloc, context)?;
    let tree = tree_of(alloc, tree)?;
    let inputs = trees_of(alloc, inputs)?;
    end_filled(alloc, &context, &tree, inputs.as_slice(), out)
}

// Writes how the first tree stands to the second one.
fn compared(alloc: Global, words: &[String], out: &mut Vec<u8>) -> Result<(), RowFail> {
    let [one, other] = words else {
        return Err(RowFail::Refused);
    };
    let order = spelling_order(&tree_of(alloc, one)?, &tree_of(alloc, other)?);
    Ok(end_line(format!(in alloc; "{order:?}")?.as_str(), out)?)
}

/// Answers the calls of `symmetric_trees`. False where it has none of this name.
pub fn answer(
    alloc: Global,
    name: &str,
    words: &[String],
    table: &GenTable,
    out: &mut Vec<u8>,
) -> Result<bool, RowFail> {
    match name {
        "GenTable::add" => add(alloc, table, words, out)?,
        "GenTable::copy" => end_table(&table.copy(alloc)?, out)?,
        "GenTable::find" => find(table, words, out)?,
        "arity_of" => arities(alloc, table, words, out)?,
        "numbered" => numbers(alloc, words, out)?,
        "spelled" => spellings(alloc, table, words, out)?,
        "graft" => grafted(alloc, words, out)?,
        "fill" => filled(alloc, words, out)?,
        "spelling_order" => compared(alloc, words, out)?,
        _ => return Ok(false),
    }
    Ok(true)
}
