ghost use Rattle.std.specs.Prelude.{◌≡◌, ◌<◌, ◌++◌, IfOk, OnOk};
ghost use Rattle.std.specs.Fmt.{decimal};
ghost use Rattle.std.specs.List.{All};
ghost use Rattle.labelled_trees.specs.Meaning.{tree_of};
ghost use Rattle.symmetric_trees.specs.Trees.{Fits};
ghost use Rattle.symmetric_sums.specs.Terms.{HaveResidues, terms_of};
ghost use Rattle.presentation_text.specs.TreeText.{tree_text};
ghost use Rattle.presentation_text.specs.SumText as text;
ghost use Rattle.presentation_text.specs.Laws.{PrintedSumsAreReadBack, PrintedTreesAreReadBack};

use labelled_trees::Tree;
use prime_field::Field;
use std::alloc::{AllocError, Global};
use symmetric_sums::{Sum, Term};
use symmetric_trees::GenTable;

/// Puts the decimal digits of a number behind `out`, without a `String` in between. `AllocError` comes for want of
/// memory alone; `out` may then hold a part of the digits.
pub fn write_number(number: u64, out: &mut Vec<u8>) -> Result<(), AllocError>
    ensures digits { OnOk result (out.new.items ≡ out.old.items ++ decimal number) }
{
    if number >= 10 {
        write_number(number / 10, out)?;
    }
    out.push(b'0' + (number % 10) as u8)?;
    Ok(())
}

/// Puts the text of a tree behind `out`. Nothing is allocated but what `out` grows by.
/// `AllocError` comes for want of memory alone; `out` may then hold a part of the text.
pub fn write_tree(table: &GenTable, tree: &Tree, out: &mut Vec<u8>) -> Result<(), AllocError>
    requires fits { Fits table.now (tree_of tree.now) }
    ensures text { OnOk result
        (out.new.items ≡ out.old.items ++ tree_text table.now (tree_of tree.now)) }
{
    match tree {
        Tree::Leaf(number) => write_number(u64::from(*number), out),
        Tree::Node(generator, inputs) => {
            out.extend_from_slice(table.get(*generator).name.as_str().as_bytes())?;
            let mut mark = b'(';
            for input in inputs.as_slice() {
                out.push(mark)?;
                write_tree(table, input, out)?;
                mark = b',';
            }
            out.push(b')')?;
            Ok(())
        }
    }
}

/// The text of a tree. `AllocError` comes for want of memory alone.
pub fn print_tree(alloc: Global, table: &GenTable, tree: &Tree) -> Result<Vec<u8>, AllocError>
    requires fits { Fits table.now (tree_of tree.now) }
    ensures text { IfOk result (λ found. found.items ≡ tree_text table.now (tree_of tree.now)) }
{
    let mut out = Vec::new(alloc);
    write_tree(table, tree, &mut out)?;
    Ok(out)
}

/// Law: the text of a tree has the tree's tokens, where the names are words.
pub fn printed_trees_are_read_back()
    ensures law { PrintedTreesAreReadBack }
{}

// Whether a residue is printed as a negative number.
fn is_negative(field: Field, coef: u32) -> bool
    requires { coef < field }
    ensures { result ≡ text.is_negative field coef }
{
    field.signed(coef) < 0
}

// The absolute value of the number as which a residue is printed.
fn magnitude(field: Field, coef: u32) -> u64
    requires { coef < field }
    ensures { result ≡ text.magnitude field coef }
{
    field.signed(coef).unsigned_abs()
}

// Puts a number and '*' behind `out`, or nothing for 1.
fn write_factor(number: u64, out: &mut Vec<u8>) -> Result<(), AllocError>
    ensures { OnOk result (out.new.items ≡ out.old.items ++ text.factor_text number) }
{
    if number == 1 {
        return Ok(());
    }
    write_number(number, out)?;
    out.push(b'*')?;
    Ok(())
}

// Puts a term behind `out`, without its sign.
fn write_term(
    field: Field,
    table: &GenTable,
    term: &Term,
    out: &mut Vec<u8>,
) -> Result<(), AllocError>
    requires residue { term.now.coef < field }
    requires fits { Fits table.now (tree_of term.now.tree) }
    ensures { OnOk result (out.new.items ≡ out.old.items ++ text.term_text field table.now (term.now.coef, tree_of term.now.tree)) }
{
    write_factor(magnitude(field, term.coef), out)?;
    write_tree(table, &term.tree, out)
}

// Puts the sign of a term that isn't the first one behind `out`, between blanks.
fn write_sign(field: Field, coef: u32, out: &mut Vec<u8>) -> Result<(), AllocError>
    requires { coef < field }
    ensures { OnOk result (out.new.items ≡ out.old.items ++ text.sign_text field coef) }
{
    out.push(b' ')?;
    out.push(if is_negative(field, coef) { b'-' } else { b'+' })?;
    out.push(b' ')?;
    Ok(())
}

// Puts terms behind `out`, each with its sign between blanks.
fn write_further(
    field: Field,
    table: &GenTable,
    terms: &[Term],
    out: &mut Vec<u8>,
) -> Result<(), AllocError>
    requires residues { HaveResidues field terms.now }
    requires fit { All (λ term. Fits table.now (tree_of term.tree)) terms.now }
    ensures { OnOk result (out.new.items ≡ out.old.items ++ text.further_text field table.now (terms_of terms.now)) }
{
    for term in terms {
        write_sign(field, term.coef, out)?;
        write_term(field, table, term, out)?;
    }
    Ok(())
}

// Puts the first term of a sum behind `out`, with '-' before it where its number is negative.
fn write_first(
    field: Field,
    table: &GenTable,
    term: &Term,
    out: &mut Vec<u8>,
) -> Result<(), AllocError>
    requires residue { term.now.coef < field }
    requires fits { Fits table.now (tree_of term.now.tree) }
    ensures { OnOk result (out.new.items ≡ out.old.items ++ text.first_text field table.now (term.now.coef, tree_of term.now.tree)) }
{
    if is_negative(field, term.coef) {
        out.push(b'-')?;
    }
    write_term(field, table, term, out)
}

/// Puts the text of a sum behind `out`: the terms with " + " or " - " between them, each a number, '*' and a tree, where
/// the number 1 and its '*' are left out; `0` for the sum without terms. A residue of more than half of the prime is
/// printed as the negative number that is the prime less. The residues are of the field, and the trees fit the table.
/// `AllocError` comes for want of memory alone; `out` may then hold a part of the text.
pub fn write_sum(
    field: Field,
    table: &GenTable,
    sum: &Sum,
    out: &mut Vec<u8>,
) -> Result<(), AllocError>
    requires residues { HaveResidues field sum.now }
    requires fit { All (λ term. Fits table.now (tree_of term.tree)) sum.now }
    ensures text { OnOk result (out.new.items ≡ out.old.items ++ text.sum_text field table.now (terms_of sum.now)) }
{
    match sum.terms() {
        [] => {
            out.push(b'0')?;
            Ok(())
        }
        [first, others @ ..] => {
            write_first(field, table, first, out)?;
            write_further(field, table, others, out)
        }
    }
}

/// The text of a sum, as `write_sum` puts it. The residues are of the field, and the trees fit the table.
/// `AllocError` comes for want of memory alone.
pub fn print_sum(
    alloc: Global,
    field: Field,
    table: &GenTable,
    sum: &Sum,
) -> Result<Vec<u8>, AllocError>
    requires residues { HaveResidues field sum.now }
    requires fit { All (λ term. Fits table.now (tree_of term.tree)) sum.now }
    ensures text { IfOk result (λ found. found.items ≡ text.sum_text field table.now (terms_of sum.now)) }
{
    let mut out = Vec::new(alloc);
    write_sum(field, table, sum, &mut out)?;
    Ok(out)
}

/// Law: the text of a sum is read back to the sum, where the names are words.
pub fn printed_sums_are_read_back()
    ensures law { PrintedSumsAreReadBack }
{}
