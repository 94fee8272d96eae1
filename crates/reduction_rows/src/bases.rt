ghost use Rattle.std.specs.Prelude.{◌≡◌, ◌<◌, IfOk, IsTrue, length};
ghost use Rattle.shuffle_sums.specs.Settings.{labels_of};
ghost use Rattle.shuffle_sums.specs.Shelves.{KeepsShelf};
ghost use Rattle.division.specs.Bases.{AllStand, IsIndexedBy, IsMonicSum};

use crate::adding::plus_of;
use crate::sums::spelled_sum;
use crate::terms::write_terms;
use division::Basis;
use path_orders::TreeOrder;
use presentation_text::write_number;
use rows::{RowFail, end_line, shuffle_of, small_number_of, write_next, write_text};
use shuffle_sums::{SSum, Setting, Shelf};
use shuffle_trees::STree;
use std::alloc::Global;

// Whether the first term of the sum has the coefficient 1.
fn is_monic<O: TreeOrder>(sum: &SSum<O>) -> bool
    ensures monic { IsTrue result → IsMonicSum sum.now }
{
    match sum.lead() {
        Some(first) => first.0 == 1,
        None => false,
    }
}

// The basis of the sum that words spell.
fn basis_of<O: TreeOrder>(
    alloc: Global,
    setting: &Setting<O>,
    shelf: &mut Shelf,
    words: &[String],
) -> Result<Basis<O>, RowFail>
    requires own { shelf.old.labels ≡ labels_of setting.now }
    ensures indexed { IfOk result (IsIndexedBy shelf.new) }
    ensures one { IfOk result (λ basis. length basis.elements ≡ 1) }
    ensures stands { IfOk result (λ basis. AllStand shelf.new basis.elements) }
    ensures labels { IfOk result (λ basis. shelf.new.labels ≡ labels_of setting.now) }
{
    let sum = spelled_sum(alloc, setting, shelf, words)?;
    if !is_monic(&sum) {
        return Err(RowFail::Refused);
    }
    let mut basis = Basis::new(alloc);
    basis.add(alloc, shelf, sum)?;
    Ok(basis)
}

// Gives the only element of the basis the sum of these terms as tail, and writes its residues and ids.
fn keep_tail<O: TreeOrder>(
    alloc: Global,
    setting: &Setting<O>,
    shelf: &mut Shelf,
    basis: &mut Basis<O>,
    words: &[String],
    out: &mut Vec<u8>,
) -> Result<(), RowFail>
    requires own { shelf.old.labels ≡ labels_of setting.now }
    requires one { length basis.old.elements ≡ 1 }
{
    let tail = spelled_sum(alloc, setting, shelf, words)?;
    basis.set_tail(alloc, 0, tail)?;
    for element in basis.elements() {
        write_terms(element.terms(), out)?;
    }
    Ok(())
}

/// Keeps the sum of the terms before `+` in a basis, and gives it that of the terms behind as tail: the residues and ids of the
/// element.
pub fn kept<O: TreeOrder>(
    alloc: Global,
    setting: &Setting<O>,
    shelf: &mut Shelf,
    words: &[String],
    out: &mut Vec<u8>,
) -> Result<(), RowFail>
    requires own { shelf.old.labels ≡ labels_of setting.now }
{
    let (ones, behind) = words.split_at(plus_of(words));
    let [_, others @ ..] = behind else {
        return Err(RowFail::Refused);
    };
    let mut basis = basis_of(alloc, setting, shelf, ones)?;
    keep_tail(alloc, setting, shelf, &mut basis, others, out)
}

// Writes positions in a line.
fn write_positions(positions: &[u32], out: &mut Vec<u8>) -> Result<(), RowFail> {
    write_text("positions", out)?;
    for position in positions {
        write_next(u64::from(*position), out)?;
    }
    Ok(end_line("", out)?)
}

/// The positions, in the basis of the sum of the terms behind them, of elements that begin with a label and have an arity.
pub fn candidates<O: TreeOrder>(
    alloc: Global,
    setting: &Setting<O>,
    shelf: &mut Shelf,
    words: &[String],
    out: &mut Vec<u8>,
) -> Result<(), RowFail>
    requires own { shelf.old.labels ≡ labels_of setting.now }
{
    let [label, arity, terms @ ..] = words else {
        return Err(RowFail::Refused);
    };
    let label = u16::from(small_number_of(label)?);
    let arity = small_number_of(arity)?;
    let basis = basis_of(alloc, setting, shelf, terms)?;
    write_positions(basis.candidates(shelf, label, arity), out)
}

// Writes the position of the first element whose leading tree divides a tree, and its first place; `none` where there is none.
fn write_divider<O: TreeOrder>(
    alloc: Global,
    shelf: &Shelf,
    basis: &Basis<O>,
    tree: &STree,
    out: &mut Vec<u8>,
) -> Result<(), RowFail>
    requires stands { AllStand shelf.now basis.now.elements }
    requires indexed { IsIndexedBy shelf.now basis.now }
{
    let Some((position, place)) = basis.divider(alloc, shelf, tree)? else {
        return Ok(end_line("none", out)?);
    };
    write_number(u64::from(position), out)?;
    write_text(" at", out)?;
    for vertex in place.vertices() {
        write_next(u64::from(*vertex), out)?;
    }
    Ok(end_line("", out)?)
}

/// What divides the tree before the terms: the position, in the basis of their sum, of the first element whose leading tree does,
/// and the first place where it does; `none` where there is no such element.
pub fn divider<O: TreeOrder>(
    alloc: Global,
    setting: &Setting<O>,
    shelf: &mut Shelf,
    words: &[String],
    out: &mut Vec<u8>,
) -> Result<(), RowFail>
    requires own { shelf.old.labels ≡ labels_of setting.now }
{
    let [word, terms @ ..] = words else {
        return Err(RowFail::Refused);
    };
    let basis = basis_of(alloc, setting, shelf, terms)?;
    write_divider(alloc, shelf, &basis, &shuffle_of(alloc, word)?, out)
}
