ghost use Rattle.std.specs.Prelude.{◌≡◌};
ghost use Rattle.shuffle_sums.specs.Settings.{labels_of};

use crate::adding::added;
use crate::bases;
use crate::inserting::inserted;
use crate::s_elements::s_element_of;
use crate::sums::{spelled_sum, write_sum};
use path_orders::{LeafPath, Path, PathShort, TreeOrder, WeightPath};
use presentation_text::{Document, OrderName, write_number};
use rows::{RowFail, end_line, most_leaves, write_next, write_text};
use shuffle_sums::{Setting, Shelf, weight_order};
use shuffle_trees::Labels;
use std::alloc::Global;

/// A call over sums and a shelf.
#[derive(Clone, Copy, Debug)]
pub enum SumCall {
    /// `SSum::from_sum`
    FromSum,
    /// `SSum::add_scaled`
    AddScaled,
    /// `SSum::insert_at`
    InsertAt,
    /// `s_element`
    SElement,
    /// `Basis::add`
    Add,
    /// `Basis::candidates`
    Candidates,
    /// `Basis::divider`
    Divider,
}

// The order by the weights of the document's generators.
fn weighed(alloc: Global, document: &Document) -> Result<WeightPath, RowFail> {
    if document.weights.len() != document.gens.len() as usize {
        return Err(RowFail::Refused);
    }
    Ok(weight_order(alloc, &document.gens, document.weights.as_slice())?)
}

// Writes the sum that words spell, term by term.
fn summed<O: TreeOrder>(
    alloc: Global,
    setting: &Setting<O>,
    shelf: &mut Shelf,
    words: &[String],
    out: &mut Vec<u8>,
) -> Result<(), RowFail>
    requires own { shelf.old.labels ≡ labels_of setting.now }
{
    let sum = spelled_sum(alloc, setting, shelf, words)?;
    write_sum(alloc, shelf, &sum, out)
}

// The call over a setting and a shelf.
fn call_in<O: TreeOrder>(
    alloc: Global,
    setting: &Setting<O>,
    shelf: &mut Shelf,
    call: SumCall,
    words: &[String],
    out: &mut Vec<u8>,
) -> Result<(), RowFail>
    requires own { shelf.old.labels ≡ labels_of setting.now }
{
    match call {
        SumCall::FromSum => summed(alloc, setting, shelf, words, out),
        SumCall::AddScaled => added(alloc, setting, shelf, words, out),
        SumCall::InsertAt => inserted(alloc, setting, shelf, words, out),
        SumCall::SElement => s_element_of(alloc, setting, shelf, words, out),
        SumCall::Add => bases::kept(alloc, setting, shelf, words, out),
        SumCall::Candidates => bases::candidates(alloc, setting, shelf, words, out),
        SumCall::Divider => bases::divider(alloc, setting, shelf, words, out),
    }
}

// The call over a setting.
fn call_over<O: TreeOrder>(
    alloc: Global,
    setting: &Setting<O>,
    call: SumCall,
    words: &[String],
    out: &mut Vec<u8>,
) -> Result<(), RowFail> {
    let most = most_leaves(setting.labels());
    let mut shelf = Shelf::new(alloc, setting.labels(), most)?;
    call_in(alloc, setting, &mut shelf, call, words, out)
}

// The call over the document's field and generators, and an order.
fn call_by<O: TreeOrder + Drop>(
    alloc: Global,
    document: &Document,
    order: O,
    call: SumCall,
    words: &[String],
    out: &mut Vec<u8>,
) -> Result<(), RowFail> {
    let setting = Setting::new(alloc, document.field, &document.gens, order)?;
    call_over(alloc, &setting, call, words, out)
}

/// The call by the document's order: what the sum is, term by term.
pub fn called(
    alloc: Global,
    document: &Document,
    call: SumCall,
    words: &[String],
    out: &mut Vec<u8>,
) -> Result<(), RowFail> {
    match document.order {
        OrderName::Path => call_by(alloc, document, Path {}, call, words, out),
        OrderName::PathShort => call_by(alloc, document, PathShort {}, call, words, out),
        OrderName::LeafPath => call_by(alloc, document, LeafPath {}, call, words, out),
        OrderName::WeightPath => {
            let order = weighed(alloc, document)?;
            call_by(alloc, document, order, call, words, out)
        }
    }
}

// Writes the arity of each label in a line.
fn write_labels(labels: &Labels, out: &mut Vec<u8>) -> Result<(), RowFail> {
    write_text("labels", out)?;
    for label in 0..labels.len() {
        write_next(u64::from(labels.arity(label)), out)?;
    }
    Ok(end_line("", out)?)
}

// Writes the prime and the number of generators of a setting in a line, and the arities of the labels.
fn write_setting(setting: &Setting<Path>, out: &mut Vec<u8>) -> Result<(), RowFail> {
    write_number(u64::from(setting.field().prime()), out)?;
    write_next(u64::from(setting.table().len()), out)?;
    end_line("", out)?;
    write_labels(setting.labels(), out)
}

/// The prime, the number of generators, and the arities of the labels of the document's setting by `path`.
pub fn setting(
    alloc: Global,
    document: &Document,
    words: &[String],
    out: &mut Vec<u8>,
) -> Result<(), RowFail> {
    let [] = words else {
        return Err(RowFail::Refused);
    };
    let setting = Setting::new(alloc, document.field, &document.gens, Path {})?;
    write_setting(&setting, out)
}

// Writes weights in a line.
fn write_weights(weights: &[u32], out: &mut Vec<u8>) -> Result<(), RowFail> {
    write_text("weights", out)?;
    for weight in weights {
        write_next(u64::from(*weight), out)?;
    }
    Ok(end_line("", out)?)
}

/// The weights of the labels by the document's weights.
pub fn weights(
    alloc: Global,
    document: &Document,
    words: &[String],
    out: &mut Vec<u8>,
) -> Result<(), RowFail> {
    let [] = words else {
        return Err(RowFail::Refused);
    };
    write_weights(weighed(alloc, document)?.weights(), out)
}
