//! All columns of a test.
ghost use Rattle.std.specs.Prelude.{◌≡◌, ◌<◌, ◌∷◌, [], Ok};
ghost use Rattle.litmus_parts.specs.Rows as rows;
ghost use Rattle.litmus_parts.specs.Stops.{Adds, Gives};

use crate::rows::{Item, head_at, instruction_at, is_end, label_at};
use crate::stop::{Cause, Stop};
use std::alloc::Global;
use text_words::{Name, skip_blanks};

/// No cell has more labels.
const MOST_LABELS: u32 = 16;

/// No test has more rows.
const MOST_ROWS: u32 = 1000;

/// Adds a label, behind which a text stands.
fn put_label<'a>(
    hart: u8,
    left: usize,
    label: (Name, &'a [u8]),
    items: &mut Vec<Item>,
) -> Result<&'a [u8], Stop>
    ensures { Adds (λ x. x.now) items.old.items items.new.items result (Ok (Item.Label hart label.entry.0 left ∷ [], label.entry.1.now)) }
{
    let (name, rest) = label;
    match items.push(Item::Label { hart, name, left }) {
        Ok(()) => Ok(rest),
        Err(_) => Err(Stop::Memory),
    }
}

/// Adds the labels at the front of a cell, and answers what stands behind them.
fn labels_at<'a>(hart: u8, bytes: &'a [u8], items: &mut Vec<Item>) -> Result<&'a [u8], Stop>
    ensures { Adds (λ x. x.now) items.old.items items.new.items result (rows.labels_at hart 16 bytes.now) }
{
    let mut rest = bytes;
    for taken in 0..MOST_LABELS {
        let left = skip_blanks(rest).len();
        match label_at(rest) {
            None => return Ok(rest),
            Some(label) => match put_label(hart, left, label, items) {
                Ok(later) => rest = later,
                Err(stop) => return Err(stop),
            },
        }
    }
    Err(Stop::at(Cause::FewLabels, rest))
}

/// Adds what a cell has, and answers what stands behind the mark that ends it.
#[tactic(auto, unfolding(crate::specs::Rows::cell_at))]
fn cell_at<'a>(hart: u8, end: u8, bytes: &'a [u8], items: &mut Vec<Item>) -> Result<&'a [u8], Stop>
    ensures { Adds (λ x. x.now) items.old.items items.new.items result (rows.cell_at hart end bytes.now) }
{
    match labels_at(hart, bytes, items) {
        Ok(rest) => instruction_at(hart, end, rest, items),
        Err(stop) => Err(stop),
    }
}

/// The mark that ends the cell of a hart.
fn end_of(hart: u8, harts: u8) -> u8
    requires { hart < harts }
    ensures { result ≡ rows.end_of hart harts }
{
    if hart + 1 == harts { b';' } else { b'|' }
}

/// Adds what a row has, a cell for each hart.
fn row_at<'a>(harts: u8, bytes: &'a [u8], items: &mut Vec<Item>) -> Result<&'a [u8], Stop>
    ensures { Adds (λ x. x.now) items.old.items items.new.items result (rows.row_at harts harts bytes.now) }
{
    let mut rest = bytes;
    for hart in 0..harts {
        match cell_at(hart, end_of(hart, harts), rest, items) {
            Ok(later) => rest = later,
            Err(stop) => return Err(stop),
        }
    }
    Ok(rest)
}

/// Adds what the rows have, up to what is asked.
fn rows_at<'a>(harts: u8, bytes: &'a [u8], items: &mut Vec<Item>) -> Result<&'a [u8], Stop>
    ensures { Adds (λ x. x.now) items.old.items items.new.items result (rows.rows_at harts 1000 bytes.now) }
{
    let mut rest = bytes;
    for taken in 0..MOST_ROWS {
        if is_end(rest) {
            return Ok(rest);
        }
        match row_at(harts, rest, items) {
            Ok(later) => rest = later,
            Err(stop) => return Err(stop),
        }
    }
    Err(Stop::at(Cause::FewRows, rest))
}

/// What the columns of so many harts have, and what stands behind the last row.
#[tactic(auto, using(crate::proofs::Reading::onto_none))]
fn columns_of(alloc: Global, harts: u8, bytes: &[u8]) -> Result<(u8, Vec<Item>, &[u8]), Stop>
    ensures { Gives (λ x. ((x.0, x.1.items), x.2.now)) result (rows.columns_of harts bytes.now) }
{
    let mut items = Vec::new(alloc);
    match rows_at(harts, bytes, &mut items) {
        Ok(rest) => Ok((harts, items, rest)),
        Err(stop) => Err(stop),
    }
}

/// How many harts the head names, what their columns have, row by row, and what stands behind the last row.
#[tactic(auto, unfolding(crate::specs::Rows::columns_at))]
pub fn columns_at(alloc: Global, bytes: &[u8]) -> Result<(u8, Vec<Item>, &[u8]), Stop>
    ensures { Gives (λ x. ((x.0, x.1.items), x.2.now)) result (rows.columns_at bytes.now) }
{
    match head_at(bytes) {
        Ok((harts, rest)) => columns_of(alloc, harts, rest),
        Err(stop) => Err(stop),
    }
}
