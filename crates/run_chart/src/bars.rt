//! The bars of a chart: what each cache holds.
ghost use Rattle.std.specs.Prelude.{◌≡◌, ◌≤◌, ◌<◌, ◌++◌, OnOk};
ghost use Rattle.run_chart.specs.Bars as bars;

use crate::markup::Markup;
use crate::plan::Plan;
use crate::rows::{Copied, Row};
use crate::shapes::{Hold, put_bar};
use std::alloc::AllocError;

fn rank_of(hold: Hold) -> u8
    ensures { result ≡ bars.rank_of hold }
{
    match hold {
        Hold::Nothing => 0,
        Hold::Branch => 1,
        Hold::Trunk => 2,
        Hold::Dirty => 3,
    }
}

/// What is held of a line of memory, by the first copy that tells it, or else what was before.
fn held(line: u32, copies: &[Copied], before: Hold) -> Hold
    ensures { result ≡ bars.held line copies.now before }
{
    let mut rest = copies;
    while let [copy, tail @ ..] = rest {
        if copy.line == line {
            return copy.hold;
        }
        rest = tail;
    }
    before
}

/// What a hart's cache holds of a line of memory behind a row.
fn held_behind(row: &Row, hart: u8, line: u32, before: Hold) -> Hold
    ensures { result ≡ bars.held_behind row.now hart line before }
{
    if row.hart == hart {
        held(line, row.copies.as_slice(), before)
    } else {
        before
    }
}

/// The line on which a chart of these rows ends.
pub(crate) fn bottom(rows: &[Row]) -> u16
    ensures { result ≡ bars.bottom 0 rows.now }
{
    let mut line = 0;
    let mut rest = rows;
    while let [row, tail @ ..] = rest {
        line = row.end;
        rest = tail;
    }
    line
}

/// What a bar shows of: a line of memory in a hart's cache, and which of the lane's bars it is.
#[derive(Clone, Copy)]
pub(crate) struct Place {
    pub hart: u8,
    pub line: u32,
    pub column: u64,
}

/// The bars of a line of memory in a hart's cache, a new one wherever what is held changes.
pub(crate) fn put_bars(
    svg: &mut Markup,
    plan: &Plan,
    place: Place,
    rows: &[Row],
    bottom: u16,
) -> Result<(), AllocError>
    requires { place.column ≤ 1048576 }
    ensures { OnOk result (svg.new ≡ svg.old ++ bars.bars plan.now place bottom 0 Hold.Nothing rows.now) }
{
    let mut from = 0;
    let mut hold = Hold::Nothing;
    let mut rest = rows;
    while let [row, tail @ ..] = rest {
        let now = held_behind(row, place.hart, place.line, hold);
        if rank_of(now) != rank_of(hold) {
            let lines = (from as u64, row.line as u64);
            put_bar(svg, plan, place.hart, place.column, lines, hold)?;
            from = row.line;
            hold = now;
        }
        rest = tail;
    }
    let lines = (from as u64, bottom as u64);
    put_bar(svg, plan, place.hart, place.column, lines, hold)
}
