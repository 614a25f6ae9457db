//! What the traces of outcomes show that only the memory model allows.

ghost use Rattle.std.specs.Prelude.{IfOk, OnOk};
ghost use Rattle.explore_command.specs.Telling.{AreReasons, AreRemarks, GrowsBy, IsRemark, TellsWay, TellsWays};
ghost use Rattle.notes.specs.Overtaking.{overtakings};

use crate::architecture::reserving::ReservationNote;
use architecture_outcomes::{Outcome, Way};
use notes::{Overtaking, OvertakingNote, overtakings};
use std::alloc::{AllocError, Global};
use std::fmt::Display;
use trace_recorder::Trace;

/// Of each outcome of the memory model alone which operations of its trace overtake others, and what would forbid it, a
/// line each, or that none does.
pub(crate) fn remarks_on(alloc: Global, outcomes: &[Outcome]) -> Result<Vec<u8>, AllocError>
    ensures { IfOk result (λ lines. TellsWays 1 outcomes.now lines.items) }
{
    let mut lines = Vec::new(alloc);
    let mut rest = outcomes;
    let mut number: usize = 1;
    while let [first, tail @ ..] = rest {
        add_way(alloc, &mut lines, number, &first.way)?;
        rest = tail;
        number += 1;
    }
    Ok(lines)
}

fn add_way(alloc: Global, lines: &mut Vec<u8>, number: usize, way: &Way) -> Result<(), AllocError>
    ensures { OnOk result (GrowsBy lines.old.items lines.new.items (TellsWay number way.now)) }
{
    match way {
        Way::Machine(_) | Way::Model(_) => Ok(()),
        Way::ModelAlone(trace) => add_reasons(alloc, lines, number, trace),
    }
}

/// Which operations overtake others, or that none does.
fn add_reasons(
    alloc: Global,
    lines: &mut Vec<u8>,
    number: usize,
    trace: &Trace,
) -> Result<(), AllocError>
    ensures { OnOk result (GrowsBy lines.old.items lines.new.items (AreReasons number (overtakings trace.now.history))) }
{
    let pairs = overtakings(alloc, trace)?;
    if pairs.is_empty() {
        let remark = ReservationNote::of(alloc, trace)?;
        return add_remark(alloc, lines, number, remark);
    }
    add_overtakings(alloc, lines, number, trace, &pairs)
}

fn add_overtakings(
    alloc: Global,
    lines: &mut Vec<u8>,
    number: usize,
    trace: &Trace,
    pairs: &[Overtaking],
) -> Result<(), AllocError>
    ensures { OnOk result (GrowsBy lines.old.items lines.new.items (AreRemarks number pairs.now)) }
{
    let mut rest = pairs;
    while let [first, tail @ ..] = rest {
        let overtaking = *first;
        add_remark(alloc, lines, number, OvertakingNote { trace, overtaking })?;
        rest = tail;
    }
    Ok(())
}

fn add_remark<D: Display + Drop>(
    alloc: Global,
    lines: &mut Vec<u8>,
    number: usize,
    remark: D,
) -> Result<(), AllocError>
    ensures { OnOk result (GrowsBy lines.old.items lines.new.items (IsRemark number)) }
{
    let remark = format!(in alloc; "{remark}")?;
    let line = format!(in alloc; "outcome {number}: {remark}\n")?;
    lines.extend_from_slice(line.as_bytes())
}
