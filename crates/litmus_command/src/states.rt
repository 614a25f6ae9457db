//! The final states of a test.
ghost use Rattle.std.specs.Prelude.{◌≡◌, ◌≤◌, [], length, IfErr, IfOk, OnOk};
ghost use Rattle.litmus_command.specs.States as states;

use crate::fault::Halt;
use crate::rows::{counts, row_of, stopped};
use architecture_outcomes::{Outcome, Way};
use litmus_answers::Layout;
use litmus_parts::Step;
use std::alloc::Global;

/// Which outcomes are looked at.
#[derive(Clone, Copy)]
pub(crate) enum Of {
    All,
    /// Those to which the machine comes.
    Machine,
}

fn is_of(of: Of, way: &Way) -> bool
    ensures { result ≡ states.is_of of way.now }
{
    match (of, way) {
        (Of::All, _) | (Of::Machine, Way::Machine(_)) => true,
        (Of::Machine, Way::ModelAlone(_) | Way::Model(_)) => false,
    }
}

/// Adds the state of an outcome, if it counts.
#[tactic(auto, using(crate::proofs::Adding::pushed))]
fn add(
    alloc: Global,
    layout: &Layout,
    filter: &Option<Vec<Step>>,
    outcome: &Outcome,
    rows: &mut Vec<Vec<u32>>,
) -> Result<(), Halt>
    requires { length layout.now.names.items ≤ 64 }
    ensures added { OnOk result (states.plain rows.new.items ≡ states.added layout.now filter.now (states.plain rows.old.items) outcome.now) }
    ensures stop { IfErr result (states.IsStopOf outcome.now) }
{
    if let Some((hart, cause)) = stopped(&outcome.harts) {
        return Err(Halt::Stops { hart, cause });
    }
    let row = row_of(alloc, &layout.told, &outcome.harts, &outcome.words)?;
    if !counts(alloc, layout, filter, &row)? {
        return Ok(());
    }
    match rows.push(row) {
        Ok(()) => Ok(()),
        Err(_) => Err(Halt::NoMemory),
    }
}

/// The states of outcomes that count, in their order.
#[tactic(auto, using(crate::proofs::Stopping::of_first))]
fn found(
    alloc: Global,
    layout: &Layout,
    filter: &Option<Vec<Step>>,
    outcomes: &[Outcome],
    of: Of,
) -> Result<Vec<Vec<u32>>, Halt>
    requires { length layout.now.names.items ≤ 64 }
    ensures found { IfOk result (λ rows. states.plain rows.items ≡ states.found layout.now filter.now of [] outcomes.now) }
    ensures stop { IfErr result (states.IsStopIn outcomes.now) }
{
    let mut rows = Vec::new(alloc);
    let mut rest = outcomes;
    while let [first, tail @ ..] = rest {
        if is_of(of, &first.way) {
            add(alloc, layout, filter, first, &mut rows)?;
        }
        rest = tail;
    }
    Ok(rows)
}

/// The states of outcomes that count, in order, each once; none where a hart stops.
pub(crate) fn states_of(
    alloc: Global,
    layout: &Layout,
    filter: &Option<Vec<Step>>,
    outcomes: &[Outcome],
    of: Of,
) -> Result<Vec<Vec<u32>>, Halt>
    requires { length layout.now.names.items ≤ 64 }
    ensures states { IfOk result (λ rows. states.AreStates layout.now filter.now of outcomes.now rows.items) }
    ensures stop { IfErr result (states.IsStopIn outcomes.now) }
{
    let mut rows = found(alloc, layout, filter, outcomes, of)?;
    rows.sort_unstable();
    rows.dedup();
    Ok(rows)
}
