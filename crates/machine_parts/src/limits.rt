//! The limits of a machine, the room that an act needs, and what comes of it.

ghost use Rattle.std.specs.Prelude.{◌≡◌, ◌+◌, ◌<◌, ◌≤◌, ◌^◌, ℕ, IsOk, IsTrue, OnOk, false, length};
ghost use Rattle.machine_model.specs.declared.act.Act.{Act};
ghost use Rattle.machine_model.specs.Changing.{next_place, outcome_of_act};
ghost use Rattle.machine_model.specs.Changing.{outcome_by as spec_outcome_by};
ghost use Rattle.machine_model.specs.Events.{entries_by as spec_entries_by, is_limited as spec_is_limited};
ghost use Rattle.machine_model.specs.Ready.{IsReadyAct, IsSound};
ghost use Rattle.machine_model.specs.Views.{node_at};
ghost use Rattle.machine_parts.specs.Needs.{HasNeeded, needs_of};
ghost use Rattle.store_buffer.specs.Entry.{entry_of};
ghost use Rattle.store_buffer.specs.Groups.{drainable, oldest};

use crate::parts::Parts;
use hart::Status;
use machine_model::Act;
use machine_types::{MAX_CHANGES, MAX_ENTRIES, Outcome};
use std::alloc::AllocError;

/// Whether a limit is met.
pub(crate) fn is_limited(parts: &Parts, hart: u8, act: &Act) -> bool
    requires sound { IsSound parts.now.state }
    requires hart { hart < length parts.now.state.views.nodes }
    ensures exact { result ≡ spec_is_limited parts.now.state hart act.now }
    ensures fits { result ≡ false → next_place parts.now.state hart + spec_entries_by act.now ≤ MAX_ENTRIES }
{
    let entries = parts.trace.entries(hart as usize).len();
    parts.changes >= MAX_CHANGES || entries + entries_by(act) > MAX_ENTRIES
}

// How many entries an act adds to its hart's list.
fn entries_by(act: &Act) -> usize
    ensures exact { result ≡ spec_entries_by act.now }
    ensures small { result < 2 ^ 32 }
{
    match *act {
        Act::Retire { .. } => 1,
        Act::Local(count) => count as usize,
        Act::Stop(_) | Act::Miss { .. } | Act::Drain(_) | Act::Evict(_) | Act::Deliver(_) => 0,
    }
}

/// What comes of an act, before it is performed.
pub(crate) fn outcome_of(parts: &Parts, hart: u8, act: &Act) -> Outcome
    requires hart { hart < length parts.now.state.views.nodes }
    ensures { result ≡ outcome_of_act parts.now.state hart act.now }
{
    match act {
        Act::Stop(code) => Outcome::Stopped(*code),
        Act::Retire { instr, .. } => {
            outcome_by(Status::after(instr, &parts.nodes[hart as usize].hart.regs))
        }
        Act::Miss { line, .. } => Outcome::Missed(*line),
        Act::Drain(_) => Outcome::Drained,
        Act::Evict(_) => Outcome::Evicted,
        Act::Deliver(_) => Outcome::Delivered,
        Act::Local(_) => Outcome::Retired,
    }
}

// What comes of an instruction that leaves its hart with this status.
fn outcome_by(status: Status) -> Outcome
    ensures { result ≡ spec_outcome_by status }
{
    match status {
        Status::Running => Outcome::Retired,
        Status::Stopped(code) => Outcome::Stopped(code),
        Status::Exited(code) => Outcome::Exited(code),
    }
}

// How much an act adds to the trace at most.
#[derive(Clone, Copy)]
struct Growth {
    entries: usize,
    performed: usize,
    log: usize,
}

fn growth_by(parts: &Parts, hart: u8, act: &Act) -> Growth
    requires sound { IsSound parts.now.state }
    requires hart { hart < length parts.now.state.views.nodes }
    requires ready { IsReadyAct hart act.now parts.now.state }
    ensures entries { result.entries ≡ (needs_of parts.now.state hart act.now).entries }
    ensures performed { result.performed ≡ (needs_of parts.now.state hart act.now).performed }
    ensures log { result.log ≡ (needs_of parts.now.state hart act.now).log }
{
    let (entries, performed, log) = match act {
        Act::Stop(_) => (0, 0, 0),
        Act::Retire { .. } => (1, 1, 0),
        Act::Miss { .. } | Act::Evict(_) => (0, 0, 1),
        Act::Drain(word) => (0, waiting(parts, hart, *word), 0),
        Act::Deliver(_) => (0, 0, 1 + parts.nodes.len()),
        Act::Local(count) => (*count as usize, 0, 0),
    };
    Growth {
        entries,
        performed,
        log,
    }
}

// How many stores the word's entry in the oldest group has.
fn waiting(parts: &Parts, hart: u8, word: u32) -> usize
    requires hart { hart < length parts.now.state.views.nodes }
    requires drainable { IsTrue (drainable word (node_at parts.now.state hart).buffer) }
    ensures { result ≡ length (entry_of word (oldest (node_at parts.now.state hart).buffer)).ops }
{
    parts.nodes[hart as usize].buffer.entry(word).ops.len()
}

/// Makes room in the trace for what the act adds.
pub(crate) fn reserve(parts: &mut Parts, hart: u8, act: &Act) -> Result<(), AllocError>
    requires sound { IsSound parts.old.state }
    requires hart { hart < length parts.old.state.views.nodes }
    requires ready { IsReadyAct hart act.now parts.old.state }
    ensures same { parts.new.state ≡ parts.old.state }
    ensures room { OnOk result (HasNeeded hart (needs_of parts.old.state hart act.now) parts.new.room) }
    ensures stop { (code : ℕ) → act.now ≡ Act.Stop code → IsOk result }
{
    let growth = growth_by(parts, hart, act);
    parts.trace.reserve(hart as usize, growth.entries, growth.performed, growth.log)
}
