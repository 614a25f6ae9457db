//! What an instruction that retires changes.

ghost use Rattle.std.specs.Prelude.{◌≡◌, ◌<◌, OnErr, OnOk, length, slice_index};
ghost use Rattle.machine_types.specs.declared.limits.TheConstants.{MAX_ENTRIES};
ghost use Rattle.machine_model.specs.declared.act.Act.TheVariants as act;
ghost use Rattle.machine_model.specs.Changing.{does, next_place, retired, stopped, with_halt};
ghost use Rattle.machine_model.specs.Ready.{IsReadyDeed, IsSound};
ghost use Rattle.machine_parts.specs.Needs.{HasNeeded, needs_of};
ghost use Rattle.trace_recorder.specs.History.{entries_of};

use super::deed::carry_out;
use crate::parts::Parts;
use hart::{Retired, Status};
use machine_model::Deed;
use rv32_decode::Instr;
use std::alloc::AllocError;
use trace_recorder::Trace;

/// The instruction retires with its entry, and does its deed. An error leaves everything as it was.
pub(crate) fn retire(
    parts: &mut Parts,
    hart: u8,
    entry: &Retired,
    instr: &Instr,
    deed: &Deed,
) -> Result<(), AllocError>
    requires sound { IsSound parts.old.state }
    requires hart { hart < length parts.old.state.views.nodes }
    requires few { next_place parts.old.state hart < MAX_ENTRIES }
    requires room { HasNeeded hart (needs_of parts.old.state hart (act.Retire entry.now instr.now deed.now)) parts.old.room }
    requires ready { IsReadyDeed hart deed.now parts.old.state }
    ensures ok { OnOk result (parts.new.state ≡ retired hart entry.now instr.now (does parts.old.state.views.config.model hart deed.now parts.old.state)) }
    ensures err { OnErr result (parts.new.state ≡ parts.old.state) }
{
    carry_out(parts, hart, deed)?;
    move_on(parts, hart, entry, instr);
    Ok(())
}

// The hart moves on, and its list has one more entry.
fn move_on(parts: &mut Parts, hart: u8, entry: &Retired, instr: &Instr)
    requires hart { hart < length parts.old.state.views.nodes }
    requires entries { hart < length parts.old.state.trace.entries }
    requires statuses { hart < length parts.old.state.trace.statuses }
    requires few { length (entries_of parts.old.state.trace hart) < MAX_ENTRIES }
    requires room { 0 < slice_index parts.old.room.entries hart }
    ensures { parts.new.state ≡ retired hart entry.now instr.now parts.old.state }
{
    let moved = &mut parts.nodes[hart as usize].hart;
    moved.retire(entry, instr);
    let status = moved.status;
    parts.trace.retire(hart as usize, *entry);
    halt(&mut parts.trace, hart, status);
}

// A hart that doesn't run on says so in the trace.
fn halt(trace: &mut Trace, hart: u8, status: Status)
    requires { hart < length trace.old.history.statuses }
    ensures { trace.new.history ≡ with_halt hart status trace.old.history }
{
    match status {
        Status::Running => {}
        Status::Stopped(_) | Status::Exited(_) => trace.halt(hart as usize, status),
    }
}

/// The hart halts with a code.
pub(crate) fn stop(parts: &mut Parts, hart: u8, code: u8)
    requires sound { IsSound parts.old.state }
    requires hart { hart < length parts.old.state.views.nodes }
    requires room { HasNeeded hart (needs_of parts.old.state hart (act.Stop code)) parts.old.room }
    ensures { parts.new.state ≡ stopped hart code parts.old.state }
{
    let status = Status::Stopped(code);
    parts.nodes[hart as usize].hart.status = status;
    parts.trace.halt(hart as usize, status);
}
