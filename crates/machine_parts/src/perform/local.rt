//! What a row of private instructions that retires changes.

ghost use Rattle.std.specs.Prelude.{◌≡◌, ◌+◌, ◌<◌, ◌≤◌, length, slice_index};
ghost use Rattle.hart.specs.Local.{private_row};
ghost use Rattle.hart.specs.Run.{reached};
ghost use Rattle.machine_types.specs.declared.limits.TheConstants.{MAX_ENTRIES};
ghost use Rattle.machine_model.specs.declared.act.Act.TheVariants as act;
ghost use Rattle.machine_model.specs.Changing.{next_place, went_alone, with_entries};
ghost use Rattle.machine_model.specs.Ready.{IsSound};
ghost use Rattle.machine_parts.specs.Needs.{HasNeeded, needs_of};
ghost use Rattle.trace_recorder.specs.History.{entries_of};

use crate::parts::Parts;
use hart::{Hart, next_alone};
use trace_recorder::Trace;

/// So many private instructions retire, or as many as there are.
pub(crate) fn go_alone(parts: &mut Parts, hart: u8, count: u32)
    requires sound { IsSound parts.old.state }
    requires hart { hart < length parts.old.state.views.nodes }
    requires few { next_place parts.old.state hart + count ≤ MAX_ENTRIES }
    requires room { HasNeeded hart (needs_of parts.old.state hart (act.Local count)) parts.old.room }
    ensures { parts.new.state ≡ went_alone hart count parts.old.state }
{
    let first = parts.nodes[hart as usize].hart;
    parts.nodes[hart as usize].hart = retire_row(&mut parts.trace, hart, &first, count);
}

// The row that begins at a hart goes into the trace; the hart behind it comes back.
fn retire_row(trace: &mut Trace, hart: u8, first: &Hart, count: u32) -> Hart
    requires hart { hart < length trace.old.history.entries }
    requires few { length (entries_of trace.old.history hart) + count ≤ MAX_ENTRIES }
    requires room { count ≤ slice_index trace.old.room.entries hart }
    ensures last { result ≡ reached first.now (private_row trace.old.history.image first.now count) }
    ensures row { trace.new.history ≡ with_entries hart (private_row trace.old.history.image first.now count) trace.old.history }
{
    let mut last = *first;
    let mut left = count;
    while left > 0 {
        let Some((entry, next)) = next_alone(trace.image(), &last) else {
            break;
        };
        trace.retire(hart as usize, entry);
        last = next;
        left -= 1;
    }
    last
}
