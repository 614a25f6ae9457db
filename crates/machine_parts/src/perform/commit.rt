//! A row of private instructions that a hart has run by itself, committed as it is.

ghost use Rattle.std.specs.Prelude.{◌≡◌, ◌≢◌, ◌+◌, ◌<◌, ◌≤◌, [], length, slice_index};
ghost use Rattle.hart.specs.Local.{private_row_from};
ghost use Rattle.machine_types.specs.declared.limits.TheConstants.{MAX_ENTRIES};
ghost use Rattle.machine_model.specs.Changing.{went_alone, with_entries};
ghost use Rattle.machine_model.specs.Events.{verdict};
ghost use Rattle.machine_model.specs.Ready.{IsSound};
ghost use Rattle.machine_model.specs.Views.{node_at};
ghost use Rattle.machine_parts.specs.Applying.{Answers};
ghost use Rattle.trace_recorder.specs.History.{entries_of};

use crate::errors::ApplyError;
use crate::limits::{is_limited, reserve};
use crate::parts::Parts;
use hart::{Batch, Retired};
use machine_model::Act;
use machine_types::{Event, Outcome};
use trace_recorder::Trace;

impl Parts {
    /// Commits the private instructions that a hart has run by itself from where it stands: its list goes
    /// on with them, and it stands where they lead. None of them is run again.
    pub fn commit(&mut self, hart: u8, batch: &Batch) -> Result<Outcome, ApplyError>
        requires sound { IsSound self.old.state }
        requires hart { hart < length self.old.state.views.nodes }
        requires some { batch.now.entries ≢ [] }
        requires row { batch.now ≡ private_row_from self.old.state.trace.image (node_at self.old.state hart).hart (length batch.now.entries) }
        ensures { Answers (verdict self.old.state (Event.Local hart (length batch.now.entries))) self.old.state result self.new.state }
    {
        let act = Act::Local(batch.entries().len() as u32);
        if is_limited(self, hart, &act) {
            return Err(ApplyError::Limit);
        }
        reserve(self, hart, &act)?;
        take_over(self, hart, batch);
        self.changes += 1;
        Ok(Outcome::Retired)
    }
}

// The hart's list goes on with the batch's entries, and the hart stands where they lead.
fn take_over(parts: &mut Parts, hart: u8, batch: &Batch)
    requires hart { hart < length parts.old.state.views.nodes }
    requires entries { hart < length parts.old.state.trace.entries }
    requires few { length (entries_of parts.old.state.trace hart) + length batch.now.entries ≤ MAX_ENTRIES }
    requires room { length batch.now.entries ≤ slice_index parts.old.room.entries hart }
    requires row { batch.now ≡ private_row_from parts.old.state.trace.image (node_at parts.old.state hart).hart (length batch.now.entries) }
    ensures { parts.new.state ≡ went_alone hart (length batch.now.entries) parts.old.state }
{
    parts.nodes[hart as usize].hart = *batch.last();
    retire_all(&mut parts.trace, hart, batch.entries());
}

fn retire_all(trace: &mut Trace, hart: u8, entries: &[Retired])
    requires hart { hart < length trace.old.history.entries }
    requires few { length (entries_of trace.old.history hart) + length entries.now ≤ MAX_ENTRIES }
    requires room { length entries.now ≤ slice_index trace.old.room.entries hart }
    ensures { trace.new.history ≡ with_entries hart entries.now trace.old.history }
{
    let mut rest = entries;
    while let [entry, tail @ ..] = rest {
        trace.retire(hart as usize, *entry);
        rest = tail;
    }
}
