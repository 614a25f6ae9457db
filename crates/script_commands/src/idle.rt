//! Scripts of which most events change nothing, as one for another program.

ghost use Rattle.std.specs.Prelude.{◌≡◌};

use command_files::{Files, remark};
use event_stream::coherent_machine::Machine;
use event_stream::outcome_name;
use machine_types::{Config, Event, Outcome};
use std::alloc::Global;
use std::fmt::{self, Display, Formatter};

/// That more than half of a script's events changed nothing, and which is the first of these.
#[derive(Clone, Copy)]
pub(crate) struct IdleNote {
    idle: usize,
    all: usize,
    /// The first one's place among the events, from 0.
    first: usize,
    outcome: Outcome,
}

impl IdleNote {
    /// None where at least half of the events changed the machine that they led to, or memory ends.
    pub(crate) fn of(
        alloc: Global,
        machine: &Machine,
        config: Config,
        events: &[Event],
    ) -> Option<IdleNote> {
        let all = events.len();
        let idle = all.saturating_sub(machine.views().changes() as usize);
        if idle <= all / 2 {
            return None;
        }
        let (first, outcome) = first_idle(alloc, machine, config, events)?;
        Some(IdleNote {
            idle,
            all,
            first,
            outcome,
        })
    }
}

// The events are applied anew, up to the first that changes nothing.
fn first_idle(
    alloc: Global,
    machine: &Machine,
    config: Config,
    events: &[Event],
) -> Option<(usize, Outcome)> {
    let Ok(image) = machine.trace().image().try_copy(alloc) else {
        return None;
    };
    let Ok(mut machine) = Machine::new(alloc, image, config) else {
        return None;
    };
    for (index, event) in events.iter().enumerate() {
        let before = machine.views().changes();
        let Ok(outcome) = machine.apply(*event) else {
            return None;
        };
        if machine.views().changes() == before {
            return Some((index, outcome));
        }
    }
    None
}

impl Display for IdleNote {
    // The first event stands on line 2.
    fn fmt<W: fmt::Write>(&self, f: &mut Formatter<W>) -> fmt::Result {
        let IdleNote {
            idle,
            all,
            first,
            outcome,
        } = *self;
        let line = first.saturating_add(2);
        let name = outcome_name(outcome);
        write!(
            f,
            "{idle} of the script's {all} events changed nothing, that of line {line} first ({name}): is it for this program?"
        )
    }
}

/// Remarks that most of a script's events changed nothing, where they did.
pub(crate) fn remark_idle<F: Files>(alloc: Global, files: &mut F, idle: Option<IdleNote>)
    ensures { F.held files.new ≡ F.held files.old }
{
    if let Some(note) = idle {
        remark(alloc, files, note);
    }
}
