//! What a worker asks for its next event.

ghost use Rattle.std.specs.Prelude.{Bool, Option, ⊤};
ghost use Rattle.machine_types.specs.declared.event.Event.{Event};
ghost use Rattle.machine_types.specs.declared.outcome.Outcome.{Outcome};
ghost use Rattle.machine_model.specs.Views.{State};

use coherent_machine::{Machine, Views};
use machine_types::{Event, Outcome};

/// Picks events for a worker. Whatever it picks, a fabric stays what its journal leads to.
pub trait Turn {
    /// What may be picked: by the turn, the machine and the outcome of the last event, this event, which
    /// leaves the turn so.
    ghost picks: { Self → State → Option Outcome → Option Event → Self → Type 0 } = { λ _ _ _ _ _. ⊤ };

    /// The worker's next event, by what the machine is and what came of the worker's last event; none to
    /// leave this turn out.
    fn pick(&mut self, views: &Views<'_>, last: Option<Outcome>) -> Option<Event>
        ensures { picks self.old views.now last result self.new };
}

/// A turn that is taken while the worker holds the lock.
pub trait Visit: Turn {
    /// Which answer there may be to whether the event picked last is held back.
    ghost withholds: { Self → Bool → Type 0 } = { λ _ _. ⊤ };

    /// What becomes of the turn where it sees this machine.
    ghost sees: { Self → State → Self → Type 0 } = { λ _ _ _. ⊤ };

    /// Whether the event picked last is held back: a number is drawn for it, and it isn't applied.
    fn holds_back(&self) -> bool
        ensures { withholds self.now result };

    /// Sees the machine that the worker leaves, before the lock is free again.
    fn see(&mut self, machine: &Machine)
        ensures { sees self.old machine.now self.new };
}
