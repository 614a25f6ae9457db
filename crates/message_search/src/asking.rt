//! A message as what events are shortened for.
ghost use Rattle.message_search.specs.Sought.{was_sent};

use crate::sought::Sought;
use coherent_machine::Machine;
use schedules::Goal;
use std::alloc::AllocError;

impl Goal for Sought {
    ghost use Rattle.std.specs.Prelude.{◌≡◌, true};
    ghost use Rattle.message_search.specs.Sought.{was_sent};

    ghost CanBeAsked = { λ sought. Unit {0} };

    ghost Holds = { λ sought s. was_sent sought s ≡ true };

    fn is_met(&self, machine: &Machine) -> Result<bool, AllocError> {
        Ok(self.is_sent_in(machine.trace().log()))
    }
}
