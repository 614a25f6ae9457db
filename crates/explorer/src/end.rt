//! Where the script to an end leads.
ghost use Rattle.std.specs.Prelude.{◌≡◌, IsTrue, Ok, true};
ghost use Rattle.performed_words.specs.Words.{are_aligned};
ghost use Rattle.explorer.specs.Ends.{ComesTo, outcome_with};

use crate::final_words::has_ended;
use flat_model::HartResult;
use performed_words::words_of;
use schedules::coherent_machine::Machine;
use schedules::{Goal, HartResults};
use std::alloc::{AllocError, Global};

/// The machine has ended, with these results and these words at the addresses.
#[derive(Clone, Copy)]
pub(crate) struct End<'a> {
    pub alloc: Global,
    pub addresses: &'a [u32],
    pub harts: &'a [HartResult],
    pub words: &'a [u32],
}

impl Goal for End<'_> {
    ghost CanBeAsked = { λ goal. IsTrue (are_aligned goal.addresses.now) };

    ghost Holds = { λ goal s. ComesTo goal.addresses.now s (outcome_with goal.harts.now goal.words.now) };

    fn is_met(&self, machine: &Machine) -> Result<bool, AllocError> {
        if !has_ended(&machine.views(), self.addresses) {
            return Ok(false);
        }
        let results = HartResults { harts: self.harts };
        if !results.is_met(machine)? {
            return Ok(false);
        }
        let shown = words_of(self.alloc, machine.trace(), self.addresses)?;
        Ok(shown.as_slice() == self.words)
    }
}
