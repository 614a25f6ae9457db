//! Where events are to lead.

ghost use Rattle.std.specs.Prelude.{◌≡◌, Ok, true};
ghost use Rattle.flat_model.specs.Shown.{told};
ghost use Rattle.machine_model.specs.Views.{State};
ghost use Rattle.schedules.specs.Schedules.{HasResults};

use crate::results::are_results;
use coherent_machine::Machine;
use flat_model::HartResult;
use std::alloc::AllocError;

/// Where events are to lead a machine.
pub trait Goal {
    // What it takes to ask for it.
    ghost CanBeAsked: { Self → Type 0 };

    // A machine is there.
    ghost Holds: { Self → State → Type 0 };

    /// Whether the machine is there.
    fn is_met(&self, machine: &Machine) -> Result<bool, AllocError>
        requires asked { CanBeAsked self.now }
        ensures { result ≡ Ok true → Holds self.now machine.now };
}

/// Each hart stands so, and put out the same.
#[derive(Clone, Copy)]
pub struct HartResults<'a> {
    pub harts: &'a [HartResult],
}

impl Goal for HartResults<'_> {
    ghost CanBeAsked = { λ goal. Unit {0} };

    ghost Holds = { λ goal. HasResults (told goal.harts.now) };

    fn is_met(&self, machine: &Machine) -> Result<bool, AllocError> {
        Ok(are_results(&machine.views(), self.harts))
    }
}
