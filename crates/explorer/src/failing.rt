//! Where the script to a failure leads.
ghost use Rattle.std.specs.Prelude.{◌≡◌, true};
ghost use Rattle.flat_exploration.specs.Failures.{HasStopped, machine_stops};

use flat_exploration::Failure;
use hart::Status;
use schedules::Goal;
use schedules::coherent_machine::{Machine, Views};
use std::alloc::AllocError;

/// The failure's hart has stopped.
#[derive(Clone, Copy)]
pub(crate) struct Stopping {
    pub failure: Failure,
}

/// Whether the failure's hart has stopped as it says.
fn has_stopped(views: &Views<'_>, failure: Failure) -> bool
    ensures { result ≡ true → HasStopped (machine_stops views.now) failure }
{
    let hart = failure.hart as usize;
    if hart >= views.harts() {
        return false;
    }
    let stands = views.hart(hart);
    match stands.status {
        Status::Stopped(code) => code == failure.stop.code && stands.pc == failure.stop.pc,
        Status::Running | Status::Exited(_) => false,
    }
}

impl Goal for Stopping {
    ghost CanBeAsked = { λ goal. Unit {0} };

    ghost Holds = { λ goal s. HasStopped (machine_stops s) goal.failure };

    fn is_met(&self, machine: &Machine) -> Result<bool, AllocError> {
        Ok(has_stopped(&machine.views(), self.failure))
    }
}
