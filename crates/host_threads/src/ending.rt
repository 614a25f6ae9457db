//! Why a thread of a run takes no more turns.

ghost use Rattle.std.specs.Prelude.{◌≡◌};
ghost use Rattle.host_threads.specs.Faults.{fault_in, is_stopped};

use crate::report::Fault;

/// Why a thread takes no more turns.
#[derive(Clone, Copy)]
pub(crate) enum Ending {
    /// Each hart has ended, or its list is full.
    Halted,
    /// No number below the run's limit is left.
    Tries,
    /// The machine has changed as often as it may.
    Changes,
    /// A thread wasn't started, or another one ended at a fault.
    Stopped,
    /// Memory was refused, or the turn picked a bad event.
    Failed(Fault),
}

impl Ending {
    /// The fault that it is, if it is one.
    pub(crate) fn fault(self) -> Option<Fault>
        ensures { result ≡ fault_in self }
    {
        match self {
            Ending::Failed(fault) => Some(fault),
            Ending::Halted | Ending::Tries | Ending::Changes | Ending::Stopped => None,
        }
    }

    /// Whether the thread was stopped before it had ended.
    pub(crate) fn is_stopped(self) -> bool
        ensures { result ≡ is_stopped self }
    {
        match self {
            Ending::Stopped => true,
            Ending::Halted | Ending::Tries | Ending::Changes | Ending::Failed(_) => false,
        }
    }
}
