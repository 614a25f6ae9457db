//! What a run leaves, or why it leaves nothing.

ghost use Rattle.std.specs.Prelude.{◌≡◌};
ghost use Rattle.host_threads.specs.Errors.{run_error_number};

use machine_types::Event;
use std::alloc::AllocError;
use thiserror::Error;
use trace_recorder::Trace;

/// What a run leaves.
#[derive(Drop)]
pub struct Report {
    pub trace: Trace,
    /// The numbers that each hart put out, by hart.
    pub outputs: Vec<Vec<u32>>,
    /// The events that changed the machine, the first one first.
    pub journal: Vec<Event>,
    /// How many of them each hart's thread applied, by hart.
    pub receipts: Vec<u64>,
}

/// Why there is no report.
#[derive(Clone, Copy, Debug, PartialEq, Eq, Error)]
pub enum RunError {
    /// There are more or fewer turns than harts.
    #[error("not one turn a hart")]
    Config = 1,
    /// Memory was refused.
    #[error("out of memory")]
    NoMemory = 2,
    /// A thread wasn't started.
    #[error("cannot start a thread")]
    Thread = 3,
    /// What the lock gave back isn't a fabric of the image and configuration that were handed in.
    #[error("fabric mismatch")]
    Mismatch = 4,
    /// A turn picked an event that names a hart, word, line or count that the machine hasn't.
    #[error("bad event")]
    BadEvent = 5,
}

impl RunError {
    /// 1 to 5.
    pub fn number(self) -> u8
        ensures { result ≡ run_error_number self }
    {
        self as u8
    }
}

/// Why a thread stopped before the run was over.
#[derive(Clone, Copy)]
pub(crate) enum Fault {
    NoMemory,
    BadEvent,
}

impl From<AllocError> for RunError {
    ghost use Rattle.std.specs.Prelude.{◌≡◌};
    ghost use Rattle.host_threads.specs.declared.report.RunError.TheVariants as run;

    ghost from_gives = { λ _ e. e ≡ run.NoMemory };

    fn from(_error: AllocError) -> Self {
        RunError::NoMemory
    }
}

impl From<Fault> for RunError {
    ghost use Rattle.std.specs.Prelude.{◌≡◌};
    ghost use Rattle.host_threads.specs.Errors.{of_fault};

    ghost from_gives = { λ fault e. e ≡ of_fault fault };

    fn from(fault: Fault) -> Self {
        match fault {
            Fault::NoMemory => RunError::NoMemory,
            Fault::BadEvent => RunError::BadEvent,
        }
    }
}
