//! Why a list of events isn't replayed, or a batch isn't adopted.

ghost use Rattle.std.specs.Prelude.{◌≡◌};
ghost use Rattle.coherent_machine.specs.Adopting.{adopt_error_number};

use machine_parts::ApplyError;
use std::alloc::AllocError;
use thiserror::Error;

/// Why a list of events isn't replayed.
#[derive(Clone, Copy, Debug, PartialEq, Eq)]
pub enum ReplayError {
    /// Memory for the machine was refused.
    NoMemory,
    /// The event at this index, from 0, was refused.
    Event(usize, ApplyError),
}

impl From<AllocError> for ReplayError {
    ghost use Rattle.std.specs.Prelude.{◌≡◌};
    ghost use Rattle.coherent_machine.specs.declared.errors.ReplayError.TheVariants as replay;

    ghost from_gives = { λ _ e. e ≡ replay.NoMemory };

    fn from(_error: AllocError) -> Self {
        ReplayError::NoMemory
    }
}

/// Why a batch isn't adopted.
#[derive(Clone, Copy, Debug, PartialEq, Eq, Error)]
pub enum AdoptError {
    /// The machine has no such hart, the hart doesn't stand where the batch begins, or the batch's words
    /// aren't the image's.
    #[error("Stale")]
    Stale = 1,
    /// The batch has no instruction.
    #[error("Empty")]
    Empty = 2,
    /// `MAX_CHANGES` events changed the machine, or the hart's list would pass `MAX_ENTRIES` retired instructions.
    #[error("Limit")]
    Limit = 3,
    /// Memory was refused; nothing has changed.
    #[error("NoMemory")]
    NoMemory = 4,
}

impl AdoptError {
    /// 1 to 4, in the order of testing.
    pub fn number(self) -> u8
        ensures { result ≡ adopt_error_number self }
    {
        self as u8
    }
}
