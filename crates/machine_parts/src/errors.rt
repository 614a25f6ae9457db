//! Why an event isn't applied.

ghost use Rattle.std.specs.Prelude.{◌≡◌};
ghost use Rattle.machine_parts.specs.Applying.{apply_error_number};

use std::alloc::AllocError;
use thiserror::Error;

/// Why an event isn't applied.
#[derive(Clone, Copy, Debug, PartialEq, Eq, Error)]
pub enum ApplyError {
    /// The event names a hart, word, line or count that the machine hasn't.
    #[error("BadEvent")]
    BadEvent = 1,
    /// The event would change the machine, but `MAX_CHANGES` events did, or the hart's list would pass
    /// `MAX_ENTRIES` retired instructions.
    #[error("Limit")]
    Limit = 2,
    /// Memory was refused; nothing has changed.
    #[error("NoMemory")]
    NoMemory = 3,
}

impl ApplyError {
    /// 1 to 3, in the order of testing.
    pub fn number(self) -> u8
        ensures { result ≡ apply_error_number self }
    {
        self as u8
    }
}

impl From<AllocError> for ApplyError {
    ghost use Rattle.std.specs.Prelude.{◌≡◌};
    ghost use Rattle.machine_parts.specs.declared.errors.ApplyError.TheVariants.{NoMemory};

    ghost from_gives = { λ _ e. e ≡ NoMemory };

    fn from(_error: AllocError) -> Self {
        ApplyError::NoMemory
    }
}
