//! Why there is no schedule.

ghost use Rattle.std.specs.Prelude.{◌≡◌};

use std::alloc::AllocError;
use thiserror::Error;

/// Why flat events have no schedule.
#[derive(Clone, Copy, Debug, PartialEq, Eq, Error)]
pub enum RealiseError {
    /// Memory was refused.
    #[error("out of memory")]
    NoMemory,
    /// `MAX_CHANGES` events changed the machine, or a hart's list would pass `MAX_ENTRIES` retired instructions.
    #[error("limit")]
    Limit,
    /// The machine wasn't brought to the flat event at this index, from 0.
    #[error("flat event {0} not realised")]
    Unrealised(usize),
}

impl From<Fault> for RealiseError {
    ghost use Rattle.std.specs.Prelude.{◌≡◌};
    ghost use Rattle.schedules.specs.Errors.{of_fault};

    ghost from_gives = { λ fault e. e ≡ of_fault fault };

    fn from(fault: Fault) -> Self {
        match fault {
            Fault::NoMemory => RealiseError::NoMemory,
            Fault::Limit => RealiseError::Limit,
        }
    }
}

impl From<AllocError> for RealiseError {
    ghost use Rattle.std.specs.Prelude.{◌≡◌};
    ghost use Rattle.schedules.specs.declared.errors.RealiseError.TheVariants as realise;

    ghost from_gives = { λ _ e. e ≡ realise.NoMemory };

    fn from(_error: AllocError) -> Self {
        RealiseError::NoMemory
    }
}

/// Why a machine takes no event.
#[derive(Clone, Copy, PartialEq, Eq)]
pub(crate) enum Fault {
    NoMemory,
    /// A limit of the machine is met.
    Limit,
}

impl From<AllocError> for Fault {
    ghost use Rattle.std.specs.Prelude.{◌≡◌};
    ghost use Rattle.schedules.specs.declared.errors.Fault.TheVariants as fault;

    ghost from_gives = { λ _ e. e ≡ fault.NoMemory };

    fn from(_error: AllocError) -> Self {
        Fault::NoMemory
    }
}
