//! Why an order isn't judged.
ghost use Rattle.std.specs.Prelude.{◌≡◌};
ghost use Rattle.rvwmo_order.specs.Codes.{error_number};
ghost use Rattle.rvwmo_order.specs.declared.error.CheckError.TheVariants.{NoMemory};

use std::alloc::AllocError;
use thiserror::Error;

/// Why an order isn't judged. Of the causes that hold the first of `NotARun`, `TooLong` and `NotAnOrder`
/// is answered.
#[derive(Clone, Copy, Debug, PartialEq, Eq, Error)]
pub enum CheckError {
    /// The order does not have each operation of the trace exactly once.
    #[error("NotAnOrder")]
    NotAnOrder = 1,
    /// A hart's list is no run of the image from reset, or its status not the one that the list ends in.
    #[error("NotARun")]
    NotARun = 2,
    /// The trace has more than 4,096 operations.
    #[error("TooLong")]
    TooLong = 3,
    /// Memory was refused.
    #[error("NoMemory")]
    NoMemory = 4,
}

impl CheckError {
    /// 1 to 4, the number by which the fault is printed.
    pub fn number(self) -> u8
        ensures { result ≡ error_number self }
    {
        self as u8
    }
}

impl From<AllocError> for CheckError {
    ghost from_gives = { λ _ fault. fault ≡ NoMemory };

    fn from(_refused: AllocError) -> CheckError {
        CheckError::NoMemory
    }
}
