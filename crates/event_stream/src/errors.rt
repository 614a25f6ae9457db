//! Why a stream is not whole.

use coherent_machine::ApplyError;
use machine_types::Outcome;
use std::alloc::AllocError;
use std::io::Error;

/// Why a stream is not whole.
#[derive(Debug, Drop)]
pub enum StreamError {
    /// Memory for the machine was refused: nothing was written.
    NoMemory,
    /// The event at this index, from 0, was refused: the stream of the events before it was written.
    Refused(usize, ApplyError),
    /// The event at this index, from 0, came to this and changed nothing: the stream of the events before
    /// it was written.
    Idle(usize, Outcome),
    /// The writer's fault: a beginning of the stream was written.
    Writing(Error),
}

impl From<AllocError> for StreamError {
    ghost use Rattle.std.specs.Prelude.{◌≡◌};
    ghost use Rattle.event_stream.specs.declared.errors.StreamError.TheVariants as stream;

    ghost from_gives = { λ _ e. e ≡ stream.NoMemory };

    fn from(_error: AllocError) -> Self {
        StreamError::NoMemory
    }
}
