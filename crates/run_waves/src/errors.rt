//! Why a run's waves aren't whole.
ghost use Rattle.std.specs.Prelude.{◌≡◌};
ghost use Rattle.run_waves.specs.Errors.{untold};

use coherent_machine::ReplayError;
use std::alloc::AllocError;
use std::io::Error;

/// Why a run's waves aren't whole.
#[derive(Debug, Drop)]
pub enum WavesError {
    /// No machine was made, or an event was refused: nothing was written.
    Replay(ReplayError),
    /// Memory was refused: a beginning of the waves was written, or nothing.
    NoMemory,
    /// The writer's fault: a beginning of the waves was written.
    Writing(Error),
}

impl From<ReplayError> for WavesError {
    ghost use Rattle.std.specs.Prelude.{◌≡◌};
    ghost use Rattle.run_waves.specs.declared.errors.WavesError.TheVariants as waves;

    ghost from_gives = { λ error e. e ≡ waves.Replay error };

    fn from(error: ReplayError) -> Self {
        WavesError::Replay(error)
    }
}

/// Why a call that tells didn't.
#[derive(Drop)]
pub(crate) enum TellError {
    NoMemory,
    Writing(Error),
}

impl From<AllocError> for TellError {
    ghost use Rattle.std.specs.Prelude.{◌≡◌};
    ghost use Rattle.run_waves.specs.declared.errors.TellError.TheVariants as tell;

    ghost from_gives = { λ _ e. e ≡ tell.NoMemory };

    fn from(_error: AllocError) -> Self {
        TellError::NoMemory
    }
}

impl From<Error> for TellError {
    ghost use Rattle.std.specs.Prelude.{◌≡◌};
    ghost use Rattle.run_waves.specs.declared.errors.TellError.TheVariants as tell;

    ghost from_gives = { λ error e. e ≡ tell.Writing error };

    fn from(error: Error) -> Self {
        TellError::Writing(error)
    }
}

/// How an error of a call that tells is handed on.
pub(crate) fn handed_on(error: TellError) -> WavesError
    ensures { result ≡ untold error }
{
    match error {
        TellError::NoMemory => WavesError::NoMemory,
        TellError::Writing(error) => WavesError::Writing(error),
    }
}
