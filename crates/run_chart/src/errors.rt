//! Why a run is not drawn.

use event_stream::coherent_machine::ReplayError;
use std::alloc::AllocError;
use std::io::Error;

/// Why a run is not drawn.
#[derive(Debug, Drop)]
pub enum ChartError {
    /// No machine was made, or an event was refused: nothing was written.
    Replay(ReplayError),
    /// The picture would have more than 400 rows or bars, or more than 65,535 lines of text: nothing was written.
    TooManyRows,
    /// Memory was refused: nothing was written.
    NoMemory,
    /// The writer's fault: a beginning of the picture was written.
    Writing(Error),
}

impl From<AllocError> for ChartError {
    ghost use Rattle.std.specs.Prelude.{◌≡◌};
    ghost use Rattle.run_chart.specs.declared.errors.ChartError.TheVariants as chart;

    ghost from_gives = { λ _ e. e ≡ chart.NoMemory };

    fn from(_error: AllocError) -> Self {
        ChartError::NoMemory
    }
}

impl From<ReplayError> for ChartError {
    ghost use Rattle.std.specs.Prelude.{◌≡◌};
    ghost use Rattle.run_chart.specs.declared.errors.ChartError.TheVariants as chart;

    ghost from_gives = { λ error e. e ≡ chart.Replay error };

    fn from(error: ReplayError) -> Self {
        ChartError::Replay(error)
    }
}

/// Why a row is not told.
#[derive(Drop)]
pub(crate) enum RowError {
    TooManyRows,
    NoMemory,
}

impl From<AllocError> for RowError {
    ghost use Rattle.std.specs.Prelude.{◌≡◌};
    ghost use Rattle.run_chart.specs.declared.errors.RowError.TheVariants as row;

    ghost from_gives = { λ _ e. e ≡ row.NoMemory };

    fn from(_error: AllocError) -> Self {
        RowError::NoMemory
    }
}

impl From<RowError> for ChartError {
    ghost use Rattle.std.specs.Prelude.{◌≡◌};
    ghost use Rattle.run_chart.specs.Errors.{untold};

    ghost from_gives = { λ error e. e ≡ untold error };

    fn from(error: RowError) -> Self {
        match error {
            RowError::TooManyRows => ChartError::TooManyRows,
            RowError::NoMemory => ChartError::NoMemory,
        }
    }
}
