//! What a turn comes to.

use coherent_machine::ApplyError;
use machine_types::{Event, Outcome};

/// What a worker's turn came to while it held the lock.
#[derive(Clone, Copy, Debug, PartialEq, Eq)]
pub enum Taken {
    /// Nothing was picked, and no number drawn.
    Nothing,
    /// There was no number below the limit for the event.
    Over,
    /// The event was held back.
    HeldBack {
        number: u64,
        event: Event,
    },
    /// The event was applied, and this came of it.
    Tried {
        number: u64,
        event: Event,
        came: Result<Outcome, ApplyError>,
    },
}
