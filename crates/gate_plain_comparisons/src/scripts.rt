//! Kept scripts played on machines.

mod case;
mod flat;
mod machines;
mod play;

pub use case::Case;
pub use flat::{refute_all, show};
pub use machines::Playable;
pub use play::{Differences, Played};
