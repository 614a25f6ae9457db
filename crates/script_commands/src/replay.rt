//! `rvtl replay`, over files and streams that the caller hands in.

mod composing;
mod ends;
mod replaying;

pub use composing::{CompositionError, replay_and_write};
pub use replaying::replay_files;
