//! `rvtl replay`, `rvtl explain` (of events, or as waves) and `rvtl chart`, which play a script, over files and streams that the caller hands in.
#![tactic(auto)]

mod chart;
mod explain;
mod idle;
mod replay;
mod waving;

pub use chart::chart_files;
pub use explain::explain_script;
pub use replay::{CompositionError, replay_and_write, replay_files};
pub use waving::wave_files;
