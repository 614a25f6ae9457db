//! The command line of `rvtl`: what its words ask for, carried out over files and streams that the caller
//! hands in.
#![tactic(auto)]

mod carrying;
mod laws;
mod program;
mod running;

pub use laws::runs_replay;
pub use program::run_program;
pub use running::run_line;
