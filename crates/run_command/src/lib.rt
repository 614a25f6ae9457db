//! `rvtl run`, over threads, files and streams that the caller hands in.
#![tactic(auto)]

mod limits;
mod running;

pub use running::run_files;
