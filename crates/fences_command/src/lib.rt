//! `rvtl fences`, over files and streams that the caller hands in.
#![tactic(auto)]

mod fencing;
mod keeping;
mod needed_runs;
mod program;
mod telling;

pub use fencing::fences_files;
