//! `rvtl explore --sample`, over files and streams that the caller hands in.

mod random_runs;
mod sampling;

pub use sampling::sample_files;
