//! `rvtl explore --architecture`, over files and streams that the caller hands in.

mod allowed;
mod ending;
mod keeping;
mod reserving;
mod searching;
mod seeking;
mod telling;

pub use searching::architecture_files;
