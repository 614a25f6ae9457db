//! `rvtl chart`, over files and streams that the caller hands in.

mod charting;

pub use charting::chart_files;
