//! `rvtl explain`, over files and streams that the caller hands in.

mod explaining;

pub use explaining::explain_script;
