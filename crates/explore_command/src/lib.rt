//! `rvtl explore`, over files and streams that the caller hands in.
#![tactic(auto)]

mod architecture;
mod asked;
mod exploration;
mod exploring;
mod failing;
mod findings;
mod judging;
mod keeping;
mod laws;
mod sample;
mod seeking;
mod show;
mod sparing;
mod until;

pub use architecture::architecture_files;
pub use exploring::explore_files;
pub use laws::{passing_is_safe, search_passing_is_safe};
pub use sample::sample_files;
pub use show::show_files;
pub use until::until_files;
