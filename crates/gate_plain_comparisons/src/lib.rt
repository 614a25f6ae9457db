//! Compares the machine, the checker of orders and the judge of message logs with plain bodies of theirs: on
//! kept scripts, traces and logs, and on streams of events.
#![tactic(auto)]

mod images;
mod judges;
mod lockstep;
mod machines;
mod numbers;
mod scripts;

pub use images::ImageKind;
pub use judges::judge_all;
pub use lockstep::Counts;
pub use machines::play_all;
pub use numbers::Numbers;
pub use scripts::{Case, Differences, Played, refute_all, show};
