//! Whether a log of any clients and lines is lawful: its lines are judged in two halves, where they have some.
#![tactic(auto)]

mod breaches;
mod verdict;

pub use breaches::list_wide_breaches;
pub use verdict::judge_wide;
