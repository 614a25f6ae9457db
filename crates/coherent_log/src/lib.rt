//! Whether a log of messages is one of coherent caches: whether each message fits the permissions that the log
//! gave and took, and carries the bytes that it brought. Every machine's log is one (`machine_logs`).
#![tactic(auto)]

mod checking;
mod clients;
mod followed;
mod lines;
mod messages;
mod rule;
#[cfg(test)]
mod tests;
mod verdict;

pub use checking::check_coherence;
pub use clients::{Held, Probed};
pub use followed::Followed;
pub use rule::CoherenceRule;
pub use verdict::{Breach, CoherenceVerdict};
