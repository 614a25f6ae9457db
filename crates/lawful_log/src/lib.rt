//! Whether a log of messages is lawful, and the first entry that breaks a rule where it isn't.
#![tactic(auto)]

mod awaited;
mod checking;
mod facts;
mod followed;
mod lines;
mod profile;
mod queues;
mod rule;
mod tallies;

pub use awaited::{Answer, Awaited, first_awaited};
pub use checking::check_log;
pub use followed::Followed;
pub use profile::Profile;
pub use rule::{LogRule, LogVerdict, entries_decide, profiles_nest};
