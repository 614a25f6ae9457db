//! Whether a log of messages is lawful by the rules of the lawful log and by those of the coherent log, and the
//! first message that breaks one where it isn't.
#![tactic(auto)]

mod breaches;
mod following;
mod judging;
mod verdict;

pub use breaches::{Breaches, Broken, list_breaches};
pub use following::Judge;
pub use judging::{first_fault_stays, judge_ended, judge_messages, lawful_by_both};
pub use lawful_log::Profile;
pub use verdict::{MessageBreach, MessageVerdict};
