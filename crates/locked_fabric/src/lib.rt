//! A fabric, a machine with its journal, behind one lock, and the turns that workers take of it: whenever the lock is
//! free, the machine is what the journal leads to from reset. Each event of the journal counts for the worker that
//! applied it.
#![tactic(auto)]

mod fabric;
mod numbers;
mod port;
mod share;
mod taken;
mod taking;
mod turn;

pub use coherent_machine;
pub use fabric::Fabric;
pub use numbers::Numbers;
pub use port::{Port, seen_in};
pub use share::Share;
pub use taken::Taken;
pub use turn::{Turn, Visit};
