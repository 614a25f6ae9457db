//! What the manager of main memory knows of each line: who has which permission, and where its transaction stands.
#![tactic(auto)]

mod answer;
mod directory;
mod entry;
mod harts;
mod uncounted;

pub use answer::{Acquired, Grant, Known, Sent, Transaction};
pub use directory::Directory;
pub use harts::{HartSet, Harts};
