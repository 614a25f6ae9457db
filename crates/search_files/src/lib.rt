//! What searches of a program have to do with files: the words of memory that their outcomes show, and the folder for
//! what shows outcomes.
#![tactic(auto)]

mod folder;
mod targets;

pub use exploration_text;
pub use folder::Folder;
pub use targets::{Targets, targets_of};
