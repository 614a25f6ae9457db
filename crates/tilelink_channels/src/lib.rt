//! The queues between one hart's cache and the manager: one for each channel of TL-C, first in first out.
#![tactic(auto)]

mod queues;

pub use queues::{Queues, room};
