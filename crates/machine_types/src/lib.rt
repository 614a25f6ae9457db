//! What a machine is made of: limits, configurations, events and what comes of them.
#![tactic(auto)]

mod config;
mod event;
mod limits;
mod model;
mod outcome;

pub use config::{Config, is_set_count, is_within_limits};
pub use event::Event;
pub use limits::{
    BASE, BUFFER_ENTRIES, KIB_STEP, MAX_CHANGES, MAX_ENTRIES, MAX_HARTS, MAX_KIB, MAX_ROW,
    MAX_SETS, MAX_WAYS, MIN_KIB, TRACKERS,
};
pub use model::MemoryModel;
pub use outcome::Outcome;
pub use tl_types;
