//! A hart's private cache, a client of TL-C (SiFive TileLink Specification 1.8.1): copies of lines, the
//! lines of which an Acquire is outstanding, and those of which a Release is unanswered.
//!
//! Contracts see a cache as a finite map from lines to copies and two sets of lines. Its slots, sets by
//! ways, stand behind it; a call counts each slot that it looks at.
#![tactic(auto)]

mod answers;
mod array;
mod cache;
mod held;
mod laws;
mod shape;
mod slot;
mod trackers;
mod uncounted;
mod word;

pub use answers::{Evict, Probed, Want};
pub use cache::ClientCache;
pub use held::Held;
pub use laws::{calls_change_their_line, calls_keep_other_lines};
pub use shape::Shape;
