//! Permissions, messages, channels and a line's bytes, in the terms of the SiFive TileLink Specification 1.8.1, TL-C; and a
//! count of looks.
#![tactic(auto)]

mod line;
mod message;
mod permission;
mod ticks;

pub use line::{LineData, LineSize};
pub use message::{Body, Channel, Msg};
pub use permission::{Cap, Change, Grow, Perm, shrink, shrink_names_both_ends};
pub use ticks::Ticks;
