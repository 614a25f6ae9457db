//! The flat machine, harts with store buffers over one memory, and the laws that a machine of caches
//! and messages shows a program nothing else.
#![tactic(auto)]

mod event;
mod laws;
mod results;

pub use event::FlatEvent;
pub use laws::{
    flat_order_always, flat_results_always, projection_decides, shown_always, worked_plays,
};
pub use machine_model;
pub use machine_model::memory_model;
pub use results::HartResult;
