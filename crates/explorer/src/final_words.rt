//! What is read off a machine behind a list of events: whether it has drained, and words of memory.

mod memory;
mod reading;

pub(crate) use memory::holds_patches;
pub(crate) use reading::has_ended;
