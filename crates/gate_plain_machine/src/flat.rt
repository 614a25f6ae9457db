//! The flat meaning as a plain and slow program: harts with store buffers over one memory. It shares nothing
//! with caches, directory and messages.

mod accesses;
mod machine;
mod views;

pub use accesses::Variant;
pub use machine::FlatMachine;
pub use views::FlatView;
