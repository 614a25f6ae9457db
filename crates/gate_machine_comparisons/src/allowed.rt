//! Compares what is found that the memory models allow with published answers, and with all runs of straight programs in
//! all orders of their operations (tools/model_programs.py).

mod courses;
mod found;
mod litmus;
mod orders;
mod straight;

pub use litmus::ask_all;
pub use straight::compare_all;
