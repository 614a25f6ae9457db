//! Logs of messages that aren't of one of rvtl's machines: of 1 to 64 clients, and of lines of 16, 32, 64 or 128 bytes
//! at any address.
#![tactic(auto)]

mod entry;
mod fault;
mod reading;
mod shape;

pub use entry::WideLogged;
pub use reading::{WideLog, read_log};
pub use shape::{Shape, Width};
