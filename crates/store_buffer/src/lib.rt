//! A hart's store buffer: its stores wait here, merged by word, until they are performed.
//! Stores that a fence holds apart stand in separate groups
//! (RISC-V Unprivileged ISA 20191213, section 14.1, "Definition of the RVWMO Memory Model").
#![tactic(auto)]

mod buffer;
mod byte_mask;
mod entry;
mod laws;
mod ops;

pub use buffer::{PutError, StoreBuffer};
pub use byte_mask::ByteMask;
pub use entry::{Entry, Store};
pub use laws::{buffer_of_stores, group_of_stores, single_groups_stay};
pub use ops::Ops;
