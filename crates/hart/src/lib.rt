//! A hart: where it stands, what it retires, and what it does next.
#![tactic(auto)]

mod batch;
mod fetching;
mod fitting;
mod laws;
mod retired;
mod state;
mod status;

pub use batch::{Batch, next_alone, run_local};
pub use fetching::{can_fetch, instr_at};
pub use laws::runs_end_as_their_lists;
pub use machine_types;
pub use retired::Retired;
pub use rv32_decode;
pub use rv32_exec;
pub use rv32_exec::elf_loader;
pub use state::Hart;
pub use status::Status;
