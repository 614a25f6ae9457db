//! What an instruction does to a hart: first what it will do to memory, then its next pc and the register
//! that it writes (RISC-V Unprivileged ISA 20191213, chapters 2, 7 and 8).
#![tactic(auto)]

mod actions;
mod arithmetic;
mod call;
mod finishing;
mod laws;
mod planning;
mod registers;
pub mod stop;
mod uses;

pub use actions::{Action, Width};
pub use call::Call;
pub use elf_loader;
pub use finishing::finish;
pub use laws::{reads_are_as_named, stops_are_decided_first, writes_are_as_named};
pub use planning::plan;
pub use registers::Regs;
pub use uses::{address_register, destination, is_steering, other_registers, stored_register};
