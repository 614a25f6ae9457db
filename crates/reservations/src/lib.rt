//! The reservation that an LR makes and an SC asks for
//! (RISC-V Unprivileged ISA 20191213, section 8.2, "Load-Reserved/Store-Conditional Instructions").
#![tactic(auto)]

mod reservation;

pub use reservation::Reservation;
