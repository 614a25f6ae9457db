//! Instructions as an assembler writes them, as `lw a4, 0(a2)`.
#![tactic(auto)]

mod mnemonics;
mod operands;
mod writing;

pub use operands::register;
pub use writing::spell_assembly;
