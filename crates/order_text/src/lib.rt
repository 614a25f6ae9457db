//! An order of a trace's memory operations, told: the harts' lists with the order beside them, where the bytes of each access
//! come from and what overwrites them, which neighbours are ordered and by which rule, and which operations were performed
//! out of program order (RISC-V Unprivileged ISA 20191213, chapter 14.1).
#![tactic(auto)]

mod between;
mod fence;
mod line;
mod links;
mod naming;
mod neighbours;
mod relations;
mod rules;
mod spelling;
mod telling;
#[cfg(test)]
mod tests;
mod writing;

pub use line::{Broken, Line, Link};
pub use naming::spell_place;
pub use telling::order_lines;
pub use writing::write_lines;
