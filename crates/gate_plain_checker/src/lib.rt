//! Whether an order is legal, as a plain and slow program over lists, to compare the checker with: it compares all
//! pairs of operations, carries what came from each forward for each pair, and finds the store that a byte comes
//! from by a walk over the whole order, each definition as it stands (RISC-V Unprivileged ISA 20191213, chapters
//! 14 and 23). With the checker it shares only how lists and operations are read, and what is answered.
#![tactic(auto)]

mod between;
mod checking;
mod dependencies;
mod judging;
mod orders;
mod rules;
mod sources;

pub use checking::check_model;
pub use orders::completed;
pub use sources::source;
