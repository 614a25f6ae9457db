//! The outcomes that a memory model allows a program, and the harts that stop whatever the others do then: those of the
//! machine, and those that the model allows beyond them, each with what shows it, and the lines that tell them.
#![tactic(auto)]

mod architecture;
mod beyond;
mod failing;
mod joining;
mod machine;
mod orders;
mod outcome;
mod spelling;

pub use architecture::Architecture;
pub use exploration_text::explorer;
pub use failing::{Failing, stops_of_machine};
pub use joining::explore_architecture;
pub use outcome::{Outcome, Way};
pub use performed_words;
pub use spelling::text_of;
pub use window_search;
