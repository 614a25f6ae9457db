//! Which of a program's orderings it needs under a memory model, as far as searches tell: what is found without each,
//! with weaker FENCEs, and with as few as are enough.
#![tactic(auto)]

mod adding;
mod allowing;
mod answers;
mod auditing;
mod lacking;
mod machine;
mod reducing;
mod searches;
mod side_by_side;
mod spelling;
mod weighing;

pub use allowed_outcomes;
pub use allowing::{Allowance, Missing, audit_allowed};
pub use answers::{Answer, Standard, is_whole, lacked_memory};
pub use auditing::{Audit, audit_program, shown_without};
pub use lacking::lacking_text;
pub use searches::{Question, Search, Steps, World, search_in};
pub use spelling::text_of;
