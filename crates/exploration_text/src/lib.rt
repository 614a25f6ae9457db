//! What is found of a program, as the lines that are printed.
#![tactic(auto)]

mod failures;
mod sampling;
mod spelling;
mod wording;

pub use explorer;
pub use failures::{spell_failure_count, stopped_text};
pub use order_text;
pub use sampling::sampled_text;
pub use spelling::harts_text;
pub use wording::{WordName, end_text, text_of};
