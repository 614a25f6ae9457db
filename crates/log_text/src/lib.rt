//! Logs of messages as texts: a trace that ends behind its log, the names behind its messages, the verdict on a log as a
//! line, where in the text a message stands, and what stands against it in words.
#![tactic(auto)]

mod contradiction;
mod ending;
mod meant;
mod names;
mod objection;
mod place;
mod spelling;
mod unanswered;
mod unwritten;
mod verdict;
mod waiting;

pub use contradiction::Contradiction;
pub use ending::end_text;
pub use meant::{foreign_messages, meant_text, source_line};
pub use message_judge;
pub use names::{misnamed_line, name_of_message, without_names};
pub use objection::Objection;
pub use place::{LogText, Place, line_of_message};
pub use unanswered::Unanswered;
pub use unwritten::UnwrittenByte;
pub use verdict::{put_told, put_verdict};
