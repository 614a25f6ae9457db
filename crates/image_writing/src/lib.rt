//! A program's file with words of its image replaced: its bytes are the file's, but for those words.
#![tactic(auto)]

mod places;
mod writing;

pub use places::Format;
pub use writing::written;
