//! What texts that people write have in common: blanks, comments, words, numbers and names.
#![tactic(auto)]

mod blanks;
mod comments;
mod name;
mod numbers;
#[cfg(test)]
mod tests;
mod words;

pub use blanks::{is_blank, skip_blanks};
pub use comments::{CommentError, blank_comments};
pub use name::{LONGEST_NAME, Name};
pub use numbers::{Number, negated_of, number_of, signed_at};
pub use words::{is_name, name_at, split_word, symbol_at};
