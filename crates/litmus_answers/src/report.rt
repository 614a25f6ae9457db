//! What is told of a test.

use crate::answer::{Answer, Tally};
use litmus_parts::Told;
use litmus_text::Kind;

/// What is told of a test.
#[derive(Clone, Copy)]
pub struct Report<'a> {
    pub name: &'a [u8],
    pub kind: Kind,
    /// The question as it is written.
    pub question: &'a [u8],
    /// The locations' names, by their numbers.
    pub names: &'a [Vec<u8>],
    /// The places whose values each state has.
    pub told: &'a [Told],
    pub states: &'a [Vec<u32>],
    /// Whether these are all states.
    pub is_whole: bool,
    pub tally: Tally,
    pub answer: Answer,
}
