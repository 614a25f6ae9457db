//! What a test has for a hart.
ghost use Rattle.std.specs.Prelude.{◌≡◌};

use assembly_reading::Statement;
use text_words::Name;

/// What stands in a hart's column.
#[derive(Clone, Copy)]
pub enum Line {
    /// A label of what follows.
    Label(Name),
    Code(Statement),
}

/// A hart's column, what its registers hold before it, and which of them are put out behind it.
#[derive(Drop)]
pub struct Part {
    /// What x0 to x31 hold; of x0 it says nothing.
    pub begins: [u32; 32],
    pub lines: Vec<Line>,
    /// Whether x0 to x31 are asked for.
    pub asked: [bool; 32],
}

/// Why a test makes no program.
#[derive(Clone, Copy, Debug, PartialEq, Eq)]
pub enum Cause {
    /// Its label stands nowhere in the column.
    NoLabel,
    /// Its label is farther than a branch reaches.
    TooFar,
    /// All of x1 to x31 are asked for.
    AllAsked,
    /// The code doesn't end before the locations, or a hart's code is farther than a branch reaches.
    TooLong,
    /// There are more than 8 harts, or more than 64 locations.
    TooMany,
}

/// Why there is no program.
#[derive(Clone, Copy, Debug, PartialEq, Eq)]
pub enum ImageError {
    /// At this line of this hart's column, or behind it; at line 0 of hart 0 where it is the whole test's.
    Fault {
        hart: usize,
        line: usize,
        cause: Cause,
    },
    /// Memory was refused.
    NoMemory,
}
