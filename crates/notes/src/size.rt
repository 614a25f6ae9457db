//! What is wrong with a size that no machine has.

use crate::field::Limits;
use std::fmt::{self, Display, Formatter};
use trace_text::Field;

/// Which number of a machine's size, as the command line gives it, is out of its limits.
#[derive(Clone, Copy)]
pub struct SizeNote {
    pub harts: u32,
    /// In KiB.
    pub memory: u32,
    pub sets: u32,
    pub ways: u32,
    pub line: u32,
}

impl Display for SizeNote {
    fn fmt<W: fmt::Write>(&self, f: &mut Formatter<W>) -> fmt::Result {
        let numbers = [
            ("--harts", Field::Harts, self.harts),
            ("--memory", Field::Kib, self.memory),
            ("--sets", Field::Sets, self.sets),
            ("--ways", Field::Ways, self.ways),
            ("--line", Field::Line, self.line),
        ];
        for (option, field, number) in numbers {
            if !field.takes(number) {
                return write!(f, "{option} is {}, not {number}", Limits(field));
            }
        }
        Ok(())
    }
}
