//! The numbers that say how large a machine is, in words.

use machine_types::{KIB_STEP, MAX_HARTS, MAX_KIB, MAX_SETS, MAX_WAYS, MIN_KIB};
use std::fmt::{self, Display, Formatter};
use trace_text::Field;

/// What a script's help calls a field.
pub(crate) fn name_of(field: Field) -> &'static str {
    match field {
        Field::Harts => "HARTS",
        Field::Kib => "KIB",
        Field::Sets => "SETS",
        Field::Ways => "WAYS",
        Field::Line => "LINE",
        Field::Hart => "HART",
        Field::Address => "ADDRESS",
        Field::Channel => "CHANNEL",
        Field::Count => "COUNT",
    }
}

/// Which numbers a field of a machine's size takes, in words.
#[derive(Clone, Copy)]
pub(crate) struct Limits(pub(crate) Field);

impl Display for Limits {
    fn fmt<W: fmt::Write>(&self, f: &mut Formatter<W>) -> fmt::Result {
        match self.0 {
            Field::Harts => write!(f, "1 to {MAX_HARTS}"),
            Field::Kib => write!(f, "a multiple of {KIB_STEP} from {MIN_KIB} to {MAX_KIB}"),
            Field::Sets => write!(f, "a power of two to {MAX_SETS}"),
            Field::Ways => write!(f, "1 to {MAX_WAYS}"),
            Field::Line => f.write_str("16 or 64"),
            Field::Hart | Field::Address | Field::Channel | Field::Count => Ok(()),
        }
    }
}
