//! What stands in a file, as a message quotes it.

use std::fmt::{self, Display, Formatter};

/// How many bytes are quoted at most.
const MOST: usize = 40;

/// Bytes of a file in quotes: no more than 40, what isn't printable ASCII escaped.
#[derive(Clone, Copy)]
pub(crate) struct Quoted<'a>(pub(crate) &'a [u8]);

impl Display for Quoted<'_> {
    fn fmt<W: fmt::Write>(&self, f: &mut Formatter<W>) -> fmt::Result {
        match self.0.get(..MOST) {
            Some(cut) if self.0.len() > MOST => write!(f, "`{}..`", cut.escape_ascii()),
            _ => write!(f, "`{}`", self.0.escape_ascii()),
        }
    }
}
