//! What a file looks like.

use std::fmt::{self, Display, Formatter};

/// What a file looks like by its beginning.
#[derive(Clone, Copy, PartialEq, Eq)]
pub(crate) enum Kind {
    Elf,
    Script,
    Trace,
    Stream,
    Empty,
}

impl Kind {
    /// What the file with this beginning looks like, where that can be told.
    pub(crate) fn of(bytes: &[u8]) -> Option<Kind> {
        if bytes.is_empty() {
            Some(Kind::Empty)
        } else if bytes.starts_with(b"\x7fELF") {
            Some(Kind::Elf)
        } else if bytes.starts_with(b"rvtl-script ") {
            Some(Kind::Script)
        } else if bytes.starts_with(b"rvtl-trace ") {
            Some(Kind::Trace)
        } else if bytes.starts_with(b"rvtl-stream ") {
            Some(Kind::Stream)
        } else {
            None
        }
    }
}

impl Display for Kind {
    fn fmt<W: fmt::Write>(&self, f: &mut Formatter<W>) -> fmt::Result {
        f.write_str(match self {
            Kind::Elf => "an ELF file",
            Kind::Script => "a script",
            Kind::Trace => "a trace",
            Kind::Stream => "a stream, as `rvtl explain` prints it",
            Kind::Empty => "an empty file",
        })
    }
}
