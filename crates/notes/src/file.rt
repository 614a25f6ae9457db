//! Why a file can't be read or written.

use std::fmt::{self, Display, Formatter};
use std::io::{self, ErrorKind};

/// Why a file can't be read or written.
#[derive(Clone, Copy)]
pub struct FileNote(pub io::Error);

impl Display for FileNote {
    fn fmt<W: fmt::Write>(&self, f: &mut Formatter<W>) -> fmt::Result {
        match self.0.kind() {
            ErrorKind::NotFound => f.write_str("there is no such file or folder"),
            ErrorKind::PermissionDenied => f.write_str("permission denied"),
            ErrorKind::IsADirectory => f.write_str("this is a folder"),
            ErrorKind::NotADirectory => f.write_str("part of the path is not a folder"),
            ErrorKind::StorageFull => f.write_str("no space is left"),
            ErrorKind::ReadOnlyFilesystem => f.write_str("the file system is read-only"),
            _ => write!(f, "{}", self.0),
        }
    }
}
