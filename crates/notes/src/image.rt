//! What is wrong with a program.

use crate::elf::{ElfNote, MORE_MEMORY};
use crate::kind::Kind;
use elf_loader::LoadError;
use std::fmt::{self, Display, Formatter};

/// By how many bytes a text is told.
const FIRST: usize = 64;

/// What is wrong with the bytes of a program, which was refused so.
#[derive(Clone, Copy)]
pub struct ImageNote<'a> {
    pub bytes: &'a [u8],
    /// Whether they were to be bare words.
    pub is_raw: bool,
    pub error: LoadError,
}

impl Display for ImageNote<'_> {
    fn fmt<W: fmt::Write>(&self, f: &mut Formatter<W>) -> fmt::Result {
        let kind = Kind::of(self.bytes);
        match kind {
            Some(Kind::Elf) if self.is_raw => {
                return f.write_str("this is an ELF file, and --raw says that it is not");
            }
            None | Some(Kind::Elf) => {}
            Some(kind) => return write!(f, "this is {kind}, and a program is wanted"),
        }
        if self.is_raw {
            bare(self.error, f)
        } else if is_text(self.bytes) {
            f.write_str("this is text, and a program is wanted: assemble and link it")
        } else if kind.is_none() {
            f.write_str("this is no ELF file: bare words take --raw")
        } else {
            let Self { bytes, error, .. } = *self;
            write!(f, "{}", ElfNote { bytes, error })
        }
    }
}

/// Whether the file begins as a text in ASCII does.
fn is_text(bytes: &[u8]) -> bool {
    bytes.iter().take(FIRST).all(|byte| byte.is_ascii_graphic() || byte.is_ascii_whitespace())
}

fn bare<W: fmt::Write>(error: LoadError, f: &mut Formatter<W>) -> fmt::Result {
    match error {
        LoadError::Short => {
            f.write_str("bare words are 4 bytes each, and the file ends within one")
        }
        _ => write!(f, "the words are more than memory holds: {MORE_MEMORY}"),
    }
}
