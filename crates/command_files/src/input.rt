//! Standard input as a file.

ghost use Rattle.std.specs.Prelude.{◌≡◌, OnOk, false};
ghost use Rattle.command_files.specs.Contents.{is_input, path_of};

use crate::files::Files;
use std::io::{self, ErrorKind, Input, Read};

/// The name under which standard input is read.
const NAME: &str = "-";

/// Files, among which the name `-` stands for the runtime's standard input. That is read once, and not
/// written.
#[derive(Drop)]
pub struct WithInput<'r, R, F: Files + Drop> {
    rt: &'r R,
    files: F,
    has_read_input: bool,
}

impl<'r, R, F: Files + Drop> WithInput<'r, R, F> {
    /// These files, with the runtime's standard input.
    pub fn new(rt: &'r R, files: F) -> WithInput<'r, R, F> {
        WithInput {
            rt,
            files,
            has_read_input: false,
        }
    }
}

/// A file, or standard input.
#[derive(Drop)]
pub enum Source<F: Drop, I: Drop> {
    File(F),
    Input(I),
}

impl<F: Read + Drop, I: Read + Drop> Read for Source<F, I> {
    ghost use Rattle.command_files.specs.Sources.{source_remaining};

    ghost remaining = { source_remaining F.remaining I.remaining };

    fn read(&mut self, buf: &mut [u8]) -> io::Result<usize> {
        match self {
            Source::File(file) => file.read(buf),
            Source::Input(input) => input.read(buf),
        }
    }
}

impl<R: Input, F: Files + Drop> Files for WithInput<'_, R, F> {
    type Reader = Source<F::Reader, R::Reader>;

    ghost use Rattle.command_files.specs.Contents.{beside_input, path_of};

    // What standard input has the system doesn't tell.
    ghost held = { λ w. beside_input (F.held w.files) };

    ghost are_one = { λ one other. F.are_one (path_of one) (path_of other) };

    fn open(&mut self, name: &str) -> io::Result<Source<F::Reader, R::Reader>> {
        if name != NAME {
            return Ok(Source::File(self.files.open(name)?));
        }
        if self.has_read_input {
            let message = "standard input is read once";
            return Err(io::Error::new(ErrorKind::InvalidInput, message));
        }
        self.has_read_input = true;
        Ok(Source::Input(self.rt.reader()))
    }

    fn are_same(&mut self, one: &str, other: &str) -> bool {
        self.files.are_same(path_of(one), path_of(other))
    }

    fn is_output(&mut self, name: &str) -> bool {
        self.files.is_output(path_of(name))
    }

    fn write(&mut self, name: &str, bytes: &[u8]) -> io::Result<()> {
        refuse_input(name)?;
        self.files.write(name, bytes)
    }

    fn check_writable(&mut self, name: &str) -> io::Result<()> {
        refuse_input(name)?;
        self.files.check_writable(name)
    }
}

/// The path of the file of this name: standard input has one too.
fn path_of(name: &str) -> &str
    ensures { result.now ≡ path_of name.now }
{
    if name == NAME { "/dev/stdin" } else { name }
}

/// Refuses to write standard input.
fn refuse_input(name: &str) -> io::Result<()>
    ensures { OnOk result (is_input name.now ≡ false) }
{
    if name == NAME {
        let message = "standard input is not written";
        return Err(io::Error::new(ErrorKind::InvalidInput, message));
    }
    Ok(())
}
