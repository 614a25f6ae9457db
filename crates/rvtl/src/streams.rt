//! The program's streams.

use std::cell::Cell;
use std::io::{self, ErrorKind, Write};

/// Standard output, which keeps why it took no more.
#[derive(Drop)]
pub struct Output<'c, W> {
    to: W,
    fault: &'c Cell<Option<io::Error>>,
}

impl<'c, W> Output<'c, W> {
    /// Standard output that writes there, and leaves why it took no more in this cell.
    pub fn new(to: W, fault: &'c Cell<Option<io::Error>>) -> Output<'c, W> {
        Output { to, fault }
    }
}

impl<W: Write> Write for Output<'_, W> {
    ghost contents = { λ o. W.contents o.to };

    fn write(&mut self, buf: &[u8]) -> io::Result<usize> {
        let written = self.to.write(buf);
        if let Err(error) = &written {
            if error.kind() != ErrorKind::Interrupted {
                self.fault.set(Some(*error));
            }
        }
        written
    }

    fn flush(&mut self) -> io::Result<()> {
        self.to.flush()
    }
}

/// Standard error, on which nothing is told any more once the reader of standard output has gone away.
#[derive(Drop)]
pub struct Messages<'c, W> {
    to: W,
    fault: &'c Cell<Option<io::Error>>,
}

impl<'c, W> Messages<'c, W> {
    /// Standard error that writes there, beside the standard output that leaves its faults in this cell.
    pub fn new(to: W, fault: &'c Cell<Option<io::Error>>) -> Messages<'c, W> {
        Messages { to, fault }
    }
}

impl<W: Write> Write for Messages<'_, W> {
    fn write(&mut self, buf: &[u8]) -> io::Result<usize> {
        match self.fault.get() {
            Some(error) if error.kind() == ErrorKind::BrokenPipe => Ok(buf.len()),
            _ => self.to.write(buf),
        }
    }

    fn flush(&mut self) -> io::Result<()> {
        self.to.flush()
    }
}
