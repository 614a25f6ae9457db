//! Writers that fail or are interrupted.

use std::alloc::Global;
use std::io::{Error, ErrorKind, Result as IoResult, Write};

/// Takes a few bytes at a time, and no more than there is room for. A full one fails, or takes none.
#[derive(Drop)]
pub struct Narrow {
    room: usize,
    fails: bool,
    pub taken: Vec<u8>,
}

impl Narrow {
    pub fn new(alloc: Global, room: usize, fails: bool) -> Narrow {
        Narrow {
            room,
            fails,
            taken: Vec::new(alloc),
        }
    }
}

impl Write for Narrow {
    fn write(&mut self, buf: &[u8]) -> IoResult<usize> {
        let count = buf.len().min(self.room).min(7);
        if count == 0 && self.fails {
            return Err(Error::from(ErrorKind::BrokenPipe));
        }
        let (front, _) = buf.split_at(count);
        if self.taken.extend_from_slice(front).is_err() {
            return Err(Error::from(ErrorKind::OutOfMemory));
        }
        self.room -= count;
        Ok(count)
    }

    fn flush(&mut self) -> IoResult<()> {
        Ok(())
    }
}

/// Takes one byte at a time, and is interrupted before each.
#[derive(Drop)]
pub struct Interrupted {
    now: bool,
    pub taken: Vec<u8>,
}

impl Interrupted {
    pub fn new(alloc: Global) -> Interrupted {
        Interrupted {
            now: false,
            taken: Vec::new(alloc),
        }
    }
}

impl Write for Interrupted {
    fn write(&mut self, buf: &[u8]) -> IoResult<usize> {
        self.now = !self.now;
        if self.now {
            return Err(Error::from(ErrorKind::Interrupted));
        }
        let [byte, ..] = buf else {
            return Ok(0);
        };
        if self.taken.push(*byte).is_err() {
            return Err(Error::from(ErrorKind::OutOfMemory));
        }
        Ok(1)
    }

    fn flush(&mut self) -> IoResult<()> {
        Ok(())
    }
}
