//! Standard output that breaks.

use std::alloc::Global;
use std::io::{self, ErrorKind, Write};

/// Takes no more than so many bytes; or takes all, and can't pass them on.
#[derive(Drop)]
pub struct Breaking {
    pub taken: Vec<u8>,
    room: Option<usize>,
}

impl Breaking {
    pub fn new(alloc: Global, room: Option<usize>) -> Breaking {
        Breaking {
            taken: Vec::new(alloc),
            room,
        }
    }
}

impl Write for Breaking {
    fn write(&mut self, buf: &[u8]) -> io::Result<usize> {
        let count = match self.room {
            Some(0) => return Err(io::Error::from(ErrorKind::StorageFull)),
            Some(room) => room.min(buf.len()),
            None => buf.len(),
        };
        self.taken.extend_from_slice(&buf[..count])?;
        if let Some(room) = &mut self.room {
            *room = room.saturating_sub(count);
        }
        Ok(count)
    }

    fn flush(&mut self) -> io::Result<()> {
        match self.room {
            Some(_) => Ok(()),
            None => Err(io::Error::from(ErrorKind::StorageFull)),
        }
    }
}
