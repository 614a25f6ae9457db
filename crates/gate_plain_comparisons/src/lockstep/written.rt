//! Memory as the image with what was performed, worked out from a machine's lists and performed order alone.

use amo_unit::combine;
use elf_loader::{BASE, Image};
use hart::Retired;
use rv32_exec::Action;
use std::alloc::{AllocError, Global};
use trace_recorder::OpId;

/// What an instruction writes once it is performed: so many bytes of a number.
#[derive(Clone, Copy)]
struct Write {
    operation: OpId,
    address: u32,
    bytes: usize,
    value: u32,
}

impl Write {
    fn put_in(&self, memory: &mut [u8]) {
        let bytes = self.value.to_le_bytes();
        if let Some(rest) = memory.get_mut(place_of(self.address)..) {
            for (kept, byte) in rest.iter_mut().zip(bytes.iter().take(self.bytes)) {
                *kept = *byte;
            }
        }
    }
}

/// What was performed, and what waits to be.
#[derive(Drop)]
pub struct Written {
    memory: Vec<u8>,
    writes: Vec<Write>,
    /// How many operations of the performed order are written.
    performed: usize,
    /// The word of memory that was written last.
    last: u32,
}

/// The place in memory of an address.
fn place_of(address: u32) -> usize {
    address.saturating_sub(BASE) as usize
}

impl Written {
    pub fn at_reset(alloc: Global, image: &Image) -> Result<Written, AllocError> {
        Ok(Written {
            memory: image.bytes().to_vec(alloc)?,
            writes: Vec::new(alloc),
            performed: 0,
            last: BASE,
        })
    }

    /// An instruction has retired that was going to do this.
    pub fn retired(
        &mut self,
        operation: OpId,
        access: Action,
        entry: &Retired,
    ) -> Result<(), AllocError> {
        let (address, bytes, value) = match (access, entry.loaded) {
            (Action::Store { addr, size, value }, _) => (addr, size.bytes() as usize, value),
            (Action::Sc { addr, value }, _) if entry.sc_ok == Some(true) => (addr, 4, value),
            (Action::Amo { addr, op, operand }, Some(old)) => (addr, 4, combine(op, old, operand)),
            _ => return Ok(()),
        };
        self.writes.push(Write {
            operation,
            address,
            bytes,
            value,
        })?;
        Ok(())
    }

    fn performs(&mut self, operation: OpId) {
        for write in self.writes.iter() {
            if write.operation == operation {
                self.last = write.address - write.address % 4;
                write.put_in(self.memory.as_mut_slice());
            }
        }
    }

    /// The performed order has become this longer one.
    pub fn performed(&mut self, order: &[OpId]) {
        if let Some(news) = order.get(self.performed..) {
            for operation in news {
                self.performs(*operation);
            }
        }
        self.performed = order.len();
    }

    /// Whether memory is the same in the word that was written last.
    pub fn is_at_last(&self, memory: &[u8]) -> bool {
        let start = place_of(self.last);
        let end = start.saturating_add(4);
        self.memory.get(start..end) == memory.get(start..end)
    }

    /// Whether memory is the same everywhere.
    pub fn is(&self, memory: &[u8]) -> bool {
        self.memory.as_slice() == memory
    }
}
