//! The word that an access lies in, and its bytes there.
ghost use Rattle.std.specs.Prelude.{◌≡◌, ◌<◌, ◌*◌, ◌%◌, ◌^◌};
ghost use Rattle.machine_model.specs.Words.{word_of, read_from, store_of};
ghost use Rattle.machine_model.specs.Width.{byte_count};
ghost use Rattle.store_buffer.specs.ByteMask.{marks_of_access};

use machine_model::rv32_exec::Width;
use store_buffer::{ByteMask, Store};

/// The address of the aligned word that an address lies in.
pub fn word_of(address: u32) -> u32
    ensures { result ≡ word_of address }
{
    address - address % 4
}

/// The bytes of an access in its word, as marks: the lowest address first.
pub fn marks_of(address: u32, size: Width) -> ByteMask
    requires aligned { address % byte_count size ≡ 0 }
    ensures { result ≡ marks_of_access (address % 4) (byte_count size) }
{
    ByteMask::of_access(address % 4, size.bytes())
}

/// The number that an access reads, where the bytes of its word are these.
pub fn read_from(word: [u8; 4], address: u32, size: Width) -> u32
    ensures { result ≡ read_from word address (byte_count size) }
{
    let number = u32::from_le_bytes(word) >> (8 * (address % 4));
    match size {
        Width::Byte => number & 0xff,
        Width::Half => number & 0xffff,
        Width::Word => number,
    }
}

/// A store of a number, by the entry at this place of its hart's list.
pub fn store_of(address: u32, size: Width, value: u32, op: u32) -> Store
    requires aligned { address % byte_count size ≡ 0 }
    requires fits { value < 2 ^ (8 * byte_count size) }
    ensures { result ≡ store_of address (byte_count size) value op }
{
    Store {
        word: word_of(address),
        mask: marks_of(address, size),
        value: (value << (8 * (address % 4))).to_le_bytes(),
        op,
    }
}
