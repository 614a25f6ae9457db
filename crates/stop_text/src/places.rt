//! Addresses by the names that an image's file has for them.

use elf_symbols::Symbols;
use std::fmt::{self, Formatter};
use std::str;

/// An address, and the name that lies there or nearest before it, as in `0x80000010 <check+0x8>`.
pub(crate) fn put_place<W: fmt::Write>(
    names: &Symbols,
    address: u32,
    f: &mut Formatter<W>,
) -> fmt::Result {
    write!(f, "0x{address:08x}")?;
    let Some(place) = names.nearest(address) else {
        return Ok(());
    };
    let Ok(name) = str::from_utf8(place.name) else {
        return Ok(());
    };
    match place.offset {
        0 => write!(f, " <{name}>"),
        offset => write!(f, " <{name}+0x{offset:x}>"),
    }
}
