//! Names of addresses, of a file that clang and ld.lld 14 built, by what readelf shows of it.

use crate::same::{same, same_of};
use elf_symbols::{Place, Symbols};
use std::alloc::AllocError;
use std::process::Abort;

/// Two functions, two labels, an object and an absolute constant.
const FILE: &[u8] =
    b"\x7fELF\x01\x01\x01\0\0\0\0\0\0\0\0\0\x02\0\xf3\0\x01\0\0\0\0\0\0\x804\0\0\0\x94\x01\0\0\
        \0\0\0\04\0 \0\x03\0(\0\x07\0\x05\0\x01\0\0\0\x94\0\0\0\0\0\0\x80\0\0\0\x80\x14\0\0\0\
        \x14\0\0\0\x05\0\0\0\x04\0\0\0\x01\0\0\0\xa8\0\0\0\x14\0\0\x80\x14\0\0\x80\x08\0\0\0\x08\
        \0\0\0\x06\0\0\0\x01\0\0\0Q\xe5td\0\0\0\0\0\0\0\0\0\0\0\0\0\0\0\0\0\0\0\0\x06\0\0\0\0\0\
        \0\07\x06\0\x80\x03'F\x01\xe3\x0e\x07\xfe\x93\x08\0\0s\0\0\0\x07\0\0\0\x08\0\0\0Linker: \
        Debian LLD 14.0.6\0\0\0\0\0\0\0\0\0\0\0\0\0\0\0\0\0\0\0\x01\0\0\0\x04\0\0\x80\0\0\0\0\0\
        \0\x01\0\x06\0\0\0\x0c\0\0\x80\0\0\0\0\x02\0\x01\0\x0b\0\0\0\x18\0\0\x80\0\0\0\0\0\0\x02\
        \0\x11\0\0\0\x04\0\0\x80\0\0\0\0\0\0\xf1\xff\x1a\0\0\0\0\0\0\x80\0\0\0\0\x12\0\x01\0!\0\
        \0\0\x14\0\0\x80\0\0\0\0\x11\0\x02\0\0.text\0.data\0.comment\0.symtab\0.shstrtab\0.strta\
        b\0\0loop\0done\0alias\0constant\0_start\0shared\0\0\0\0\0\0\0\0\0\0\0\0\0\0\0\0\0\0\0\0\
        \0\0\0\0\0\0\0\0\0\0\0\0\0\0\0\0\0\0\0\0\0\x01\0\0\0\x01\0\0\0\x06\0\0\0\0\0\0\x80\x94\0\
        \0\0\x14\0\0\0\0\0\0\0\0\0\0\0\x04\0\0\0\0\0\0\0\x07\0\0\0\x01\0\0\0\x03\0\0\0\x14\0\0\
        \x80\xa8\0\0\0\x08\0\0\0\0\0\0\0\0\0\0\0\x01\0\0\0\0\0\0\0\x0d\0\0\0\x01\0\0\00\0\0\0\0\
        \0\0\0\xb0\0\0\0\x1a\0\0\0\0\0\0\0\0\0\0\0\x01\0\0\0\x01\0\0\0\x16\0\0\0\x02\0\0\0\0\0\0\
        \0\0\0\0\0\xcc\0\0\0p\0\0\0\x06\0\0\0\x05\0\0\0\x04\0\0\0\x10\0\0\0\x1e\0\0\0\x03\0\0\0\
        \0\0\0\0\0\0\0\0<\x01\0\00\0\0\0\0\0\0\0\0\0\0\0\x01\0\0\0\0\0\0\0(\0\0\0\x03\0\0\0\0\0\
        \0\0\0\0\0\0l\x01\0\0(\0\0\0\0\0\0\0\0\0\0\0\x01\0\0\0\0\0\0\0";

/// Where the file has its table of sections: 7 headers of 40 bytes.
const SECTIONS: usize = 404;

/// Where it has its symbols: 7 entries of 16 bytes.
const ENTRIES: usize = 204;

/// Where it has their names.
const STRINGS: usize = 364;

/// Whether an address is told as so many bytes behind this name's.
fn is_told(symbols: &Symbols, address: u32, wanted: &[u8], behind: u32) -> bool {
    match symbols.nearest(address) {
        Some(Place { name, offset }) => name == wanted && offset == behind,
        None => false,
    }
}

/// Whether an address has no name at or before it.
fn is_nameless(symbols: &Symbols, address: u32) -> bool {
    symbols.nearest(address).is_none()
}

/// Puts these bytes at this place of a file.
fn put(file: &mut Vec<u8>, at: usize, bytes: &[u8]) {
    let mut at = at;
    for byte in bytes {
        if let Some(place) = file.get_mut(at) {
            *place = *byte;
        }
        at = at.wrapping_add(1);
    }
}

/// The file with these bytes at this place.
fn changed(rt: &(impl Abort + AllocGlobal), at: usize, bytes: &[u8]) -> Vec<u8> {
    let mut file = FILE.to_vec(rt.alloc()).expect(rt, "a file");
    put(&mut file, at, bytes);
    file
}

/// The names that a file has. Where one allocation fails, a second reading gives the same.
fn read(rt: &(impl Abort + AllocGlobal), file: &[u8]) -> Symbols {
    match Symbols::read(rt.alloc(), file) {
        Ok(symbols) => symbols,
        Err(AllocError) => Symbols::read(rt.alloc(), file).expect(rt, "a second reading"),
    }
}

fn has_no_names(rt: &(impl Abort + AllocGlobal), file: &[u8], of: usize) {
    let symbols = read(rt, file);
    same_of(rt, is_nameless(&symbols, u32::MAX), true, &of);
}

/// Addresses, and the name and the distance that each is told by.
const TOLD: [(u32, &[u8], u32); 8] = [
    (0x8000_0000, b"_start", 0),
    (0x8000_0003, b"_start", 3),
    (0x8000_0004, b"loop", 0),
    (0x8000_000b, b"loop", 7),
    (0x8000_000c, b"done", 0),
    (0x8000_0014, b"shared", 0),
    (0x8000_0018, b"alias", 0),
    (u32::MAX, b"alias", 0x7fff_ffe7),
];

/// Names, and the address that each is of.
const ADDRESSES: [(&[u8], Option<u32>); 5] = [
    (b"_start", Some(0x8000_0000)),
    (b"alias", Some(0x8000_0018)),
    (b"constant", None),
    (b"star", None),
    (b"", None),
];

fn tells_all(rt: &impl Abort, symbols: &Symbols) {
    for (address, name, offset) in &TOLD {
        let told = is_told(symbols, *address, name, *offset);
        same_of(rt, told, true, address);
    }
    same(rt, is_nameless(symbols, 0x7fff_ffff), true);
    for (name, address) in &ADDRESSES {
        same_of(rt, symbols.address_of(name), *address, name);
    }
}

#[test]
fn names_of_a_file(rt: HostRuntime) {
    tells_all(&rt, &read(&rt, FILE));
}

#[test]
fn no_names(rt: HostRuntime) {
    let symbols = Symbols::new(rt.alloc());
    same(&rt, is_nameless(&symbols, u32::MAX), true);
    same(&rt, symbols.address_of(b"_start"), None);
}

/// A file that is cut anywhere gives its names or none: its table of sections stands last.
#[test]
fn cut_files(rt: HostRuntime) {
    for length in 0..FILE.len() {
        let (front, _) = FILE.split_at(length);
        has_no_names(&rt, front, length);
    }
}

/// Where the header of the table of symbols stands.
const TABLE: usize = SECTIONS + 4 * 40;

/// Fields of the file's header and of its tables, each by its place and its bytes as turned.
const BROKEN: [(usize, &[u8]); 13] = [
    (0, b"\x7e"),
    (4, b"\x02"),
    (5, b"\x02"),
    (32, b"\xff\xff\xff\xff"),
    (46, b"\x29"),
    (48, b"\x08"),
    (48, b"\x04"),
    (TABLE + 4, b"\x0b"),
    (TABLE + 16, b"\xff\xff\xff\xff"),
    (TABLE + 20, b"\xff\xff\xff\xff"),
    (TABLE + 24, b"\x07"),
    (TABLE + 36, b"\x18"),
    (SECTIONS + 6 * 40 + 20, b"\xff\xff\xff\xff"),
];

/// One field of the tables turned: no names.
#[test]
fn broken_tables(rt: HostRuntime) {
    for (at, bytes) in &BROKEN {
        has_no_names(&rt, &changed(&rt, *at, bytes), *at);
    }
}

/// Where `done`'s entry stands.
const DONE: usize = ENTRIES + 2 * 16;

/// Fields of `done`'s entry, and letters of its name.
const UNTOLD: [(usize, &[u8]); 9] = [
    (DONE, b"\xff\xff\xff\xff"),
    (DONE, b"\0\0\0\0"),
    (DONE + 12, b"\x03"),
    (DONE + 12, b"\x04"),
    (DONE + 14, b"\0\0"),
    (DONE + 14, b"\xf1\xff"),
    (STRINGS + 6, b"$"),
    (STRINGS + 7, b"\n"),
    (STRINGS + 8, b"\x7f"),
];

fn tells_loop_for_done(rt: &(impl Abort + AllocGlobal), file: &[u8], at: usize) {
    let symbols = read(rt, file);
    same_of(rt, is_told(&symbols, 0x8000_000c, b"loop", 8), true, &at);
    same_of(rt, is_told(&symbols, 0x8000_0014, b"shared", 0), true, &at);
}

/// One field of `done`'s entry or name turned: it is told no more, and `loop` stands for its address.
#[test]
fn untold_names(rt: HostRuntime) {
    for (at, bytes) in &UNTOLD {
        tells_loop_for_done(&rt, &changed(&rt, *at, bytes), *at);
    }
}

/// Names of blanks and of letters beyond ASCII are told.
#[test]
fn names_of_other_letters(rt: HostRuntime) {
    let file = changed(&rt, STRINGS + 7, b" \xc3\xa9");
    let symbols = read(&rt, &file);
    same(&rt, is_told(&symbols, 0x8000_000c, b"d \xc3\xa9", 0), true);
    same(&rt, symbols.address_of(b"d \xc3\xa9"), Some(0x8000_000c));
}

/// 60 bytes, the 53rd and 54th of which are one character.
const LONG: &[u8] = b"abcdefghijklmnopqrstuvwxyzabcdefghijklmnopqrstuvwxyz\xc3\xa9123456";

/// The file whose names are this one and what it ends with; `done` has it whole.
fn renamed(rt: &(impl Abort + AllocGlobal), name: &[u8]) -> Vec<u8> {
    let mut file = changed(rt, DONE, b"\0\0\0\0");
    let strings = SECTIONS + 6 * 40;
    put(&mut file, strings + 16, b"\xac\x02\0\0");
    put(&mut file, strings + 20, b"\x3d\0\0\0");
    file.extend_from_slice(name).expect(rt, "a name");
    file.push(0).expect(rt, "its end");
    file
}

/// A name of more than 56 bytes is told by whole characters of its first 53 bytes, and found by all of them.
#[test]
fn long_names(rt: HostRuntime) {
    let symbols = read(&rt, &renamed(&rt, LONG));
    let told = b"abcdefghijklmnopqrstuvwxyzabcdefghijklmnopqrstuvwxyz...";
    same(&rt, is_told(&symbols, 0x8000_000c, told, 0), true);
    same(&rt, symbols.address_of(LONG), Some(0x8000_000c));
    same(&rt, symbols.address_of(told), None);
}

/// The file tells an address by this name alone, and another name's address.
fn tells_one(
    rt: &(impl Abort + AllocGlobal),
    file: &[u8],
    told: (u32, &[u8]),
    named: (&[u8], u32),
) {
    let symbols = read(rt, file);
    same(rt, is_told(&symbols, told.0, told.1, 0), true);
    same(rt, symbols.address_of(named.0), Some(named.1));
}

/// Of names of one address the last of the table is the nearest: a global one stands behind local ones.
#[test]
fn names_of_one_address(rt: HostRuntime) {
    let file = changed(&rt, ENTRIES + 3 * 16 + 4, b"\x14");
    let shared = (0x8000_0014, b"shared".as_slice());
    tells_one(&rt, &file, shared, (b"alias", 0x8000_0014));
    let file = changed(&rt, ENTRIES + 2 * 16, b"\x01");
    let inner = (0x8000_000c, b"loop".as_slice());
    tells_one(&rt, &file, inner, (b"loop", 0x8000_0004));
}

/// Meant for runs in which one allocation fails.
#[test]
fn refused_memory(rt: HostRuntime) {
    let symbols = read(&rt, FILE);
    same(&rt, is_told(&symbols, 0x8000_0010, b"done", 4), true);
}
