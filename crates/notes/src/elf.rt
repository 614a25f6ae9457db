//! What is wrong with an ELF file.

use elf_loader::{BASE, LoadError};
use std::fmt::{self, Display, Formatter};

/// What GCC and its tools are told so that they build what runs here.
const OPTIONS: &str = "-march=rv32ima -mabi=ilp32";

/// What the linker is told so that a program stands where memory begins.
const PLACE: &str = "link it with -n -Ttext=0x80000000";

/// What to do where memory is too small.
pub(crate) const MORE_MEMORY: &str = "name more KIB by --memory or in the script, at most 1024";

/// An object file that isn't linked.
const ET_REL: u32 = 1;

/// A position-independent program, or a shared library.
const ET_DYN: u32 = 3;

const EM_RISCV: u32 = 243;

const PT_LOAD: u32 = 1;

/// How many bytes a program header has.
const HEADER_SIZE: u32 = 32;

/// How many program headers a file may have.
const MOST_HEADERS: u32 = 16;

/// What is wrong with the bytes of an ELF file, which was refused so.
#[derive(Clone, Copy)]
pub(crate) struct ElfNote<'a> {
    pub(crate) bytes: &'a [u8],
    pub(crate) error: LoadError,
}

impl Display for ElfNote<'_> {
    fn fmt<W: fmt::Write>(&self, f: &mut Formatter<W>) -> fmt::Result {
        match self.error {
            LoadError::Short => f.write_str("the file ends within its header"),
            LoadError::Class | LoadError::FileType | LoadError::Machine
                if self.half(18) != EM_RISCV => {
                f.write_str("this is for another processor than RISC-V")
            }
            LoadError::Class => write!(
                f,
                "a 32-bit little-endian file is wanted: build it with {OPTIONS}"
            ),
            LoadError::Flags => write!(f, "{}: build it with {OPTIONS}", self.flags()),
            LoadError::SegmentOutside => self.outside(f),
            LoadError::SegmentOverlap => f.write_str("two segments share an address"),
            LoadError::HeaderTable => f.write_str(self.table()),
            LoadError::FileType => f.write_str(self.file_type()),
            _ => write!(
                f,
                "the entry, 0x{:08x}, is no multiple of 4, or lies outside memory: .globl _start, or -e NAME, names it",
                self.long(24)
            ),
        }
    }
}

impl ElfNote<'_> {
    /// The two bytes at this place as a number, 0 where the file has none.
    fn half(&self, at: usize) -> u32 {
        match self.bytes.get(at..) {
            Some([low, high, ..]) => u32::from(u16::from_le_bytes([*low, *high])),
            _ => 0,
        }
    }

    /// The four bytes at this place as a number, 0 where the file has none.
    fn long(&self, at: usize) -> u32 {
        match self.bytes.get(at..) {
            Some([a, b, c, d, ..]) => u32::from_le_bytes([*a, *b, *c, *d]),
            _ => 0,
        }
    }

    fn file_type(&self) -> &'static str {
        match self.half(16) {
            ET_REL => "this is an object file, which isn't linked",
            ET_DYN => "this is position-independent, or a shared library: link it with -no-pie",
            _ => "this is no executable file",
        }
    }

    /// What the flags ask for that no hart has.
    fn flags(&self) -> &'static str {
        let flags = self.long(36);
        if flags & 1 != 0 {
            "compressed code is not supported"
        } else if flags & 6 != 0 {
            "floating-point code is not supported"
        } else if flags & 8 != 0 {
            "code for 16 registers is not supported"
        } else if flags & 16 != 0 {
            "code for Ztso alone is not supported, only --model ztso"
        } else {
            "what the header's flags ask for is not supported"
        }
    }

    fn table(&self) -> &'static str {
        if self.half(42) != HEADER_SIZE {
            "its program headers are not those of a 32-bit file, which have 32 bytes each"
        } else if self.half(44) > MOST_HEADERS {
            "it has more than 16 program headers"
        } else {
            "its program headers lie outside the file, which may be cut short"
        }
    }

    /// Which segment lies outside the file or outside memory.
    fn outside<W: fmt::Write>(&self, f: &mut Formatter<W>) -> fmt::Result {
        let mut end = u64::from(BASE);
        for index in 0..self.half(44).min(MOST_HEADERS) {
            let at = self.long(28) as usize + (index * HEADER_SIZE) as usize;
            if self.long(at) != PT_LOAD {
                continue;
            }
            let start = self.long(at + 8);
            let (kept, size) = (self.long(at + 16), self.long(at + 20));
            let file_end = u64::from(self.long(at + 4)) + u64::from(kept);
            if file_end > self.bytes.len() as u64 {
                return f.write_str("the file ends within a segment: it may be cut short");
            }
            if kept > size {
                return f.write_str("a segment has more bytes in the file than in memory");
            }
            if start < BASE {
                return write!(
                    f,
                    "a segment begins at 0x{start:08x}, before memory, which begins at 0x{BASE:08x}: {PLACE}"
                );
            }
            end = end.max(u64::from(start) + u64::from(size));
        }
        write!(
            f,
            "a segment ends at 0x{end:08x}, behind memory: {MORE_MEMORY}, or {PLACE}"
        )
    }
}
