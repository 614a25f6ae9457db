//! Programs for rv32ima, built by the GNU toolchain: the head of each file, its one loadable segment,
//! which stands at place 4096 of the file and at the address 0x80000000 of memory, and what the file
//! has behind it. Zeros stand between head and segment.
//!
//! The answers to changed files come from the same program as those of `changed`, and are written in
//! the same way; memory has 8192 bytes.

use super::changed::{Answer, Answers, HEADER_00, HEADER_FF};
use std::alloc::{AllocError, Global};

/// A program's file, and the answers to its changed forms.
pub struct Program {
    /// What its head has at some places in place of the bytes of `HEAD`.
    head: &'static [(usize, u8)],
    pub words: &'static [u32],
    tail: &'static [u8],
    /// The sum of the whole file's image.
    pub sum: u32,
    pub cut: &'static [(usize, u8)],
    pub with_00: Answers,
    pub with_ff: Answers,
}

impl Program {
    /// The whole file.
    pub fn file(&self, alloc: Global) -> Result<Vec<u8>, AllocError> {
        let mut file = HEAD.to_vec(alloc)?;
        for (place, byte) in self.head {
            if let Some(at) = file.get_mut(*place) {
                *at = *byte;
            }
        }
        file.resize(4096, 0)?;
        for word in self.words {
            file.extend_from_slice(&word.to_le_bytes())?;
        }
        file.extend_from_slice(&COMMENT)?;
        file.extend_from_slice(self.tail)?;
        Ok(file)
    }
}

pub const ALL: [Program; 4] = [CAS, CRC, DIVIDE, SUM];

/// The header and the table, as `SUM` has them.
static HEAD: [u8; 116] = [
    0x7f, 0x45, 0x4c, 0x46, 0x01, 0x01, 0x01, 0x00, 0x00, 0x00, 0x00, 0x00, 0x00, 0x00, 0x00, 0x00,
    0x02, 0x00, 0xf3, 0x00, 0x01, 0x00, 0x00, 0x00, 0x00, 0x00, 0x00, 0x80, 0x34, 0x00, 0x00, 0x00,
    0x80, 0x12, 0x00, 0x00, 0x00, 0x00, 0x00, 0x00, 0x34, 0x00, 0x20, 0x00, 0x02, 0x00, 0x28, 0x00,
    0x08, 0x00, 0x07, 0x00, 0x03, 0x00, 0x00, 0x70, 0xa8, 0x10, 0x00, 0x00, 0x00, 0x00, 0x00, 0x00,
    0x00, 0x00, 0x00, 0x00, 0x2f, 0x00, 0x00, 0x00, 0x00, 0x00, 0x00, 0x00, 0x04, 0x00, 0x00, 0x00,
    0x01, 0x00, 0x00, 0x00, 0x01, 0x00, 0x00, 0x00, 0x00, 0x10, 0x00, 0x00, 0x00, 0x00, 0x00, 0x80,
    0x00, 0x00, 0x00, 0x80, 0xa8, 0x00, 0x00, 0x00, 0xf0, 0x00, 0x00, 0x00, 0x07, 0x00, 0x00, 0x00,
    0x00, 0x10, 0x00, 0x00,
];

/// The attributes and the comment, which name the architecture and the compiler, and the symbol that stands first in
/// each table.
static COMMENT: [u8; 124] = [
    0x41, 0x2e, 0x00, 0x00, 0x00, 0x72, 0x69, 0x73, 0x63, 0x76, 0x00, 0x01, 0x24, 0x00, 0x00, 0x00,
    0x04, 0x10, 0x05, 0x72, 0x76, 0x33, 0x32, 0x69, 0x32, 0x70, 0x31, 0x5f, 0x6d, 0x32, 0x70, 0x30,
    0x5f, 0x61, 0x32, 0x70, 0x31, 0x5f, 0x7a, 0x6d, 0x6d, 0x75, 0x6c, 0x31, 0x70, 0x30, 0x00, 0x47,
    0x43, 0x43, 0x3a, 0x20, 0x28, 0x31, 0x32, 0x2e, 0x32, 0x2e, 0x30, 0x2d, 0x31, 0x34, 0x2b, 0x64,
    0x65, 0x62, 0x31, 0x32, 0x75, 0x31, 0x2b, 0x31, 0x31, 0x2b, 0x62, 0x32, 0x29, 0x20, 0x31, 0x32,
    0x2e, 0x32, 0x2e, 0x30, 0x00, 0x00, 0x00, 0x00, 0x00, 0x00, 0x00, 0x00, 0x00, 0x00, 0x00, 0x00,
    0x00, 0x00, 0x00, 0x00, 0x00, 0x00, 0x00, 0x00, 0x00, 0x00, 0x00, 0x00, 0x00, 0x00, 0x00, 0x80,
    0x00, 0x00, 0x00, 0x00, 0x03, 0x00, 0x01, 0x00, 0x00, 0x00, 0x00, 0x00,
];

/// What follows `HEADER_00` up to the segment's place in the file.
const TABLE_00: [(usize, Answer); 3] = [
    (39, Answer::Whole),
    (1, Answer::Image(0)),
    (4, Answer::Whole),
];

/// What follows that place up to the segment's sizes.
const ADDRESS_00: [(usize, Answer); 3] = [
    (5, Answer::Whole),
    (1, Answer::Fault(8)),
    (4, Answer::Whole),
];

/// What follows from the sizes on, where one byte alone of each isn't 0.
const SIZES_00: [(usize, Answer); 4] = [
    (1, Answer::Image(0)),
    (3, Answer::Whole),
    (1, Answer::Fault(8)),
    (11, Answer::Whole),
];

/// What follows `HEADER_FF` up to the segment's place in the file.
const TABLE_FF: [(usize, Answer); 8] = [
    (1, Answer::Image(0)),
    (3, Answer::Fault(7)),
    (4, Answer::Whole),
    (4, Answer::Fault(6)),
    (2, Answer::Whole),
    (4, Answer::Fault(7)),
    (38, Answer::Whole),
    (4, Answer::Image(0)),
];

/// What follows the first byte of the segment's address up to its sizes.
const ADDRESS_FF: [(usize, Answer); 2] = [(3, Answer::Fault(8)), (4, Answer::Whole)];

/// What follows from the sizes on, where that in the file is above that in memory with its first byte made ff.
const SIZES_FF: [(usize, Answer); 4] = [
    (4, Answer::Fault(8)),
    (1, Answer::Whole),
    (3, Answer::Fault(8)),
    (8, Answer::Whole),
];

const CAS: Program = Program {
    head: &[
        (32, 0xbc),
        (56, 0xcc),
        (100, 0xcc),
        (104, 0x58),
        (105, 0x01),
    ],
    words: &[
        0x00000117, 0x16010113, 0x00150293, 0x00929293, 0x00510133, 0x018000ef, 0x00000893,
        0x00000073, 0x00100893, 0x00000073, 0x00008067, 0x80000637, 0x00251813, 0xff010113,
        0x0d060613, 0x00451513, 0x00180693, 0x00112623, 0x00812423, 0x00a607b3, 0x00480813,
        0x800005b7, 0x1545a703, 0x00e7a223, 0x15458313, 0x1003252f, 0x00e51663, 0x18d328af,
        0xfe089ae3, 0x40e508b3, 0x00050713, 0xfe0890e3, 0x00168693, 0x00478793, 0xfd0698e3,
        0x1545a783, 0x0ff0000f, 0x00000413, 0x00078c63, 0x00279793, 0x00f607b3, 0x0007a783,
        0x00140413, 0xfe0798e3, 0x00040513, 0xf6dff0ef, 0x00c12083, 0x00040513, 0x00812403,
        0x01010113, 0x00008067,
    ],
    tail: b"\xd0\0\0\x80\0\0\0\0\x03\0\x02\0\0\0\0\0\0\0\0\0\0\0\0\0\x03\0\x03\0\0\0\0\0\0\0\0\0\0\0\
        \0\0\x03\0\x04\0\x01\0\0\0\0\0\0\0\0\0\0\0\x04\0\xf1\xff\x0c\0\0\0\0\0\0\x80\0\0\0\0\0\0\
        \x01\0\x0c\0\0\0 \0\0\x80\0\0\0\0\0\0\x01\0*\0\0\0\0\0\0\0\0\0\0\0\x04\0\xf1\xff\x0c\0\0\
        \0,\0\0\x80\0\0\0\0\0\0\x01\00\0\0\0T\x01\0\x80\x04\0\0\0\x01\0\x02\05\0\0\0\xd0\0\0\x80\
        \x84\0\0\0\x01\0\x02\0@\0\0\0 \0\0\x80\0\0\0\0\x10\0\x01\0D\0\0\0\0\0\0\x80\0\0\0\0\x10\
        \0\x01\0K\0\0\0,\0\0\x80\xa0\0\0\0\x12\0\x01\0P\0\0\0`\x01\0\x80\0\0\0\0\x10\0\x02\0\0cc\
        p5IJXy.o\0$xrv32i2p1_m2p0_a2p1_zmmul1p0\0cas.c\0head\0stack_next\0put\0_start\0main\0sta\
        cks\0\0.symtab\0.strtab\0.shstrtab\0.text\0.bss\0.riscv.attributes\0.comment\0\0\0\0\0\0\
        \0\0\0\0\0\0\0\0\0\0\0\0\0\0\0\0\0\0\0\0\0\0\0\0\0\0\0\0\0\0\0\0\0\0\0\x1b\0\0\0\x01\0\0\
        \0\x06\0\0\0\0\0\0\x80\0\x10\0\0\xcc\0\0\0\0\0\0\0\0\0\0\0\x04\0\0\0\0\0\0\0!\0\0\0\x08\
        \0\0\0\x03\0\0\0\xd0\0\0\x80\xcc\x10\0\0\x88\0\0\0\0\0\0\0\0\0\0\0\x10\0\0\0\0\0\0\0&\0\
        \0\0\x03\0\0p\0\0\0\0\0\0\0\0\xcc\x10\0\0/\0\0\0\0\0\0\0\0\0\0\0\x01\0\0\0\0\0\0\08\0\0\
        \0\x01\0\0\00\0\0\0\0\0\0\0\xfb\x10\0\0&\0\0\0\0\0\0\0\0\0\0\0\x01\0\0\0\x01\0\0\0\x01\0\
        \0\0\x02\0\0\0\0\0\0\0\0\0\0\0$\x11\0\0\0\x01\0\0\x06\0\0\0\x0c\0\0\0\x04\0\0\0\x10\0\0\
        \0\t\0\0\0\x03\0\0\0\0\0\0\0\0\0\0\0$\x12\0\0W\0\0\0\0\0\0\0\0\0\0\0\x01\0\0\0\0\0\0\0\
        \x11\0\0\0\x03\0\0\0\0\0\0\0\0\0\0\0{\x12\0\0A\0\0\0\0\0\0\0\0\0\0\0\x01\0\0\0\0\0\0\0",
    sum: 1_514_183,
    cut: &[(52, 1), (64, 7), (4184, 8), (817, 0)],
    with_00: &[
        &HEADER_00,
        &TABLE_00,
        &[(1, Answer::Image(103_927))],
        &ADDRESS_00,
        &[
            (1, Answer::Image(0)),
            (4, Answer::Whole),
            (1, Answer::Fault(8)),
            (10, Answer::Whole),
        ],
    ],
    with_ff: &[
        &HEADER_FF,
        &TABLE_FF,
        &[
            (1, Answer::Image(337_772)),
            (3, Answer::Fault(8)),
            (1, Answer::Image(4_898_798)),
        ],
        &ADDRESS_FF,
        &[
            (1, Answer::Image(2_287_919)),
            (3, Answer::Fault(8)),
            (1, Answer::Whole),
            (3, Answer::Fault(8)),
            (8, Answer::Whole),
        ],
    ],
};

const CRC: Program = Program {
    head: &[
        (32, 0x8c),
        (48, 0x07),
        (50, 0x06),
        (56, 0xcc),
        (100, 0xcc),
        (104, 0xcc),
        (108, 0x05),
    ],
    words: &[
        0x00000117, 0x0d010113, 0x00150293, 0x00929293, 0x00510133, 0x018000ef, 0x00000893,
        0x00000073, 0x00100893, 0x00000073, 0x00008067, 0x800005b7, 0xff010113, 0x0a058593,
        0xedb88637, 0x00112623, 0x00812423, 0x02b58513, 0xfff00713, 0x32060613, 0x0005c783,
        0x00800693, 0x00f74733, 0x00177793, 0x40f007b3, 0x00175713, 0x00c7f7b3, 0xfff68693,
        0x00f74733, 0xfe0694e3, 0x00158593, 0xfca59ae3, 0xfff74413, 0x00040513, 0xf99ff0ef,
        0x00c12083, 0x0ff47513, 0x00812403, 0x01010113, 0x00008067, 0x20656854, 0x63697571,
        0x7262206b, 0x206e776f, 0x20786f66, 0x706d756a, 0x766f2073, 0x74207265, 0x6c206568,
        0x20797a61, 0x00676f64,
    ],
    tail: b"\0\0\0\0\0\0\0\0\x03\0\x02\0\0\0\0\0\0\0\0\0\0\0\0\0\x03\0\x03\0\x01\0\0\0\0\0\0\0\0\0\0\
        \0\x04\0\xf1\xff\x0c\0\0\0\0\0\0\x80\0\0\0\0\0\0\x01\0\x0c\0\0\0 \0\0\x80\0\0\0\0\0\0\
        \x01\0*\0\0\0\0\0\0\0\0\0\0\0\x04\0\xf1\xff\x0c\0\0\0,\0\0\x80\0\0\0\0\0\0\x01\00\0\0\0\
        \xa0\0\0\x80,\0\0\0\x01\0\x01\05\0\0\0 \0\0\x80\0\0\0\0\x10\0\x01\09\0\0\0\0\0\0\x80\0\0\
        \0\0\x10\0\x01\0@\0\0\0,\0\0\x80t\0\0\0\x12\0\x01\0E\0\0\0\xd0\0\0\x80\0\0\0\0\x10\0\x01\
        \0\0ccwIsjI3.o\0$xrv32i2p1_m2p0_a2p1_zmmul1p0\0crc.c\0text\0put\0_start\0main\0stacks\0\
        \0.symtab\0.strtab\0.shstrtab\0.text\0.riscv.attributes\0.comment\0\0\0\0\0\0\0\0\0\0\0\
        \0\0\0\0\0\0\0\0\0\0\0\0\0\0\0\0\0\0\0\0\0\0\0\0\0\0\0\0\0\0\x1b\0\0\0\x01\0\0\0\x06\0\0\
        \0\0\0\0\x80\0\x10\0\0\xcc\0\0\0\0\0\0\0\0\0\0\0\x04\0\0\0\0\0\0\0!\0\0\0\x03\0\0p\0\0\0\
        \0\0\0\0\0\xcc\x10\0\0/\0\0\0\0\0\0\0\0\0\0\0\x01\0\0\0\0\0\0\03\0\0\0\x01\0\0\00\0\0\0\
        \0\0\0\0\xfb\x10\0\0&\0\0\0\0\0\0\0\0\0\0\0\x01\0\0\0\x01\0\0\0\x01\0\0\0\x02\0\0\0\0\0\
        \0\0\0\0\0\0$\x11\0\0\xe0\0\0\0\x05\0\0\0\n\0\0\0\x04\0\0\0\x10\0\0\0\t\0\0\0\x03\0\0\0\
        \0\0\0\0\0\0\0\0\x04\x12\0\0L\0\0\0\0\0\0\0\0\0\0\0\x01\0\0\0\0\0\0\0\x11\0\0\0\x03\0\0\
        \0\0\0\0\0\0\0\0\0P\x12\0\0<\0\0\0\0\0\0\0\0\0\0\0\x01\0\0\0\0\0\0\0",
    sum: 1_911_385,
    cut: &[(52, 1), (64, 7), (4184, 8), (729, 0)],
    with_00: &[
        &HEADER_00,
        &TABLE_00,
        &[(1, Answer::Image(114_099))],
        &ADDRESS_00,
        &SIZES_00,
    ],
    with_ff: &[
        &HEADER_FF,
        &TABLE_FF,
        &[
            (1, Answer::Image(348_767)),
            (3, Answer::Fault(8)),
            (1, Answer::Image(6_199_210)),
        ],
        &ADDRESS_FF,
        &SIZES_FF,
    ],
};

const DIVIDE: Program = Program {
    head: &[
        (32, 0xf0),
        (56, 0x1c),
        (57, 0x11),
        (100, 0x1c),
        (101, 0x01),
        (104, 0x1c),
        (105, 0x01),
    ],
    words: &[
        0x00000117, 0x12010113, 0x00150293, 0x00929293, 0x00510133, 0x018000ef, 0x00000893,
        0x00000073, 0x00100893, 0x00000073, 0x00008067, 0xff010113, 0x800008b7, 0x00812423,
        0x00112623, 0x00000e13, 0x00000413, 0x10088893, 0x00700313, 0x002e1813, 0x00000593,
        0x01088833, 0x00259693, 0x00541713, 0x00d886b3, 0x00082783, 0x40870533, 0x0006a703,
        0x02e7c633, 0x02e7e6b3, 0x02e7dfb3, 0x02e7ff33, 0x02e7aeb3, 0x02e787b3, 0x00158593,
        0x00a787b3, 0x00579713, 0x40f707b3, 0x00f607b3, 0x00579713, 0x40f707b3, 0x00f687b3,
        0x00579713, 0x40f70733, 0x01f70733, 0x00571793, 0x40e787b3, 0x01e787b3, 0x00579413,
        0x40f40433, 0x01d40433, 0xf86596e3, 0x001e0e13, 0xf6be1ce3, 0x00040513, 0xf45ff0ef,
        0x00c12083, 0x0ff47513, 0x00812403, 0x01010113, 0x00008067, 0x00000000, 0x00000000,
        0x00000000, 0x00000007, 0xfffffff9, 0x80000000, 0x00000001, 0x00000000, 0x075bcd15,
        0xffffffff,
    ],
    tail: b"\0\x01\0\x80\0\0\0\0\x03\0\x02\0\0\0\0\0\0\0\0\0\0\0\0\0\x03\0\x03\0\0\0\0\0\0\0\0\0\0\0\
        \0\0\x03\0\x04\0\x01\0\0\0\0\0\0\0\0\0\0\0\x04\0\xf1\xff\x0c\0\0\0\0\0\0\x80\0\0\0\0\0\0\
        \x01\0\x0c\0\0\0 \0\0\x80\0\0\0\0\0\0\x01\0*\0\0\0\0\0\0\0\0\0\0\0\x04\0\xf1\xff\x0c\0\0\
        \0,\0\0\x80\0\0\0\0\0\0\x01\0A\0\0\0\0\x01\0\x80\x1c\0\0\0\x01\0\x02\03\0\0\0 \0\0\x80\0\
        \0\0\0\x10\0\x01\07\0\0\0\0\0\0\x80\0\0\0\0\x10\0\x01\0>\0\0\0,\0\0\x80\xc8\0\0\0\x12\0\
        \x01\0C\0\0\0 \x01\0\x80\0\0\0\0\x10\0\x02\0\0ccYlvMsF.o\0$xrv32i2p1_m2p0_a2p1_zmmul1p0\
        \0divide.c\0put\0_start\0main\0stacks\0\0.symtab\0.strtab\0.shstrtab\0.text\0.data\0.ris\
        cv.attributes\0.comment\0\0\0\0\0\0\0\0\0\0\0\0\0\0\0\0\0\0\0\0\0\0\0\0\0\0\0\0\0\0\0\0\
        \0\0\0\0\0\0\0\0\0\x1b\0\0\0\x01\0\0\0\x06\0\0\0\0\0\0\x80\0\x10\0\0\xf4\0\0\0\0\0\0\0\0\
        \0\0\0\x04\0\0\0\0\0\0\0!\0\0\0\x01\0\0\0\x03\0\0\0\0\x01\0\x80\0\x11\0\0\x1c\0\0\0\0\0\
        \0\0\0\0\0\0\x10\0\0\0\0\0\0\0'\0\0\0\x03\0\0p\0\0\0\0\0\0\0\0\x1c\x11\0\0/\0\0\0\0\0\0\
        \0\0\0\0\0\x01\0\0\0\0\0\0\09\0\0\0\x01\0\0\00\0\0\0\0\0\0\0K\x11\0\0&\0\0\0\0\0\0\0\0\0\
        \0\0\x01\0\0\0\x01\0\0\0\x01\0\0\0\x02\0\0\0\0\0\0\0\0\0\0\0t\x11\0\0\xf0\0\0\0\x06\0\0\
        \0\x0b\0\0\0\x04\0\0\0\x10\0\0\0\t\0\0\0\x03\0\0\0\0\0\0\0\0\0\0\0d\x12\0\0J\0\0\0\0\0\0\
        \0\0\0\0\0\x01\0\0\0\0\0\0\0\x11\0\0\0\x03\0\0\0\0\0\0\0\0\0\0\0\xae\x12\0\0B\0\0\0\0\0\
        \0\0\0\0\0\0\x01\0\0\0\0\0\0\0",
    sum: 3_304_287,
    cut: &[(52, 1), (64, 7), (4264, 8), (789, 0)],
    with_00: &[
        &HEADER_00,
        &TABLE_00,
        &[(1, Answer::Image(71_695))],
        &ADDRESS_00,
        &[
            (1, Answer::Image(2_623_425)),
            (1, Answer::Image(22_290)),
            (2, Answer::Whole),
            (2, Answer::Fault(8)),
            (10, Answer::Whole),
        ],
    ],
    with_ff: &[
        &HEADER_FF,
        &TABLE_FF,
        &[
            (1, Answer::Image(841_731)),
            (3, Answer::Fault(8)),
            (1, Answer::Image(8_738_592)),
        ],
        &ADDRESS_FF,
        &SIZES_FF,
    ],
};

const SUM: Program = Program {
    head: &[],
    words: &[
        0x00000117, 0x0f010113, 0x00150293, 0x00929293, 0x00510133, 0x018000ef, 0x00000893,
        0x00000073, 0x00100893, 0x00000073, 0x00008067, 0xff010113, 0x80000637, 0x00112623,
        0x00812423, 0x00000793, 0x0b060613, 0x01000593, 0x02f786b3, 0x00279713, 0x00e60733,
        0x00178793, 0x00a686b3, 0x00d72023, 0xfeb794e3, 0x00000793, 0x00000413, 0x01000693,
        0x00279713, 0x00e60733, 0x00072703, 0x00178793, 0x00e40433, 0xfed796e3, 0x00040513,
        0xf95ff0ef, 0x0fb00513, 0x02a47533, 0x00c12083, 0x00812403, 0x01010113, 0x00008067,
    ],
    tail: b"\xb0\0\0\x80\0\0\0\0\x03\0\x02\0\0\0\0\0\0\0\0\0\0\0\0\0\x03\0\x03\0\0\0\0\0\0\0\0\0\0\0\
        \0\0\x03\0\x04\0\x01\0\0\0\0\0\0\0\0\0\0\0\x04\0\xf1\xff\x0c\0\0\0\0\0\0\x80\0\0\0\0\0\0\
        \x01\0\x0c\0\0\0 \0\0\x80\0\0\0\0\0\0\x01\0*\0\0\0\0\0\0\0\0\0\0\0\x04\0\xf1\xff\x0c\0\0\
        \0,\0\0\x80\0\0\0\0\0\0\x01\00\0\0\0\xb0\0\0\x80@\0\0\0\x01\0\x02\06\0\0\0 \0\0\x80\0\0\
        \0\0\x10\0\x01\0:\0\0\0\0\0\0\x80\0\0\0\0\x10\0\x01\0A\0\0\0,\0\0\x80|\0\0\0\x12\0\x01\0\
        F\0\0\0\xf0\0\0\x80\0\0\0\0\x10\0\x02\0\0ccYmdXzS.o\0$xrv32i2p1_m2p0_a2p1_zmmul1p0\0sum.\
        c\0table\0put\0_start\0main\0stacks\0\0.symtab\0.strtab\0.shstrtab\0.text\0.bss\0.riscv.\
        attributes\0.comment\0\0\0\0\0\0\0\0\0\0\0\0\0\0\0\0\0\0\0\0\0\0\0\0\0\0\0\0\0\0\0\0\0\0\
        \0\0\0\0\0\0\0\0\0\x1b\0\0\0\x01\0\0\0\x06\0\0\0\0\0\0\x80\0\x10\0\0\xa8\0\0\0\0\0\0\0\0\
        \0\0\0\x04\0\0\0\0\0\0\0!\0\0\0\x08\0\0\0\x03\0\0\0\xb0\0\0\x80\xa8\x10\0\0@\0\0\0\0\0\0\
        \0\0\0\0\0\x10\0\0\0\0\0\0\0&\0\0\0\x03\0\0p\0\0\0\0\0\0\0\0\xa8\x10\0\0/\0\0\0\0\0\0\0\
        \0\0\0\0\x01\0\0\0\0\0\0\08\0\0\0\x01\0\0\00\0\0\0\0\0\0\0\xd7\x10\0\0&\0\0\0\0\0\0\0\0\
        \0\0\0\x01\0\0\0\x01\0\0\0\x01\0\0\0\x02\0\0\0\0\0\0\0\0\0\0\0\0\x11\0\0\xf0\0\0\0\x06\0\
        \0\0\x0b\0\0\0\x04\0\0\0\x10\0\0\0\t\0\0\0\x03\0\0\0\0\0\0\0\0\0\0\0\xf0\x11\0\0M\0\0\0\
        \0\0\0\0\0\0\0\0\x01\0\0\0\0\0\0\0\x11\0\0\0\x03\0\0\0\0\0\0\0\0\0\0\0=\x12\0\0A\0\0\0\0\
        \0\0\0\0\0\0\0\x01\0\0\0\0\0\0\0",
    sum: 979_077,
    cut: &[(52, 1), (64, 7), (4148, 8), (793, 0)],
    with_00: &[
        &HEADER_00,
        &TABLE_00,
        &[(1, Answer::Image(112_113))],
        &ADDRESS_00,
        &SIZES_00,
    ],
    with_ff: &[
        &HEADER_FF,
        &TABLE_FF,
        &[
            (1, Answer::Image(243_036)),
            (3, Answer::Fault(8)),
            (1, Answer::Image(3_653_007)),
        ],
        &ADDRESS_FF,
        &SIZES_FF,
    ],
};
