//! A small file, and the answers that its changed forms must get, some of which are those to other files too.
//!
//! The answers come from a program of its own, in Python, that was written from the table of faults
//! alone: it tries the faults in order and fills the image segment by segment.

/// What a changed file gets. An image is told by the sum of its bytes, each times its place from 1, modulo 2^32.
#[derive(Clone, Copy)]
pub enum Answer {
    /// The fault of this number.
    Fault(u8),
    /// The image of the file as it was.
    Whole,
    /// The image of this sum.
    Image(u32),
}

/// How many places in turn get each answer, in parts that other files may share.
pub type Answers = &'static [&'static [(usize, Answer)]];

/// Three program headers: two loadable segments with one of another type between them.
pub const FILE: [u8; 172] = [
    0x7f, 0x45, 0x4c, 0x46, 0x01, 0x01, 0x01, 0x00, 0x00, 0x00, 0x00, 0x00, 0x00, 0x00, 0x00, 0x00,
    0x02, 0x00, 0xf3, 0x00, 0x01, 0x00, 0x00, 0x00, 0x10, 0x00, 0x00, 0x80, 0x34, 0x00, 0x00, 0x00,
    0x00, 0x00, 0x00, 0x00, 0x00, 0x00, 0x00, 0x00, 0x34, 0x00, 0x20, 0x00, 0x03, 0x00, 0x00, 0x00,
    0x00, 0x00, 0x00, 0x00, 0x01, 0x00, 0x00, 0x00, 0x94, 0x00, 0x00, 0x00, 0x10, 0x00, 0x00, 0x80,
    0x10, 0x00, 0x00, 0x80, 0x10, 0x00, 0x00, 0x00, 0x14, 0x00, 0x00, 0x00, 0x07, 0x00, 0x00, 0x00,
    0x04, 0x00, 0x00, 0x00, 0x04, 0x00, 0x00, 0x00, 0x94, 0x00, 0x00, 0x00, 0x00, 0x00, 0x00, 0x00,
    0x00, 0x00, 0x00, 0x00, 0x18, 0x00, 0x00, 0x00, 0x18, 0x00, 0x00, 0x00, 0x07, 0x00, 0x00, 0x00,
    0x04, 0x00, 0x00, 0x00, 0x01, 0x00, 0x00, 0x00, 0xa4, 0x00, 0x00, 0x00, 0xf0, 0x0f, 0x00, 0x80,
    0xf0, 0x0f, 0x00, 0x80, 0x08, 0x00, 0x00, 0x00, 0x10, 0x00, 0x00, 0x00, 0x07, 0x00, 0x00, 0x00,
    0x04, 0x00, 0x00, 0x00, 0x11, 0x12, 0x13, 0x14, 0x15, 0x16, 0x17, 0x18, 0x19, 0x1a, 0x1b, 0x1c,
    0x1d, 0x1e, 0x1f, 0x20, 0x21, 0x22, 0x23, 0x24, 0x25, 0x26, 0x27, 0x28,
];

/// How many lengths in turn, from 0 on, get each answer: 0 for an image, else the fault's number.
pub static CUT: [(usize, u8); 4] = [(52, 1), (96, 7), (24, 8), (1, 0)];

/// The sum of the whole file's image.
pub const SUM: u32 = 1_202_660;

/// What each file gets with a byte of its header made 00, up to the first of the number of its segments.
pub const HEADER_00: [(usize, Answer); 15] = [
    (4, Answer::Fault(2)),
    (3, Answer::Fault(3)),
    (9, Answer::Whole),
    (1, Answer::Fault(4)),
    (1, Answer::Whole),
    (1, Answer::Fault(5)),
    (1, Answer::Whole),
    (1, Answer::Fault(3)),
    (6, Answer::Whole),
    (1, Answer::Fault(10)),
    (1, Answer::Image(0)),
    (13, Answer::Whole),
    (1, Answer::Fault(7)),
    (1, Answer::Whole),
    (1, Answer::Image(0)),
];

/// The same with the byte made ff, up to the last of the entry.
pub const HEADER_FF: [(usize, Answer); 7] = [
    (4, Answer::Fault(2)),
    (3, Answer::Fault(3)),
    (9, Answer::Whole),
    (2, Answer::Fault(4)),
    (2, Answer::Fault(5)),
    (4, Answer::Fault(3)),
    (4, Answer::Fault(10)),
];

/// What this file gets with a byte of the header or the table made 00.
pub static WITH_00: Answers = &[
    &HEADER_00,
    &[
        (7, Answer::Whole),
        (1, Answer::Image(1_192_716)),
        (3, Answer::Whole),
        (1, Answer::Image(1_199_027)),
        (3, Answer::Whole),
        (1, Answer::Image(1_196_388)),
        (2, Answer::Whole),
        (1, Answer::Fault(8)),
        (4, Answer::Whole),
        (1, Answer::Image(1_192_716)),
        (3, Answer::Whole),
        (1, Answer::Fault(8)),
        (43, Answer::Whole),
        (1, Answer::Image(9_944)),
        (3, Answer::Whole),
        (1, Answer::Image(1_418_335)),
        (3, Answer::Whole),
        (1, Answer::Image(1_132_580)),
        (1, Answer::Image(81_380)),
        (1, Answer::Whole),
        (1, Answer::Fault(8)),
        (4, Answer::Whole),
        (1, Answer::Image(9_944)),
        (3, Answer::Whole),
        (1, Answer::Fault(8)),
        (11, Answer::Whole),
    ],
];

/// The same with the byte made ff.
pub static WITH_FF: Answers = &[
    &HEADER_FF,
    &[
        (4, Answer::Fault(7)),
        (4, Answer::Whole),
        (4, Answer::Fault(6)),
        (2, Answer::Whole),
        (4, Answer::Fault(7)),
        (6, Answer::Whole),
        (4, Answer::Image(1_192_716)),
        (4, Answer::Fault(8)),
        (1, Answer::Image(1_296_348)),
        (3, Answer::Fault(8)),
        (4, Answer::Whole),
        (4, Answer::Fault(8)),
        (1, Answer::Whole),
        (3, Answer::Fault(8)),
        (40, Answer::Whole),
        (4, Answer::Image(9_944)),
        (8, Answer::Fault(8)),
        (4, Answer::Whole),
        (8, Answer::Fault(8)),
        (8, Answer::Whole),
    ],
];
