//! Loading: worked files, printed names of faults, and files from other hands.

mod changed;
mod programs;

ghost use Rattle.elf_loader.specs.Size.{IsMemorySize};

use crate::same::{same, same_of};
use changed::{Answer, Answers, CUT, FILE, SUM, WITH_00, WITH_FF};
use elf_loader::{BASE, Image, LoadError, load, raw, size_of_kib};
use programs::Program;
use std::alloc::Global;
use std::process::Abort;
use std::test::Fail;

/// The fields that the tests vary.
#[derive(Clone, Copy)]
struct Header {
    e_type: u16,
    e_machine: u16,
    e_entry: u32,
    e_phoff: u32,
    e_flags: u32,
    e_phnum: u16,
}

const GOOD: Header = Header {
    e_type: 2,
    e_machine: 243,
    e_entry: BASE,
    e_phoff: 52,
    e_flags: 0,
    e_phnum: 0,
};

/// What the tests vary of an entry of the program header table: p_offset, p_vaddr, p_filesz and p_memsz.
type Segment = (u32, u32, u32, u32);

fn push(rt: &impl Abort, file: &mut Vec<u8>, bytes: &[u8]) {
    file.extend_from_slice(bytes).expect(rt, "a file");
}

fn push_halves(rt: &impl Abort, file: &mut Vec<u8>, fields: &[u16]) {
    for field in fields {
        push(rt, file, &field.to_le_bytes());
    }
}

fn push_words(rt: &impl Abort, file: &mut Vec<u8>, fields: &[u32]) {
    for field in fields {
        push(rt, file, &field.to_le_bytes());
    }
}

fn push_segment(rt: &impl Abort, file: &mut Vec<u8>, segment: Segment) {
    let (offset, address, file_size, memory_size) = segment;
    let fields = [1, offset, address, address, file_size, memory_size, 7, 4];
    push_words(rt, file, &fields);
}

fn push_header(rt: &impl Abort, file: &mut Vec<u8>, header: &Header) {
    push_halves(rt, file, &[header.e_type, header.e_machine]);
    let words = [1, header.e_entry, header.e_phoff, 0, header.e_flags];
    push_words(rt, file, &words);
    push_halves(rt, file, &[52, 32, header.e_phnum, 0, 0, 0]);
}

fn file_of(rt: &(impl Abort + AllocGlobal), header: &Header, table: &[Segment]) -> Vec<u8> {
    let mut file = Vec::new(rt.alloc());
    push(rt, &mut file, b"\x7fELF\x01\x01\x01\0\0\0\0\0\0\0\0\0");
    push_header(rt, &mut file, header);
    for segment in table {
        push_segment(rt, &mut file, *segment);
    }
    file
}

/// The number of the fault, 0 for an image.
fn answer(alloc: Global, file: &[u8], size: u32) -> u8
    requires { IsMemorySize size }
{
    match load(alloc, file, size) {
        Ok(_) => 0,
        Err(fault) => fault.number(),
    }
}

/// A file by its header and its table, and the number of its fault in memory of 4 KiB, 0 for an image.
type Case = (&'static str, Header, &'static [Segment], u8);

/// Compares the answers to files, each of which is told by its first words.
fn compare_files(rt: &(impl Abort + AllocGlobal), cases: &[Case]) {
    for (of, header, table, want) in cases {
        let file = file_of(rt, header, table);
        same_of(rt, answer(rt.alloc(), &file, 4096), *want, of);
    }
}

/// The sum of the bytes, each times its place from 1, modulo 2^32.
fn sum_of(image: &Image) -> u32 {
    let mut place = 0u32;
    let mut sum = 0u32;
    for byte in image.bytes() {
        place = place.wrapping_add(1);
        sum = sum.wrapping_add(place.wrapping_mul(u32::from(*byte)));
    }
    sum
}

const ONE_SEGMENT: Header = Header { e_phnum: 1, ..GOOD };

const TWO_SEGMENTS: Header = Header { e_phnum: 2, ..GOOD };

const THREE_SEGMENTS: Header = Header { e_phnum: 3, ..GOOD };

static ROW_15: [Case; 3] = [
    (
        "a segment to the end of memory",
        ONE_SEGMENT,
        &[(0, 0x8000_0ff0, 0, 16)],
        0,
    ),
    (
        "a segment beyond it",
        ONE_SEGMENT,
        &[(0, 0x8000_0ff0, 0, 17)],
        8,
    ),
    ("compressed code", Header { e_flags: 1, ..GOOD }, &[], 6),
];

#[test]
fn row_15(rt: HostRuntime) {
    same(&rt, answer(rt.alloc(), &[0x7f; 51], 4096), 1);
    compare_files(&rt, &ROW_15);
}

static ROW_30: [Case; 3] = [
    (
        "a table behind the file",
        Header {
            e_phoff: 53,
            ..GOOD
        },
        &[],
        7,
    ),
    (
        "two faults",
        Header {
            e_type: 1,
            e_machine: 0,
            ..GOOD
        },
        &[],
        4,
    ),
    (
        "an empty segment behind memory",
        ONE_SEGMENT,
        &[(0, 0x8000_1000, 0, 0)],
        0,
    ),
];

#[test]
fn row_30(rt: HostRuntime) {
    let file = file_of(&rt, &GOOD, &[]);
    same(&rt, file.len(), 52);
    let image = load(rt.alloc(), &file, 4096).expect(&rt, "an image");
    same(&rt, (image.entry(), sum_of(&image)), (BASE, 0));
    compare_files(&rt, &ROW_30);
}

static ROW_40: [Case; 5] = [
    (
        "17 segments",
        Header {
            e_phnum: 17,
            ..GOOD
        },
        &[],
        7,
    ),
    (
        "a far table",
        Header {
            e_phoff: 0xffff_ffff,
            ..ONE_SEGMENT
        },
        &[],
        7,
    ),
    (
        "the last word as entry",
        Header {
            e_entry: 0x8000_0ffc,
            ..GOOD
        },
        &[],
        0,
    ),
    (
        "an entry within a word",
        Header {
            e_entry: 0x8000_0ffe,
            ..GOOD
        },
        &[],
        10,
    ),
    (
        "an entry behind memory",
        Header {
            e_entry: 0x8000_1000,
            ..GOOD
        },
        &[],
        10,
    ),
];

#[test]
fn row_40(rt: HostRuntime) {
    compare_files(&rt, &ROW_40);
}

/// A byte at the beginning of memory.
const TWICE: Segment = (0, BASE, 1, 1);

static ROW_40_SEGMENTS: [Case; 4] = [
    (
        "behind the file",
        ONE_SEGMENT,
        &[(0xffff_ffff, BASE, 1, 1)],
        8,
    ),
    (
        "longer than memory",
        ONE_SEGMENT,
        &[(0, BASE, 0, 0xffff_ffff)],
        8,
    ),
    ("one byte twice", TWO_SEGMENTS, &[TWICE, TWICE], 9),
    (
        "one byte twice, and one outside",
        THREE_SEGMENTS,
        &[TWICE, TWICE, (0, 0x8000_1000, 0, 1)],
        8,
    ),
];

#[test]
fn row_40_segments(rt: HostRuntime) {
    compare_files(&rt, &ROW_40_SEGMENTS);
}

/// The answer to the file's first bytes, where it has so many.
fn answer_to_cut(alloc: Global, file: &[u8], length: usize, size: u32) -> Option<u8>
    requires { IsMemorySize size }
{
    let cut = file.get(..length)?;
    Some(answer(alloc, cut, size))
}

/// Compares the answers to the file cut at each length.
fn compare_cut(rt: &impl Abort, alloc: Global, file: &[u8], size: u32, wants: &[(usize, u8)])
    requires { IsMemorySize size }
{
    let mut length = 0usize;
    for (count, want) in wants {
        for _ in 0..*count {
            let got = answer_to_cut(alloc, file, length, size);
            same_of(rt, got, Some(*want), &length);
            length = length.wrapping_add(1);
        }
    }
    same(rt, length.checked_sub(1), Some(file.len()));
}

/// A file, the size of the memory that it is loaded to, and the sum of its image.
#[derive(Clone, Copy)]
struct Loaded<'a> {
    file: &'a [u8],
    size: u32,
    sum: u32,
}

/// The file with the byte at a place changed.
fn with_byte(rt: &(impl Abort + AllocGlobal), file: &[u8], value: u8, place: usize) -> Vec<u8> {
    let mut changed = file.to_vec(rt.alloc()).expect(rt, "a copy");
    if let Some(byte) = changed.get_mut(place) {
        *byte = value;
    }
    changed
}

/// The fault and the image's sum of a file.
fn whole_answer(alloc: Global, file: &[u8], size: u32) -> (u8, u32)
    requires { IsMemorySize size }
{
    match load(alloc, file, size) {
        Ok(image) => (0, sum_of(&image)),
        Err(fault) => (fault.number(), 0),
    }
}

/// The fault and the image's sum that a file changed so is to get.
fn expected(loaded: &Loaded<'_>, answer: Answer) -> (u8, u32) {
    match answer {
        Answer::Fault(number) => (number, 0),
        Answer::Whole => (0, loaded.sum),
        Answer::Image(sum) => (0, sum),
    }
}

/// Compares the answer to the file with the byte at a place changed.
fn compare_place(
    rt: &(impl Abort + AllocGlobal),
    loaded: &Loaded<'_>,
    value: u8,
    place: usize,
    answer: Answer,
)
    requires { IsMemorySize loaded.now.size }
{
    let file = with_byte(rt, loaded.file, value, place);
    let got = whole_answer(rt.alloc(), &file, loaded.size);
    same_of(rt, got, expected(loaded, answer), &(value, place));
}

/// Compares the answers to the file with the byte changed at each place from this one on, and gives the place behind
/// them.
fn compare_places(
    rt: &(impl Abort + AllocGlobal),
    loaded: &Loaded<'_>,
    value: u8,
    place: usize,
    wants: &[(usize, Answer)],
) -> usize
    requires { IsMemorySize loaded.now.size }
{
    let mut place = place;
    for (count, answer) in wants {
        for _ in 0..*count {
            compare_place(rt, loaded, value, place, *answer);
            place = place.wrapping_add(1);
        }
    }
    place
}

/// Compares the answers to the file with the byte at each place of header and table changed.
fn compare_changed(rt: &(impl Abort + AllocGlobal), loaded: &Loaded<'_>, value: u8, wants: Answers)
    requires { IsMemorySize loaded.now.size }
{
    let mut place = 0;
    for part in wants {
        place = compare_places(rt, loaded, value, place, part);
    }
}

/// What the small file is loaded to.
const SMALL: Loaded<'static> = Loaded {
    file: &FILE,
    size: 4096,
    sum: SUM,
};

#[test]
fn a_small_file_cut_and_changed(rt: HostRuntime) {
    compare_cut(&rt, rt.alloc(), &FILE, 4096, &CUT);
    compare_changed(&rt, &SMALL, 0x00, WITH_00);
    compare_changed(&rt, &SMALL, 0xff, WITH_FF);
}

/// The word at an address, where the image has one.
fn word_of(image: &Image, address: u32) -> Option<u32> {
    if image.has_word(address) {
        Some(image.word(address))
    } else {
        None
    }
}

/// Compares what stands in memory with the program's words, and zeros behind them.
fn compare_words(rt: &impl Abort, image: &Image, words: &[u32]) {
    let mut address = BASE;
    for word in words {
        same_of(rt, word_of(image, address), Some(*word), &address);
        address = address.wrapping_add(4);
    }
    same(rt, word_of(image, address), Some(0));
}

/// The file's image has the program's words.
fn compare_image(rt: &(impl Abort + AllocGlobal), file: &[u8], program: &Program) {
    let image = load(rt.alloc(), file, 8192).expect(rt, "an image");
    same(rt, image.entry(), 0x8000_0000);
    compare_words(rt, &image, program.words);
}

/// Loads a program's file, whole, cut and changed.
fn compare_file(rt: &(impl Abort + AllocGlobal), file: &[u8], program: &Program) {
    compare_image(rt, file, program);
    compare_cut(rt, rt.alloc(), file, 8192, program.cut);
    let loaded = Loaded {
        file,
        size: 8192,
        sum: program.sum,
    };
    compare_changed(rt, &loaded, 0x00, program.with_00);
    compare_changed(rt, &loaded, 0xff, program.with_ff);
}

fn compare_program(rt: &(impl Abort + AllocGlobal), program: &Program) -> Result<(), Fail> {
    let file = program.file(rt.alloc())?;
    compare_file(rt, &file, program);
    Ok(())
}

#[test]
fn programs_of_the_gnu_toolchain(rt: HostRuntime) -> Result<(), Fail> {
    for program in &programs::ALL {
        compare_program(&rt, program)?;
    }
    Ok(())
}

/// `li a0, 5` and `ecall`.
static EXIT: [u8; 8] = [0x13, 0x05, 0x50, 0x00, 0x73, 0x00, 0x00, 0x00];

/// What stands at addresses of 4 KiB of memory that hold these words alone.
static EXIT_WORDS: [(u32, Option<u32>); 6] = [
    (0x8000_0000, Some(0x0050_0513)),
    (0x8000_0004, Some(0x0000_0073)),
    (0x8000_0ffc, Some(0)),
    (0x7fff_fffc, None),
    (0x8000_0ffd, None),
    (0xffff_fffc, None),
];

fn has_exit_words(rt: &impl Abort, image: &Image) {
    same(rt, (image.size(), image.entry()), (4096, 0x8000_0000));
    for (address, want) in &EXIT_WORDS {
        same_of(rt, word_of(image, *address), *want, address);
    }
}

fn is_copy(rt: &impl Abort, image: &Image, copy: &Image) {
    same(rt, copy.bytes(), image.bytes());
    same(rt, copy.entry(), image.entry());
}

#[test]
fn bare_words(rt: HostRuntime) {
    let image = raw_again(&rt, rt.alloc(), &EXIT);
    has_exit_words(&rt, &image);
    is_copy(&rt, &image, &copy_again(&rt, rt.alloc(), &image));
}

/// The number of the fault of so many bytes in memory of 4 KiB, 0 for an image.
fn raw_answer(rt: &(impl Abort + AllocGlobal), length: usize) -> u8 {
    let bytes = vec![in rt.alloc(); 0u8; length].expect(rt, "bytes");
    match raw(rt.alloc(), &bytes, 4096) {
        Ok(_) => 0,
        Err(fault) => fault.number(),
    }
}

static LENGTHS: [(usize, u8); 5] = [(0, 0), (3, 1), (4096, 0), (4100, 8), (4101, 1)];

#[test]
fn bare_words_are_whole_and_fit(rt: HostRuntime) {
    for (length, want) in &LENGTHS {
        same_of(&rt, raw_answer(&rt, *length), *want, length);
    }
}

/// The file's image. It may be refused for want of memory alone, and not when asked for again.
fn load_again(rt: &impl Abort, alloc: Global, file: &[u8]) -> Image {
    match load(alloc, file, 4096) {
        Ok(image) => image,
        Err(fault) => {
            same(rt, fault, LoadError::NoMemory);
            load(alloc, file, 4096).expect(rt, "a second load")
        }
    }
}

/// The same of bare words.
fn raw_again(rt: &impl Abort, alloc: Global, words: &[u8]) -> Image {
    match raw(alloc, words, 4096) {
        Ok(image) => image,
        Err(fault) => {
            same(rt, fault, LoadError::NoMemory);
            raw(alloc, words, 4096).expect(rt, "words again")
        }
    }
}

fn copy_again(rt: &impl Abort, alloc: Global, image: &Image) -> Image {
    match image.try_copy(alloc) {
        Ok(copy) => copy,
        Err(_) => image.try_copy(alloc).expect(rt, "a second copy"),
    }
}

/// The file loads, and its image is copied.
fn is_loaded_and_copied(rt: &(impl Abort + AllocGlobal)) {
    let image = load_again(rt, rt.alloc(), &FILE);
    same(rt, sum_of(&image), SUM);
    let copy = copy_again(rt, rt.alloc(), &image);
    same(rt, sum_of(&image), SUM);
    same(rt, copy.bytes(), image.bytes());
}

/// Meant for runs in which one allocation fails: the answer is NoMemory, and the call succeeds when asked again.
#[test]
fn a_refused_allocation_is_no_memory(rt: HostRuntime) {
    is_loaded_and_copied(&rt);
    let words = raw_again(&rt, rt.alloc(), &[1, 0, 0, 0]);
    same(&rt, sum_of(&words), 1);
}

static SIZES: [(u32, Option<u32>); 6] = [
    (4, Some(4096)),
    (1024, Some(1 << 20)),
    (0, None),
    (6, None),
    (1028, None),
    (u32::MAX - 3, None),
];

#[test]
fn sizes(rt: HostRuntime) {
    for (kib, want) in &SIZES {
        same_of(&rt, size_of_kib(*kib), *want, kib);
    }
}

static FAULTS: [(LoadError, u8, &str); 11] = [
    (LoadError::Short, 1, "Short"),
    (LoadError::Magic, 2, "Magic"),
    (LoadError::Class, 3, "Class"),
    (LoadError::FileType, 4, "FileType"),
    (LoadError::Machine, 5, "Machine"),
    (LoadError::Flags, 6, "Flags"),
    (LoadError::HeaderTable, 7, "HeaderTable"),
    (LoadError::SegmentOutside, 8, "SegmentOutside"),
    (LoadError::SegmentOverlap, 9, "SegmentOverlap"),
    (LoadError::Entry, 10, "Entry"),
    (LoadError::NoMemory, 11, "NoMemory"),
];

fn is_named(rt: &(impl Abort + AllocGlobal), fault: LoadError, number: u8, name: &str) {
    let printed = fault.to_string(rt.alloc()).expect(rt, "a name");
    same(rt, (fault.number(), printed.as_str()), (number, name));
}

#[test]
fn names_of_faults(rt: HostRuntime) {
    for (fault, number, name) in &FAULTS {
        is_named(&rt, *fault, *number, name);
    }
}
