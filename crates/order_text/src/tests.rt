//! Texts of two small runs, worked out by hand.

use crate::{order_lines, write_lines};
use elf_loader::{Image, raw, size_of_kib};
use elf_symbols::Symbols;
use hart::{Retired, Status};
use machine_types::MemoryModel;
use std::alloc::Global;
use std::process::Abort;
use std::test::Fail;
use tl_types::LineSize;
use trace_recorder::{OpId, Trace, are_within_limits};

/// `lui a2, 0x80000`, `addi a3, zero, 1`, then the word of the hart's own number and that of the other, at 256 and 260,
/// `sw a3, 256(a4)` into the one and `lw a6, 256(a5)` from the other.
const STORE_BUFFERING: [u32; 9] = [
    0x8000_0637,
    0x0010_0693,
    0x0025_1713,
    0x00c7_0733,
    0x0015_4793,
    0x0027_9793,
    0x00c7_87b3,
    0x10d7_2023,
    0x1007_a803,
];

/// Both loads stand before both stores, which have no place in the order yet.
const STORE_BUFFERING_TEXT: &str = "rvtl-order 1
rvwmo legal
performed 2 of 4
R 0:0 0x80000000 - ; lui a2, 0x80000
R 0:1 0x80000004 - ; addi a3, zero, 1
R 0:2 0x80000008 - ; slli a4, a0, 2
R 0:3 0x8000000c - ; add a4, a4, a2
R 0:4 0x80000010 - ; xori a5, a0, 1
R 0:5 0x80000014 - ; slli a5, a5, 2
R 0:6 0x80000018 - ; add a5, a5, a2
R 0:7 0x8000001c 2 ; sw a3, 256(a4)
A 0:7 store 0x80000100 4 - 0x00000001
co image 0:7 0x80000100 4
R 0:8 0x80000020 0 ; lw a6, 256(a5)
A 0:8 load 0x80000104 4 0x00000000 -
rf image 0:8 0x80000104 4
fr 0:8 1:7 0x80000104 4
ppo 0:7 0:8 -
overtakes 0:8 0:7 ; to order them: fence w, r between them
R 1:0 0x80000000 - ; lui a2, 0x80000
R 1:1 0x80000004 - ; addi a3, zero, 1
R 1:2 0x80000008 - ; slli a4, a0, 2
R 1:3 0x8000000c - ; add a4, a4, a2
R 1:4 0x80000010 - ; xori a5, a0, 1
R 1:5 0x80000014 - ; slli a5, a5, 2
R 1:6 0x80000018 - ; add a5, a5, a2
R 1:7 0x8000001c 3 ; sw a3, 256(a4)
A 1:7 store 0x80000104 4 - 0x00000001
co image 1:7 0x80000104 4
R 1:8 0x80000020 1 ; lw a6, 256(a5)
A 1:8 load 0x80000100 4 0x00000000 -
rf image 1:8 0x80000100 4
fr 1:8 0:7 0x80000100 4
ppo 1:7 1:8 -
overtakes 1:8 1:7 ; to order them: fence w, r between them
P 0 0:8 load 0x80000104 4 0x00000000 -
P 1 1:8 load 0x80000100 4 0x00000000 -
P 2 0:7 store 0x80000100 4 - 0x00000001
P 3 1:7 store 0x80000104 4 - 0x00000001
";

/// `lui a2, 0x80001`, then `sw`, `lw`, `sb` at the second byte, `lh`, `amoswap.w`, `lr.w` and `sc.w`, all of one word.
const ONE_WORD: [u32; 8] = [
    0x8000_1637,
    0x00d6_2023,
    0x0006_2703,
    0x00d6_00a3,
    0x0006_1703,
    0x08d6_272f,
    0x1006_272f,
    0x18d6_27af,
];

const ONE_WORD_TEXT: &str = "rvtl-order 1
ztso legal
performed 7 of 7
R 0:0 0x80000000 - ; lui a2, 0x80001
R 0:1 0x80000004 0 ; sw a3, 0(a2)
A 0:1 store 0x80001000 4 - 0x00000000
co image 0:1 0x80001000 4
R 0:2 0x80000008 1 ; lw a4, 0(a2)
A 0:2 load 0x80001000 4 0x00000000 -
rf 0:1 0:2 0x80001000 4
fr 0:2 0:5 0x80001000 1
fr 0:2 0:3 0x80001001 1
fr 0:2 0:5 0x80001002 1
fr 0:2 0:5 0x80001003 1
ppo 0:1 0:2 -
R 0:3 0x8000000c 2 ; sb a3, 1(a2)
A 0:3 store 0x80001001 1 - 0x00000000
co 0:1 0:3 0x80001001 1
ppo 0:2 0:3 1 ; OverlappingStore
ppo 0:2 0:3 5 ; Acquire
ppo 0:2 0:3 6 ; Release
R 0:4 0x80000010 3 ; lh a4, 0(a2)
A 0:4 load 0x80001000 2 0x00000000 -
rf 0:1 0:4 0x80001000 1
rf 0:3 0:4 0x80001001 1
fr 0:4 0:5 0x80001000 2
ppo 0:3 0:4 -
R 0:5 0x80000014 4 ; amoswap.w a4, a3, (a2)
A 0:5 amo 0x80001000 4 0x00000000 0x00000000
rf 0:1 0:5 0x80001000 1
rf 0:3 0:5 0x80001001 1
rf 0:1 0:5 0x80001002 1
rf 0:1 0:5 0x80001003 1
co 0:1 0:5 0x80001000 1
co 0:3 0:5 0x80001001 1
co 0:1 0:5 0x80001002 1
co 0:1 0:5 0x80001003 1
fr 0:5 0:7 0x80001000 4
ppo 0:4 0:5 1 ; OverlappingStore
ppo 0:4 0:5 5 ; Acquire
ppo 0:4 0:5 6 ; Release
R 0:6 0x80000018 5 ; lr.w a4, (a2)
A 0:6 lr 0x80001000 4 0x00000000 -
rf 0:5 0:6 0x80001000 4
fr 0:6 0:7 0x80001000 4
ppo 0:5 0:6 2 ; SameByteLoads
ppo 0:5 0:6 3 ; AtomicSource
ppo 0:5 0:6 5 ; Acquire
R 0:7 0x8000001c 6 ; sc.w a5, a3, (a2)
A 0:7 sc 0x80001000 4 - 0x00000000
co 0:5 0:7 0x80001000 4
ppo 0:6 0:7 1 ; OverlappingStore
ppo 0:6 0:7 5 ; Acquire
ppo 0:6 0:7 6 ; Release
ppo 0:6 0:7 8 ; Pair
P 0 0:1 store 0x80001000 4 - 0x00000000
P 1 0:2 load 0x80001000 4 0x00000000 -
P 2 0:3 store 0x80001001 1 - 0x00000000
P 3 0:4 load 0x80001000 2 0x00000000 -
P 4 0:5 amo 0x80001000 4 0x00000000 0x00000000
P 5 0:6 lr 0x80001000 4 0x00000000 -
P 6 0:7 sc 0x80001000 4 - 0x00000000
";

/// The words from 0x80000000 on.
fn image_of(alloc: Global, words: &[u32]) -> Result<Image, Fail> {
    let size = size_of_kib(8).ok_or("a size")?;
    let mut bytes = Vec::new(alloc);
    for word in words {
        bytes.extend_from_slice(&word.to_le_bytes())?;
    }
    Ok(raw(alloc, &bytes, size)?)
}

/// What a hart has retired that ran the words once, of which those at these places read 0, and where the one at this
/// place is an SC that succeeds.
fn entries_of(
    alloc: Global,
    words: &[u32],
    loads: &[usize],
    sc: usize,
) -> Result<Vec<Retired>, Fail> {
    let mut entries = Vec::new(alloc);
    let mut pc = 0x8000_0000u32;
    for (place, word) in words.iter().enumerate() {
        entries.push(Retired {
            pc,
            word: *word,
            loaded: if loads.contains(&place) {
                Some(0)
            } else {
                None
            },
            sc_ok: if place == sc { Some(true) } else { None },
        })?;
        pc = pc.wrapping_add(4);
    }
    Ok(entries)
}

fn trace_of(
    rt: &(impl Abort + AllocGlobal),
    image: Image,
    harts: Vec<Vec<Retired>>,
    performed: Vec<OpId>,
) -> Trace {
    let alloc = rt.alloc();
    assert!(rt; are_within_limits(&harts));
    let statuses = vec![in alloc; Status::Running; harts.len()].expect(rt, "statuses");
    let log = Vec::new(alloc);
    Trace::from_parts(image, LineSize::Bytes16, harts, statuses, performed, log)
}

fn is_told(
    rt: &(impl Abort + AllocGlobal),
    trace: &Trace,
    model: MemoryModel,
    text: &str,
) -> Result<(), Fail> {
    let alloc = rt.alloc();
    let lines = order_lines(alloc, trace, model).expect(rt, "lines");
    let mut out = Vec::new(alloc);
    write_lines(&Symbols::new(alloc), &lines, &mut out)?;
    let told = std::str::from_utf8(&out).expect(rt, "a text");
    assert_eq!(rt; told, text);
    Ok(())
}

#[test]
fn store_buffering(rt: HostRuntime) -> Result<(), Fail> {
    let alloc = rt.alloc();
    let image = image_of(alloc, &STORE_BUFFERING)?;
    let first = entries_of(alloc, &STORE_BUFFERING, &[8], 9)?;
    let second = entries_of(alloc, &STORE_BUFFERING, &[8], 9)?;
    let performed = [OpId { hart: 0, place: 8 }, OpId { hart: 1, place: 8 }].to_vec(alloc)?;
    let harts = vec![in alloc; first, second].expect(&rt, "lists");
    let trace = trace_of(&rt, image, harts, performed);
    is_told(&rt, &trace, MemoryModel::Rvwmo, STORE_BUFFERING_TEXT)
}

#[test]
fn one_word(rt: HostRuntime) -> Result<(), Fail> {
    let alloc = rt.alloc();
    let image = image_of(alloc, &ONE_WORD)?;
    let entries = entries_of(alloc, &ONE_WORD, &[2, 4, 5, 6], 7)?;
    let mut performed = Vec::new(alloc);
    for place in 1..8 {
        performed.push(OpId { hart: 0, place })?;
    }
    let harts = vec![in alloc; entries].expect(&rt, "a list");
    let trace = trace_of(&rt, image, harts, performed);
    is_told(&rt, &trace, MemoryModel::Ztso, ONE_WORD_TEXT)
}
