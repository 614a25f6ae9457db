//! Programs of worked tests, with their words by GNU as.

use crate::{CODE_WORDS, Cause, ImageError, LINE_WORDS, Line, Part, words_of};
use assembly_reading::read_statement;
use std::alloc::Global;
use std::test::Fail;
use text_words::Name;

/// A column of these texts; one that ends with a colon is a label.
fn column(alloc: Global, texts: &[&[u8]]) -> Result<Vec<Line>, Fail> {
    let mut lines = Vec::new(alloc);
    for text in texts {
        let line = match *text {
            [label @ .., b':'] if label.len() < 9 => Line::Label(Name::of(label)),
            text => Line::Code(read_statement(text).map_err(|_| Fail::from("no statement"))?),
        };
        lines.push(line)?;
    }
    Ok(lines)
}

/// A part with these registers set, and these asked for.
fn part(lines: Vec<Line>, set: &[(usize, u32)], asked_for: &[usize]) -> Part {
    let mut begins = [0; 32];
    for (register, number) in set {
        if *register < 32 {
            begins[*register] = *number;
        }
    }
    let mut asked = [false; 32];
    for register in asked_for {
        if *register < 32 {
            asked[*register] = true;
        }
    }
    Part {
        begins,
        lines,
        asked,
    }
}

/// Message passing: x6 and x7, and x6 and x8, have the locations' addresses.
const MESSAGE_PASSING: [u32; 32] = [
    0x00100f93, 0x03f50e63, 0x80001337, 0x800013b7, 0x04038393, 0x00000513, 0x00000593, 0x00000f93,
    0x00100293, 0x00532023, 0x0110000f, 0x0053a023, 0x00100893, 0x00000513, 0x00000893, 0x00000073,
    0x80001337, 0x04030313, 0x80001437, 0x00000513, 0x00000593, 0x00000f93, 0x00032283, 0x00042383,
    0x00100893, 0x00028513, 0x00000073, 0x00038513, 0x00000073, 0x00000513, 0x00000893, 0x00000073,
];

#[test]
fn message_passing_has_the_assemblers_words(rt: HostRuntime) -> Result<(), Fail> {
    let alloc = rt.alloc();
    let writer = column(
        alloc,
        &[b"li x5,1", b"sw x5,0(x6)", b"fence w,w", b"sw x5,0(x7)"],
    )?;
    let reader = column(alloc, &[b"lw x5,0(x6)", b"lw x7,0(x8)"])?;
    let (x, y) = (0x8000_1000, 0x8000_1040);
    let mut parts = Vec::new(alloc);
    parts.push(part(writer, &[(6, x), (7, y)], &[]))?;
    parts.push(part(reader, &[(6, y), (8, x)], &[7, 5]))?;
    let words = words_of(alloc, &parts, &[3, 4])?;
    assert_eq!(rt; words.len(), CODE_WORDS + 2 * LINE_WORDS);
    assert!(rt; words.starts_with(&MESSAGE_PASSING));
    assert_eq!(rt; words.get(32).copied(), Some(0));
    assert_eq!(rt; words.get(CODE_WORDS).copied(), Some(3));
    assert_eq!(rt; words.get(CODE_WORDS + 1).copied(), Some(0));
    assert_eq!(rt; words.get(CODE_WORDS + LINE_WORDS).copied(), Some(4));
    Ok(())
}

/// A loop that counts x10 down from 7, a jump, a number of two words; x10 and x17 are asked for.
const COUNTED: [u32; 16] = [
    0x00700513, 0x00000593, 0x00000f93, 0xfff50513, 0xfe051ee3, 0x00c0006f, 0x123452b7, 0x67828293,
    0x00088093, 0x00100893, 0x00000073, 0x00008513, 0x00000073, 0x00000513, 0x00000893, 0x00000073,
];

#[test]
fn a_loop_and_a_jump_have_the_assemblers_words(rt: HostRuntime) -> Result<(), Fail> {
    let alloc = rt.alloc();
    let texts: [&[u8]; 7] = [
        b"L:",
        b"addi x10,x10,-1",
        b"bnez x10,L",
        b"j END",
        b"fence.i",
        b"li x5,0x12345678",
        b"END:",
    ];
    let mut parts = Vec::new(alloc);
    parts.push(part(column(alloc, &texts)?, &[(10, 7)], &[10, 17]))?;
    let words = words_of(alloc, &parts, &[])?;
    assert_eq!(rt; words.len(), CODE_WORDS);
    assert!(rt; words.starts_with(&COUNTED));
    Ok(())
}

/// Three harts: x31 has a number of the second's and is put out, and so are x10, x17 and x9 of the third.
const THREE: [u32; 48] = [
    0x00100f93, 0x03f50c63, 0x00200f93, 0x07f50663, 0x80001337, 0x00000513, 0x00000593, 0x00000f93,
    0x00032283, 0x00100893, 0x00028513, 0x00000073, 0x00000513, 0x00000893, 0x00000073, 0x00200293,
    0x80001337, 0x04030313, 0x00000513, 0x00000593, 0x00900f93, 0x065323af, 0x00100893, 0x00038513,
    0x00000073, 0x000f8513, 0x00000073, 0x00000513, 0x00000893, 0x00000073, 0x00300293, 0x80001337,
    0x04030313, 0x00000513, 0x00000593, 0x00000f93, 0x100324af, 0x1853252f, 0x00088093, 0x00100893,
    0x00000073, 0x00008513, 0x00000073, 0x00048513, 0x00000073, 0x00000513, 0x00000893, 0x00000073,
];

#[test]
fn three_harts_with_atomics_have_the_assemblers_words(rt: HostRuntime) -> Result<(), Fail> {
    let alloc = rt.alloc();
    let (x, y) = (0x8000_1000, 0x8000_1040);
    let load = column(alloc, &[b"lw x5,0(x6)"])?;
    let add = column(alloc, &[b"amoadd.w.aqrl x7,x5,(x6)"])?;
    let pair = column(alloc, &[b"lr.w x9,(x6)", b"sc.w x10,x5,(x6)"])?;
    let mut parts = Vec::new(alloc);
    parts.push(part(load, &[(6, x)], &[5]))?;
    parts.push(part(add, &[(5, 2), (6, y), (31, 9)], &[31, 7]))?;
    parts.push(part(pair, &[(5, 3), (6, y)], &[9, 10, 17]))?;
    let words = words_of(alloc, &parts, &[0, 7])?;
    assert!(rt; words.starts_with(&THREE));
    assert_eq!(rt; words.get(48).copied(), Some(0));
    assert_eq!(rt; words.get(CODE_WORDS + LINE_WORDS).copied(), Some(7));
    Ok(())
}

#[test]
fn faults_name_their_line(rt: HostRuntime) -> Result<(), Fail> {
    let alloc = rt.alloc();
    let mut parts = Vec::new(alloc);
    parts.push(part(column(alloc, &[b"nop"])?, &[], &[]))?;
    parts.push(part(column(alloc, &[b"nop", b"j L"])?, &[], &[]))?;
    let fault = words_of(alloc, &parts, &[]).err();
    let cause = Cause::NoLabel;
    assert_eq!(rt;
        fault,
        Some(ImageError::Fault {
            hart: 1,
            line: 1,
            cause
        })
    );
    Ok(())
}
