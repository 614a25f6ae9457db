//! Worked tests, and texts that are none.

use crate::{Kind, test_of};
use litmus_parts::{Cause, Section, Step, Stop, line_of};
use std::alloc::Global;
use std::test::Fail;

const MESSAGE: &[u8] = b"RISCV MP (* message passing *)
\"PodWW Rfe\"
Com=Rf Fr
{ 0:x5=1; 0:x6=x; 0:x7=y; 1:x6=y;
  1:x8=x }
 P0          | P1          ;
 sw x5,0(x6) | L0: lw t0,(x6) ;
 fence w,w   | beqz x5,L0     ;
 sw x5,0(x7) | lw x7,0(x8)    ;
locations [x; 0:x5]
exists
  (1:x5=1 /\\ ~ 1:x7<>0 => true)
";

#[test]
fn message_passing_is_read(rt: HostRuntime) -> Result<(), Fail> {
    let test = test_of(rt.alloc(), MESSAGE)?;
    assert_eq!(rt; test.name.as_slice(), b"MP".as_slice());
    assert_eq!(rt; test.harts, 2);
    assert_eq!(rt; test.values.len(), 5);
    assert_eq!(rt; test.lines.len(), 7);
    assert_eq!(rt; test.asking.places.len(), 2);
    assert!(rt; matches!(test.asking.kind, Kind::Exists));
    assert_eq!(rt; test.asking.steps.len(), 6);
    assert!(rt; matches!(test.asking.steps.get(2), Some(Step::Not)));
    assert!(rt; matches!(test.asking.steps.get(3), Some(Step::And)));
    assert!(rt; matches!(test.asking.steps.get(5), Some(Step::Implies)));
    assert_eq!(rt;
        test.asking.text.as_slice(),
        b"exists (1:x5=1 /\\ ~ 1:x7<>0 => true)".as_slice()
    );
    Ok(())
}

/// Where a text stops being a test, by line, and why.
fn stop_of(alloc: Global, text: &[u8]) -> Option<(usize, Cause)> {
    match test_of(alloc, text) {
        Ok(_) | Err(Stop::Memory) => None,
        Err(Stop::At { cause, left }) => Some((line_of(text, left), cause)),
    }
}

#[test]
fn texts_stop_down_to_the_columns(rt: HostRuntime) -> Result<(), Fail> {
    let rows: [(&[u8], usize, Cause); 7] = [
        (
            b"RISCV T\n{}\nP0;\nlw x5,(x6);\nexists (* true",
            5,
            Cause::Comment,
        ),
        (
            b"RISCV T\n{ 1:x5=1 }\nP0;\nnop;\nexists true",
            2,
            Cause::Hart(Section::Initial),
        ),
        (
            b"RISCV T\n{ 0:x5=1;\n0:t0=2 }\nP0;\nnop;\nexists true",
            3,
            Cause::OtherPlace,
        ),
        (
            b"RISCV T\n{}\nP0;\nnop;\nld x5,0(x6);\nexists true",
            5,
            Cause::OtherInstruction,
        ),
        (
            b"RISCV T\n{}\nP0;\nnop;\njalr x5;\nexists true",
            5,
            Cause::Instruction,
        ),
        (
            b"RISCV T\n{}\nP0;\naddi x5,x5,2048;\nexists true",
            4,
            Cause::Immediate,
        ),
        (b"RISCV T\n{}\nP0;\nnop|nop;\nexists true", 4, Cause::Cell),
    ];
    for (text, line, cause) in rows {
        assert_eq!(rt; stop_of(rt.alloc(), text), Some((line, cause)));
    }
    Ok(())
}

#[test]
fn texts_stop_at_the_question(rt: HostRuntime) -> Result<(), Fail> {
    let rows: [(&[u8], usize, Cause); 5] = [
        (
            b"RISCV T\n{}\nP0;\nnop;\nexists true\nfalse",
            6,
            Cause::Nothing,
        ),
        (b"RISCV T\n{}\nP0;\nnop;\nexists (true", 5, Cause::Close),
        (b"RISCV T\n{}\nP0;\nnop;\nexists 0:x5", 5, Cause::Relation),
        (
            b"RISCV T\n{}\nP0;\nnop;\nlocations [x,y]\nexists true",
            5,
            Cause::LocationsEnd,
        ),
        (b"RISCV T\n{}\nP0;\nnop;\n", 5, Cause::Question),
    ];
    for (text, line, cause) in rows {
        assert_eq!(rt; stop_of(rt.alloc(), text), Some((line, cause)));
    }
    Ok(())
}

#[test]
fn parentheses_nest_sixty_three_deep(rt: HostRuntime) -> Result<(), Fail> {
    for (depth, is_test) in [(63, true), (64, false)] {
        let mut text = b"RISCV T\n{}\nP0;\nnop;\nexists ".to_vec(rt.alloc())?;
        for _ in 0..depth {
            text.push(b'(')?;
        }
        text.extend_from_slice(b"true")?;
        for _ in 0..depth {
            text.push(b')')?;
        }
        let stop = stop_of(rt.alloc(), &text);
        assert_eq!(rt; stop.is_none(), is_test);
    }
    Ok(())
}
