//! Instructions of worked texts, with their words.

use crate::{Statement, StatementError, read_statement};
use rv32_decode::encode;
use std::test::Fail;

/// The words that a text makes, the second of them 0 where it makes one.
fn words_of(text: &[u8]) -> Result<(u32, u32), Fail> {
    match read_statement(text) {
        Ok(Statement::One(instr)) => Ok((encode(&instr), 0)),
        Ok(Statement::Two(first, second)) => Ok((encode(&first), encode(&second))),
        _ => Err(Fail::from("no instruction")),
    }
}

/// Texts with their words by GNU as for rv32ima.
const WORDS: [(&[u8], u32, u32); 24] = [
    (b"lw x5,0(x6)", 0x00032283, 0),
    (b" lw  t0 , ( t1 ) ", 0x00032283, 0),
    (b"sw a3, 256(a2)", 0x10d62023, 0),
    (b"sb x1,-1(x2)", 0xfe110fa3, 0),
    (b"ori x5,x0,1", 0x00106293, 0),
    (b"addi x5,x6,-2048", 0x80030293, 0),
    (b"addi x5,x6,0xfffff800", 0x80030293, 0),
    (b"fence rw,w", 0x0310000f, 0),
    (b"fence", 0x0ff0000f, 0),
    (b"fence.tso", 0x8330000f, 0),
    (b"lr.w.aq x5,(x6)", 0x140322af, 0),
    (b"sc.w.rl x7,x8,0(x6)", 0x1a8323af, 0),
    (b"amoswap.w.aq.rl x0,x5,(x6)", 0x0e53202f, 0),
    (b"amoadd.w.aqrl x0,x5,(x6)", 0x0653202f, 0),
    (b"li x5,1", 0x00100293, 0),
    (b"li x5,4096", 0x000012b7, 0),
    (b"li x5,0x12345fff", 0x123462b7, 0xfff28293),
    (b"mv x5,x6", 0x00030293, 0),
    (b"not x5,x6", 0xfff34293, 0),
    (b"seqz x5,x6", 0x00133293, 0),
    (b"snez x5,x6", 0x006032b3, 0),
    (b"lui a2, 0x80000", 0x80000637, 0),
    (b"srai x31,s11,31", 0x41fddf93, 0),
    (b"beq x5,x6,.-4", 0xfe628ee3, 0),
];

#[test]
fn texts_make_the_assemblers_words(rt: HostRuntime) -> Result<(), Fail> {
    for (text, first, second) in &WORDS {
        assert_eq!(rt; words_of(text)?, (*first, *second));
    }
    Ok(())
}

/// Texts that are no statements.
const FAULTS: [(&[u8], StatementError); 16] = [
    (b"ld x5,0(x6)", StatementError::OtherArchitecture),
    (b"lw.aq x5,0(x6)", StatementError::OtherArchitecture),
    (b"csrr x5,mhartid", StatementError::OtherArchitecture),
    (b"amoadd.d.aq x5,x6,(x7)", StatementError::OtherArchitecture),
    (b"slli x5,x6,32", StatementError::OtherArchitecture),
    (b"li x5,0x100000000", StatementError::OtherArchitecture),
    (b"slli x5,x6,64", StatementError::OutOfRange),
    (b"lw x5,2048(x6)", StatementError::OutOfRange),
    (b"addi x5,x6,-2049", StatementError::OutOfRange),
    (b"amoadd.w x5,x0,4(x6)", StatementError::NoInstruction),
    (b"fence x,rw", StatementError::NoInstruction),
    (b"lw", StatementError::NoInstruction),
    (b"lw x5,x6,x7", StatementError::NoInstruction),
    (b"lw x32,0(x6)", StatementError::NoInstruction),
    (b"ldr x5,(x6)", StatementError::NoInstruction),
    (b"", StatementError::NoInstruction),
];

fn fault_of(text: &[u8]) -> Option<StatementError> {
    match read_statement(text) {
        Ok(_) => None,
        Err(fault) => Some(fault),
    }
}

#[test]
fn faults_are_told_apart(rt: HostRuntime) -> Result<(), Fail> {
    for (text, fault) in &FAULTS {
        assert_eq!(rt; fault_of(text), Some(*fault));
    }
    Ok(())
}

#[test]
fn branches_name_labels(rt: HostRuntime) -> Result<(), Fail> {
    let Ok(statement) = read_statement(b"bgt x5,t1,LC00") else {
        return Err(Fail::from("no statement"));
    };
    match statement {
        Statement::Branch {
            rs1,
            rs2,
            label,
            ..
        } => {
            assert_eq!(rt; rs1.number(), 6);
            assert_eq!(rt; rs2.number(), 5);
            assert_eq!(rt; label.as_slice(), b"LC00".as_slice());
            Ok(())
        }
        _ => Err(Fail::from("no branch")),
    }
}
