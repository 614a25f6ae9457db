//! The texts of notes.

use crate::same::same;
use elf_loader::{LoadError, load, raw};
use machine_types::Event;
use notes::{BehindNote, EventNote, FileNote, ImageNote, ScriptNote, SizeNote, TraceNote};
use std::alloc::Global;
use std::fmt::Display;
use std::io::{self, ErrorKind};
use std::process::Abort;
use std::test::Fail;
use trace_text::{TextCause, TextCode, TextError, read_script, read_trace};

/// Scripts that are refused, and what is noted of each.
static SCRIPTS: [(&str, &str); 36] = [
    ("", "this is an empty file, and a script is wanted"),
    (
        "rvtl-trace 1\nT 1 4 0x80000000\n",
        "this is a trace, and a script is wanted",
    ),
    (
        "step 0\n",
        "a script begins with `rvtl-script 1 HARTS KIB SETS WAYS`, not with `step 0`",
    ),
    ("rvtl-script 1 9 4 4 2\n", "HARTS is 1 to 8, not `9`"),
    (
        "rvtl-script 1 1 4 +4 2\n",
        "numbers have no sign, and no zero before them",
    ),
    (
        "rvtl-script 1 1 6 4 2\n",
        "KIB is a multiple of 4 from 4 to 1024, not `6`",
    ),
    (
        "rvtl-script 1 1 4 3 2\n",
        "SETS is a power of two to 64, not `3`",
    ),
    (
        "rvtl-script 1 1 4 4 02\n",
        "numbers have no sign, and no zero before them",
    ),
    ("rvtl-script 1 1 4 4 5\n", "WAYS is 1 to 4, not `5`"),
    ("rvtl-script 1 1 4 4\n", "WAYS is 1 to 4, and is missing"),
    (
        "rvtl-script 1 1 4 4 2 16\n",
        "no further number is due: `16`",
    ),
    ("rvtl-script 2 8 4 4 2 32\n", "LINE is 16 or 64, not `32`"),
    ("rvtl-script 3 1 4 4 2\n", "the version is 1 or 2, not `3`"),
    (
        "rvtl-script 1 5 4 4 2\n",
        "5 to 8 harts are for version 2, `rvtl-script 2 HARTS KIB SETS WAYS LINE`",
    ),
    (
        "rvtl-script 2 4 4 4 2 16\n",
        "up to 4 harts with lines of 16 bytes are for version 1, `rvtl-script 1 HARTS KIB SETS WAYS`",
    ),
    (
        "rvtl-script 1 1 4 4 2\n\x1b[2Jstop 0123456789012345678901234567890123456789\n",
        "no event begins with `\\x1b[2Jstop`: they are step, drain, evict, deliver and local",
    ),
    (
        "rvtl-script 1 1 4 4 2\nstep 0\nstep 00\n",
        "numbers have no sign, and no zero before them",
    ),
    (
        "rvtl-script 1 1 4 4 2\nstep 0\r\n",
        "a carriage return stands at the end of the line: line feeds alone end lines (tr -d '\\r')",
    ),
    (
        "rvtl-stream 1\nT 1 4 0x80000000\n",
        "this is a stream, as `rvtl explain` prints it, and a script is wanted",
    ),
    ("rvtl-script 1\n", "HARTS is 1 to 8, and is missing"),
    (
        "rvtl-script 1 1 4 4 2 \n",
        "a blank too many stands in the line: words have one between them",
    ),
    (
        "rvtl-script 1 1 4 4 2\nstep  0\n",
        "a blank too many stands in the line: words have one between them",
    ),
    (
        "rvtl-script 1 1 4 4 2\nstep\t0\n",
        "a tab stands in the line: words have one blank between them",
    ),
    (
        "rvtl-script 1 1 4 4 2\nstep 0\n\nstep 0\n",
        "the line is empty",
    ),
    (
        "rvtl-script 1 1 4 4 2\ndrain 0 0x8000000A\n",
        "0x and 8 lower-case digits are wanted, not `0x8000000A`",
    ),
    (
        "rvtl-script 1 1 4 4 2\nstep 0\nstep -1\n",
        "numbers have no sign, and no zero before them",
    ),
    (
        "rvtl-script 1 1 4 4 2\nlocal 0 +5\n",
        "numbers have no sign, and no zero before them",
    ),
    (
        "rvtl-script 1 1 4 4 2\ndeliver A 01\n",
        "numbers have no sign, and no zero before them",
    ),
    (
        "rvtl-script 1 1 4 4 2\nstep x\n",
        "`step HART` is wanted, not `step x`",
    ),
    (
        "rvtl-script 1 1 4 4 2\nstep 256\n",
        "no hart 256: a machine's harts are 0 to 7 at most",
    ),
    (
        "rvtl-script 2 6 4 4 2 64\nstep 300\n",
        "no hart 300: a machine's harts are 0 to 7 at most",
    ),
    (
        "rvtl-script 1 1 4 4 2\ndrain 0 2147483648\n",
        "`drain HART ADDRESS`, with an address of 8 lower-case digits such as 0x80000abc, is wanted, not `drain 0 2147483648`",
    ),
    (
        "rvtl-script 1 1 4 4 2\nevict 0\n",
        "`evict HART ADDRESS`, with an address of 8 lower-case digits such as 0x80000ab0, is wanted, not `evict 0`",
    ),
    (
        "rvtl-script 1 1 4 4 2\ndeliver F 0\n",
        "`deliver CHANNEL HART`, with a channel from A to E, is wanted, not `deliver F 0`",
    ),
    (
        "rvtl-script 1 1 4 4 2\nlocal 0 4294967296\n",
        "`local HART COUNT`, with a count of 1 to 256, is wanted, not `local 0 4294967296`",
    ),
    (
        "rvtl-script 1 1 4 4 2\nstep 0\nstep 0",
        "the line has no line feed: the file ends within it",
    ),
];

/// The note's text.
fn says<T: Display>(rt: &impl Abort, alloc: Global, note: &T, text: &str) -> Result<(), Fail> {
    let told = format!(in alloc; "{note}")?;
    same(rt, told.as_str(), text);
    Ok(())
}

/// The script is refused, and so much is noted of it.
fn script_is_refused(rt: &impl Abort, alloc: Global, script: &str, text: &str) -> Result<(), Fail> {
    let Err(error) = read_script(alloc, script.as_bytes()) else {
        panic!(rt; "a script is read, of which is wanted: {text}")
    };
    let Some(note) = ScriptNote::of(error) else {
        panic!(rt; "nothing is noted, where is wanted: {text}")
    };
    says(rt, alloc, &note, text)
}

#[test]
fn scripts(rt: HostRuntime) -> Result<(), Fail> {
    for (script, text) in &SCRIPTS {
        script_is_refused(&rt, rt.alloc(), script, text)?;
    }
    Ok(())
}

#[test]
fn nothing_is_noted_where_memory_ends(rt: HostRuntime) {
    let error = TextError {
        line: 3,
        code: TextCode::NoMemory,
        cause: TextCause::Unsaid,
    };
    same(&rt, ScriptNote::of(error).is_none(), true);
}

/// Traces that are refused, and what is noted of each.
static TRACES: [(&str, &str); 49] = [
    (
        "rvtl-script 1 1 4 4 2\n",
        "this is a script, and a trace is wanted",
    ),
    (
        "rvtl-trace 1\nT 1 4\n",
        "`T HARTS KIB ENTRY` is wanted, with HARTS 1 to 4, KIB a multiple of 4 from 4 to 1024, ENTRY a word in memory such as 0x80000000 (`rvtl-trace 2` has 5 to 8 harts, and lines of 64 bytes), not `T 1 4`",
    ),
    (
        "rvtl-trace 1\nT 1 4 0x80000000\nH 0 run",
        "the line has no line feed: the file ends within it",
    ),
    (
        "rvtl-trace 1\nT 1 4 0x80000000\nQ 0123456789\n",
        "no line of a trace begins with `Q`: they are T, I, R, P, M and H",
    ),
    (
        "rvtl-trace 1\nT 1 4 0x80000000\nP 0 12345678901234567890123456789012345678901234567890\n",
        "`P HART PLACE`, with a place of at most 999999, is wanted, not `P 0 123456789012345678901234567890123456..`",
    ),
    (
        "rvtl-trace 1\nT 1 4 0x80000000\nT 1 4 0x80000000\n",
        "`T 1 4 0x80000000` may not stand here: I, R by hart (at most 1000000 of each), P, M and H lines follow each other",
    ),
    (
        "rvtl-trace 1\nT 1 4 0x80000000\nT 9 4 0x80000000\n",
        "`T 9 4 0x80000000` may not stand here: I, R by hart (at most 1000000 of each), P, M and H lines follow each other",
    ),
    (
        "rvtl-trace 3\nT 1 4 0x80000000\n",
        "a trace begins with `rvtl-trace 1` or `rvtl-trace 2`, not with `rvtl-trace 3`",
    ),
    (
        "T 1 4 0x80000000\n",
        "a trace begins with `rvtl-trace 1` or `rvtl-trace 2`, not with `T 1 4 0x80000000`",
    ),
    (
        "rvtl-trace 2\nT 9 4 0x80000000 64\n",
        "`T HARTS KIB ENTRY LINE` is wanted, with HARTS 1 to 8, KIB a multiple of 4 from 4 to 1024, ENTRY a word in memory such as 0x80000000, LINE 16 (of 5 harts or more) or 64, not `T 9 4 0x80000000 64`",
    ),
    (
        "rvtl-trace 1\nT 1 4 0x80000000\nM s A 0 AcquirePerm 0x80000000 NtoT\n",
        "`M s|t A HART AcquireBlock LINE NtoB|NtoT|BtoT` is wanted, not `M s A 0 AcquirePerm 0x80000000 NtoT`",
    ),
    (
        "rvtl-trace 1\nT 1 4 0x80000000\nM s F 0 GrantAck 0x80000000\n",
        "`M s|t CHANNEL HART MESSAGE LINE ..`, with a channel from A to E, is wanted, not `M s F 0 GrantAck 0x80000000`",
    ),
    (
        "rvtl-trace 1\nT 1 4 0x80000000\nH 0 run \n",
        "a blank too many stands in the line: words have one between them",
    ),
    (
        "rvtl-trace 1\n",
        "the second line is missing, which is a T line",
    ),
    (
        "rvtl-trace 1\nT 2 4 0x80000000\nH 0 run\n",
        "a hart's H line is missing: those of all harts end a trace",
    ),
    (
        "rvtl-trace 1\nT 1 4 0x80000000\nM s A 0 AcquireBlock 0x80000000 NtoB\n",
        "a hart's H line is missing: those of all harts end a trace (`check --messages` judges a log of messages alone)",
    ),
    (
        "rvtl-trace 1\nT 01 4 0x80000000\n",
        "numbers have no sign, and no zero before them",
    ),
    (
        "rvtl-trace 2\nT 5 4 0x80000000 +16\n",
        "numbers have no sign, and no zero before them",
    ),
    (
        "rvtl-trace 1\nT 3 4 0x80000000\nM s A 0 AcquireBlock 0x80002000 NtoB\n",
        "0x80002000 is outside memory, 0x80000000 to 0x80000fff, by `T 3 4 0x80000000`",
    ),
    (
        "rvtl-trace 1\nT 3 4 0x80000000\nM s A 0 AcquireBlock 0x7ffffff0 NtoB\n",
        "0x7ffffff0 is outside memory, 0x80000000 to 0x80000fff, by `T 3 4 0x80000000`",
    ),
    (
        "rvtl-trace 1\nT 3 4 0x80000000\nM s A 2 AcquireBlock 0x80000108 NtoB\n",
        "0x80000108 is not a multiple of 16",
    ),
    (
        "rvtl-trace 2\nT 1 4 0x80000000 64\nM s A 0 AcquireBlock 0x80000010 NtoB\n",
        "0x80000010 is not a multiple of 64",
    ),
    (
        "rvtl-trace 1\nT 3 4 0x80000000\nM s A 3 AcquireBlock 0x80000000 NtoB\n",
        "no hart 3: the trace's harts are 0 to 2, by `T 3 4 0x80000000`",
    ),
    (
        "rvtl-trace 1\nT 3 4 0x80000000\nM s A 03 AcquireBlock 0x80000000 NtoB\n",
        "numbers have no sign, and no zero before them",
    ),
    (
        "rvtl-trace 1\nT 1 4 0x80000000\nM t E 0 GrantAck 0x8000000A\n",
        "0x and 8 lower-case digits are wanted, not `0x8000000A`",
    ),
    (
        "rvtl-trace 1\nT 1 4 0x80000000\nP 1 2\n",
        "no hart 1: the trace's only hart is 0, by `T 1 4 0x80000000`",
    ),
    (
        "rvtl-trace 1\nT 1 4 0x80000000\nP 0 05\n",
        "numbers have no sign, and no zero before them",
    ),
    (
        "rvtl-trace 1\nT 1 4 0x80000000\nP 0 1000000\n",
        "`P HART PLACE`, with a place of at most 999999, is wanted, not `P 0 1000000`",
    ),
    (
        "rvtl-trace 1\nT 1 4 0x80000000\nR 1 0x80000000 0x00000013 - -\n",
        "no hart 1: the trace's only hart is 0, by `T 1 4 0x80000000`",
    ),
    (
        "rvtl-trace 1\nT 1 4 0x80000000\nR 0 0x80000000 0x0000001A - -\n",
        "0x and 8 lower-case digits are wanted, not `0x0000001A`",
    ),
    (
        "rvtl-trace 1\nT 1 4 0x80000000\nR 0 0x80000000 0x00000013 -\n",
        "`R HART PC WORD LOADED SC`, with `-` where nothing was loaded, or no SC stands, is wanted, not `R 0 0x80000000 0x00000013 -`",
    ),
    (
        "rvtl-trace 1\nT 1 4 0x80000000\nH 1 run\n",
        "no hart 1: the trace's only hart is 0, by `T 1 4 0x80000000`",
    ),
    (
        "rvtl-trace 1\nT 1 4 0x80000000\nH 0 exit 07\n",
        "numbers have no sign, and no zero before them",
    ),
    (
        "rvtl-trace 1\nT 1 4 0x80000000\nH 0 stop 9\n",
        "`H HART stop CODE`, with a code of at most 8, is wanted, not `H 0 stop 9`",
    ),
    (
        "rvtl-trace 1\nT 1 4 0x80000000\nH 0 exit 256\n",
        "`H HART exit CODE`, with a code of at most 255, is wanted, not `H 0 exit 256`",
    ),
    (
        "rvtl-trace 1\nT 1 4 0x80000000\nH 0 halt\n",
        "`H HART run`, `H HART stop CODE` or `H HART exit CODE` is wanted, not `H 0 halt`",
    ),
    (
        "rvtl-trace 1\nT 1 4 0x80000000\nI 0x80001000 00112233445566778899001122334455\n",
        "0x80001000 is outside memory, 0x80000000 to 0x80000fff, by `T 1 4 0x80000000`",
    ),
    (
        "rvtl-trace 1\nT 1 4 0x80000000\nI 0x80000000 0011223344556677889900112233445\n",
        "DATA has 32 digits, two for each of a line's 16 bytes, not 31",
    ),
    (
        "rvtl-trace 2\nT 1 4 0x80000000 64\nI 0x80000000 00112233445566778899001122334455\n",
        "DATA has 128 digits, two for each of a line's 64 bytes, not 32",
    ),
    (
        "rvtl-trace 1\nT 1 4 0x80000000\nI 0x80000000 0011223344556677889900112233445F\n",
        "DATA has lower-case hexadecimal digits alone, not `F`",
    ),
    (
        "rvtl-trace 1\nT 1 4 0x80000000\nI 0x80000000\n",
        "`I LINE DATA`, with DATA of 32 lower-case hexadecimal digits, not all zero, is wanted, not `I 0x80000000`",
    ),
    (
        "rvtl-trace 2\nT 1 4 0x80000000 64\nI 0x80000000 00000000000000000000000000000000000000000000000000000000000000000000000000000000000000000000000000000000000000000000000000000000\n",
        "`I LINE DATA`, with DATA of 128 lower-case hexadecimal digits, not all zero, is wanted, not `I 0x80000000 000000000000000000000000000..`",
    ),
    (
        "rvtl-trace 1\nT 1 4 0x80000000\nM s C 0 ReleaseData 0x80000000 TtoN\n",
        "`M s|t C HART ProbeAckData|ReleaseData LINE TtoB|TtoN|BtoN|TtoT|BtoB|NtoN DATA`, with DATA of 32 lower-case hexadecimal digits, is wanted, not `M s C 0 ReleaseData 0x80000000 TtoN`",
    ),
    (
        "rvtl-trace 1\nT 1 4 0x80000000\nM s C 0 ProbeAckData 0x80000000 TtoN 0011223344556677889900112233445566\n",
        "DATA has 32 digits, two for each of a line's 16 bytes, not 34",
    ),
    (
        "rvtl-trace 1\nT 1 4 0x80000000\nM s C 0 Release 0x80000000 toN\n",
        "`M s|t C HART ProbeAck|Release LINE TtoB|TtoN|BtoN|TtoT|BtoB|NtoN`, or `ProbeAckData|ReleaseData` with a line's bytes behind, is wanted, not `M s C 0 Release 0x80000000 toN`",
    ),
    (
        "rvtl-trace 2\nT 1 4 0x80000000 64\nM s D 0 GrantData 0x80000000 toT\n",
        "`M s|t D HART GrantData LINE toT|toB|toN DATA`, with DATA of 128 lower-case hexadecimal digits, is wanted, not `M s D 0 GrantData 0x80000000 toT`",
    ),
    (
        "rvtl-trace 1\nT 1 4 0x80000000\nM s D 0 ReleaseAck 0x80000000 toN\n",
        "`M s|t D HART ReleaseAck LINE` is wanted, not `M s D 0 ReleaseAck 0x80000000 toN`",
    ),
    (
        "rvtl-trace 1\nT 1 4 0x80000000\nM s D 0 Grant 0x80000000\n",
        "`M s|t D HART Grant LINE toT|toB|toN`, `GrantData` with a line's bytes behind, or `ReleaseAck LINE` is wanted, not `M s D 0 Grant 0x80000000`",
    ),
    (
        "rvtl-trace 1\nT 1 4 0x80000000\nM s B 0 ProbeBlock 0x80000000 NtoB\n",
        "`M s|t B HART ProbeBlock LINE toT|toB|toN` is wanted, not `M s B 0 ProbeBlock 0x80000000 NtoB`",
    ),
];

/// The trace is refused, and so much is noted of it.
fn trace_is_refused(rt: &impl Abort, alloc: Global, trace: &str, text: &str) -> Result<(), Fail> {
    let bytes = trace.as_bytes();
    let Err(error) = read_trace(alloc, bytes) else {
        panic!(rt; "a trace is read, of which is wanted: {text}")
    };
    says(rt, alloc, &TraceNote { bytes, error }, text)
}

#[test]
fn traces(rt: HostRuntime) -> Result<(), Fail> {
    for (trace, text) in &TRACES {
        trace_is_refused(&rt, rt.alloc(), trace, text)?;
    }
    Ok(())
}

#[test]
fn what_stands_behind_a_trace(rt: HostRuntime) -> Result<(), Fail> {
    let bytes = b"rvtl-trace 1\nT 1 4 0x80000000\nH 0 run\nH 0 run\n".as_slice();
    let (_, length) = read_trace(rt.alloc(), bytes)?;
    let text = "line 4, `H 0 run`, stands behind the last hart's H line, which ends a trace";
    says(&rt, rt.alloc(), &BehindNote { bytes, length }, text)
}

/// The head of an ELF file for RISC-V in 32 bits, little-endian, with compressed and floating-point code.
const FLOATING: [u8; 52] = [
    0x7f, b'E', b'L', b'F', 1, 1, 1, 0, 0, 0, 0, 0, 0, 0, 0, 0, 2, 0, 243, 0, 1, 0, 0, 0, 0, 0, 0,
    0x80, 52, 0, 0, 0, 0, 0, 0, 0, 5, 0, 0, 0, 52, 0, 32, 0, 0, 0, 0, 0, 0, 0, 0, 0,
];

/// Programs that are refused, whether as bare words, and what is noted of each.
static IMAGES: [(&[u8], bool, &str); 6] = [
    (&[0; 4], false, "this is no ELF file: bare words take --raw"),
    (
        b"_start:\n\tli a7, 0\n",
        false,
        "this is text, and a program is wanted: assemble and link it",
    ),
    (
        b"rvtl-script 1 1 4 4 2\n",
        true,
        "this is a script, and a program is wanted",
    ),
    (
        &[0; 7],
        true,
        "bare words are 4 bytes each, and the file ends within one",
    ),
    (
        &[0; 4100],
        true,
        "the words are more than memory holds: name more KIB by --memory or in the script, at most 1024",
    ),
    (
        &FLOATING,
        false,
        "compressed code is not supported: build it with -march=rv32ima -mabi=ilp32",
    ),
];

#[test]
fn images(rt: HostRuntime) -> Result<(), Fail> {
    for (bytes, is_raw, text) in &IMAGES {
        image_is_refused(&rt, rt.alloc(), bytes, *is_raw, text)?;
    }
    Ok(())
}

/// The fault of the bytes as a program for 4 KiB of memory.
fn image_fault(alloc: Global, bytes: &[u8], is_raw: bool) -> Option<LoadError> {
    if is_raw {
        raw(alloc, bytes, 4096).err()
    } else {
        load(alloc, bytes, 4096).err()
    }
}

/// The bytes are no program for 4 KiB of memory, and so much is noted of them.
fn image_is_refused(
    rt: &impl Abort,
    alloc: Global,
    bytes: &[u8],
    is_raw: bool,
    text: &str,
) -> Result<(), Fail> {
    let Some(error) = image_fault(alloc, bytes, is_raw) else {
        panic!(rt; "a program is loaded, of which is wanted: {text}")
    };
    let note = ImageNote {
        bytes,
        is_raw,
        error,
    };
    says(rt, alloc, &note, text)
}

/// An ELF file of one segment: four bytes of the file, behind its headers, at 0x80000000.
static LINKED: [u8; 88] = [
    0x7f, b'E', b'L', b'F', 1, 1, 1, 0, 0, 0, 0, 0, 0, 0, 0, 0, 2, 0, 243, 0, 1, 0, 0, 0, 0, 0, 0,
    0x80, 52, 0, 0, 0, 0, 0, 0, 0, 0, 0, 0, 0, 52, 0, 32, 0, 1, 0, 0, 0, 0, 0, 0, 0, 1, 0, 0, 0,
    84, 0, 0, 0, 0, 0, 0, 0x80, 0, 0, 0, 0x80, 4, 0, 0, 0, 4, 0, 0, 0, 5, 0, 0, 0, 4, 0, 0, 0,
    0x13, 0, 0, 0,
];

/// Bytes of that file, each by its place and as it is set, and what is noted of the file then.
static CHANGES: [(usize, u8, &str); 14] = [
    (16, 1, "this is an object file, which isn't linked"),
    (
        16,
        3,
        "this is position-independent, or a shared library: link it with -no-pie",
    ),
    (16, 4, "this is no executable file"),
    (18, 62, "this is for another processor than RISC-V"),
    (
        4,
        2,
        "a 32-bit little-endian file is wanted: build it with -march=rv32ima -mabi=ilp32",
    ),
    (
        36,
        1,
        "compressed code is not supported: build it with -march=rv32ima -mabi=ilp32",
    ),
    (
        36,
        4,
        "floating-point code is not supported: build it with -march=rv32ima -mabi=ilp32",
    ),
    (
        36,
        16,
        "code for Ztso alone is not supported, only --model ztso: build it with -march=rv32ima -mabi=ilp32",
    ),
    (44, 17, "it has more than 16 program headers"),
    (
        44,
        2,
        "its program headers lie outside the file, which may be cut short",
    ),
    (
        56,
        85,
        "the file ends within a segment: it may be cut short",
    ),
    (
        63,
        0,
        "a segment begins at 0x00000000, before memory, which begins at 0x80000000: link it with -n -Ttext=0x80000000",
    ),
    (
        61,
        0x10,
        "a segment ends at 0x80001004, behind memory: name more KIB by --memory or in the script, at most 1024, or link it with -n -Ttext=0x80000000",
    ),
    (
        24,
        2,
        "the entry, 0x80000002, is no multiple of 4, or lies outside memory: .globl _start, or -e NAME, names it",
    ),
];

/// The linked file is refused where the byte at this place is set.
fn change_is_refused(
    rt: &impl Abort,
    alloc: Global,
    at: usize,
    byte: u8,
    text: &str,
) -> Result<(), Fail> {
    let mut bytes = LINKED.to_vec(alloc)?;
    if let Some(changed) = bytes.get_mut(at) {
        *changed = byte;
    }
    image_is_refused(rt, alloc, &bytes, false, text)
}

#[test]
fn linked_files(rt: HostRuntime) -> Result<(), Fail> {
    for (at, byte, text) in &CHANGES {
        change_is_refused(&rt, rt.alloc(), *at, *byte, text)?;
    }
    let fault = image_fault(rt.alloc(), &LINKED, false);
    same(&rt, fault, None);
    Ok(())
}

/// Events that a machine of 2 harts, 4 KiB and lines of 16 bytes hasn't, and what is noted of each.
static EVENTS: [(Event, &str); 4] = [
    (
        Event::Step { hart: 3 },
        "no hart 3: the script's harts are 0 to 1",
    ),
    (
        Event::Drain {
            hart: 0,
            word: 0x8000_0102,
        },
        "0x80000102 is not a multiple of 4",
    ),
    (
        Event::Evict {
            hart: 0,
            line: 0x8000_1000,
        },
        "0x80001000 is outside memory, 0x80000000 to 0x80000fff",
    ),
    (
        Event::Local { hart: 0, count: 0 },
        "count 0: it is 1 to 256",
    ),
];

#[test]
fn events(rt: HostRuntime) -> Result<(), Fail> {
    let script = read_script(rt.alloc(), b"rvtl-script 1 2 4 4 2\n")?;
    for (event, text) in &EVENTS {
        let note = EventNote {
            event: *event,
            script: &script,
        };
        says(&rt, rt.alloc(), &note, text)?;
    }
    Ok(())
}

#[test]
fn files(rt: HostRuntime) -> Result<(), Fail> {
    let note = FileNote(io::Error::from(ErrorKind::NotFound));
    says(&rt, rt.alloc(), &note, "there is no such file or folder")
}

/// Sizes that no machine has, and what is noted of each; the last one is a machine's.
const SIZES: [([u32; 5], &str); 6] = [
    ([9, 64, 4, 2, 16], "--harts is 1 to 8, not 9"),
    (
        [1, 6, 4, 2, 16],
        "--memory is a multiple of 4 from 4 to 1024, not 6",
    ),
    ([1, 64, 3, 5, 16], "--sets is a power of two to 64, not 3"),
    ([1, 64, 4, 5, 16], "--ways is 1 to 4, not 5"),
    ([1, 64, 4, 2, 32], "--line is 16 or 64, not 32"),
    ([8, 1024, 64, 4, 64], ""),
];

#[test]
fn sizes(rt: HostRuntime) -> Result<(), Fail> {
    for (size, text) in &SIZES {
        let [harts, memory, sets, ways, line] = *size;
        let note = SizeNote {
            harts,
            memory,
            sets,
            ways,
            line,
        };
        says(&rt, rt.alloc(), &note, text)?;
    }
    Ok(())
}
