//! What no clause says: texts from outside, the line and code of faults, and writers that fail.

mod texts;

use crate::pieces::{Text, joined};
use crate::same::{same, same_of};
use crate::writers::{Interrupted, Narrow};
use std::alloc::{AllocError, Global};
use std::io::Write;
use std::process::Abort;
use std::test::Fail;
use texts::{Answers, Broken};
use trace_text::{TextCode, TextError, read_script, read_trace, write_script, write_trace};

/// The kinds of text.
#[derive(Clone, Copy)]
enum Kind {
    Script,
    Trace,
}

fn script_fault(alloc: Global, bytes: &[u8]) -> Option<TextError> {
    read_script(alloc, bytes).err()
}

fn trace_fault(alloc: Global, bytes: &[u8]) -> Option<TextError> {
    read_trace(alloc, bytes).err()
}

/// The line and the code of the fault, or zeros.
fn answer(alloc: Global, kind: Kind, bytes: &[u8]) -> (usize, u8) {
    let fault = match kind {
        Kind::Script => script_fault(alloc, bytes),
        Kind::Trace => trace_fault(alloc, bytes),
    };
    match fault {
        None => (0, 0),
        Some(fault) => (fault.line, fault.code.number()),
    }
}

fn expected(answers: Answers, place: usize) -> (usize, u8) {
    for (end, line, code) in answers {
        if place < *end {
            return (*line, *code);
        }
    }
    (0, 255)
}

/// Reads a script and spells it back: whether all of it was written.
fn respell_script<W: Write>(alloc: Global, text: &[u8], out: &mut W) -> Result<bool, Fail> {
    let script = read_script(alloc, text)?;
    Ok(write_script(&script, out).is_ok())
}

/// The same of a trace, which has to end the text.
fn respell_trace<W: Write>(alloc: Global, text: &[u8], out: &mut W) -> Result<bool, Fail> {
    let (trace, length) = read_trace(alloc, text)?;
    if length != text.len() {
        return Err(Fail::from("a trace that ends the text"));
    }
    Ok(write_trace(&trace, out).is_ok())
}

fn respell<W: Write>(alloc: Global, kind: Kind, text: &[u8], out: &mut W) -> Result<bool, Fail> {
    match kind {
        Kind::Script => respell_script(alloc, text, out),
        Kind::Trace => respell_trace(alloc, text, out),
    }
}

/// The text is read, and spelled back to the byte.
fn is_spelled_back(rt: &impl Abort, alloc: Global, kind: Kind, text: &[u8]) -> Result<(), Fail> {
    let mut out = Vec::new(alloc);
    same(rt, respell(alloc, kind, text, &mut out)?, true);
    same(rt, out.as_slice(), text);
    Ok(())
}

/// A writer that has less room than the text wants is given the text's beginning.
fn breaks_off(
    rt: &impl Abort,
    alloc: Global,
    kind: Kind,
    text: &[u8],
    room: usize,
    fails: bool,
) -> Result<(), Fail> {
    let mut out = Narrow::new(alloc, room, fails);
    same_of(rt, respell(alloc, kind, text, &mut out)?, false, &room);
    same_of(rt, Some(out.taken.as_slice()), text.get(..room), &room);
    Ok(())
}

static CODES: [(TextCode, u8, &str); 6] = [
    (TextCode::Header, 1, "Header"),
    (TextCode::Word, 2, "Word"),
    (TextCode::Fields, 3, "Fields"),
    (TextCode::Order, 4, "Order"),
    (TextCode::End, 5, "End"),
    (TextCode::NoMemory, 6, "NoMemory"),
];

fn is_named(
    rt: &(impl Abort + AllocGlobal),
    code: TextCode,
    number: u8,
    name: &str,
) -> Result<(), Fail> {
    let printed = format!(in rt.alloc(); "{code}")?;
    same(rt, (code.number(), printed.as_str()), (number, name));
    Ok(())
}

#[test]
fn names_of_codes(rt: HostRuntime) -> Result<(), Fail> {
    for (code, number, name) in &CODES {
        is_named(&rt, *code, *number, name)?;
    }
    Ok(())
}

#[test]
fn scripts_are_read_and_spelled_back(rt: HostRuntime) -> Result<(), Fail> {
    for text in &texts::SCRIPTS {
        is_spelled_back(&rt, rt.alloc(), Kind::Script, text)?;
    }
    Ok(())
}

/// The trace of these pieces is read, and spelled back to the byte.
fn trace_is_spelled_back(rt: &(impl Abort + AllocGlobal), pieces: Text) -> Result<(), Fail> {
    let text = joined(rt.alloc(), pieces)?;
    is_spelled_back(rt, rt.alloc(), Kind::Trace, &text)
}

#[test]
fn traces_are_read_and_spelled_back(rt: HostRuntime) -> Result<(), Fail> {
    for pieces in &texts::TRACES {
        trace_is_spelled_back(&rt, pieces)?;
    }
    Ok(())
}

#[test]
fn messages_that_no_machine_sends(rt: HostRuntime) -> Result<(), Fail> {
    trace_is_spelled_back(&rt, texts::UNUSUAL)
}

/// Spells the trace that a text begins with: how long it is, and how many harts and messages it has.
fn respell_front<W: Write>(
    alloc: Global,
    text: &[u8],
    out: &mut W,
) -> Result<(usize, usize, usize), Fail> {
    let (trace, length) = read_trace(alloc, text)?;
    write_trace(&trace, out)?;
    Ok((length, trace.harts(), trace.log().len()))
}

/// The text begins with row 18's trace.
fn begins_with_row_18(rt: &(impl Abort + AllocGlobal), text: &[u8]) -> Result<(), Fail> {
    let mut out = Vec::new(rt.alloc());
    let measured = respell_front(rt.alloc(), text, &mut out)?;
    same(rt, measured, (texts::ROW_18.len(), 1, 6));
    same(rt, out.as_slice(), texts::ROW_18.as_bytes());
    Ok(())
}

#[test]
fn row_18(rt: HostRuntime) -> Result<(), Fail> {
    let mut more = texts::ROW_18.as_bytes().to_vec(rt.alloc())?;
    more.push(b'H')?;
    begins_with_row_18(&rt, &more)
}

#[test]
fn rows_23_42_and_52(rt: HostRuntime) {
    for (text, line, code) in &texts::SCRIPT_FAULTS {
        let got = answer(rt.alloc(), Kind::Script, text);
        same_of(&rt, got, (*line, *code), text);
    }
}

/// What the trace of these pieces gets.
fn answer_to_pieces(alloc: Global, pieces: Text) -> Result<(usize, u8), AllocError> {
    let text = joined(alloc, pieces)?;
    Ok(answer(alloc, Kind::Trace, &text))
}

#[test]
fn rows_41_and_52(rt: HostRuntime) -> Result<(), Fail> {
    for (pieces, line, code) in &texts::TRACE_FAULTS {
        let got = answer_to_pieces(rt.alloc(), pieces)?;
        same_of(&rt, got, (*line, *code), pieces);
    }
    Ok(())
}

/// The text, cut at each length.
fn compare_cut(rt: &impl Abort, alloc: Global, kind: Kind, text: &[u8], answers: Answers) {
    for length in 0..=text.len() {
        let (front, _) = text.split_at(length);
        let got = answer(alloc, kind, front);
        same_of(rt, got, expected(answers, length), &length);
    }
}

/// What the text gets whose byte at this place is set.
fn answer_to_changed(
    alloc: Global,
    kind: Kind,
    text: &[u8],
    place: usize,
    byte: u8,
) -> Result<(usize, u8), AllocError> {
    let mut changed = text.to_vec(alloc)?;
    if let Some(at) = changed.get_mut(place) {
        *at = byte;
    }
    Ok(answer(alloc, kind, &changed))
}

/// The text, each of its bytes set to this.
fn compare_changed(
    rt: &(impl Abort + AllocGlobal),
    kind: Kind,
    text: &[u8],
    answers: Answers,
    byte: u8,
) -> Result<(), Fail> {
    for place in 0..text.len() {
        let got = answer_to_changed(rt.alloc(), kind, text, place, byte)?;
        same_of(rt, got, expected(answers, place), &(byte, place));
    }
    Ok(())
}

fn compare_text(
    rt: &(impl Abort + AllocGlobal),
    kind: Kind,
    text: &[u8],
    broken: &Broken,
) -> Result<(), Fail> {
    compare_cut(rt, rt.alloc(), kind, text, broken.cut);
    compare_changed(rt, kind, text, broken.changed, 0)?;
    compare_changed(rt, kind, text, broken.changed, 0xff)
}

fn compare_broken(
    rt: &(impl Abort + AllocGlobal),
    kind: Kind,
    broken: &Broken,
) -> Result<(), Fail> {
    let text = joined(rt.alloc(), broken.text)?;
    compare_text(rt, kind, &text, broken)
}

#[test]
fn broken_scripts(rt: HostRuntime) -> Result<(), Fail> {
    for broken in &texts::BROKEN_SCRIPTS {
        compare_broken(&rt, Kind::Script, broken)?;
    }
    Ok(())
}

#[test]
fn broken_traces(rt: HostRuntime) -> Result<(), Fail> {
    for broken in &texts::BROKEN_TRACES {
        compare_broken(&rt, Kind::Trace, broken)?;
    }
    Ok(())
}

/// A writer of any room less than the text wants is given the text's beginning.
fn breaks_anywhere(
    rt: &(impl Abort + AllocGlobal),
    kind: Kind,
    text: &[u8],
    fails: bool,
) -> Result<(), Fail> {
    for room in 0..text.len() {
        breaks_off(rt, rt.alloc(), kind, text, room, fails)?;
    }
    Ok(())
}

#[test]
fn a_beginning_goes_out_before_a_fault(rt: HostRuntime) -> Result<(), Fail> {
    let text = texts::ROW_18.as_bytes();
    breaks_anywhere(&rt, Kind::Trace, text, true)?;
    breaks_anywhere(&rt, Kind::Trace, text, false)
}

fn script_breaks_anywhere(rt: &(impl Abort + AllocGlobal), pieces: Text) -> Result<(), Fail> {
    let text = joined(rt.alloc(), pieces)?;
    breaks_anywhere(rt, Kind::Script, &text, true)
}

#[test]
fn a_beginning_of_a_script_goes_out_before_a_fault(rt: HostRuntime) -> Result<(), Fail> {
    for broken in &texts::BROKEN_SCRIPTS {
        script_breaks_anywhere(&rt, broken.text)?;
    }
    Ok(())
}

/// The text is spelled back through a writer that is interrupted before each byte.
fn goes_out_interrupted(
    rt: &impl Abort,
    alloc: Global,
    kind: Kind,
    text: &[u8],
) -> Result<(), Fail> {
    let mut out = Interrupted::new(alloc);
    same(rt, respell(alloc, kind, text, &mut out)?, true);
    same(rt, out.taken.as_slice(), text);
    Ok(())
}

#[test]
fn an_interrupted_write_is_tried_again(rt: HostRuntime) -> Result<(), Fail> {
    goes_out_interrupted(&rt, rt.alloc(), Kind::Trace, texts::ROW_18.as_bytes())
}

fn put_lines(text: &mut Vec<u8>) -> Result<(), AllocError> {
    for _ in 0..100 {
        text.extend_from_slice(b"step 7\ndeliver E 200\ndrain 0 0x89abcdef\n")?;
        text.extend_from_slice(b"evict 255 0xffffffff\nlocal 10 4294967295\nlocal 99 100\n")?;
    }
    Ok(())
}

/// A script of every kind of line, of some 10,000 bytes.
fn long_script(alloc: Global) -> Result<Vec<u8>, AllocError> {
    let mut text = b"rvtl-script 2 8 1024 64 4 64\n".to_vec(alloc)?;
    put_lines(&mut text)?;
    Ok(text)
}

#[test]
fn a_text_of_many_pages_goes_out_whole(rt: HostRuntime) -> Result<(), Fail> {
    let text = long_script(rt.alloc())?;
    goes_out_interrupted(&rt, rt.alloc(), Kind::Script, &text)
}

fn breaks_off_in_pages(rt: &impl Abort, alloc: Global, text: &[u8]) -> Result<(), Fail> {
    for room in 0..text.len() {
        if room % 61 == 0 {
            let fails = room % 2 == 0;
            breaks_off(rt, alloc, Kind::Script, text, room, fails)?;
        }
    }
    Ok(())
}

#[test]
fn a_beginning_of_many_pages_goes_out_before_a_fault(rt: HostRuntime) -> Result<(), Fail> {
    let text = long_script(rt.alloc())?;
    breaks_off_in_pages(&rt, rt.alloc(), &text)
}
