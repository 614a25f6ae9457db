//! A trace that ends behind its messages, as a log from elsewhere does.
ghost use Rattle.std.specs.Prelude.{◌≡◌, ◌≤◌, ◌<◌, ◌++◌, ◌∷◌, [], ℕ, OnOk, replicate, reverse};
ghost use Rattle.hart.specs.declared.status.Status.TheVariants.{Running};
ghost use Rattle.text_fields.specs.Fields.{numbered};
ghost use Rattle.trace_text.specs.Traces.{status};
ghost use Rattle.log_text.specs.Ending.{ended, first_of_last, first_of_line, harts_told, harts_unended};

use machine_types::MAX_HARTS;
use std::alloc::AllocError;
use text_fields::{after, number_at};

/// Ends a trace's text whose last line doesn't say how a hart ended: with a line for each of its harts, that
/// it still runs. Any other text stays. The only error is want of memory.
pub fn end_text(bytes: &mut Vec<u8>) -> Result<(), AllocError>
    ensures { OnOk result (bytes.new.items ≡ ended bytes.old.items) }
{
    for hart in 0..harts_unended(bytes) {
        bytes.extend_from_slice(&running_line(hart as u8))?;
    }
    Ok(())
}

/// How many harts the text has, if it doesn't say how they ended.
fn harts_unended(bytes: &[u8]) -> u32
    ensures value { result ≡ harts_unended bytes.now }
    ensures few { result ≤ MAX_HARTS }
{
    match first_of_last(bytes) {
        None | Some(b'H') => 0,
        Some(_) => harts_told(bytes),
    }
}

/// The byte with which the last line begins, if a line feed ends that line.
fn first_of_last(bytes: &[u8]) -> Option<u8>
    ensures { result ≡ first_of_last bytes.now }
{
    let [before @ .., b'\n'] = bytes else {
        return None;
    };
    let mut first = b'\n';
    let mut rest = before;
    while let [before @ .., byte] = rest {
        if *byte == b'\n' {
            break;
        }
        first = *byte;
        rest = before;
    }
    Some(first)
}

/// The number of harts in a trace's second line; 0 where there is no such line.
fn harts_told(bytes: &[u8]) -> u32
    ensures value { result ≡ harts_told bytes.now }
    ensures few { result ≤ MAX_HARTS }
{
    let fields = match after(b"rvtl-trace 1\nT ", bytes) {
        Some(fields) => Some(fields),
        None => after(b"rvtl-trace 2\nT ", bytes),
    };
    match fields.and_then(|fields| number_at(fields, b' ', MAX_HARTS)) {
        Some((harts, _)) => harts,
        None => 0,
    }
}

/// The line of a hart that still runs. Its number has one digit.
fn running_line(hart: u8) -> [u8; 8]
    requires { hart < 8 }
    ensures { result ≡ status hart Running }
{
    [b'H', b' ', b'0' + hart, b' ', b'r', b'u', b'n', b'\n']
}
