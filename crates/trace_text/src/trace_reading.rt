//! Reading a trace.
ghost use Rattle.std.specs.Prelude.{◌≡◌, ◌<◌, ◌≤◌, ◌/◌, ◌∷◌, ◌++◌, ℕ, List, length, map, take, IfOk, IfErr};
ghost use Rattle.std.specs.Option.{option_map};
ghost use Rattle.text_fields.specs.Fields.{number};
ghost use Rattle.text_fields.specs.Reading.{numbered_at};
ghost use Rattle.elf_loader.specs.Size.{base, IsMemorySize};
ghost use Rattle.trace_recorder.specs.History.{History};
ghost use Rattle.trace_text.specs.Reading.{Gives, IsReadOrRefused, IsNoMemory};
ghost use Rattle.trace_text.specs.TraceLimits.{IsTrace, IsReadAs, NoTextBeginsAnother};
ghost use Rattle.trace_text.specs.TraceHeads.{IsTraceHead};
ghost use Rattle.trace_text.specs.TraceRefusals.{IsTraceRefusal};
ghost use Rattle.trace_text.specs.TraceSections as reads;
ghost use Rattle.trace_text.specs.TraceStops.{IsMemoryStop, IsHartStop, IsEntriesStop, IsPerformedStop, IsLogStop, IsStatusesStop, IsTraceStop};
ghost use Rattle.trace_text.specs.Traces.{text};
ghost use Rattle.trace_text.specs.Widths.{IsWidth};

use crate::fault::{Stop, TextError};
use crate::head::TraceHead;
use crate::trace_faults::trace_fault;
use crate::trace_lines::{
    head_at, image_line_into, logged_at, operation_at, retired_at, status_at,
};
use elf_loader::{BASE, Image};
use hart::{Retired, Status};
use machine_types::{MAX_ENTRIES, MAX_HARTS};
use std::alloc::Global;
use text_fields::after;
use trace_recorder::{Logged, OpId, Trace};

/// Memory at reset, line by line.
#[tactic(auto, using(crate::proofs::TraceHeads::first_line, crate::proofs::TraceHeads::line_inside, crate::proofs::TraceHeads::line_fits, crate::proofs::TraceHeads::line_small, crate::proofs::TraceHeads::address_small, crate::proofs::TraceHeads::line_nearer, crate::proofs::TraceHeads::next_line))]
fn image_of(alloc: Global, bytes: &[u8], size: u32, width: u32) -> Result<(Vec<u8>, &[u8]), Stop>
    requires size { IsMemorySize size }
    requires width { IsWidth width }
    ensures value { Gives (λ x. (x.0.items, x.1.now)) result (reads.image_lines_at width (size / width) base bytes.now) }
    ensures stop { IfErr result (IsMemoryStop width size bytes.now) }
{
    let Ok(mut image) = vec![in alloc; 0u8; size as usize] else {
        return Err(Stop::Memory { left: bytes.len() });
    };
    let mut rest = bytes;
    let mut start = 0;
    while start < size {
        let line = &mut image[start as usize..(start + width) as usize];
        match image_line_into(line, rest, BASE + start) {
            Some(later) => rest = later,
            None => return Err(Stop::Bytes { left: rest.len() }),
        }
        start += width;
    }
    Ok((image, rest))
}

/// What the lines of a hart begin with. Its number has one digit.
fn hart_lead(first: u8, hart: u8) -> [u8; 4]
    requires { hart < 8 }
    ensures { result ≡ first ∷ 32 ∷ number 32 hart }
{
    [first, b' ', b'0' + hart, b' ']
}

/// A hart's retired instructions.
fn retired_of(alloc: Global, bytes: &[u8], hart: u8) -> Result<(Vec<Retired>, &[u8]), Stop>
    requires { hart < 8 }
    ensures value { Gives (λ x. (x.0.items, x.1.now)) result (reads.entries_at hart bytes.now) }
    ensures stop { IfErr result (IsHartStop hart bytes.now) }
{
    let lead = hart_lead(b'R', hart);
    let mut entries = Vec::new(alloc);
    let mut rest = bytes;
    while let Some(fields) = after(&lead, rest) {
        let Some((entry, later)) = retired_at(fields) else {
            return Err(Stop::Bytes { left: rest.len() });
        };
        if entries.len() == MAX_ENTRIES {
            return Err(Stop::Bytes { left: rest.len() });
        }
        match entries.push(entry) {
            Ok(()) => rest = later,
            Err(_) => return Err(Stop::Memory { left: rest.len() }),
        }
    }
    Ok((entries, rest))
}

/// Each hart's retired instructions.
fn entries_of(alloc: Global, bytes: &[u8], harts: u8) -> Result<(Vec<Vec<Retired>>, &[u8]), Stop>
    requires { harts ≤ MAX_HARTS }
    ensures value { Gives (λ x. (map (λ v. v.items) x.0.items, x.1.now)) result (numbered_at reads.entries_at harts 0 bytes.now) }
    ensures stop { IfErr result (IsEntriesStop harts bytes.now) }
{
    let mut lists = Vec::new(alloc);
    let mut rest = bytes;
    for hart in 0..harts {
        match retired_of(alloc, rest, hart) {
            Ok((list, later)) => match lists.push(list) {
                Ok(()) => rest = later,
                Err(_) => return Err(Stop::Memory { left: later.len() }),
            },
            Err(stop) => return Err(stop),
        }
    }
    Ok((lists, rest))
}

/// The performed operations.
fn performed_of(alloc: Global, bytes: &[u8], harts: u8) -> Result<(Vec<OpId>, &[u8]), Stop>
    requires some { 0 < harts }
    requires few { harts ≤ MAX_HARTS }
    ensures value { Gives (λ x. (x.0.items, x.1.now)) result (reads.performed_at harts bytes.now) }
    ensures stop { IfErr result (IsPerformedStop harts bytes.now) }
{
    let mut performed = Vec::new(alloc);
    let mut rest = bytes;
    while let Some(fields) = after(b"P ", rest) {
        match operation_at(fields, harts) {
            Some((operation, later)) => match performed.push(operation) {
                Ok(()) => rest = later,
                Err(_) => return Err(Stop::Memory { left: rest.len() }),
            },
            None => return Err(Stop::Bytes { left: rest.len() }),
        }
    }
    Ok((performed, rest))
}

/// The messages.
fn log_of<'a>(
    alloc: Global,
    bytes: &'a [u8],
    head: &TraceHead,
) -> Result<(Vec<Logged>, &'a [u8]), Stop>
    requires { IsTraceHead head.now }
    ensures value { Gives (λ x. (x.0.items, x.1.now)) result (reads.log_at head.now bytes.now) }
    ensures stop { IfErr result (IsLogStop head.now bytes.now) }
{
    let harts = head.harts as u8;
    let mut log = Vec::new(alloc);
    let mut rest = bytes;
    while let Some(fields) = after(b"M ", rest) {
        match logged_at(fields, harts, head.kib, head.line) {
            Some((entry, later)) => match log.push(entry) {
                Ok(()) => rest = later,
                Err(_) => return Err(Stop::Memory { left: rest.len() }),
            },
            None => return Err(Stop::Bytes { left: rest.len() }),
        }
    }
    Ok((log, rest))
}

/// A hart's status.
#[tactic(auto, unfolding(crate::specs::TraceSections::status_line_at))]
fn status_line_at(bytes: &[u8], hart: u8) -> Option<(Status, &[u8])>
    requires { hart < 8 }
    ensures { option_map (λ x. (x.0, x.1.now)) result ≡ reads.status_line_at hart bytes.now }
{
    let lead = hart_lead(b'H', hart);
    let rest = after(&lead, bytes)?;
    status_at(rest)
}

/// Each hart's status.
fn statuses_of(alloc: Global, bytes: &[u8], harts: u8) -> Result<(Vec<Status>, &[u8]), Stop>
    requires { harts ≤ MAX_HARTS }
    ensures value { Gives (λ x. (x.0.items, x.1.now)) result (numbered_at reads.status_line_at harts 0 bytes.now) }
    ensures stop { IfErr result (IsStatusesStop harts bytes.now) }
{
    let mut statuses = Vec::new(alloc);
    let mut rest = bytes;
    for hart in 0..harts {
        match status_line_at(rest, hart) {
            Some((status, later)) => match statuses.push(status) {
                Ok(()) => rest = later,
                Err(_) => return Err(Stop::Memory { left: rest.len() }),
            },
            None => return Err(Stop::Bytes { left: rest.len() }),
        }
    }
    Ok((statuses, rest))
}

#[tactic(auto, unfolding(crate::specs::TraceSections::trace_at))]
fn trace_of(alloc: Global, bytes: &[u8]) -> Result<(Trace, &[u8]), Stop>
    ensures value { Gives (λ x. (x.0.history, x.1.now)) result (reads.trace_at bytes.now) }
    ensures stop { IfErr result (IsTraceStop bytes.now) }
{
    let Some((head, rest)) = head_at(bytes) else {
        return Err(Stop::Bytes { left: bytes.len() });
    };
    let harts = head.harts as u8;
    let (memory, rest) = image_of(alloc, rest, head.kib * 1024, head.line.bytes())?;
    let (entries, rest) = entries_of(alloc, rest, harts)?;
    let (performed, rest) = performed_of(alloc, rest, harts)?;
    let (log, rest) = log_of(alloc, rest, &head)?;
    let (statuses, rest) = statuses_of(alloc, rest, harts)?;
    let image = Image::new(memory, head.entry);
    let trace = Trace::from_parts(image, head.line, entries, statuses, performed, log);
    Ok((trace, rest))
}

#[tactic(auto, using(crate::proofs::WholeTraces::trace_shortens))]
fn counted(alloc: Global, bytes: &[u8]) -> Result<(Trace, usize), TextError>
    ensures value { IsReadOrRefused (λ x. (x.0.history, x.1)) result (reads.counted bytes.now (reads.trace_at bytes.now)) }
    ensures refused { ¬ IsNoMemory result → IfErr result (IsTraceRefusal bytes.now) }
{
    match trace_of(alloc, bytes) {
        Ok((trace, rest)) => Ok((trace, bytes.len() - rest.len())),
        Err(stop) => Err(trace_fault(bytes, stop)),
    }
}

/// The trace whose text the bytes begin with, and how many bytes that text takes.
pub fn read_trace(alloc: Global, bytes: &[u8]) -> Result<(Trace, usize), TextError>
    // What is read is a trace, and the bytes that are counted are its text.
    ensures found { IfOk result (λ x. IsTrace x.0.history × (take x.1 bytes.now ≡ text x.0.history)) }
    ensures count { IfOk result (λ x. x.1 ≡ length (text x.0.history)) }
    // What a trace is spelled is read as that trace, whatever follows it, unless memory runs out.
    ensures only { (t : History) (more : List ℕ) → IsTrace t → bytes.now ≡ text t ++ more → ¬ IsNoMemory result → IsReadAs t result }
    // The fault names the first line that is missing, doesn't end or with which the text begins no trace, and says why,
    // unless memory runs out.
    ensures refused { ¬ IsNoMemory result → IfErr result (IsTraceRefusal bytes.now) }
{
    counted(alloc, bytes)
}

/// No text of a trace begins another's.
pub fn no_text_begins_another()
    ensures { NoTextBeginsAnother }
{}
