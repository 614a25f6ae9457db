//! Reading a script.
ghost use Rattle.std.specs.Prelude.{◌≡◌, length, IfErr, IfOk};
ghost use Rattle.std.specs.Option.{option_map};
ghost use Rattle.text_fields.specs.Reading.{all_at};
ghost use Rattle.trace_text.specs.Scripts.{is_head, text, IsScript};
ghost use Rattle.trace_text.specs.ScriptReading as reads;
ghost use Rattle.trace_text.specs.ScriptReading.{content_of};
ghost use Rattle.trace_text.specs.Reading.{Gives, IsNoMemory};
ghost use Rattle.trace_text.specs.Refusals.{IsScriptRefusal};
ghost use Rattle.trace_text.specs.Stops.{IsEventStop, IsScriptStop};

use crate::fault::{Stop, TextError};
use crate::reading::{ended, word_of};
use crate::script::{Events, Head, Script};
use crate::script_faults::script_fault;
use crate::version::is_first_version;
use elf_loader::is_memory_kib;
use machine_types::{Event, MAX_KIB, is_within_limits};
use std::alloc::Global;
use text_fields::{after, number_at, word_at};
use tl_types::{Channel, LineSize};

/// No number of a header is more.
pub(crate) const MOST: u32 = MAX_KIB;

#[tactic(auto, unfolding(crate::specs::ScriptReading::word_line_at))]
pub(crate) fn word_line_at(bytes: &[u8]) -> Option<(u32, &[u8])>
    ensures { option_map (λ x. (x.0, x.1.now)) result ≡ reads.word_line_at bytes.now }
{
    ended(word_at(bytes), b'\n')
}

const CHANNELS: [(&[u8], Channel); 5] = [
    (b"A ", Channel::A),
    (b"B ", Channel::B),
    (b"C ", Channel::C),
    (b"D ", Channel::D),
    (b"E ", Channel::E),
];

/// A channel's letter, the blank behind it, and what stands behind that.
#[tactic(auto, unfolding(crate::specs::ScriptReading::channel_at))]
pub fn channel_at(bytes: &[u8]) -> Option<(Channel, &[u8])>
    ensures { option_map (λ x. (x.0, x.1.now)) result ≡ reads.channel_at bytes.now }
{
    word_of(&CHANNELS, bytes)
}

#[tactic(auto, unfolding(crate::specs::ScriptReading::step_at))]
fn step_at(bytes: &[u8]) -> Option<(Event, &[u8])>
    ensures { option_map (λ x. (x.0, x.1.now)) result ≡ reads.step_at bytes.now }
{
    let rest = after(b"step ", bytes)?;
    let (hart, rest) = number_at(rest, b'\n', 255)?;
    Some((Event::Step { hart: hart as u8 }, rest))
}

#[tactic(auto, unfolding(crate::specs::ScriptReading::drain_at))]
fn drain_at(bytes: &[u8]) -> Option<(Event, &[u8])>
    ensures { option_map (λ x. (x.0, x.1.now)) result ≡ reads.drain_at bytes.now }
{
    let rest = after(b"drain ", bytes)?;
    let (hart, rest) = number_at(rest, b' ', 255)?;
    let (word, rest) = word_line_at(rest)?;
    let hart = hart as u8;
    Some((Event::Drain { hart, word }, rest))
}

#[tactic(auto, unfolding(crate::specs::ScriptReading::evict_at))]
fn evict_at(bytes: &[u8]) -> Option<(Event, &[u8])>
    ensures { option_map (λ x. (x.0, x.1.now)) result ≡ reads.evict_at bytes.now }
{
    let rest = after(b"evict ", bytes)?;
    let (hart, rest) = number_at(rest, b' ', 255)?;
    let (line, rest) = word_line_at(rest)?;
    let hart = hart as u8;
    Some((Event::Evict { hart, line }, rest))
}

#[tactic(auto, unfolding(crate::specs::ScriptReading::deliver_at))]
fn deliver_at(bytes: &[u8]) -> Option<(Event, &[u8])>
    ensures { option_map (λ x. (x.0, x.1.now)) result ≡ reads.deliver_at bytes.now }
{
    let rest = after(b"deliver ", bytes)?;
    let (channel, rest) = channel_at(rest)?;
    let (hart, rest) = number_at(rest, b'\n', 255)?;
    let hart = hart as u8;
    Some((Event::Deliver { channel, hart }, rest))
}

#[tactic(auto, unfolding(crate::specs::ScriptReading::local_at))]
fn local_at(bytes: &[u8]) -> Option<(Event, &[u8])>
    ensures { option_map (λ x. (x.0, x.1.now)) result ≡ reads.local_at bytes.now }
{
    let rest = after(b"local ", bytes)?;
    let (hart, rest) = number_at(rest, b' ', 255)?;
    let (count, rest) = number_at(rest, b'\n', u32::MAX)?;
    let hart = hart as u8;
    Some((Event::Local { hart, count }, rest))
}

#[tactic(auto, unfolding(crate::specs::ScriptReading::event_at))]
fn event_at(bytes: &[u8]) -> Option<(Event, &[u8])>
    ensures { option_map (λ x. (x.0, x.1.now)) result ≡ reads.event_at bytes.now }
{
    if let Some(found) = step_at(bytes) {
        return Some(found);
    }
    if let Some(found) = drain_at(bytes) {
        return Some(found);
    }
    if let Some(found) = evict_at(bytes) {
        return Some(found);
    }
    if let Some(found) = deliver_at(bytes) {
        return Some(found);
    }
    local_at(bytes)
}

fn is_head(head: &Head) -> bool
    ensures { result ≡ is_head head.now }
{
    is_within_limits(head.harts, head.sets, head.ways) && is_memory_kib(head.kib)
}

#[tactic(auto, unfolding(crate::specs::ScriptReading::last_two_at))]
fn last_two_at(bytes: &[u8]) -> Option<((u32, u32), &[u8])>
    ensures { option_map (λ x. (x.0, x.1.now)) result ≡ reads.last_two_at bytes.now }
{
    let (first, rest) = number_at(bytes, b' ', MOST)?;
    let (last, rest) = number_at(rest, b'\n', MOST)?;
    Some(((first, last), rest))
}

/// A line's size, which ends the line of text.
#[tactic(auto, unfolding(crate::specs::ScriptReading::size_at))]
pub(crate) fn size_at(bytes: &[u8]) -> Option<(LineSize, &[u8])>
    ensures { option_map (λ x. (x.0, x.1.now)) result ≡ reads.size_at bytes.now }
{
    let (width, rest) = number_at(bytes, b'\n', MOST)?;
    let size = LineSize::of_bytes(width)?;
    Some((size, rest))
}

#[tactic(auto, unfolding(crate::specs::ScriptReading::ways_and_size_at))]
fn ways_and_size_at(bytes: &[u8]) -> Option<((u32, LineSize), &[u8])>
    ensures { option_map (λ x. (x.0, x.1.now)) result ≡ reads.ways_and_size_at bytes.now }
{
    let (ways, rest) = number_at(bytes, b' ', MOST)?;
    let (line, rest) = size_at(rest)?;
    Some(((ways, line), rest))
}

#[tactic(auto, unfolding(crate::specs::ScriptReading::first_fields_at))]
fn first_fields_at(bytes: &[u8]) -> Option<(Head, &[u8])>
    ensures { option_map (λ x. (x.0, x.1.now)) result ≡ reads.first_fields_at bytes.now }
{
    let rest = after(b"rvtl-script 1 ", bytes)?;
    let (harts, rest) = number_at(rest, b' ', MOST)?;
    let (kib, rest) = number_at(rest, b' ', MOST)?;
    let ((sets, ways), rest) = last_two_at(rest)?;
    let head = Head {
        harts,
        kib,
        sets,
        ways,
        line: LineSize::Bytes16,
    };
    Some((head, rest))
}

#[tactic(auto, unfolding(crate::specs::ScriptReading::first_head_at))]
fn first_head_at(bytes: &[u8]) -> Option<(Head, &[u8])>
    ensures { option_map (λ x. (x.0, x.1.now)) result ≡ reads.first_head_at bytes.now }
{
    let (head, rest) = first_fields_at(bytes)?;
    if is_head(&head) && is_first_version(head.harts as u64, head.line) {
        Some((head, rest))
    } else {
        None
    }
}

#[tactic(auto, unfolding(crate::specs::ScriptReading::second_fields_at))]
fn second_fields_at(bytes: &[u8]) -> Option<(Head, &[u8])>
    ensures { option_map (λ x. (x.0, x.1.now)) result ≡ reads.second_fields_at bytes.now }
{
    let rest = after(b"rvtl-script 2 ", bytes)?;
    let (harts, rest) = number_at(rest, b' ', MOST)?;
    let (kib, rest) = number_at(rest, b' ', MOST)?;
    let (sets, rest) = number_at(rest, b' ', MOST)?;
    let ((ways, line), rest) = ways_and_size_at(rest)?;
    let head = Head {
        harts,
        kib,
        sets,
        ways,
        line,
    };
    Some((head, rest))
}

#[tactic(auto, unfolding(crate::specs::ScriptReading::second_head_at))]
fn second_head_at(bytes: &[u8]) -> Option<(Head, &[u8])>
    ensures { option_map (λ x. (x.0, x.1.now)) result ≡ reads.second_head_at bytes.now }
{
    let (head, rest) = second_fields_at(bytes)?;
    if is_head(&head) && !is_first_version(head.harts as u64, head.line) {
        Some((head, rest))
    } else {
        None
    }
}

#[tactic(auto, unfolding(crate::specs::ScriptReading::head_at))]
fn head_at(bytes: &[u8]) -> Option<(Head, &[u8])>
    ensures { option_map (λ x. (x.0, x.1.now)) result ≡ reads.head_at bytes.now }
{
    if let Some(found) = first_head_at(bytes) {
        return Some(found);
    }
    second_head_at(bytes)
}

#[tactic(auto, using(crate::proofs::Scripts::event_shortens))]
fn events_of(alloc: Global, bytes: &[u8]) -> Result<Vec<Event>, Stop>
    ensures value { Gives (λ v. v.items) result (all_at reads.event_at (length bytes.now) bytes.now) }
    ensures stop { IfErr result (IsEventStop bytes.now) }
{
    let mut events = Vec::new(alloc);
    let mut rest = bytes;
    while !rest.is_empty() {
        match event_at(rest) {
            Some((event, later)) => {
                match events.push(event) {
                    Ok(()) => rest = later,
                    Err(_) => return Err(Stop::Memory { left: rest.len() }),
                }
            }
            None => return Err(Stop::Bytes { left: rest.len() }),
        }
    }
    Ok(events)
}

#[tactic(auto, unfolding(crate::specs::ScriptReading::script_at))]
fn script_of(alloc: Global, bytes: &[u8]) -> Result<Script, Stop>
    ensures value { Gives content_of result (reads.script_at bytes.now) }
    ensures stop { IfErr result (IsScriptStop bytes.now) }
{
    match head_at(bytes) {
        Some((head, rest)) => {
            let events = events_of(alloc, rest)?;
            Ok(Script {
                harts: head.harts,
                kib: head.kib,
                sets: head.sets,
                ways: head.ways,
                line: head.line,
                events: Events::new(events),
            })
        }
        None => Err(Stop::Bytes { left: bytes.len() }),
    }
}

/// The script whose text this is, all of it. A script may end after any whole line from the first on.
pub fn read_script(alloc: Global, bytes: &[u8]) -> Result<Script, TextError>
    // What is read is a script, spelled so.
    ensures found { IfOk result (λ s. IsScript s × (bytes.now ≡ text s)) }
    // What a script is spelled is read as that script, unless memory runs out.
    ensures only { (s : Script) → IsScript s → bytes.now ≡ text s → ¬ IsNoMemory result → result ≡ Ok s }
    // The fault names the first line that isn't a script's, and says why, unless memory runs out.
    ensures refused { ¬ IsNoMemory result → IfErr result (IsScriptRefusal bytes.now) }
{
    match script_of(alloc, bytes) {
        Ok(script) => Ok(script),
        Err(stop) => Err(script_fault(bytes, stop)),
    }
}
