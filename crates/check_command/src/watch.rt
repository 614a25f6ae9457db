//! A log that comes piece by piece, judged message by message.

ghost use Rattle.std.specs.Prelude.{◌≡◌, ◌≤◌, IfOk, IfSome, OnOk, length};
ghost use Rattle.check_command.specs.Messages.{IsUnlawful, text_meant};
ghost use Rattle.check_command.specs.Piped.{IsBeginning, IsBrokenBy, IsLogOf};
ghost use Rattle.check_command.specs.Watching.{HaveJudged};
ghost use Rattle.log_text.specs.Following.{HasJudged};

use crate::log::{Log, is_wide, log_in_text};
use crate::messages::{MessageCheck, ReadLog, are_lawful_by, text_meant};
use elf_loader::Image;
use log_text::meant_text;
use log_text::message_judge::{Judge, Profile};
use std::alloc::{AllocError, Global};
use trace_recorder::Logged;

/// What came so far, up to the last line that is whole.
#[derive(Drop)]
pub(crate) struct Watch {
    judge: Judge,
    /// What judges the bytes of second halves, where lines have halves.
    halves: Judge,
    /// What stands before the first message, once that has come.
    start: Option<Log>,
    /// How many bytes were judged.
    seen: usize,
    /// What came is no log, so that no more of it is judged as it comes.
    is_blind: bool,
}

impl Watch {
    /// Where nothing came yet.
    pub(crate) fn new(alloc: Global) -> Watch
        ensures { HaveJudged result }
    {
        Watch {
            judge: Judge::new(alloc),
            halves: Judge::new(alloc),
            start: None,
            seen: 0,
            is_blind: false,
        }
    }

    /// The log that has come, once a message of it breaks a rule: its bytes are those that have come, or the first of
    /// them.
    pub(crate) fn broken_log(
        &mut self,
        alloc: Global,
        bytes: &[u8],
        check: MessageCheck,
    ) -> Result<Option<ReadLog>, AllocError>
        requires { HaveJudged self.old }
        ensures broken { IfOk result (λ found. IfSome found (IsBrokenBy bytes.now check)) }
        ensures judged { IfOk result (λ found. HaveJudged self.new) }
    {
        let lines = whole_lines(bytes);
        if self.finds_breach(alloc, lines, check)? {
            return unlawful_log(alloc, lines, check);
        }
        Ok(None)
    }

    /// Whether a message that came since it was asked last breaks a rule.
    fn finds_breach(
        &mut self,
        alloc: Global,
        lines: &[u8],
        check: MessageCheck,
    ) -> Result<bool, AllocError>
        requires { HaveJudged self.old }
        ensures { OnOk result (HaveJudged self.new) }
    {
        if self.is_blind {
            return Ok(false);
        }
        if self.start.is_none() && self.begins_with_breach(alloc, lines, check)? {
            return Ok(true);
        }
        self.goes_on_with_breach(alloc, lines, check)
    }

    /// Notes what stands before the first message, once that has come, and whether a message that S lines stand for breaks
    /// a rule.
    fn begins_with_breach(
        &mut self,
        alloc: Global,
        lines: &[u8],
        check: MessageCheck,
    ) -> Result<bool, AllocError>
        requires { HaveJudged self.old }
        ensures { OnOk result (HaveJudged self.new) }
    {
        let Some(head) = before_messages(lines) else {
            return Ok(false);
        };
        let Some(read) = log_of(alloc, head, check.skip)? else {
            self.is_blind = true;
            return Ok(false);
        };
        let memory = read.log.memory();
        let found = has_breach_in(
            alloc,
            &mut self.judge,
            &mut self.halves,
            check.profile,
            memory,
            &read.log,
        )?;
        self.seen = head.len();
        self.start = Some(read.log);
        Ok(found)
    }

    /// Whether one of the messages behind those that were judged breaks a rule.
    fn goes_on_with_breach(
        &mut self,
        alloc: Global,
        lines: &[u8],
        check: MessageCheck,
    ) -> Result<bool, AllocError>
        requires { HaveJudged self.old }
        ensures { OnOk result (HaveJudged self.new) }
    {
        let Some(start) = &self.start else {
            return Ok(false);
        };
        if lines.len() <= self.seen {
            return Ok(false);
        }
        let Some(read) = log_behind(alloc, lines, self.seen, check.skip)? else {
            self.is_blind = true;
            return Ok(false);
        };
        self.seen = lines.len();
        let memory = start.memory();
        let found = has_breach_in(
            alloc,
            &mut self.judge,
            &mut self.halves,
            check.profile,
            memory,
            &read.log,
        )?;
        Ok(found)
    }
}

/// The log of the messages behind so many bytes of these lines, under a head of its own, if they are messages.
fn log_behind(
    alloc: Global,
    lines: &[u8],
    seen: usize,
    skip: bool,
) -> Result<Option<ReadLog>, AllocError> {
    let mut text = Vec::from_slice(alloc, head_lines(lines))?;
    text.extend_from_slice(lines.get(seen..).unwrap_or(&[]))?;
    log_of(alloc, &text, skip)
}

/// Whether one of the next messages breaks a rule, with the bytes of the first half of its line or of the second.
fn has_breach_in(
    alloc: Global,
    judge: &mut Judge,
    halves: &mut Judge,
    profile: Profile,
    memory: Option<&Image>,
    log: &Log,
) -> Result<bool, AllocError>
    requires first { HasJudged judge.old }
    requires second { HasJudged halves.old }
    ensures first { OnOk result (HasJudged judge.new) }
    ensures second { OnOk result (HasJudged halves.new) }
{
    let found = has_breach(alloc, judge, profile, memory, log.messages())?;
    if found {
        return Ok(true);
    }
    has_breach(alloc, halves, profile, memory, log.second())
}

/// Whether one of the next messages breaks a rule.
fn has_breach(
    alloc: Global,
    judge: &mut Judge,
    profile: Profile,
    memory: Option<&Image>,
    log: &[Logged],
) -> Result<bool, AllocError>
    requires { HasJudged judge.old }
    ensures { OnOk result (HasJudged judge.new) }
{
    for entry in log {
        if judge.next(alloc, profile, memory, entry)?.is_some() {
            return Ok(true);
        }
    }
    Ok(false)
}

/// The log whose text this is, if it is one.
fn log_of(alloc: Global, text: &[u8], skip: bool) -> Result<Option<ReadLog>, AllocError>
    ensures { IfOk result (λ found. IfSome found (IsLogOf skip text.now)) }
{
    let meant = meant_text(alloc, text, skip)?;
    let whole = text_meant(alloc, meant.as_slice())?;
    let Some(log) = log_in_text(alloc, whole.as_slice()) else {
        return Ok(None);
    };
    let bytes = Vec::from_slice(alloc, text)?;
    Ok(Some(ReadLog { bytes, meant, log }))
}

/// The log of these lines, if a message of it breaks a rule.
fn unlawful_log(
    alloc: Global,
    lines: &[u8],
    check: MessageCheck,
) -> Result<Option<ReadLog>, AllocError>
    ensures { IfOk result (λ found. IfSome found (λ read. IsLogOf check.skip lines.now read × IsUnlawful check.profile read.log)) }
{
    let Some(read) = log_of(alloc, lines, check.skip)? else {
        return Ok(None);
    };
    let verdict = read.log.verdict(alloc, check.profile, false)?;
    if are_lawful_by(verdict) {
        return Ok(None);
    }
    Ok(Some(read))
}

/// The bytes up to the end of the last line that is whole.
fn whole_lines(bytes: &[u8]) -> &[u8]
    ensures { IsBeginning bytes.now result.now }
{
    let mut length = bytes.len();
    while length > 0 && bytes[length - 1] != b'\n' {
        length -= 1;
    }
    &bytes[..length]
}

/// What stands before the first message, if there is one.
fn before_messages(lines: &[u8]) -> Option<&[u8]> {
    let mut is_start = true;
    for at in 0..lines.len() {
        let rest = &lines[at..];
        if is_start && rest.starts_with(b"M ") {
            return Some(&lines[..at]);
        }
        is_start = rest.first() == Some(&b'\n');
    }
    None
}

/// A trace's first two lines; the first line of a log that is none.
fn head_lines(lines: &[u8]) -> &[u8] {
    let mut is_last = is_wide(lines);
    for at in 0..lines.len() {
        if lines[at] == b'\n' {
            if is_last {
                return &lines[..at + 1];
            }
            is_last = true;
        }
    }
    lines
}
