//! The log of messages that a text tells: a trace's, or one that isn't of rvtl's machines.

ghost use Rattle.std.specs.Prelude.{◌≡◌, IfErr, IfOk, IfSome, true};
ghost use Rattle.std.specs.Option.{option_copied};
ghost use Rattle.check_command.specs.Logs.{AreBreachesIn, IsText, IsTextFaultOf, IsVerdictOn, clients_in, is_wide, memory_in, messages_in, second_in, unwritten_in};

use crate::messages::{by_messages, memory_at_start};
use crate::reading::whole_trace;
use command_files::{Fault, Files, remark};
use elf_loader::Image;
use log_text::message_judge::{Breaches, MessageVerdict, Profile, list_breaches};
use parted_judge::{judge_wide, list_wide_breaches};
use std::alloc::{AllocError, Global};
use text_fields::after;
use trace_recorder::{Logged, Trace};
use trace_text::{TextCode, read_trace};
use wide_logs::{WideLog, read_log};
use written_lines::{Unwritten, unwritten_in};

/// What should stand in a log that isn't a trace's.
const WIDE: &str =
    "behind `rvtl-log 1 CLIENTS LINE` (1 to 64 clients; 16, 32, 64 or 128 bytes a line) each line is S or M, as in a trace, with a client's number and any line's address";

/// A log of messages, with what stands beside it.
#[derive(Drop)]
pub(crate) enum Log {
    /// In a trace.
    Trace(Trace),
    /// In a text of its own, of any clients and lines.
    Wide(WideLog),
}

impl Log {
    /// Its messages. Where lines have halves they have the bytes of the first half.
    pub(crate) fn messages(&self) -> &[Logged]
        ensures { result.now ≡ messages_in self.now }
    {
        match self {
            Log::Trace(trace) => trace.log(),
            Log::Wide(log) => &log.first,
        }
    }

    /// The same messages with the bytes of the second half, where lines have halves.
    pub(crate) fn second(&self) -> &[Logged]
        ensures { result.now ≡ second_in self.now }
    {
        match self {
            Log::Trace(_) => &[],
            Log::Wide(log) => &log.second,
        }
    }

    /// How many clients may be named.
    pub(crate) fn clients(&self) -> u8
        ensures { result ≡ clients_in self.now }
    {
        match self {
            Log::Trace(trace) => trace.harts() as u8,
            Log::Wide(log) => log.shape.clients,
        }
    }

    /// Memory at the start, if it is told.
    pub(crate) fn memory(&self) -> Option<&Image>
        ensures { option_copied result ≡ memory_in self.now }
    {
        match self {
            Log::Trace(trace) => memory_at_start(trace),
            Log::Wide(_) => None,
        }
    }

    /// The verdict on its messages, by the profile's rules, where it has ended or may go on.
    pub(crate) fn verdict(
        &self,
        alloc: Global,
        profile: Profile,
        ended: bool,
    ) -> Result<MessageVerdict, AllocError>
        ensures { IfOk result (IsVerdictOn ended profile self.now) }
    {
        match self {
            Log::Trace(trace) => by_messages(alloc, trace, profile, ended),
            Log::Wide(log) => judge_wide(alloc, ended, profile, log),
        }
    }

    /// Every message that breaks a rule of the profile.
    pub(crate) fn breaches(&self, alloc: Global, profile: Profile) -> Result<Breaches, AllocError>
        ensures { IfOk result (AreBreachesIn profile self.now) }
    {
        match self {
            Log::Trace(trace) => {
                list_breaches(alloc, profile, memory_at_start(trace), trace.log())
            }
            Log::Wide(log) => list_wide_breaches(alloc, profile, log),
        }
    }

    /// The first byte that a hart sends and neither was granted nor wrote, where operations stand beside the messages.
    pub(crate) fn unwritten(&self, alloc: Global) -> Result<Option<Unwritten>, AllocError>
        ensures { IfOk result (λ found. found ≡ unwritten_in self.now) }
    {
        match self {
            Log::Trace(trace) => unwritten_in(alloc, trace),
            Log::Wide(_) => Ok(None),
        }
    }
}

/// Whether a text begins as a log's that isn't a trace's.
pub(crate) fn is_wide(text: &[u8]) -> bool
    ensures { result ≡ is_wide text.now }
{
    after(b"rvtl-log ", text).is_some()
}

/// The log whose text this is, all of it, if it is one.
pub(crate) fn log_in_text(alloc: Global, text: &[u8]) -> Option<Log>
    ensures { IfSome result (IsText text.now) }
{
    if is_wide(text) {
        return wide_in(alloc, text);
    }
    trace_in(alloc, text)
}

fn wide_in(alloc: Global, text: &[u8]) -> Option<Log>
    ensures { IfSome result (IsText text.now) }
{
    match read_log(alloc, text) {
        Ok(log) => Some(Log::Wide(log)),
        Err(_) => None,
    }
}

fn trace_in(alloc: Global, text: &[u8]) -> Option<Log>
    ensures { IfSome result (IsText text.now) }
{
    let Ok((trace, length)) = read_trace(alloc, text) else {
        return None;
    };
    if length < text.len() {
        return None;
    }
    Some(Log::Trace(trace))
}

/// The log whose text these bytes of the file are. Where they are none, what is wrong is remarked.
pub(crate) fn whole_text<'a, F: Files>(
    alloc: Global,
    files: &mut F,
    file: &'a str,
    text: &[u8],
) -> Result<Log, Fault<'a>>
    ensures read { IfOk result (IsText text.now) }
    ensures told { IfErr result (IsTextFaultOf text.now file.entry) }
    ensures spared { F.held files.new ≡ F.held files.old }
{
    if is_wide(text) {
        return whole_wide(alloc, files, file, text);
    }
    let trace = whole_trace(alloc, files, file, text)?;
    Ok(Log::Trace(trace))
}

fn whole_wide<'a, F: Files>(
    alloc: Global,
    files: &mut F,
    file: &'a str,
    text: &[u8],
) -> Result<Log, Fault<'a>>
    requires { is_wide text.now ≡ true }
    ensures read { IfOk result (IsText text.now) }
    ensures told { IfErr result (IsTextFaultOf text.now file.entry) }
    ensures spared { F.held files.new ≡ F.held files.old }
{
    let log = match read_log(alloc, text) {
        Ok(log) => log,
        Err(error) => {
            if error.code != TextCode::NoMemory {
                remark(alloc, files, WIDE);
            }
            return Err(Fault::text(file, error));
        }
    };
    Ok(Log::Wide(log))
}
