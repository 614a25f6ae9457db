//! `rvtl check --messages`: the log of a trace's messages is judged, and the verdict printed.

ghost use Rattle.std.specs.Prelude.{◌≡◌, ◌≢◌, ◌==◌, IfErr, IfOk, IsTrue, List, OnErr, Some, not, true, ℕ};
ghost use Rattle.std.specs.Option.{option_copied};
ghost use Rattle.std.specs.List.{list_any};
ghost use Rattle.text_fields.specs.Writing.{Writes};
ghost use Rattle.log_text.specs.Verdicts.{told_text};
ghost use Rattle.check_command.specs.Breaches.{IsBreachLine, WritesLines, breaches_told, told_line};
ghost use Rattle.check_command.specs.Logs.{IsText, memory_told};
ghost use Rattle.check_command.specs.Messages.{AreListed, AreObjected, IsLogCutOff, IsLogFault, IsLogJudged, IsLogVerdict, IsMeantFault, are_lawful_by, is_unanswered, sourced, text_meant, with_unwritten};
ghost use Rattle.check_command.specs.Piped.{HasPiped, IsLogOf, IsLogRead};
ghost use Rattle.log_text.specs.Ending as ending;
ghost use Rattle.log_text.specs.Meant as meaning;
ghost use Rattle.log_text.specs.Names.{without_names};
ghost use Rattle.log_text.specs.Laws.{IsVerdict};
ghost use Rattle.command_files.specs.Contents.{is_input};
ghost use Rattle.command_files.specs.Faults.{IsTextFault, LeavesAtFault};
ghost use Rattle.command_files.specs.Messages.{is_plain};

use crate::log::{Log, whole_text};
use crate::objecting::{Told, told_of};
use crate::piped::{Piped, piped_log};
use command_files::{Fault, Files, put_named, remark, text_in};
use elf_loader::Image;
use log_text::message_judge::{
    Breaches, Broken, MessageBreach, MessageVerdict, Profile, judge_ended, judge_messages,
};
use log_text::{
    LogText, Place, Unanswered, end_text, foreign_messages, meant_text, misnamed_line, put_told,
    source_line, without_names,
};
use open_questions::{Open, left_open};
use std::alloc::{AllocError, Global};
use std::io::{self, Write};
use text_fields::{Piece, put, put_pieces};
use trace_operations::are_runs;
use trace_recorder::{Logged, Trace};
use trace_text::TextError;
use written_lines::Unwritten;

/// What is asked of the messages of a log.
#[derive(Clone, Copy, Debug, PartialEq, Eq)]
pub struct MessageCheck {
    /// By whose rules they are judged.
    pub profile: Profile,
    /// Whether the log has ended, so that each question has to have its answer.
    pub ended: bool,
    /// Whether each message that breaks a rule is told, and not the first alone.
    pub all: bool,
    /// Whether messages of TL-UL and TL-UH are skipped, and not refused.
    pub skip: bool,
}

/// Reads a trace, or one that ends behind its messages, or a log of 1 to 64 clients and lines of 16 to 128 bytes
/// (`wide_logs`), whose messages may have names, and which may say by S lines what harts hold at the start, judges its
/// log by the rules of the lawful log, as the profile asks them, and of the coherent log, and prints the verdict on
/// `out`. Lines of 32 and 128 bytes are judged as two halves. Memory begins as the trace's I lines say; where there is
/// none with bytes that aren't known. Where the log has ended, each question has to have its answer too;
/// where it may go on, a remark tells of those that have none. Where the log isn't lawful, the line and the name of the
/// message that breaks a rule, and what stood against it, go to `err`. Where all are asked for, the first 100 messages
/// that break a rule are told so, each judged behind all messages before it, and how many more there are.
pub fn check_messages<'a, F: Files, O: Write, E: Write>(
    alloc: Global,
    files: &mut F,
    file: &'a str,
    check: MessageCheck,
    out: &mut O,
    err: &mut E,
) -> Result<MessageVerdict, Fault<'a>>
    ensures judged { IfOk result (λ verdict. IsLogJudged (F.held files.old) file.entry.now check verdict (O.contents out.old) (O.contents out.new)) }
    ensures unfinished { IfErr result (λ fault. LeavesAtFault fault (O.contents out.old) (O.contents out.new)
        (IsLogCutOff (F.held files.old) file.entry.now check (O.contents out.old) (O.contents out.new))) }
    ensures told { IfErr result (IsLogFault (F.held files.old) check.skip file.entry) }
    ensures spared { F.held files.new ≡ F.held files.old }
    ensures noted { IfOk result (λ verdict. AreObjected (F.held files.old) file.entry.now check verdict (E.contents err.old) (E.contents err.new)) }
    ensures quiet { IfOk result (λ verdict. verdict ≡ MessageVerdict.Lawful → E.contents err.new ≡ E.contents err.old) }
    ensures silent { OnErr result (E.contents err.new ≡ E.contents err.old) }
{
    let read = read_log(alloc, files, file, check)?;
    let Ok(answer) = answered(alloc, &read.log, check) else {
        return Err(Fault::OutOfMemory);
    };
    let verdict = answer.verdict;
    let text = read.text(check.skip);
    remark_judged(alloc, files, text, &read.log, verdict);
    if let Err(error) = print(verdict, answer.breaches.as_ref(), out) {
        return Err(Fault::writing(error));
    }
    let log = JudgedLog {
        file,
        log: &read.log,
        profile: check.profile,
    };
    // Standard error has no other place to tell that it takes no more.
    let _ = object(log, text, verdict, answer.breaches.as_ref(), err);
    Ok(verdict)
}

/// A file's log.
#[derive(Drop)]
pub(crate) struct ReadLog {
    pub(crate) bytes: Vec<u8>,
    /// What the bytes stand for, with names.
    pub(crate) meant: Vec<u8>,
    pub(crate) log: Log,
}

impl ReadLog {
    fn text(&self, skip: bool) -> LogText<'_>
        ensures source { result.source.now ≡ self.now.bytes.items }
        ensures skip { result.skip ≡ skip }
        ensures meant { result.meant.now ≡ self.now.meant.items }
    {
        LogText {
            source: self.bytes.as_slice(),
            skip,
            meant: self.meant.as_slice(),
        }
    }
}

/// Reads the log that a file stands for. Of standard input no more is read than it takes for a message to break a rule,
/// where not all are asked for.
fn read_log<'a, F: Files>(
    alloc: Global,
    files: &mut F,
    file: &'a str,
    check: MessageCheck,
) -> Result<ReadLog, Fault<'a>>
    ensures read { IfOk result (IsLogRead (F.held files.old) file.entry.now check) }
    ensures told { IfErr result (IsLogFault (F.held files.old) check.skip file.entry) }
    ensures reading { IfErr result (λ fault. fault ≢ Fault.CannotWrite) }
    ensures spared { F.held files.new ≡ F.held files.old }
{
    let piped = come(alloc, files, file, check)?;
    match piped {
        Piped::Whole(bytes) => log_in(alloc, files, file, bytes, check.skip),
        Piped::Broken(log) => {
            remark_skipped(alloc, files, check.skip, &log.bytes);
            Ok(log)
        }
    }
}

/// What a file has, or as much of standard input as that takes.
fn come<'a, F: Files>(
    alloc: Global,
    files: &mut F,
    file: &'a str,
    check: MessageCheck,
) -> Result<Piped, Fault<'a>>
    ensures read { IfOk result (HasPiped (F.held files.old) file.entry.now check) }
    ensures fault { IfErr result (IsTextFault (F.held files.old) file.entry) }
    ensures spared { F.held files.new ≡ F.held files.old }
{
    if is_input(file) && !check.all {
        return piped_log(alloc, files, file, check);
    }
    let bytes = text_in(alloc, files, file)?;
    Ok(Piped::Whole(bytes))
}

/// Whether standard input is read under this name.
fn is_input(file: &str) -> bool
    ensures { result ≡ is_input file.now }
{
    file == "-"
}

/// The log that a file of these bytes stands for.
fn log_in<'a, F: Files>(
    alloc: Global,
    files: &mut F,
    file: &'a str,
    bytes: Vec<u8>,
    skip: bool,
) -> Result<ReadLog, Fault<'a>>
    ensures read { IfOk result (IsLogOf skip bytes.items) }
    ensures told { IfErr result (IsMeantFault skip bytes.items file.entry) }
    ensures spared { F.held files.new ≡ F.held files.old }
{
    let source = bytes.as_slice();
    let Ok(meant) = meant_text(alloc, source, skip) else {
        return Err(Fault::OutOfMemory);
    };
    remark_skipped(alloc, files, skip, source);
    let log = whole_log(alloc, files, file, source, meant.as_slice(), skip)?;
    Ok(ReadLog { bytes, meant, log })
}

/// The log that is meant by the bytes of the file. Where it is none, what is wrong is remarked.
fn whole_log<'a, F: Files>(
    alloc: Global,
    files: &mut F,
    file: &'a str,
    bytes: &[u8],
    meant: &[u8],
    skip: bool,
) -> Result<Log, Fault<'a>>
    requires { meant.now ≡ meaning.meant skip bytes.now }
    ensures read { IfOk result (IsText (text_meant skip bytes.now)) }
    ensures told { IfErr result (IsMeantFault skip bytes.now file.entry) }
    ensures spared { F.held files.new ≡ F.held files.old }
{
    let Ok(text) = text_meant(alloc, meant) else {
        return Err(Fault::OutOfMemory);
    };
    match whole_text(alloc, files, file, text.as_slice()) {
        Ok(log) => Ok(log),
        Err(fault) => {
            remark_misnamed(alloc, files, bytes);
            Err(sourced(fault, bytes, skip))
        }
    }
}

/// The fault at the line of the file that stands for the one that is refused.
fn sourced<'a>(fault: Fault<'a>, bytes: &[u8], skip: bool) -> Fault<'a>
    ensures { result ≡ sourced skip bytes.now fault.entry }
{
    match fault {
        Fault::Text { file, error } => Fault::Text {
            file,
            error: TextError {
                line: source_line(bytes, skip, error.line),
                code: error.code,
                cause: error.cause,
            },
        },
        other => other,
    }
}

/// The text of the log that is meant, where messages may have names.
pub(crate) fn text_meant(alloc: Global, meant: &[u8]) -> Result<Vec<u8>, AllocError>
    ensures { IfOk result (λ text. text.items ≡ ending.ended (without_names meant.now)) }
{
    let mut text = without_names(alloc, meant)?;
    end_text(&mut text)?;
    Ok(text)
}

/// Remarks how many messages were skipped, where they are to be.
fn remark_skipped<F: Files>(alloc: Global, files: &mut F, skip: bool, bytes: &[u8])
    ensures { F.held files.new ≡ F.held files.old }
{
    if !skip {
        return;
    }
    let count = foreign_messages(bytes);
    if count != 0 {
        remark(
            alloc,
            files,
            format_args!("{count} messages of TL-UL or TL-UH were skipped"),
        );
    }
}

/// Remarks where something stands behind a message that is no name.
fn remark_misnamed<F: Files>(alloc: Global, files: &mut F, bytes: &[u8])
    ensures { F.held files.new ≡ F.held files.old }
{
    if let Some(line) = misnamed_line(bytes) {
        remark(
            alloc,
            files,
            format_args!(
                "line {line}: behind ` ; ` a message has a name of at most 72 bytes, none a control byte"
            ),
        );
    }
}

/// What is said of a log.
struct Answer {
    verdict: MessageVerdict,
    /// Where they are asked for.
    breaches: Option<Breaches>,
}

impl Drop for Answer {
    fn drop(self) {
        let Answer {
            verdict: _,
            breaches,
        } = self;
        match breaches {
            Some(
                Breaches {
                    listed: _,
                    count: _,
                },
            ) => {}
            None => {}
        }
    }
}

/// The verdict on a log, and its breaches where they are asked for.
fn answered(alloc: Global, log: &Log, check: MessageCheck) -> Result<Answer, AllocError>
    ensures verdict { IfOk result (λ answer. IsLogVerdict check.ended check.profile log.now answer.verdict) }
    ensures breaches { IfOk result (λ answer. AreListed check.all check.profile log.now answer.breaches) }
{
    let verdict = judged(alloc, log, check.profile, check.ended)?;
    let breaches = listed(alloc, log, check.profile, check.all)?;
    Ok(Answer { verdict, breaches })
}

/// The breaches of a log by the profile's rules, where they are asked for.
fn listed(
    alloc: Global,
    log: &Log,
    profile: Profile,
    all: bool,
) -> Result<Option<Breaches>, AllocError>
    ensures { IfOk result (AreListed all profile log.now) }
{
    if !all {
        return Ok(None);
    }
    let breaches = log.breaches(alloc, profile)?;
    Ok(Some(breaches))
}

/// The verdict on a log: that on its messages, and where none of them breaks another rule, whether the bytes that harts
/// send are those that they were granted and wrote.
fn judged(
    alloc: Global,
    log: &Log,
    profile: Profile,
    ended: bool,
) -> Result<MessageVerdict, AllocError>
    ensures { IfOk result (IsLogVerdict ended profile log.now) }
{
    let verdict = log.verdict(alloc, profile, ended)?;
    if !are_lawful_by(verdict) {
        return Ok(verdict);
    }
    let unwritten = log.unwritten(alloc)?;
    Ok(with_unwritten(verdict, unwritten))
}

/// Whether each message keeps each rule of messages, by a verdict on them.
pub(crate) fn are_lawful_by(verdict: MessageVerdict) -> bool
    ensures { result ≡ are_lawful_by verdict }
{
    match verdict {
        MessageVerdict::Lawful => true,
        MessageVerdict::Unlawful { breach, index: _ } => is_unanswered(breach),
    }
}

fn is_unanswered(breach: MessageBreach) -> bool
    ensures { result ≡ is_unanswered breach }
{
    matches!(breach, MessageBreach::Unanswered)
}

/// The verdict on a log whose messages are lawful, and in which such a byte is found, or none.
fn with_unwritten(verdict: MessageVerdict, found: Option<Unwritten>) -> MessageVerdict
    requires { are_lawful_by verdict ≡ true }
    ensures { result ≡ with_unwritten found verdict }
{
    match found {
        Some(unwritten) => MessageVerdict::Unlawful {
            breach: MessageBreach::Unwritten {
                address: unwritten.address,
            },
            index: unwritten.index,
        },
        None => verdict,
    }
}

/// The verdict on a trace's log by the profile's rules, which has ended or may go on.
pub(crate) fn by_messages(
    alloc: Global,
    trace: &Trace,
    profile: Profile,
    ended: bool,
) -> Result<MessageVerdict, AllocError>
    ensures { IfOk result (IsVerdict ended profile (memory_told trace.now.history.image) trace.now.history.log) }
{
    let memory = memory_at_start(trace);
    if ended {
        judge_ended(alloc, profile, memory, trace.log())
    } else {
        judge_messages(alloc, profile, memory, trace.log())
    }
}

/// Remarks that there was nothing to judge, or which questions of a lawful log have no answer.
fn remark_judged<F: Files>(
    alloc: Global,
    files: &mut F,
    text: LogText<'_>,
    log: &Log,
    verdict: MessageVerdict,
)
    ensures { F.held files.new ≡ F.held files.old }
{
    if log.messages().is_empty() {
        remark(
            alloc,
            files,
            "no M line stands in it, so nothing was judged",
        );
    }
    if verdict == MessageVerdict::Lawful {
        if let Log::Trace(trace) = log {
            remark_no_run(alloc, files, trace);
        }
        remark_open(alloc, files, text, log.messages());
    }
}

/// Remarks that bytes weren't compared with what harts wrote, where a trace tells of operations and its lists are no runs.
fn remark_no_run<F: Files>(alloc: Global, files: &mut F, trace: &Trace)
    ensures { F.held files.new ≡ F.held files.old }
{
    if !trace.performed().is_empty() && !are_runs(trace) {
        remark(
            alloc,
            files,
            "its R lines are no runs of its harts, so what they send wasn't compared with what they wrote",
        );
    }
}

/// Remarks the first question that no answer follows, and how many there are. Where memory is wanting, or there is
/// none, nothing is told.
fn remark_open<F: Files>(alloc: Global, files: &mut F, text: LogText<'_>, log: &[Logged])
    ensures { F.held files.new ≡ F.held files.old }
{
    let Ok(Some(open)) = left_open(alloc, log) else {
        return;
    };
    if let Ok(Some(note)) = open_note(alloc, text, log, open) {
        remark(alloc, files, note);
    }
}

/// Where the first question without an answer stands, and how many there are. None where the text has no such message.
fn open_note(
    alloc: Global,
    text: LogText<'_>,
    log: &[Logged],
    open: Open,
) -> io::Result<Option<String>> {
    let (Some(place), Some(question)) = (
        Place::of(text, open.first),
        Unanswered::of(log, open.first),
    ) else {
        return Ok(None);
    };
    let mut note = Vec::new(alloc);
    place.put(&mut note)?;
    put(&mut note, b": ")?;
    question.put(&mut note)?;
    if open.count != 1 {
        put_pieces(
            &mut note,
            &[
                Piece::Text(b", the first of "),
                Piece::Number(open.count as u64),
                Piece::Text(b" questions without an answer"),
            ],
        )?;
    }
    put(&mut note, b" (with --ended this is a fault)")?;
    Ok(String::from_utf8(note).ok())
}

/// The image, if an I line tells of it.
pub(crate) fn memory_at_start(trace: &Trace) -> Option<&Image>
    ensures { option_copied result ≡ memory_told trace.now.history.image }
{
    let image = trace.image();
    if is_told(image) { Some(image) } else { None }
}

/// Whether a byte isn't zero, as an I line tells.
fn is_told(image: &Image) -> bool
    ensures { result ≡ list_any (λ byte. not (byte == 0)) image.now.bytes }
{
    image.bytes().iter().any(|byte| is_told_of(*byte))
}

fn is_told_of(byte: u8) -> bool
    ensures { result ≡ not (byte == 0) }
{
    byte != 0
}

fn print<O: Write>(
    verdict: MessageVerdict,
    breaches: Option<&Breaches>,
    out: &mut O,
) -> io::Result<()>
    ensures { Writes (O.contents out.old) (O.contents out.new) (told_text verdict (option_copied breaches.entry)) result }
{
    put_told(verdict, breaches, out)?;
    out.flush()
}

/// A log as it stands in a file, and by whose rules it was judged.
#[derive(Clone, Copy)]
struct JudgedLog<'a> {
    file: &'a str,
    log: &'a Log,
    profile: Profile,
}

/// Which lines of an unlawful log break a rule, and what stands against their messages: those of the breaches that are
/// listed, and else the verdict's.
fn object<E: Write>(
    log: JudgedLog<'_>,
    text: LogText<'_>,
    verdict: MessageVerdict,
    breaches: Option<&Breaches>,
    err: &mut E,
) -> io::Result<()>
    ensures lawful { verdict ≡ MessageVerdict.Lawful → E.contents err.new ≡ E.contents err.old }
    ensures told { IsTrue (is_plain log.entry.file.now) → WritesLines (IsBreachLine log.entry.profile log.entry.log.now text.entry log.entry.file.now)
        (breaches_told verdict (option_copied breaches.entry)) (E.contents err.old) (E.contents err.new) result }
{
    match verdict {
        MessageVerdict::Lawful => Ok(()),
        MessageVerdict::Unlawful { breach, index } => match breaches {
            Some(breaches) if breaches.count != 0 => put_listed(log, text, &breaches.listed, err),
            _ => put_listed(log, text, &[Broken { breach, index }], err),
        },
    }
}

fn put_listed<E: Write>(
    log: JudgedLog<'_>,
    text: LogText<'_>,
    listed: &[Broken],
    err: &mut E,
) -> io::Result<()>
    ensures { IsTrue (is_plain log.entry.file.now) → WritesLines (IsBreachLine log.entry.profile log.entry.log.now text.entry log.entry.file.now)
        listed.now (E.contents err.old) (E.contents err.new) result }
{
    for broken in listed {
        put_breach(log, text, *broken, err)?;
    }
    Ok(())
}

/// Which line breaks a rule, and what stands against its message.
fn put_breach<E: Write>(
    log: JudgedLog<'_>,
    text: LogText<'_>,
    broken: Broken,
    err: &mut E,
) -> io::Result<()>
    ensures { IsTrue (is_plain log.entry.file.now) → (line : List ℕ) × IsBreachLine log.entry.profile log.entry.log.now text.entry log.entry.file.now broken line
        × Writes (E.contents err.old) (E.contents err.new) line result }
{
    let clients = log.log.clients();
    match told_of(log.log.messages(), log.profile, clients, text, broken) {
        Some(told) => put_line(log.file, &told, err),
        None => Ok(()),
    }
}

fn put_line<E: Write>(file: &str, told: &Told<'_>, err: &mut E) -> io::Result<()>
    ensures { IsTrue (is_plain file.now) → Writes (E.contents err.old) (E.contents err.new) (told_line file.now (Some told.now)) result }
{
    put_named(b"rvtl: ", file, &[Piece::Text(b": ")], err)?;
    told.put(err)
}
