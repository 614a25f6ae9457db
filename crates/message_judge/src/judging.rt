//! The verdict of both judges.
ghost use Rattle.std.specs.Prelude.{IfOk, List, Option};
ghost use Rattle.std.specs.Option.{option_copied};
ghost use Rattle.elf_loader.specs.Image.{Initial};
ghost use Rattle.lawful_log.specs.declared.profile.Profile.{Profile as ProfileValue};
ghost use Rattle.message_judge.specs.Laws.{AreLawfulMessages, FirstFaultStays, IsCoherenceVerdict, IsEndedVerdict, IsLogVerdict, IsMessageVerdict, LawfulByBoth};
ghost use Rattle.open_questions.specs.Open.{LeavesOpen, open_from};
ghost use Rattle.trace_recorder.specs.declared.logged.Logged.{Logged as LoggedValue};

use crate::verdict::{MessageBreach, MessageVerdict};
use coherent_log::{Breach, CoherenceVerdict, check_coherence};
use elf_loader::Image;
use lawful_log::{LogRule, LogVerdict, Profile, check_log};
use open_questions::{Open, left_open};
use std::alloc::{AllocError, Global};
use trace_recorder::Logged;

/// Whether each message of a log keeps the rules of the lawful log, as the profile asks them, and those of the coherent log, where no client has
/// a permission at the start, and memory begins as the image says, or with bytes that aren't known; and where one
/// doesn't, the first, with the first rule that it breaks: those of the lawful log come first. Each judge goes over
/// the log once. The only error is want of memory.
pub fn judge_messages(
    alloc: Global,
    profile: Profile,
    image: Option<&Image>,
    log: &[Logged],
) -> Result<MessageVerdict, AllocError>
    ensures { IfOk result (IsMessageVerdict profile (option_copied image.entry) log.now) }
{
    let lawful = check_log(alloc, profile, log)?;
    let coherent = check_coherence(alloc, image, log)?;
    Ok(earlier(lawful, coherent))
}

/// The same of a log that has ended: where each message is lawful, the answer that each question asks for was taken,
/// and else the first whose answer wasn't is unlawful. The only error is want of memory.
pub fn judge_ended(
    alloc: Global,
    profile: Profile,
    image: Option<&Image>,
    log: &[Logged],
) -> Result<MessageVerdict, AllocError>
    ensures { IfOk result (IsEndedVerdict profile (option_copied image.entry) log.now) }
{
    match judge_messages(alloc, profile, image, log)? {
        MessageVerdict::Lawful => Ok(at_end(left_open(alloc, log)?)),
        MessageVerdict::Unlawful { breach, index } => {
            Ok(MessageVerdict::Unlawful { breach, index })
        }
    }
}

/// The verdict on a log whose messages are lawful, and which leaves this open.
fn at_end(found: Option<Open>) -> MessageVerdict
    ensures { (profile : ProfileValue) (image : Option Initial) (log : List LoggedValue) → AreLawfulMessages profile image log → LeavesOpen (open_from 0 log) found → IsEndedVerdict profile image log result }
{
    match found {
        None => MessageVerdict::Lawful,
        Some(questions) => MessageVerdict::Unlawful {
            breach: MessageBreach::Unanswered,
            index: questions.first,
        },
    }
}

/// The verdict of both: of two breaches the earlier, of one message's that of the lawful log.
fn earlier(lawful: LogVerdict, coherent: CoherenceVerdict) -> MessageVerdict
    ensures { (profile : ProfileValue) (image : Option Initial) (log : List LoggedValue) → IsLogVerdict profile log lawful → IsCoherenceVerdict image log coherent → IsMessageVerdict profile image log result }
{
    match lawful {
        LogVerdict::Lawful => where_lawful(coherent),
        LogVerdict::Unlawful { rule, index } => where_unlawful(rule, index, coherent),
    }
}

fn where_lawful(coherent: CoherenceVerdict) -> MessageVerdict
    ensures { (profile : ProfileValue) (image : Option Initial) (log : List LoggedValue) → IsLogVerdict profile log LogVerdict.Lawful → IsCoherenceVerdict image log coherent → IsMessageVerdict profile image log result }
{
    match coherent {
        CoherenceVerdict::Coherent => MessageVerdict::Lawful,
        CoherenceVerdict::Incoherent { breach, index } => MessageVerdict::Unlawful {
            breach: MessageBreach::Incoherent(breach),
            index,
        },
    }
}

fn where_unlawful(rule: LogRule, index: usize, coherent: CoherenceVerdict) -> MessageVerdict
    ensures { (profile : ProfileValue) (image : Option Initial) (log : List LoggedValue) → IsLogVerdict profile log (LogVerdict.Unlawful rule index) → IsCoherenceVerdict image log coherent → IsMessageVerdict profile image log result }
{
    match coherent {
        CoherenceVerdict::Coherent => MessageVerdict::Unlawful {
            breach: MessageBreach::Unlawful(rule),
            index,
        },
        CoherenceVerdict::Incoherent {
            breach,
            index: other,
        } => first_of(rule, index, breach, other),
    }
}

fn first_of(rule: LogRule, index: usize, breach: Breach, other: usize) -> MessageVerdict
    ensures { (profile : ProfileValue) (image : Option Initial) (log : List LoggedValue) → IsLogVerdict profile log (LogVerdict.Unlawful rule index) → IsCoherenceVerdict image log (CoherenceVerdict.Incoherent breach other) → IsMessageVerdict profile image log result }
{
    if other < index {
        return MessageVerdict::Unlawful {
            breach: MessageBreach::Incoherent(breach),
            index: other,
        };
    }
    MessageVerdict::Unlawful {
        breach: MessageBreach::Unlawful(rule),
        index,
    }
}

/// What is proved of the messages of every machine makes them lawful by this machine's rules, and by TileLink's.
pub fn lawful_by_both()
    ensures { LawfulByBoth }
{}

/// A verdict that tells of a message is that on the log however it goes on.
pub fn first_fault_stays()
    ensures { FirstFaultStays }
{}
