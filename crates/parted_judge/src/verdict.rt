//! The verdict on a log by those on its halves.
ghost use Rattle.std.specs.Prelude.{◌≡◌, IfOk};
ghost use Rattle.parted_judge.specs.Laws.{IsVerdictOnWide};
ghost use Rattle.parted_judge.specs.Parts.{IsPartsVerdict, IsToldAtEnd, earlier};
ghost use Rattle.wide_logs.specs.Logs.{IsLog, IsReadAs, Log};

use message_judge::{MessageVerdict, Profile, judge_ended, judge_messages};
use std::alloc::{AllocError, Global};
use trace_recorder::Logged;
use wide_logs::WideLog;

/// Whether each message of a log keeps all rules, each asked of whole lines: the first that breaks one, with the first
/// rule that it breaks, where one does. Memory at the start isn't told, so that the first bytes of a line may be any.
/// Where the log has ended and all are lawful, each question has to have its answer too. Lines of 32 and 128 bytes are
/// judged as two halves, which is the same. The only error is want of memory.
pub fn judge_wide(
    alloc: Global,
    ended: bool,
    profile: Profile,
    log: &WideLog,
) -> Result<MessageVerdict, AllocError>
    ensures { IfOk result (λ v. (read : Log) → IsLog read → IsReadAs log.now read → IsVerdictOnWide ended profile read.entries v) }
{
    judge_parts(alloc, ended, profile, &log.first, &log.second)
}

/// The earlier verdict of those on two logs of the same messages, of which the second has the bytes of the other half of
/// each line, or has none. Questions and answers are the same in both.
fn judge_parts(
    alloc: Global,
    ended: bool,
    profile: Profile,
    first: &[Logged],
    second: &[Logged],
) -> Result<MessageVerdict, AllocError>
    ensures { IfOk result (IsPartsVerdict ended profile first.now second.now) }
{
    let one = judge_messages(alloc, profile, None, first)?;
    let two = judge_messages(alloc, profile, None, second)?;
    let told = earlier(one, two);
    if ended {
        return told_at_end(alloc, profile, first, told);
    }
    Ok(told)
}

/// Where all messages are lawful, whether each question has its answer too.
fn told_at_end(
    alloc: Global,
    profile: Profile,
    first: &[Logged],
    told: MessageVerdict,
) -> Result<MessageVerdict, AllocError>
    ensures { IfOk result (IsToldAtEnd profile first.now told) }
{
    match told {
        MessageVerdict::Lawful => judge_ended(alloc, profile, None, first),
        MessageVerdict::Unlawful { breach, index } => {
            Ok(MessageVerdict::Unlawful { breach, index })
        }
    }
}

fn earlier(one: MessageVerdict, two: MessageVerdict) -> MessageVerdict
    ensures { result ≡ earlier one two }
{
    match (one, two) {
        (MessageVerdict::Lawful, two) => two,
        (one, MessageVerdict::Lawful) => one,
        (
            MessageVerdict::Unlawful { breach: _, index },
            MessageVerdict::Unlawful {
                breach: _,
                index: other,
            },
        ) if other < index => two,
        _ => one,
    }
}
