//! Every message of a log that breaks a rule with the bytes of one half of its line.
ghost use Rattle.std.specs.Prelude.{◌≡◌, ◌+◌, ◌++◌, IfOk, OnOk, take};
ghost use Rattle.std.specs.Option.{option_or};
ghost use Rattle.message_judge.specs.Breaches.{numbered};
ghost use Rattle.message_judge.specs.Following.{HasJudged, Judges};
ghost use Rattle.parted_judge.specs.Parts.{AreCountedParts, BreaksAt};

use message_judge::{Breaches, Broken, Judge, MessageBreach, Profile};
use std::alloc::{AllocError, Global};
use trace_recorder::Logged;
use wide_logs::WideLog;

/// How many messages are listed at most.
const MOST: usize = 100;

/// Every message of a log that breaks a rule with the bytes of one half of its line: with the rule that it breaks with
/// those of the first, if it breaks one so. Each is judged behind all messages before it, whether those broke one or not.
/// The only error is want of memory.
pub fn list_wide_breaches(
    alloc: Global,
    profile: Profile,
    log: &WideLog,
) -> Result<Breaches, AllocError>
    ensures { IfOk result (AreCountedParts profile log.now.first.items log.now.second.items) }
{
    list_part_breaches(alloc, profile, &log.first, &log.second)
}

fn list_part_breaches(
    alloc: Global,
    profile: Profile,
    first: &[Logged],
    second: &[Logged],
) -> Result<Breaches, AllocError>
    ensures { IfOk result (AreCountedParts profile first.now second.now) }
{
    let mut one = Judge::new(alloc);
    let mut two = Judge::new(alloc);
    let mut listed = Vec::new(alloc);
    for index in 0..first.len() {
        let found = next_of(alloc, &mut one, profile, first, index)?;
        let other = next_of(alloc, &mut two, profile, second, index)?;
        list(&mut listed, found, other, index)?;
    }
    let count = listed.len();
    listed.truncate(MOST);
    Ok(Breaches { listed, count })
}

/// What the message of this number breaks in a log, if it has as many.
fn next_of(
    alloc: Global,
    judge: &mut Judge,
    profile: Profile,
    log: &[Logged],
    index: usize,
) -> Result<Option<MessageBreach>, AllocError>
    requires { HasJudged judge.old }
    ensures { IfOk result (λ found. Judges judge.old (take index log.now)
        → BreaksAt profile log.now index found × Judges judge.new (take (index + 1) log.now)) }
{
    match log.get(index) {
        Some(entry) => judge.next(alloc, profile, None, entry),
        None => Ok(None),
    }
}

/// Lists what the message of this number breaks, by the first log or else by the second.
fn list(
    listed: &mut Vec<Broken>,
    found: Option<MessageBreach>,
    other: Option<MessageBreach>,
    index: usize,
) -> Result<(), AllocError>
    ensures { OnOk result (listed.new.items ≡ listed.old.items ++ numbered index (option_or found other)) }
{
    match found.or(other) {
        Some(breach) => {
            listed.push(Broken { breach, index })?;
            Ok(())
        }
        None => Ok(()),
    }
}
