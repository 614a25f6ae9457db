//! Every message of a log that breaks a rule.
ghost use Rattle.std.specs.Prelude.{◌+◌, ◌<◌, ◌≤◌, ◌^◌, ◌++◌, ◌∷◌, [], IfOk, List, OnOk};
ghost use Rattle.std.specs.Option.{option_copied};
ghost use Rattle.coherent_log.specs.Followed as coherence;
ghost use Rattle.lawful_log.specs.Followed as ordered;
ghost use Rattle.message_judge.specs.Breaches.{AreCounted, AreTold, BreaksAs, numbered, verdict_of};
ghost use Rattle.message_judge.specs.declared.breaches.Broken.{Broken as BrokenValue};
ghost use Rattle.message_judge.specs.Laws.{IsMessageVerdict};
ghost use Rattle.trace_recorder.specs.declared.logged.Logged.{Logged as LoggedValue};

use crate::verdict::MessageBreach;
use coherent_log::Followed as Copies;
use elf_loader::Image;
use lawful_log::{Followed as Order, Profile};
use std::alloc::{AllocError, Global};
use trace_recorder::Logged;

/// How many messages are listed at most.
const MOST: usize = 100;

/// A message that breaks a rule.
#[derive(Clone, Copy, Debug, PartialEq, Eq)]
pub struct Broken {
    pub breach: MessageBreach,
    /// The message's number in the log, counted from 0.
    pub index: usize,
}

/// The messages of a log that break a rule.
pub struct Breaches {
    /// The first 100 of them, in the log's order.
    pub listed: Vec<Broken>,
    /// How many they are in all.
    pub count: usize,
}

/// Every message of a log that breaks a rule, where each is judged behind all messages before it, whether those broke
/// one or not: what is counted and what is held then follows each message as it was sent or taken. The first is that of
/// the verdict on the log (`judge_messages`). The log is gone over once. The only error is want of memory.
pub fn list_breaches(
    alloc: Global,
    profile: Profile,
    image: Option<&Image>,
    log: &[Logged],
) -> Result<Breaches, AllocError>
    ensures breaches { IfOk result (AreCounted profile (option_copied image.entry) log.now) }
    ensures verdict { IfOk result (λ b. IsMessageVerdict profile (option_copied image.entry) log.now (verdict_of b.listed.items)) }
{
    let mut order = Order::new(alloc);
    let mut copies = Copies::new(alloc);
    let mut listed = Vec::new(alloc);
    let mut count = 0;
    for (index, entry) in log.iter().enumerate() {
        let found = breach_of(&order, &copies, profile, image, entry);
        count = list(&mut listed, count, found, index)?;
        order.note(alloc, entry)?;
        copies.note(alloc, entry, index)?;
    }
    Ok(Breaches { listed, count })
}

/// What the next entry breaks.
pub(crate) fn breach_of(
    order: &Order,
    copies: &Copies,
    profile: Profile,
    image: Option<&Image>,
    entry: &Logged,
) -> Option<MessageBreach>
    ensures { (log : List LoggedValue) → ordered.Follows order.now log → coherence.Follows copies.now log → BreaksAs profile (option_copied image.entry) log entry.now result }
{
    match order.broken(profile, entry) {
        Some(rule) => Some(MessageBreach::Unlawful(rule)),
        None => match copies.broken(image, entry) {
            Some(breach) => Some(MessageBreach::Incoherent(breach)),
            None => None,
        },
    }
}

/// Lists what the entry of this number breaks, behind so many breaches. How many there are then.
fn list(
    listed: &mut Vec<Broken>,
    count: usize,
    found: Option<MessageBreach>,
    index: usize,
) -> Result<usize, AllocError>
    requires { count + 1 < 2 ^ 64 }
    ensures few { IfOk result (λ more. more ≤ count + 1) }
    ensures list { IfOk result (λ more. (all : List BrokenValue) → AreTold all listed.old.items count → AreTold (all ++ numbered index found) listed.new.items more) }
{
    match found {
        Some(breach) => {
            list_first(listed, count, Broken { breach, index })?;
            Ok(count + 1)
        }
        None => Ok(count),
    }
}

/// Lists a breach behind so many, if it is one of the first.
fn list_first(listed: &mut Vec<Broken>, count: usize, breach: Broken) -> Result<(), AllocError>
    ensures { OnOk result ((all : List BrokenValue) → AreTold all listed.old.items count → AreTold (all ++ breach ∷ []) listed.new.items (count + 1)) }
{
    if count < MOST {
        listed.push(breach)?;
        return Ok(());
    }
    Ok(())
}
