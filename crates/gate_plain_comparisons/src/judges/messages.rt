//! Both judges of messages, and the plain bodies of both together.

use super::shadow::Shadow;
use super::{are_alike, plain};
use anyhow::{Result, ensure};
use coherent_log::CoherenceRule;
use elf_loader::Image;
use lawful_log::{LogRule, Profile};
use message_judge::{
    Breaches, Broken, MessageBreach, MessageVerdict, judge_messages, list_breaches,
};
use std::alloc::Global;
use std::io::Write;
use trace_recorder::{Logged, Trace};

/// How many of a log's breaches the judge lists.
const LISTED: usize = 100;

/// The first breaches of a log; it fails where the two bodies tell others.
pub fn judge(
    alloc: Global,
    profile: Profile,
    image: Option<&Image>,
    log: &[Logged],
) -> Result<Vec<Broken>> {
    let plain = plain_breaches(alloc, profile, image, log)?;
    let verdict = judge_messages(alloc, profile, image, log)?;
    are_alike(&verdict, &verdict_of(&plain))?;
    let Breaches { listed, count } = list_breaches(alloc, profile, image, log)?;
    are_alike(&count, &plain.len())?;
    let first = plain.get(..LISTED).unwrap_or(&plain);
    ensure!(listed.as_slice() == first, "other breaches");
    Ok(listed)
}

fn verdict_of(breaches: &[Broken]) -> MessageVerdict {
    match breaches.first() {
        None => MessageVerdict::Lawful,
        Some(Broken { breach, index }) => MessageVerdict::Unlawful {
            breach: *breach,
            index: *index,
        },
    }
}

fn plain_breaches(
    alloc: Global,
    profile: Profile,
    image: Option<&Image>,
    log: &[Logged],
) -> Result<Vec<Broken>> {
    let mut shadow = Shadow::new(alloc);
    let mut breaches = Vec::new(alloc);
    for (index, entry) in log.iter().enumerate() {
        let unlawful = plain::first_broken(profile, &log[..index], entry);
        let breach = match (unlawful, shadow.broken(image, entry)) {
            (Some(rule), _) => Some(MessageBreach::Unlawful(rule)),
            (None, Some(breach)) => Some(MessageBreach::Incoherent(breach)),
            (None, None) => None,
        };
        if let Some(breach) = breach {
            breaches.push(Broken { breach, index })?;
        }
        shadow.note(entry, index)?;
    }
    Ok(breaches)
}

/// Fails where a message of a machine's trace isn't lawful by both profiles and by the shadow, or where it has none.
pub fn are_lawful(alloc: Global, trace: &Trace) -> Result<()> {
    let (image, log) = (Some(trace.image()), trace.log());
    ensure!(!log.is_empty(), "no message");
    for profile in [Profile::Machine, Profile::TileLink] {
        let verdict = judge_messages(alloc, profile, image, log)?;
        are_alike(&verdict, &MessageVerdict::Lawful)?;
    }
    let mut shadow = Shadow::new(alloc);
    for (index, entry) in log.iter().enumerate() {
        are_alike(&shadow.broken(image, entry), &None)?;
        shadow.note(entry, index)?;
    }
    Ok(())
}

/// How often each rule was broken.
#[derive(Clone, Copy)]
pub struct Tally {
    /// In the order of `LogRule::ALL`.
    lawful: [usize; 8],
    /// In the order of `CoherenceRule::ALL`.
    coherent: [usize; 5],
}

impl Tally {
    pub const NOTHING: Tally = Tally {
        lawful: [0; 8],
        coherent: [0; 5],
    };

    pub fn count(&mut self, breach: &MessageBreach) {
        match breach {
            MessageBreach::Unlawful(rule) => self.count_unlawful(*rule),
            MessageBreach::Incoherent(breach) => self.count_incoherent(breach.rule()),
            MessageBreach::Unanswered | MessageBreach::Unwritten { address: _ } => {}
        }
    }

    fn count_unlawful(&mut self, rule: LogRule) {
        for (known, number) in LogRule::ALL.iter().zip(&mut self.lawful) {
            if *known == rule {
                *number = number.saturating_add(1);
            }
        }
    }

    fn count_incoherent(&mut self, rule: CoherenceRule) {
        for (known, number) in CoherenceRule::ALL.iter().zip(&mut self.coherent) {
            if *known == rule {
                *number = number.saturating_add(1);
            }
        }
    }

    /// Each rule with this number and that of the other tally.
    pub fn print_beside<W: Write>(&self, other: &Tally, out: &mut W) -> Result<()> {
        for ((rule, number), beside) in LogRule::ALL.iter().zip(&self.lawful).zip(&other.lawful) {
            writeln!(out, "{rule} {number}, {beside}")?;
        }
        let coherent = CoherenceRule::ALL.iter().zip(&self.coherent);
        for ((rule, number), beside) in coherent.zip(&other.coherent) {
            writeln!(out, "{rule} {number}, {beside}")?;
        }
        Ok(())
    }
}
