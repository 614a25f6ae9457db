//! Judges the message logs of kept traces, which are lawful, and each of them with an entry left out,
//! doubled, exchanged with the next one, or changed in permission, bytes, kind or hart, and with a message left out or
//! changed at both its ends, and compares all breaches with those of plain bodies: one counts in the log anew at each
//! entry, the other is a shadow of permissions and lines.

use super::changes;
use super::messages::{Tally, judge};
use super::traces::Traces;
use anyhow::{Result, bail, ensure};
use lawful_log::Profile;
use message_judge::Broken;
use std::alloc::Global;
use std::fs;
use std::io::Write;
use std::rt::Files;
use trace_recorder::{Direction, Logged};

/// The file has this many traces, one behind another, each of its T line and its log.
const TRACES: usize = 24;

/// The logs of machines with a wrong meaning each: those of the right machine, changed by hand into what such
/// a machine would say.
static WRONG: [&str; 3] = [
    "logs/grant_before_all_acks",
    "logs/data_with_each_grant",
    "logs/grant_without_data_after_a_probe",
];

/// How many changed logs were judged, by the rules that they break.
#[derive(Drop)]
struct Judged {
    changed: usize,
    lawful: usize,
    /// By the first breach of each.
    firsts: Tally,
    /// By all breaches of each that are listed.
    listed: Tally,
    /// The changed log that is being judged.
    log: Vec<Logged>,
}

/// Judges each log and its changes, and says how many break which rule.
pub fn judge_logs<R: Files + AllocGlobal, W: Write>(rt: &R, out: &mut W) -> Result<()> {
    let mut judged = Judged {
        changed: 0,
        lawful: 0,
        firsts: Tally::NOTHING,
        listed: Tally::NOTHING,
        log: Vec::new(rt.alloc()),
    };
    let bytes = fs::read(rt, "logs/machine")?;
    judged.judge_all(rt.alloc(), &bytes)?;
    judged.print(out)
}

/// Judges the logs of wrong machines, and says of each which rule it breaks, and at which entry.
pub fn judge_wrong<R: Files + AllocGlobal, W: Write>(rt: &R, out: &mut W) -> Result<()> {
    for name in &WRONG {
        match judge_first(rt, name)?.first() {
            None => bail!("{name} is lawful"),
            Some(Broken { breach, index }) => {
                writeln!(out, "{name}: {} {index}", breach.rule_name())?;
            }
        }
    }
    Ok(())
}

// The breaches of the log of the trace that stands first in a file.
fn judge_first<R: Files + AllocGlobal>(rt: &R, name: &str) -> Result<Vec<Broken>> {
    let bytes = fs::read(rt, name)?;
    let trace = Traces { rest: &bytes }.next(rt.alloc())?;
    judge_both(rt.alloc(), trace.log())
}

impl Judged {
    fn judge_all(&mut self, alloc: Global, bytes: &[u8]) -> Result<()> {
        let mut file = Traces { rest: bytes };
        for number in 0..TRACES {
            let trace = file.next(alloc)?;
            if !self.judge_log(alloc, trace.log())? {
                bail!("the log of trace {number} isn't lawful");
            }
        }
        ensure!(file.rest.is_empty(), "the file has more traces");
        Ok(())
    }

    // Judges the log with each of its entries changed; whether it is lawful itself.
    fn judge_log(&mut self, alloc: Global, log: &[Logged]) -> Result<bool> {
        for index in 0..log.len() {
            self.judge_changed(alloc, log, index)?;
        }
        Ok(judge_both(alloc, log)?.is_empty())
    }

    // Judges the log with one entry left out, doubled, exchanged with the next, or changed.
    fn judge_changed(&mut self, alloc: Global, log: &[Logged], index: usize) -> Result<()> {
        let Some(entry) = log.get(index) else {
            return Ok(());
        };
        let before = &log[..index];
        let behind = &log[index + 1..];
        self.judge_moved(alloc, before, *entry, behind)?;
        for other in changes::of_one_end(*entry) {
            if let Some(other) = other {
                self.judge_joined(alloc, before, &[other], behind)?;
            }
        }
        self.judge_both_ends(alloc, before, *entry, behind)
    }

    // Judges the log with the entry left out, doubled or exchanged with the next.
    fn judge_moved(
        &mut self,
        alloc: Global,
        before: &[Logged],
        entry: Logged,
        behind: &[Logged],
    ) -> Result<()> {
        self.judge_joined(alloc, before, &[], behind)?;
        self.judge_joined(alloc, before, &[entry, entry], behind)?;
        match behind.split_first() {
            Some((next, others)) => self.judge_joined(alloc, before, &[*next, entry], others),
            None => Ok(()),
        }
    }

    // Judges the log with the message left out or changed as it is sent and as it is taken.
    fn judge_both_ends(
        &mut self,
        alloc: Global,
        before: &[Logged],
        entry: Logged,
        behind: &[Logged],
    ) -> Result<()> {
        let Some(place) = place_of_taken(entry, behind) else {
            return Ok(());
        };
        let between = behind.get(..place).unwrap_or(&[]);
        let rest = behind.get(place.saturating_add(1)..).unwrap_or(&[]);
        self.judge_joined(alloc, before, between, rest)?;
        for other in changes::of_both_ends(entry) {
            if let Some(sent) = other {
                let mut taken = sent;
                taken.direction = Direction::Taken;
                self.begin(before, sent)?;
                self.log.extend_from_slice(between)?;
                self.log.push(taken)?;
                self.log.extend_from_slice(rest)?;
                self.judge_made(alloc)?;
            }
        }
        Ok(())
    }

    fn judge_joined(
        &mut self,
        alloc: Global,
        before: &[Logged],
        between: &[Logged],
        behind: &[Logged],
    ) -> Result<()> {
        self.log.clear();
        for part in &[before, between, behind] {
            self.log.extend_from_slice(part)?;
        }
        self.judge_made(alloc)
    }

    // Begins a changed log.
    fn begin(&mut self, before: &[Logged], entry: Logged) -> Result<()> {
        self.log.clear();
        self.log.extend_from_slice(before)?;
        self.log.push(entry)?;
        Ok(())
    }

    // Judges the changed log.
    fn judge_made(&mut self, alloc: Global) -> Result<()> {
        let breaches = judge_both(alloc, &self.log)?;
        self.changed = self.changed.saturating_add(1);
        match breaches.first() {
            None => self.lawful = self.lawful.saturating_add(1),
            Some(first) => self.firsts.count(&first.breach),
        }
        for broken in &breaches {
            self.listed.count(&broken.breach);
        }
        Ok(())
    }

    fn print<W: Write>(&self, out: &mut W) -> Result<()> {
        writeln!(
            out,
            "{TRACES} logs are lawful; of their {} changes, judged alike, so many are",
            self.changed
        )?;
        writeln!(out, "lawful {}", self.lawful)?;
        writeln!(
            out,
            "unlawful first by each rule, and so many messages of all by it"
        )?;
        self.firsts.print_beside(&self.listed, out)
    }
}

// Where the message that the entry sends is taken, if it is.
fn place_of_taken(entry: Logged, behind: &[Logged]) -> Option<usize> {
    if entry.direction == Direction::Taken {
        return None;
    }
    behind.iter().position(|other| other.direction == Direction::Taken
        && other.hart == entry.hart
        && other.message == entry.message)
}

// The breaches of a log by this machine's rules; it fails where bodies tell others, also by TileLink's.
fn judge_both(alloc: Global, log: &[Logged]) -> Result<Vec<Broken>> {
    judge(alloc, Profile::TileLink, None, log)?;
    judge(alloc, Profile::Machine, None, log)
}
