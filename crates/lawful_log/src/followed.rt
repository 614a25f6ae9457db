//! What a log says so far of each line and each queue, kept as the log grows.
ghost use Rattle.std.specs.Prelude.{◌≡◌, ◌+◌, ◌<◌, ℕ, List, ◌∷◌, ◌++◌, [], OnOk, if◌then◌else◌};
ghost use Rattle.lawful_log.specs.Facts.{FindsBreach, FindsBroken, HaveRoom, counted, known_of};
ghost use Rattle.lawful_log.specs.Followed.{Follows, IsFollowable, all_in, known_from, known_in, noted, waits_first};
ghost use Rattle.machine_model.specs.LawfulLog.{concerns, is_of_line};
ghost use Rattle.trace_recorder.specs.declared.logged.Logged.{Logged as LoggedValue};

use crate::lines::{LineLog, broken_by_first};
use crate::profile::Profile;
use crate::queues::Queues;
use crate::rule::LogRule;
use crate::tallies::Tallies;
use std::alloc::{AllocError, Global};
use std::collections::HashMap;
use trace_recorder::{Direction, Logged};

/// What a log says so far, lawful or not: what the rules count, and what waits in each queue. With each message that is
/// taken the first one leaves its queue, whichever was taken.
pub struct Followed {
    /// By the line's address, what was said of it.
    lines: HashMap<u32, LineLog>,
    queues: Queues,
}

// A call of its own: derived, it would stand field by field in each function that owns one.
impl Drop for Followed {
    fn drop(self) {
        let Followed {
            lines: _,
            queues: _,
        } = self;
    }
}

impl Followed {
    /// Of a log with no entry.
    pub fn new(alloc: Global) -> Followed
        ensures { Follows result [] }
    {
        Followed {
            lines: HashMap::new(alloc),
            queues: Queues::new(alloc),
        }
    }

    /// The first rule that the next entry breaks, by what was counted and what waits in front of its queue.
    pub fn broken(&self, profile: Profile, entry: &Logged) -> Option<LogRule>
        ensures { (log : List LoggedValue) → Follows self.now log
            → FindsBreach profile (waits_first entry.now.hart entry.now.message log) (known_of entry.now.hart entry.now.message.line log) entry.now result }
    {
        match entry.direction {
            Direction::Sent => broken_by_sending(&self.lines, profile, entry),
            Direction::Taken => {
                if self.queues.is_front(entry) {
                    None
                } else {
                    Some(LogRule::InOrder)
                }
            }
        }
    }

    /// One more entry, whether it breaks a rule or not. The only error is want of memory.
    pub fn note(&mut self, alloc: Global, entry: &Logged) -> Result<(), AllocError>
        requires { IsFollowable self.old }
        ensures { OnOk result ((log : List LoggedValue) → Follows self.old log → Follows self.new (log ++ entry.now ∷ [])) }
    {
        note_line(alloc, &mut self.lines, entry)?;
        self.queues.note(entry)?;
        Ok(())
    }
}

fn broken_by_sending(
    lines: &HashMap<u32, LineLog>,
    profile: Profile,
    entry: &Logged,
) -> Option<LogRule>
    ensures { FindsBroken profile (known_from (known_in lines.now entry.now.hart entry.now.message.line) (all_in lines.now entry.now.message.line)) entry.now.message.body result }
{
    let body = &entry.message.body;
    match lines.get(&entry.message.line) {
        Some(line) => line.broken(profile, entry.hart, body),
        None => broken_by_first(profile, &Tallies::none(), body),
    }
}

fn note_line(
    alloc: Global,
    lines: &mut HashMap<u32, LineLog>,
    entry: &Logged,
) -> Result<(), AllocError>
    requires all { HaveRoom (all_in lines.old entry.now.message.line) }
    requires hart { HaveRoom (known_in lines.old entry.now.hart entry.now.message.line).tallies }
    ensures all { OnOk result ((line : ℕ) → all_in lines.new line
        ≡ (if is_of_line line entry.now then counted entry.now (all_in lines.old line) else all_in lines.old line)) }
    ensures harts { OnOk result ((h line : ℕ) → known_in lines.new h line
        ≡ (if concerns h line entry.now then noted entry.now (known_in lines.old h line) else known_in lines.old h line)) }
{
    let line = lines
        .entry(entry.message.line)?
        .or_insert_with(|| LineLog::new(alloc));
    line.note(alloc, entry)
}
