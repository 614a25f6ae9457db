//! What a log says so far of a line.
ghost use Rattle.std.specs.Prelude.{ℕ, ◌≡◌, ◌<◌, ◌==◌, OnOk, if◌then◌else◌, length};
ghost use Rattle.std.specs.VecDeque.{deque_items};
ghost use Rattle.lawful_log.specs.Facts.{FindsBroken, HaveRoom, counted, no_tallies};
ghost use Rattle.lawful_log.specs.Followed.{asked_after, hart_known, known_at, known_from, lost_by, noted, nothing_known};
ghost use Rattle.machine_model.specs.LawfulLog.{is_loss};
ghost use Rattle.machine_model.specs.LawfulLog as lawful;

use crate::facts::Facts;
use crate::profile::Profile;
use crate::rule::LogRule;
use crate::tallies::Tallies;
use std::alloc::{AllocError, Global};
use std::collections::VecDeque;
use tl_types::{Body, Change, Grow};
use trace_recorder::{Direction, Logged};

/// What a log says of a line.
#[derive(Drop)]
pub(crate) struct LineLog {
    /// The messages in all queues.
    pub(crate) all: Tallies,
    /// By hart, as far as harts were named.
    pub(crate) harts: Vec<HartLog>,
}

/// What a log says of a line and a hart.
#[derive(Drop)]
pub(crate) struct HartLog {
    /// The messages in the hart's queues.
    pub(crate) tallies: Tallies,
    /// What the Acquires asked for that were taken and have no Grant yet, the first one first.
    pub(crate) asked: VecDeque<Grow>,
    /// Whether the hart lost its Branch copy since it last asked for the line.
    pub(crate) lost: bool,
}

impl LineLog {
    /// Of a line that no message named.
    pub(crate) fn new(alloc: Global) -> LineLog
        ensures all { result.all ≡ no_tallies }
        ensures harts { (h : ℕ) → known_at result.harts.items h ≡ nothing_known }
    {
        LineLog {
            all: Tallies::none(),
            harts: Vec::new(alloc),
        }
    }

    /// The first rule that a message breaks which is sent to or by the hart.
    pub(crate) fn broken(&self, profile: Profile, hart: u8, body: &Body) -> Option<LogRule>
        ensures { FindsBroken profile (known_from (known_at self.now.harts.items hart) self.now.all) body.now result }
    {
        match self.harts.get(usize::from(hart)) {
            Some(hart) => hart.broken(profile, &self.all, body),
            None => broken_by_first(profile, &self.all, body),
        }
    }

    /// One more entry of the line.
    pub(crate) fn note(&mut self, alloc: Global, entry: &Logged) -> Result<(), AllocError>
        requires all { HaveRoom self.old.all }
        requires hart { HaveRoom (known_at self.old.harts.items entry.now.hart).tallies }
        ensures all { OnOk result (self.new.all ≡ counted entry.now self.old.all) }
        ensures harts { OnOk result ((h : ℕ) → known_at self.new.harts.items h
            ≡ (if entry.now.hart == h then noted entry.now (known_at self.old.harts.items h) else known_at self.old.harts.items h)) }
    {
        self.all.count(entry);
        note_hart(alloc, &mut self.harts, entry)
    }
}

fn note_hart(alloc: Global, harts: &mut Vec<HartLog>, entry: &Logged) -> Result<(), AllocError>
    requires { HaveRoom (known_at harts.old.items entry.now.hart).tallies }
    ensures { OnOk result ((h : ℕ) → known_at harts.new.items h
        ≡ (if entry.now.hart == h then noted entry.now (known_at harts.old.items h) else known_at harts.old.items h)) }
{
    let hart = usize::from(entry.hart);
    reach(alloc, harts, hart)?;
    harts[hart].note(entry)
}

/// Lengthens the list so that it has the hart.
fn reach(alloc: Global, harts: &mut Vec<HartLog>, hart: usize) -> Result<(), AllocError>
    requires { hart < 256 }
    ensures reaches { OnOk result (hart < length harts.new.items) }
    ensures same { OnOk result ((h : ℕ) → known_at harts.new.items h ≡ known_at harts.old.items h) }
{
    while harts.len() <= hart {
        harts.push(HartLog::new(alloc))?;
    }
    Ok(())
}

/// The first rule that a message breaks which is the first of its line and its hart.
pub(crate) fn broken_by_first(profile: Profile, line: &Tallies, body: &Body) -> Option<LogRule>
    ensures { FindsBroken profile (known_from nothing_known line.now) body.now result }
{
    let facts = Facts {
        hart: &Tallies::none(),
        line,
        asked: None,
        lost: false,
    };
    facts.broken(profile, body)
}

impl HartLog {
    /// Of a line and a hart that no message named.
    fn new(alloc: Global) -> HartLog
        ensures { hart_known result ≡ nothing_known }
    {
        HartLog {
            tallies: Tallies::none(),
            asked: VecDeque::new(alloc),
            lost: false,
        }
    }

    fn broken(&self, profile: Profile, line: &Tallies, body: &Body) -> Option<LogRule>
        ensures { FindsBroken profile (known_from (hart_known self.now) line.now) body.now result }
    {
        let facts = Facts {
            hart: &self.tallies,
            line,
            asked: self.asked.front().copied(),
            lost: self.lost,
        };
        facts.broken(profile, body)
    }

    fn note(&mut self, entry: &Logged) -> Result<(), AllocError>
        requires { HaveRoom self.old.tallies }
        ensures { OnOk result (hart_known self.new ≡ noted entry.now (hart_known self.old)) }
    {
        note_asked(&mut self.asked, &self.tallies, entry)?;
        self.tallies.count(entry);
        self.lost = is_lost_after(self.lost, entry);
        Ok(())
    }
}

// An Acquire that is taken asks, unless a Grant was sent in its place before. A Grant that is sent answers the first.
fn note_asked(
    asked: &mut VecDeque<Grow>,
    before: &Tallies,
    entry: &Logged,
) -> Result<(), AllocError>
    ensures { OnOk result (deque_items asked.new ≡ asked_after entry.now.direction entry.now.message.body before.now (deque_items asked.old)) }
{
    match (entry.direction, entry.message.body) {
        (Direction::Taken, Body::AcquireBlock(grow)) => {
            if before.acquires.taken >= before.grants.sent {
                asked.push_back(grow)?;
            }
        }
        (Direction::Sent, Body::Grant(_) | Body::GrantData { .. }) => {
            asked.pop_front();
        }
        _ => {}
    }
    Ok(())
}

// An Acquire that is sent asks anew, and a ProbeAck with BtoN that is taken is a loss.
fn is_lost_after(before: bool, entry: &Logged) -> bool
    ensures { result ≡ lost_by entry.now before }
{
    match entry.direction {
        Direction::Sent => !is_acquire(&entry.message.body) && before,
        Direction::Taken => is_branch_lost(&entry.message.body) || before,
    }
}

fn is_acquire(body: &Body) -> bool
    ensures { result ≡ lawful.is_acquire body.now }
{
    matches!(body, Body::AcquireBlock(_))
}

// Whether it is a ProbeAck by which the hart lost its Branch copy.
fn is_branch_lost(body: &Body) -> bool
    ensures { result ≡ is_loss body.now }
{
    match body {
        Body::ProbeAck(change) | Body::ProbeAckData { change, .. } => *change == Change::BtoN,
        _ => false,
    }
}
