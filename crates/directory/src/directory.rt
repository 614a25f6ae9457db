//! The entries of all lines.
ghost use Rattle.std.specs.Prelude.{◌≡◌, ◌≢◌, ◌+◌, ◌<◌, ◌≤◌, length, IfOk, IfSome};
ghost use Rattle.tl_types.specs.Permission.{left_by};
ghost use Rattle.directory.specs.Lines.{known_at};
ghost use Rattle.directory.specs.Directory.{AnswersHarts, opening, line_at, acquired, probe_acked, released, grant_acked};

use crate::answer::{Acquired, Grant, Known, Transaction};
use crate::entry::{Entry, Slot};
use std::alloc::{AllocError, Global};
use std::marker::Model;
use std::sync::ledger::Ledger;
use tl_types::{Change, Grow, Perm, Ticks};

/// What the manager notes of each line, one entry a line. Lines go by their place in memory, from 0.
/// No call but `new` takes memory, and each looks at one line's entry at most.
#[derive(Drop)]
pub struct Directory {
    harts: u8,
    slots: Vec<Slot>,
}

impl Model for Directory {
    ghost use Rattle.directory.specs.Directory.{Notes};
    ghost use Rattle.directory.specs.Entries.{lines_of, AreSound};

    ghost Value = { Notes };

    ghost view = { λ d. record { harts = d.harts; lines = lines_of d.harts d.slots.items } };

    ghost invariant = { λ d. AreSound d.harts d.slots.items };
}

impl Directory {
    /// The entries of so many lines that nobody has. The only error is want of memory.
    pub fn new(alloc: Global, harts: u8, lines: u32) -> Result<Directory, AllocError>
        requires { harts ≤ 8 }
        ensures { IfOk result (λ d. d ≡ opening harts lines) }
    {
        let slots = vec![in alloc; Slot::new(Entry::new()); lines as usize]?;
        Ok(Directory { harts, slots })
    }

    /// How many harts there are.
    pub fn harts(&self) -> u8
        ensures { result ≡ self.now.harts }
    {
        self.harts
    }

    /// How many lines there are.
    pub fn lines(&self) -> usize
        ensures { result ≡ length self.now.lines }
    {
        self.slots.len()
    }

    /// What is noted of one hart for a line: its record, and whether its ProbeAck is awaited.
    pub fn known_counted<L: Ledger>(&self, line: u32, hart: u8, ticks: &mut Ticks<L>) -> Known
        requires line { line < length self.now.lines }
        requires hart { hart < self.now.harts }
        ensures known { result ≡ known_at (line_at self.now line) hart }
        ensures cost { ticks.new ≤ ticks.old + 1 }
    {
        self.slots[line as usize].look(ticks).known(hart)
    }

    /// Where the line's transaction stands.
    pub fn transaction_counted<L: Ledger>(&self, line: u32, ticks: &mut Ticks<L>) -> Transaction
        requires { line < length self.now.lines }
        ensures transaction { result ≡ (line_at self.now line).transaction }
        ensures cost { ticks.new ≤ ticks.old + 1 }
    {
        self.slots[line as usize].look(ticks).transaction
    }

    /// Takes an Acquire: has its Probes or its Grant sent, or leaves it while the line has a transaction.
    pub fn on_acquire_counted<L: Ledger>(
        &mut self,
        line: u32,
        hart: u8,
        grow: Grow,
        ticks: &mut Ticks<L>,
    ) -> Acquired
        requires line { line < length self.old.lines }
        requires hart { hart < self.old.harts }
        ensures meaning { (result, self.new) ≡ acquired self.old line hart grow }
        ensures harts { AnswersHarts self.old.harts result }
        ensures cost { ticks.new ≤ ticks.old + 1 }
    {
        let (answer, entry) = self.slots[line as usize].look(ticks).acquire(hart, grow);
        self.slots[line as usize] = Slot::new(entry);
        answer
    }

    /// Takes a ProbeAck, with or without data: the last that is awaited has the Grant sent. Probes toT are
    /// never sent, so no change leaves a Trunk.
    pub fn on_probe_ack_counted<L: Ledger>(
        &mut self,
        line: u32,
        hart: u8,
        change: Change,
        ticks: &mut Ticks<L>,
    ) -> Option<Grant>
        requires line { line < length self.old.lines }
        requires hart { hart < self.old.harts }
        requires shrinks { left_by change ≢ Perm.Trunk }
        ensures meaning { (result, self.new) ≡ probe_acked self.old line hart change }
        ensures harts { IfSome result (λ grant. grant.hart < self.old.harts) }
        ensures cost { ticks.new ≤ ticks.old + 1 }
    {
        let (grant, entry) = self.slots[line as usize]
            .look(ticks)
            .probe_ack(hart, change);
        self.slots[line as usize] = Slot::new(entry);
        grant
    }

    /// Takes a Release, with or without data, in every state of the line's transaction. A ReleaseAck is to be sent.
    pub fn on_release_counted<L: Ledger>(&mut self, line: u32, hart: u8, ticks: &mut Ticks<L>)
        requires line { line < length self.old.lines }
        requires hart { hart < self.old.harts }
        ensures meaning { self.new ≡ released self.old line hart }
        ensures cost { ticks.new ≤ ticks.old + 1 }
    {
        let entry = self.slots[line as usize].look(ticks).release(hart);
        self.slots[line as usize] = Slot::new(entry);
    }

    /// Takes a GrantAck, which ends the line's transaction.
    pub fn on_grant_ack_counted<L: Ledger>(&mut self, line: u32, ticks: &mut Ticks<L>)
        requires { line < length self.old.lines }
        ensures meaning { self.new ≡ grant_acked self.old line }
        ensures cost { ticks.new ≤ ticks.old + 1 }
    {
        let entry = self.slots[line as usize].look(ticks).grant_ack();
        self.slots[line as usize] = Slot::new(entry);
    }
}
