//! The directory's calls for those who count no looks.
ghost use Rattle.std.specs.Prelude.{◌≡◌, ◌≢◌, ◌<◌, length, IfSome};
ghost use Rattle.tl_types.specs.Permission.{left_by};
ghost use Rattle.directory.specs.Lines.{known_at};
ghost use Rattle.directory.specs.Directory.{AnswersHarts, line_at, acquired, probe_acked, released, grant_acked};

use crate::answer::{Acquired, Grant, Known, Transaction};
use crate::directory::Directory;
use std::marker::Brand;
use std::sync::ledger::{Blank, Ledger};
use tl_types::{Change, Grow, Perm, Ticks};

impl Directory {
    /// What is noted of one hart for a line: its record, and whether its ProbeAck is awaited.
    pub fn known(&self, line: u32, hart: u8) -> Known
        requires line { line < length self.now.lines }
        requires hart { hart < self.now.harts }
        ensures { result ≡ known_at (line_at self.now line) hart }
    {
        known_on::<Brand>(self, line, hart, Blank::new(1))
    }

    /// Where the line's transaction stands.
    pub fn transaction(&self, line: u32) -> Transaction
        requires { line < length self.now.lines }
        ensures { result ≡ (line_at self.now line).transaction }
    {
        transaction_on::<Brand>(self, line, Blank::new(1))
    }

    /// Takes an Acquire: has its Probes or its Grant sent, or leaves it while the line has a transaction.
    pub fn on_acquire(&mut self, line: u32, hart: u8, grow: Grow) -> Acquired
        requires line { line < length self.old.lines }
        requires hart { hart < self.old.harts }
        ensures meaning { (result, self.new) ≡ acquired self.old line hart grow }
        ensures harts { AnswersHarts self.old.harts result }
    {
        on_acquire_on::<Brand>(self, line, hart, grow, Blank::new(1))
    }

    /// Takes a ProbeAck, with or without data: the last that is awaited has the Grant sent. Probes toT are
    /// never sent, so no change leaves a Trunk.
    pub fn on_probe_ack(&mut self, line: u32, hart: u8, change: Change) -> Option<Grant>
        requires line { line < length self.old.lines }
        requires hart { hart < self.old.harts }
        requires shrinks { left_by change ≢ Perm.Trunk }
        ensures meaning { (result, self.new) ≡ probe_acked self.old line hart change }
        ensures harts { IfSome result (λ grant. grant.hart < self.old.harts) }
    {
        on_probe_ack_on::<Brand>(self, line, hart, change, Blank::new(1))
    }

    /// Takes a Release, with or without data, in every state of the line's transaction. A ReleaseAck is to be sent.
    pub fn on_release(&mut self, line: u32, hart: u8)
        requires line { line < length self.old.lines }
        requires hart { hart < self.old.harts }
        ensures { self.new ≡ released self.old line hart }
    {
        on_release_on::<Brand>(self, line, hart, Blank::new(1));
    }

    /// Takes a GrantAck, which ends the line's transaction.
    pub fn on_grant_ack(&mut self, line: u32)
        requires { line < length self.old.lines }
        ensures { self.new ≡ grant_acked self.old line }
    {
        on_grant_ack_on::<Brand>(self, line, Blank::new(1));
    }
}

fn known_on<L: Ledger>(notes: &Directory, line: u32, hart: u8, blank: Blank) -> Known
    requires name { blank.name ≡ L.name }
    requires parts { blank.parts ≡ L.parts }
    requires some { 0 < L.parts }
    requires line { line < length notes.now.lines }
    requires hart { hart < notes.now.harts }
    ensures { result ≡ known_at (line_at notes.now line) hart }
{
    let mut ticks: Ticks<L> = Ticks::new(blank);
    notes.known_counted(line, hart, &mut ticks)
}

fn transaction_on<L: Ledger>(notes: &Directory, line: u32, blank: Blank) -> Transaction
    requires name { blank.name ≡ L.name }
    requires parts { blank.parts ≡ L.parts }
    requires some { 0 < L.parts }
    requires asked { line < length notes.now.lines }
    ensures { result ≡ (line_at notes.now line).transaction }
{
    let mut ticks: Ticks<L> = Ticks::new(blank);
    notes.transaction_counted(line, &mut ticks)
}

fn on_acquire_on<L: Ledger>(
    notes: &mut Directory,
    line: u32,
    hart: u8,
    grow: Grow,
    blank: Blank,
) -> Acquired
    requires name { blank.name ≡ L.name }
    requires parts { blank.parts ≡ L.parts }
    requires some { 0 < L.parts }
    requires line { line < length notes.old.lines }
    requires hart { hart < notes.old.harts }
    ensures meaning { (result, notes.new) ≡ acquired notes.old line hart grow }
    ensures harts { AnswersHarts notes.old.harts result }
{
    let mut ticks: Ticks<L> = Ticks::new(blank);
    notes.on_acquire_counted(line, hart, grow, &mut ticks)
}

fn on_probe_ack_on<L: Ledger>(
    notes: &mut Directory,
    line: u32,
    hart: u8,
    change: Change,
    blank: Blank,
) -> Option<Grant>
    requires name { blank.name ≡ L.name }
    requires parts { blank.parts ≡ L.parts }
    requires some { 0 < L.parts }
    requires line { line < length notes.old.lines }
    requires hart { hart < notes.old.harts }
    requires shrinks { left_by change ≢ Perm.Trunk }
    ensures meaning { (result, notes.new) ≡ probe_acked notes.old line hart change }
    ensures harts { IfSome result (λ grant. grant.hart < notes.old.harts) }
{
    let mut ticks: Ticks<L> = Ticks::new(blank);
    notes.on_probe_ack_counted(line, hart, change, &mut ticks)
}

fn on_release_on<L: Ledger>(notes: &mut Directory, line: u32, hart: u8, blank: Blank)
    requires name { blank.name ≡ L.name }
    requires parts { blank.parts ≡ L.parts }
    requires some { 0 < L.parts }
    requires line { line < length notes.old.lines }
    requires hart { hart < notes.old.harts }
    ensures { notes.new ≡ released notes.old line hart }
{
    let mut ticks: Ticks<L> = Ticks::new(blank);
    notes.on_release_counted(line, hart, &mut ticks);
}

fn on_grant_ack_on<L: Ledger>(notes: &mut Directory, line: u32, blank: Blank)
    requires name { blank.name ≡ L.name }
    requires parts { blank.parts ≡ L.parts }
    requires some { 0 < L.parts }
    requires asked { line < length notes.old.lines }
    ensures { notes.new ≡ grant_acked notes.old line }
{
    let mut ticks: Ticks<L> = Ticks::new(blank);
    notes.on_grant_ack_counted(line, &mut ticks);
}
