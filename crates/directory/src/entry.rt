//! One line's entry: masks of harts, and what each message makes of them.
ghost use Rattle.std.specs.Prelude.{◌≡◌, ◌≢◌, ◌+◌, ◌<◌, ◌≤◌, ℕ, None, not, ◌&&◌, nat_eq, IfSome, IsTrue};
ghost use Rattle.tl_types.specs.Permission.{left_by};
ghost use Rattle.directory.specs.Harts.{has, harts_below};
ghost use Rattle.directory.specs.Lines.{known_at, conflicts, probe_cap, needs_data, probed, grant_for, granting, acquired, acquired_by, answered_in, acknowledged, probe_acked, released, grant_acked};
ghost use Rattle.directory.specs.Directory.{AnswersHarts, quiet};
ghost use Rattle.directory.specs.Entries.{perm_of, known_of, notes_of_entry, other_than, IsNoted, OwnerBelow, is_asked_back, IsSoundEntry};

use crate::answer::{Acquired, Grant, Known, Sent, Transaction};
use crate::harts::HartSet;
use std::sync::ledger::Ledger;
use tl_types::{Cap, Change, Grow, Perm, Ticks};

/// Who has a line and where its transaction stands, in a few bytes. The owner is the hart whose record
/// is Trunk; the sharers but the owner are those whose record is Branch.
#[derive(Clone, Copy)]
pub struct Entry {
    pub sharers: HartSet,
    pub awaited: HartSet,
    pub owner: Option<u8>,
    pub transaction: Transaction,
}

/// The owner, unless it is this hart.
fn other_than(owner: Option<u8>, hart: u8) -> Option<u8>
    ensures { result ≡ other_than owner hart }
{
    match owner {
        Some(owner) => { if owner == hart { None } else { Some(owner) } }
        None => None,
    }
}

/// To what the harts that are in the way of an Acquire are probed.
fn probe_cap(grow: Grow) -> Cap
    ensures { result ≡ probe_cap grow }
{
    match grow {
        Grow::NtoB => Cap::ToB,
        Grow::NtoT | Grow::BtoT => Cap::ToN,
    }
}

/// Whether a Grant to a requester with this record carries the line.
fn needs_data(grow: Grow, perm: Perm) -> bool
    ensures { result ≡ needs_data grow perm }
{
    !matches!((grow, perm), (Grow::BtoT, Perm::Branch))
}

impl Entry {
    /// Nobody has the line.
    pub fn new() -> Entry
        ensures line { (harts : ℕ) → notes_of_entry harts result ≡ quiet harts }
        ensures sound { (harts : ℕ) → IsSoundEntry harts result }
    {
        Entry {
            sharers: HartSet::new(),
            awaited: HartSet::new(),
            owner: None,
            transaction: Transaction::Idle,
        }
    }

    fn perm(&self, hart: u8) -> Perm
        requires { hart < 8 }
        ensures { result ≡ perm_of self.now hart }
    {
        if self.owner == Some(hart) {
            Perm::Trunk
        } else if self.sharers.contains(hart) {
            Perm::Branch
        } else {
            Perm::Nothing
        }
    }

    /// What is noted of one hart.
    pub fn known(&self, hart: u8) -> Known
        requires { hart < 8 }
        ensures { result ≡ known_of self.now hart }
    {
        let perm = self.perm(hart);
        let awaited = self.awaited.contains(hart);
        Known { perm, awaited }
    }

    /// The record of a hart becomes this permission.
    fn note(self, hart: u8, perm: Perm) -> Entry
        requires numbered { hart < 8 }
        requires alone { perm ≡ Perm.Trunk → other_than self.owner hart ≡ None }
        ensures { IsNoted self result hart perm }
    {
        match perm {
            Perm::Nothing => Entry {
                sharers: self.sharers.without(hart),
                owner: other_than(self.owner, hart),
                ..self
            },
            Perm::Branch => Entry {
                sharers: self.sharers.with(hart),
                owner: other_than(self.owner, hart),
                ..self
            },
            Perm::Trunk => Entry {
                sharers: self.sharers.without(hart),
                owner: Some(hart),
                ..self
            },
        }
    }

    /// The harts whose record is in the way of an Acquire by another hart.
    fn holders(&self, grow: Grow) -> HartSet
        requires { OwnerBelow 8 self.now.owner }
        ensures { (h : ℕ) → h < 8 → has result h ≡ conflicts grow (perm_of self.now h) }
    {
        match grow {
            Grow::NtoB => match self.owner {
                Some(owner) => HartSet::new().with(owner),
                None => HartSet::new(),
            },
            _ => match self.owner {
                Some(owner) => self.sharers.with(owner),
                None => self.sharers,
            },
        }
    }

    /// The harts that are probed for an Acquire.
    fn probes(&self, requester: u8, grow: Grow) -> HartSet
        requires owner { OwnerBelow 8 self.now.owner }
        requires numbered { requester < 8 }
        ensures { result ≡ harts_below 8 (λ h. not (nat_eq h requester) && conflicts grow (perm_of self.now h)) }
    {
        self.holders(grow).without(requester)
    }

    /// The Grant that is due, and the entry once it is sent.
    fn grant(self, requester: u8, grow: Grow) -> (Grant, Entry)
        requires numbered { requester < 8 }
        requires alone { other_than self.owner requester ≡ None }
        ensures grant { (harts : ℕ) → requester < harts → result.0 ≡ grant_for (notes_of_entry harts self) requester grow }
        ensures line { (harts : ℕ) → requester < harts → harts ≤ 8 → notes_of_entry harts result.1 ≡ granting (notes_of_entry harts self) requester grow }
        ensures sound { (harts : ℕ) → requester < harts → harts ≤ 8 → IsSoundEntry harts self → IsSoundEntry harts result.1 }
    {
        let cap = grow.granted();
        let with_data = needs_data(grow, self.perm(requester));
        let grant = Grant {
            hart: requester,
            cap,
            with_data,
        };
        let noted = self.note(requester, cap.perm());
        let entry = Entry {
            transaction: Transaction::Granted(requester),
            ..noted
        };
        (grant, entry)
    }

    /// A transaction begins: by Probes, or by the Grant where there is nobody to probe.
    fn begin(self, requester: u8, grow: Grow) -> (Acquired, Entry)
        requires numbered { requester < 8 }
        requires sound { IsSoundEntry 8 self }
        ensures meaning { (harts : ℕ) → requester < harts → harts ≤ 8 → IsSoundEntry harts self → (result.0, notes_of_entry harts result.1) ≡ acquired_by (notes_of_entry harts self) requester grow (probed (notes_of_entry harts self) requester grow) }
        ensures harts { (harts : ℕ) → requester < harts → harts ≤ 8 → IsSoundEntry harts self → AnswersHarts harts result.0 }
        ensures sound { (harts : ℕ) → requester < harts → harts ≤ 8 → IsSoundEntry harts self → IsSoundEntry harts result.1 }
    {
        let probes = self.probes(requester, grow);
        if probes.is_empty() {
            let (grant, entry) = self.grant(requester, grow);
            return (Acquired::Handled(Sent::Granting(grant)), entry);
        }
        let entry = Entry {
            awaited: probes,
            transaction: Transaction::Probing(requester, grow),
            ..self
        };
        (
            Acquired::Handled(Sent::Probes(probe_cap(grow), probes)),
            entry,
        )
    }

    /// An Acquire is taken.
    pub fn acquire(self, requester: u8, grow: Grow) -> (Acquired, Entry)
        requires numbered { requester < 8 }
        requires sound { IsSoundEntry 8 self }
        ensures meaning { (harts : ℕ) → requester < harts → harts ≤ 8 → IsSoundEntry harts self → (result.0, notes_of_entry harts result.1) ≡ acquired (notes_of_entry harts self) requester grow }
        ensures harts { (harts : ℕ) → requester < harts → harts ≤ 8 → IsSoundEntry harts self → AnswersHarts harts result.0 }
        ensures sound { (harts : ℕ) → requester < harts → harts ≤ 8 → IsSoundEntry harts self → IsSoundEntry harts result.1 }
    {
        match self.transaction {
            Transaction::Idle => self.begin(requester, grow),
            _ => (Acquired::Busy, self),
        }
    }

    /// The record becomes what the change ends in, and the hart is no longer awaited.
    fn acknowledge(self, hart: u8, change: Change) -> Entry
        requires numbered { hart < 8 }
        requires shrinks { left_by change ≢ Perm.Trunk }
        ensures line { (harts : ℕ) → hart < harts → harts ≤ 8 → notes_of_entry harts result ≡ acknowledged (notes_of_entry harts self) hart change }
        ensures sound { (harts : ℕ) → hart < harts → harts ≤ 8 → IsSoundEntry harts self → IsSoundEntry harts result }
    {
        let noted = self.note(hart, change.left());
        Entry {
            awaited: noted.awaited.without(hart),
            ..noted
        }
    }

    /// Sends the Grant once no ProbeAck is awaited.
    fn answer(self, requester: u8, grow: Grow) -> (Option<Grant>, Entry)
        requires numbered { requester < 8 }
        requires asked { IsTrue (is_asked_back self.owner self.awaited requester) }
        ensures meaning { (harts : ℕ) → requester < harts → harts ≤ 8 → IsSoundEntry harts self → (result.0, notes_of_entry harts result.1) ≡ answered_in (Transaction.Probing requester grow) (notes_of_entry harts self) }
        ensures harts { (harts : ℕ) → requester < harts → harts ≤ 8 → IsSoundEntry harts self → IfSome result.0 (λ grant. grant.hart < harts) }
        ensures sound { (harts : ℕ) → requester < harts → harts ≤ 8 → IsSoundEntry harts self → IsSoundEntry harts result.1 }
    {
        if self.awaited.is_empty() {
            let (grant, entry) = self.grant(requester, grow);
            return (Some(grant), entry);
        }
        (None, self)
    }

    /// A ProbeAck is taken: the last that is awaited has the Grant sent.
    pub fn probe_ack(self, hart: u8, change: Change) -> (Option<Grant>, Entry)
        requires numbered { hart < 8 }
        requires shrinks { left_by change ≢ Perm.Trunk }
        requires sound { IsSoundEntry 8 self }
        ensures meaning { (harts : ℕ) → hart < harts → harts ≤ 8 → IsSoundEntry harts self → (result.0, notes_of_entry harts result.1) ≡ probe_acked (notes_of_entry harts self) hart change }
        ensures harts { (harts : ℕ) → hart < harts → harts ≤ 8 → IsSoundEntry harts self → IfSome result.0 (λ grant. grant.hart < harts) }
        ensures sound { (harts : ℕ) → hart < harts → harts ≤ 8 → IsSoundEntry harts self → IsSoundEntry harts result.1 }
    {
        let acknowledged = self.acknowledge(hart, change);
        match acknowledged.transaction {
            Transaction::Probing(requester, grow) => acknowledged.answer(requester, grow),
            _ => (None, acknowledged),
        }
    }

    /// A Release is taken.
    pub fn release(self, hart: u8) -> Entry
        requires { hart < 8 }
        ensures line { (harts : ℕ) → hart < harts → harts ≤ 8 → notes_of_entry harts result ≡ released (notes_of_entry harts self) hart }
        ensures sound { (harts : ℕ) → hart < harts → harts ≤ 8 → IsSoundEntry harts self → IsSoundEntry harts result }
    {
        self.note(hart, Perm::Nothing)
    }

    /// A GrantAck is taken.
    pub fn grant_ack(self) -> Entry
        ensures line { (harts : ℕ) → notes_of_entry harts result ≡ grant_acked (notes_of_entry harts self) }
        ensures sound { (harts : ℕ) → IsSoundEntry harts self → IsSoundEntry harts result }
    {
        Entry {
            transaction: Transaction::Idle,
            ..self
        }
    }
}

/// The place of one line's entry, which is read by `look` alone.
#[derive(Clone, Copy)]
pub struct Slot {
    entry: Entry,
}

impl Slot {
    pub fn new(entry: Entry) -> Slot
        ensures { result.entry ≡ entry }
    {
        Slot { entry }
    }

    /// Reads the entry, which is one look.
    pub fn look<L: Ledger>(&self, ticks: &mut Ticks<L>) -> Entry
        ensures entry { result ≡ self.now.entry }
        ensures tick { ticks.new ≡ ticks.old + 1 }
    {
        ticks.tick();
        self.entry
    }
}
