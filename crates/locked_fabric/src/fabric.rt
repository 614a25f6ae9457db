//! The machine with its journal, and the calls on both.

ghost use Rattle.std.specs.Prelude.{◌≡◌, ◌≢◌, ◌+◌, ◌↔◌, [], length, replicate, sum, Err, IfOk, OnOk, OnErr};
ghost use Rattle.coherent_machine.specs.Adopting.{IsCurrent, local_of};
ghost use Rattle.locked_fabric.specs.FabricState.{Answered, IsKept, journalled, opened};
ghost use Rattle.machine_model.specs.Events.{Verdict, happens, verdict};
ghost use Rattle.machine_model.specs.Laws.{IsHeadline, KeepsImageAndConfig};

use crate::share::Share;
use coherent_machine::{AdoptError, ApplyError, Machine};
use elf_loader::Image;
use hart::Batch;
use machine_model::changes_are_counted;
use machine_types::{Config, Event, Outcome};
use std::alloc::{AllocError, Global};
use std::marker::Model;
use std::sync::ledger;
use std::sync::ledger::{Blank, Book, Ledger};

/// A machine and its journal: the events that changed it since its reset, the first one first. Each event
/// counts once, in the share that was handed in with it. No call waits.
pub struct Fabric<L: Ledger> {
    machine: Machine,
    journal: Vec<Event>,
    book: Book<L>,
    // What the shares leave of the ledger.
    rest: ledger::Share<L>,
    // Room for what the shares count at the end.
    counts: Vec<u64>,
}

// A call of its own: derived, it would stand field by field in each function that owns one.
impl<L: Ledger> Drop for Fabric<L> {
    fn drop(self) {
        let Fabric {
            machine: _,
            journal: _,
            book: _,
            rest: _,
            counts: _,
        } = self;
    }
}

impl<L: Ledger> Model for Fabric<L> {
    ghost use Rattle.std.specs.Prelude.{◌≡◌, ◌≤◌, [], vec_capacity};
    ghost use Rattle.locked_fabric.specs.FabricState.{FabricState, IsKept};
    ghost use Rattle.std.specs.Coded.{codes};
    ghost use Rattle.coherent_machine.specs.Codes.{cache_coded};

    ghost Value = { FabricState };

    ghost coded = { Prim.hlevel (codes, cache_coded) };

    ghost view = { λ f. record { machine = f.machine; journal = f.journal.items; book = f.book.total } };

    ghost invariant = { λ f.
        IsKept (record { machine = f.machine; journal = f.journal.items; book = f.book.total })
        × (f.rest.parts ≡ 0) × (f.rest.amount ≡ 0)
        × (f.counts.items ≡ []) × (f.machine.views.config.harts ≤ vec_capacity f.counts) };
}

impl<L: Ledger> Fabric<L> {
    /// A machine at reset with an empty journal, and a share for each hart, which counts nothing yet. The
    /// only error is want of memory.
    pub fn new(
        alloc: Global,
        blank: Blank,
        image: Image,
        config: Config,
    ) -> Result<(Fabric<L>, Vec<Share<L>>), AllocError>
        requires { (blank.name ≡ L.name) × (blank.parts ≡ L.parts) × (blank.parts ≡ config.harts) }
        ensures fabric { IfOk result (λ made. made.0 ≡ opened image config) }
        ensures shares { IfOk result (λ made. made.1.items ≡ replicate config.harts 0) }
        ensures kept { IfOk result (λ made. IsKept made.0) }
        ensures headline { IfOk result (λ made. IsHeadline image config made.0.machine) }
    {
        let harts = config.harts as usize;
        let counts = Vec::with_capacity(alloc, harts)?;
        let mut shares = Vec::with_capacity(alloc, harts)?;
        let machine = Machine::new(alloc, image, config)?;
        let (book, mut rest) = blank.open::<L>();
        for _hart in 0..harts {
            shares.push_reserved(Share::new(rest.split_off(1, 0)));
        }
        let fabric = Fabric {
            machine,
            journal: Vec::new(alloc),
            book,
            rest,
            counts,
        };
        Ok((fabric, shares))
    }

    /// Applies an event as `Machine::apply` does. Exactly where it changes the machine it is journalled, and
    /// counts in the share. Where the journal can't grow the answer is `NoMemory`, whatever the machine
    /// would answer.
    pub fn apply(&mut self, event: Event, share: &mut Share<L>) -> Result<Outcome, ApplyError>
        ensures answers { Answered self.old event result self.new }
        ensures ok { OnOk result (self.new.machine ≡ happens self.old.machine event) }
        ensures err { OnErr result (self.new ≡ self.old) }
        ensures share { share.new + self.old.book ≡ share.old + self.new.book }
        ensures stays { KeepsImageAndConfig self.old.machine self.new.machine }
        ensures found { IsKept self.old }
        ensures left { IsKept self.new }
    {
        changes_are_counted();
        self.journal.reserve(1)?;
        let changes = self.machine.views().changes();
        let outcome = self.machine.apply(event)?;
        let moved = self.machine.views().changes() != changes;
        if moved {
            self.journal.push_reserved(event);
            share.add(&mut self.book);
        }
        Ok(outcome)
    }

    /// Adopts a batch as `Machine::adopt` does, for the hart that the batch begins with, and journals it as
    /// the event `Local` of that hart and of as many instructions, which counts once in the share. Where the
    /// journal can't grow the answer is `NoMemory`, whatever the machine would answer.
    pub fn commit(&mut self, batch: &Batch, share: &mut Share<L>) -> Result<Outcome, AdoptError>
        ensures stale { result ≢ Err AdoptError.NoMemory →
            (result ≡ Err AdoptError.Stale) ↔ (IsCurrent batch.now.first.id batch.now self.old.machine → ⊥) }
        ensures empty { result ≢ Err AdoptError.NoMemory →
            (result ≡ Err AdoptError.Empty) ↔ (IsCurrent batch.now.first.id batch.now self.old.machine × (batch.now.entries ≡ [])) }
        ensures limit { result ≢ Err AdoptError.NoMemory →
            (result ≡ Err AdoptError.Limit)
            ↔ (IsCurrent batch.now.first.id batch.now self.old.machine × (batch.now.entries ≢ []) × (verdict self.old.machine (local_of batch.now.first.id batch.now) ≡ Verdict.IsLimited)) }
        ensures retired { IfOk result (λ outcome. verdict self.old.machine (local_of batch.now.first.id batch.now) ≡ Verdict.Moves outcome self.new.machine × (outcome ≡ Outcome.Retired)) }
        ensures ok { OnOk result (self.new ≡ journalled self.old (local_of batch.now.first.id batch.now) self.new.machine) }
        ensures err { OnErr result (self.new ≡ self.old) }
        ensures share { share.new + self.old.book ≡ share.old + self.new.book }
        ensures stays { KeepsImageAndConfig self.old.machine self.new.machine }
        ensures found { IsKept self.old }
        ensures left { IsKept self.new }
    {
        changes_are_counted();
        if self.journal.reserve(1).is_err() {
            return Err(AdoptError::NoMemory);
        }
        let hart = batch.first().id;
        let outcome = self.machine.adopt(hart, batch)?;
        let count = batch.entries().len() as u32;
        self.journal.push_reserved(Event::Local { hart, count });
        share.add(&mut self.book);
        Ok(outcome)
    }

    /// The machine as it stands.
    pub fn machine(&self) -> &Machine
        ensures machine { result.now ≡ self.now.machine }
        ensures kept { IsKept self.now }
    {
        &self.machine
    }

    /// The events that changed the machine, the first one first.
    pub fn journal(&self) -> &[Event]
        ensures journal { result.now ≡ self.now.journal }
        ensures kept { IsKept self.now }
    {
        &self.journal
    }

    /// The machine, its journal, and what each share counts, in the order in which the shares are handed
    /// in: all those that `new` made with this fabric. It takes no memory.
    pub fn into_parts(mut self, shares: Vec<Share<L>>) -> (Machine, Vec<Event>, Vec<u64>)
        requires all { length shares.items ≡ L.parts }
        requires harts { length shares.items ≡ self.machine.views.config.harts }
        ensures machine { result.0 ≡ self.machine }
        ensures journal { result.1.items ≡ self.journal }
        ensures counts { result.2.items ≡ shares.items }
        ensures total { sum result.2.items ≡ length self.journal }
        ensures kept { IsKept self }
    {
        let Fabric {
            machine,
            journal,
            mut book,
            mut rest,
            mut counts,
        } = self;
        for share in shares {
            let count = share.merge_into(&mut rest);
            counts.push_reserved(count);
        }
        book.audit(&mut rest);
        (machine, journal, counts)
    }
}
