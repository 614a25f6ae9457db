//! Whole transactions, each of whose messages arrives before anything else happens.

ghost use Rattle.std.specs.Prelude.{◌≡◌, OnOk};
ghost use Rattle.schedules.specs.Schedules.{Leads, start_of};

use crate::errors::Fault;
use crate::player::{MOST_HARTS, Player};
use crate::spare::lowest_held;
use machine_types::Event;
use rv32_exec::Action;
use tl_types::Channel;

impl Player {
    #[tactic(auto, using(crate::proofs::Leading::leads_on, crate::proofs::Leading::leads_nowhere))]
    fn deliver(&mut self, channel: Channel, hart: u8) -> Result<(), Fault>
        ensures start { start_of self.new ≡ start_of self.old }
        ensures leads { OnOk result (Leads self.old.machine self.new.machine) }
    {
        self.apply(Event::Deliver { channel, hart })?;
        Ok(())
    }

    /// The line that the hart has just asked for comes into its cache: its Acquire arrives, the Probes
    /// and their answers, the Grant and its acknowledgement. An empty queue delivers nothing.
    #[tactic(auto, using(crate::proofs::Leading::leads_on, crate::proofs::Leading::leads_nowhere))]
    pub(crate) fn finish_miss(&mut self, hart: u8) -> Result<(), Fault>
        ensures start { start_of self.new ≡ start_of self.old }
        ensures leads { OnOk result (Leads self.old.machine self.new.machine) }
    {
        self.deliver(Channel::A, hart)?;
        for other in 0..MOST_HARTS {
            self.deliver(Channel::B, other)?;
            self.deliver(Channel::C, other)?;
        }
        self.deliver(Channel::D, hart)?;
        self.deliver(Channel::E, hart)?;
        Ok(())
    }

    /// The hart's cache gives up a line, and is told that memory has it.
    #[tactic(auto, using(crate::proofs::Leading::leads_on, crate::proofs::Leading::leads_nowhere))]
    pub(crate) fn give_up(&mut self, hart: u8, line: u32) -> Result<(), Fault>
        ensures start { start_of self.new ≡ start_of self.old }
        ensures leads { OnOk result (Leads self.old.machine self.new.machine) }
    {
        self.apply(Event::Evict { hart, line })?;
        self.deliver(Channel::C, hart)?;
        self.deliver(Channel::D, hart)
    }

    /// The hart's cache gives up a line of the set of what the event accesses, where it holds one: not
    /// the line of its reserved word, if there is another.
    #[tactic(auto, using(crate::proofs::Leading::leads_on, crate::proofs::Leading::leads_nowhere))]
    pub(crate) fn make_room(&mut self, hart: u8, event: Event) -> Result<(), Fault>
        ensures start { start_of self.new ≡ start_of self.old }
        ensures leads { OnOk result (Leads self.old.machine self.new.machine) }
    {
        if let Some(line) = self.spare_line(hart, event) {
            self.give_up(hart, line)?;
        }
        Ok(())
    }

    fn spare_line(&self, hart: u8, event: Event) -> Option<u32> {
        let views = self.views();
        let place = usize::from(hart);
        if place >= views.harts() {
            return None;
        }
        let address = self.accessed(hart, event)?;
        let size = self.image().size();
        let cache = views.cache(place);
        let other = lowest_held(cache, views.config(), size, address, views.reserved(place));
        other.or(lowest_held(cache, views.config(), size, address, None))
    }

    /// The address that the event reads or writes in memory.
    pub(crate) fn accessed(&self, hart: u8, event: Event) -> Option<u32> {
        let views = self.views();
        let place = usize::from(hart);
        if place >= views.harts() {
            return None;
        }
        match event {
            Event::Drain { word, .. } => Some(word),
            Event::Step { .. } => match views.hart(place).next_action(self.image())? {
                Action::Load { addr, .. } | Action::Lr { addr } | Action::Amo { addr, .. } => Some(
                    addr,
                ),
                _ => None,
            },
            _ => None,
        }
    }
}
