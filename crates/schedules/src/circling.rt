//! Harts that go round by themselves where events have led.

ghost use Rattle.std.specs.Prelude.{◌≡◌, ◌<◌, All, IfOk, IfSome, IsTrue, OnOk, length};
ghost use Rattle.machine_model.specs.Views.{State, node_at};
ghost use Rattle.schedules.specs.Circles.{GoesRound};
ghost use Rattle.schedules.specs.Schedules.{Leads, led};
ghost use Rattle.machine_model.specs.History.{entries_of};

use crate::errors::Fault;
use crate::player::{MOST_HARTS, Player};
use crate::quiet::has_stepped;
use elf_loader::Image;
use hart::Hart;
use machine_types::{Config, Event, Outcome};
use std::alloc::{AllocError, Global};
use tl_types::Channel;

/// So many steps at most a hart is followed.
const MOST_STEPS: u32 = 20_000;

/// So many readings of a round are kept.
const MOST_READINGS: usize = 8;

/// So many rounds of deliveries leave no message that can arrive.
const MOST_ROUNDS: u32 = 64;

const CHANNELS: [Channel; 5] = [Channel::A, Channel::B, Channel::C, Channel::D, Channel::E];

/// An instruction that reads memory on a round, and what it read there last.
#[derive(Clone, Copy, Debug, PartialEq, Eq)]
pub struct Reading {
    pub pc: u32,
    /// The address of the load, LR or AMO.
    pub address: u32,
    /// What it read, before any sign is extended.
    pub value: u32,
    /// Another hart whose store to that word waits in its store buffer.
    pub waits: Option<u8>,
}

/// A hart that comes back to where it stood with the same registers by its own steps, while the others stand still.
#[derive(Drop)]
pub struct Circle {
    pub hart: u8,
    /// Where it comes back to.
    pub pc: u32,
    /// What it reads on its round, eight instructions at most.
    pub readings: Vec<Reading>,
}

/// The circles of the harts that run where these events lead, each hart let run in its turn, for 20,000 steps at most. Where an event
/// is refused, or a limit of the machine is met, those that were found up to there.
pub fn circles(
    alloc: Global,
    image: Image,
    config: Config,
    events: &[Event],
) -> Result<Vec<Circle>, AllocError>
    ensures real { IfOk result (λ found. All (λ circle. GoesRound (led image config events.now) circle.hart circle.pc) found.items) }
{
    let mut player = Player::new(alloc, image, config)?;
    let Ok(()) = player.replay(events) else {
        return Ok(Vec::new(alloc));
    };
    player.all_circles(alloc)
}

impl Player {
    // The circles of the harts that run, one hart after another.
    fn all_circles(&mut self, alloc: Global) -> Result<Vec<Circle>, AllocError>
        ensures real { IfOk result (λ found. All (λ circle. GoesRound self.old.machine circle.hart circle.pc) found.items) }
    {
        let mut found = Vec::new(alloc);
        for hart in 0..MOST_HARTS {
            let circle = match self.circle_of(alloc, hart) {
                Ok(circle) => circle,
                Err(Fault::Limit) => return Ok(found),
                Err(Fault::NoMemory) => return Err(AllocError),
            };
            add(&mut found, circle)?;
        }
        Ok(found)
    }

    // The hart, where it runs.
    fn running(&self, hart: u8) -> Option<Hart>
        ensures { IfSome result (λ found. found ≡ (node_at self.now.machine hart).hart) }
    {
        let views = self.views();
        let place = usize::from(hart);
        if place >= views.harts() || !views.hart(place).status.is_running() {
            return None;
        }
        Some(*views.hart(place))
    }

    // Whether the hart stands as it stood before, and has retired more than so many instructions.
    fn is_back(&self, hart: u8, stood: &Hart, count: usize) -> bool
        ensures back { IsTrue result → (node_at self.now.machine hart).hart ≡ stood.now }
        ensures longer { IsTrue result → count < length (entries_of self.now.machine.trace hart) }
    {
        match self.running(hart) {
            Some(now) => now == *stood && self.retired(hart) > count,
            None => false,
        }
    }

    // How many instructions the hart has retired; none where there is no such hart.
    fn retired(&self, hart: u8) -> usize
        ensures { result ≡ length (entries_of self.now.machine.trace hart) }
    {
        let trace = self.machine().trace();
        let place = usize::from(hart);
        if place < trace.harts() {
            trace.entries(place).len()
        } else {
            0
        }
    }

    // Follows a hart until it comes back to where it stood. Where that was is noted anew behind 1, 2, 4 and so on steps, so that
    // a round of any length is seen.
    #[tactic(auto, using(crate::proofs::Leading::leads_on, crate::proofs::Rounds::noted_on, crate::proofs::Rounds::noted_here, crate::proofs::Rounds::leads_of, crate::proofs::Rounds::goes_round))]
    fn circle_of(&mut self, alloc: Global, hart: u8) -> Result<Option<Circle>, Fault>
        ensures leads { OnOk result (Leads self.old.machine self.new.machine) }
        ensures real { IfOk result (λ found. IfSome found (λ circle. GoesRound self.old.machine circle.hart circle.pc)) }
    {
        self.deliver_all()?;
        let Some(mut stood) = self.running(hart) else {
            return Ok(None);
        };
        let mut count = self.retired(hart);
        let mut readings = Vec::new(alloc);
        let (mut span, mut left) = (1u32, 1u32);
        for _step in 0..MOST_STEPS {
            let Some(now) = self.step_alone(hart, &mut readings)? else {
                return Ok(None);
            };
            if self.is_back(hart, &stood, count) {
                let pc = stood.pc;
                return Ok(Some(Circle { hart, pc, readings }));
            }
            left = left.saturating_sub(1);
            if left == 0 {
                span = span.saturating_mul(2);
                left = span;
                stood = now;
                count = self.retired(hart);
                readings.clear();
            }
        }
        Ok(None)
    }

    // Takes the hart's next step, and notes what it reads. None where the hart can't, or doesn't run behind it.
    #[tactic(auto, using(crate::proofs::Leading::leads_on, crate::proofs::Leading::leads_nowhere))]
    fn step_alone(&mut self, hart: u8, readings: &mut Vec<Reading>) -> Result<Option<Hart>, Fault>
        ensures leads { OnOk result (Leads self.old.machine self.new.machine) }
        ensures stands { IfOk result (λ now. IfSome now (λ found. found ≡ (node_at self.new.machine hart).hart)) }
    {
        let Some(before) = self.running(hart) else {
            return Ok(None);
        };
        let event = Event::Step { hart };
        let address = self.accessed(hart, event);
        if !self.access(hart, event)? {
            self.drain_all(hart)?;
            if !self.access(hart, event)? {
                return Ok(None);
            }
        }
        if let (Some(address), Some(value)) = (address, self.last_read(hart)) {
            let waits = self.waiting_store(hart, address);
            let pc = before.pc;
            note(
                readings,
                Reading {
                    pc,
                    address,
                    value,
                    waits,
                },
            )?;
        }
        Ok(self.running(hart))
    }

    // What the hart's last instruction has read.
    fn last_read(&self, hart: u8) -> Option<u32> {
        let trace = self.machine().trace();
        let place = usize::from(hart);
        if place >= trace.harts() {
            return None;
        }
        trace.entries(place).last()?.loaded
    }

    // Another hart whose store to the word of this address waits.
    fn waiting_store(&self, hart: u8, address: u32) -> Option<u8> {
        let views = self.views();
        for other in 0..MOST_HARTS {
            let place = usize::from(other);
            if other != hart && place < views.harts() {
                let mut entries = views.buffer(place).oldest().iter();
                if entries.any(|entry| entry.word == address & !3) {
                    return Some(other);
                }
            }
        }
        None
    }

    // Drains the hart's stores, as far as they drain.
    #[tactic(auto, using(crate::proofs::Leading::leads_on, crate::proofs::Leading::leads_nowhere))]
    fn drain_all(&mut self, hart: u8) -> Result<(), Fault>
        ensures leads { OnOk result (Leads self.old.machine self.new.machine) }
    {
        for _store in 0..MOST_ROUNDS {
            let views = self.views();
            let place = usize::from(hart);
            if place >= views.harts() {
                return Ok(());
            }
            let Some(entry) = views.buffer(place).oldest().first() else {
                return Ok(());
            };
            let word = entry.word;
            if !self.access(hart, Event::Drain { hart, word })? {
                return Ok(());
            }
        }
        Ok(())
    }

    // Lets all messages arrive that can.
    #[tactic(auto, using(crate::proofs::Leading::leads_on, crate::proofs::Leading::leads_nowhere))]
    fn deliver_all(&mut self) -> Result<(), Fault>
        ensures leads { OnOk result (Leads self.old.machine self.new.machine) }
    {
        for _round in 0..MOST_ROUNDS {
            let mut is_still = true;
            for hart in 0..MOST_HARTS {
                for channel in CHANNELS {
                    let came = self.apply(Event::Deliver { channel, hart })?;
                    is_still &= came != Some(Outcome::Delivered);
                }
            }
            if is_still {
                break;
            }
        }
        Ok(())
    }
}

// Notes a reading, in place of an earlier one of the same instruction and address.
fn note(readings: &mut Vec<Reading>, reading: Reading) -> Result<(), AllocError> {
    for known in readings.iter_mut() {
        if (known.pc, known.address) == (reading.pc, reading.address) {
            *known = reading;
            return Ok(());
        }
    }
    if readings.len() < MOST_READINGS {
        readings.push(reading)?;
    }
    Ok(())
}

// Adds a circle, if there is one.
fn add(found: &mut Vec<Circle>, circle: Option<Circle>) -> Result<(), AllocError>
    ensures { (s : State) → All (λ circle. GoesRound s circle.hart circle.pc) found.old.items → IfSome circle (λ circle. GoesRound s circle.hart circle.pc) → OnOk result (All (λ circle. GoesRound s circle.hart circle.pc) found.new.items) }
{
    if let Some(circle) = circle {
        found.push(circle)?;
    }
    Ok(())
}
