//! Steps that touch their hart alone, whatever the others do in between.

ghost use Rattle.std.specs.Prelude.{◌≡◌, ◌<◌, ◌≤◌, IfOk, IfSome, length};
ghost use Rattle.schedules.specs.Schedules.{start_of};

use crate::errors::Fault;
use crate::player::{MOST_HARTS, Player};
use coherent_machine::Views;
use elf_loader::Image;
use hart::run_local;
use machine_types::{Event, MAX_ROW, Outcome};
use rv32_exec::Action;
use std::alloc::{AllocError, Global};

/// The most quiet steps that a hart takes before the others have their turn, so that a loop ends.
const MOST_QUIET_STEPS: u32 = 1000;

/// Whether the hart's next step touches no memory and no entry that may leave its store buffer, if it
/// doesn't stall.
fn is_quiet(image: &Image, views: &Views<'_>, hart: usize) -> bool
    requires { hart < length views.now.views.nodes }
{
    match views.hart(hart).next_action(image) {
        None | Some(Action::Stop(_) | Action::Private | Action::Call | Action::Fence) => true,
        Some(Action::Store { addr, .. }) => {
            let word = addr & !3;
            let mut open = views.buffer(hart).current().iter();
            !open.any(|entry| entry.word == word)
        }
        Some(Action::Sc { addr, .. }) => views.reserved(hart) != Some(addr),
        Some(Action::Load { .. } | Action::Lr { .. } | Action::Amo { .. }) => false,
    }
}

/// The hart's next quiet steps as one event, and how many they are: private instructions, so many at
/// most, or one step.
fn next_quiet(
    alloc: Global,
    image: &Image,
    views: &Views<'_>,
    hart: u8,
    most: u32,
) -> Result<Option<(Event, u32)>, AllocError>
    requires { 1 ≤ most }
    ensures { IfOk result (λ next. IfSome next (λ found. 1 ≤ found.1)) }
{
    let place = usize::from(hart);
    if place >= views.harts() || !views.hart(place).status.is_running() {
        return Ok(None);
    }
    let row = run_local(alloc, image, views.hart(place), most.min(MAX_ROW))?;
    let count = row.entries().len() as u32;
    if count > 1 {
        return Ok(Some((Event::Local { hart, count }, count)));
    }
    if is_quiet(image, views, place) {
        return Ok(Some((Event::Step { hart }, 1)));
    }
    Ok(None)
}

impl Player {
    /// All harts take their quiet steps, up to 1000 each, in rising order of harts.
    pub(crate) fn settle(&mut self, alloc: Global) -> Result<(), Fault>
        ensures { start_of self.new ≡ start_of self.old }
    {
        for hart in 0..MOST_HARTS {
            self.settle_hart(alloc, hart)?;
        }
        Ok(())
    }

    fn settle_hart(&mut self, alloc: Global, hart: u8) -> Result<(), Fault>
        ensures { start_of self.new ≡ start_of self.old }
    {
        let mut left = MOST_QUIET_STEPS;
        while left > 0 {
            let next = next_quiet(alloc, self.image(), &self.views(), hart, left)?;
            let Some((event, count)) = next else {
                break;
            };
            if !has_stepped(self.apply(event)?) {
                break;
            }
            left = left.saturating_sub(count);
        }
        Ok(())
    }
}

/// Whether a step came to its end, and didn't stall.
pub(crate) fn has_stepped(outcome: Option<Outcome>) -> bool {
    matches!(
        outcome,
        Some(Outcome::Retired | Outcome::Exited(_) | Outcome::Stopped(_))
    )
}
