//! Plays kept scripts event by event, as whole lists and on a fabric, and goes on where an allocation is refused:
//! the call that met it is to say so and to leave all as it was, and the same call again is to go on.
//! Whichever allocation of these plays is refused, the outcomes, the traces and the harts' ends are to be the kept
//! ones, so the program prints the same. What wanted memory it tells on standard error.
#![tactic(auto)]

mod batch;
mod case;
mod fabric;
mod machine;
mod shown;

use anyhow::{Context, Result, bail};
use batch::adopt_first;
use case::Case;
use fabric::play_fabric;
use machine::{play_events, replay_events};
use shown::Pages;
use std::rt::Files;

/// The names of the cases' files, without their endings.
const NAMES: [&str; 4] = ["row_10", "row_13", "row_18", "row_34"];

/// Plays each case, and says how many instructions of it were adopted and committed as a batch.
pub fn play_all<R: Files + Print + Eprint + AllocGlobal>(rt: &R) -> Result<()> {
    let mut pages = made_pages(rt)?;
    for name in NAMES {
        tell_case(rt, name, &mut pages)?;
    }
    Ok(())
}

/// Plays the case of one name alone, as the tool does that refuses each of its allocations in turn.
pub fn play<R: Files + Print + Eprint + AllocGlobal>(rt: &R, name: &str) -> Result<()> {
    let mut pages = made_pages(rt)?;
    let Some(name) = NAMES.into_iter().find(|known| *known == name) else {
        bail!("no case has this name");
    };
    tell_case(rt, name, &mut pages)
}

fn made_pages<R: AllocGlobal>(rt: &R) -> Result<Pages> {
    match Pages::new(rt.alloc()) {
        Ok(pages) => Ok(pages),
        Err(_) => Ok(Pages::new(rt.alloc())?),
    }
}

fn tell_case<R: Files + Print + Eprint + AllocGlobal>(
    rt: &R,
    name: &'static str,
    pages: &mut Pages,
) -> Result<()> {
    let adopted = play_case(rt, name, pages).context(name)?;
    println!(rt;
        "{name}: as kept, through apply, replay and a fabric; {adopted} adopted and committed as by local"
    )?;
    Ok(())
}

/// How many instructions of the case were adopted and committed as a batch.
fn play_case<R: Files + Eprint + AllocGlobal>(
    rt: &R,
    name: &str,
    pages: &mut Pages,
) -> Result<u32> {
    let case = match Case::read(rt, name) {
        Ok(case) => case,
        Err(_) => Case::read(rt, name)?,
    };
    play_events(rt, &case, pages)?;
    replay_events(rt, &case, pages)?;
    play_fabric(rt, &case, None, pages)?;
    adopt_first(rt, &case, pages)
}
