//! How often runs came to each end.

ghost use Rattle.std.specs.Prelude.{◌≡◌, ◌+◌, ◌^◌, ◌<◌, ◌≤◌, [], IfOk, OnErr, OnOk, length};
ghost use Rattle.explorer.specs.Ends.{outcome_of};
ghost use Rattle.flat_model.specs.Shown.{results, told};
ghost use Rattle.explorer.specs.Sampled.{IsRealEnd, IsSampled, IsShort, IsTally, all_ended, most_events};
ghost use Rattle.schedules.specs.Schedules.{EachMoves, Replays, led};

use crate::found::{Found, Realisation};
use crate::samples::sampled::Sampled;
use crate::scripts::Program;
use flat_model::HartResult;
use schedules::{HartResults, Schedule};
use std::alloc::{AllocError, Global};
use std::collections::BTreeMap;

/// The ends of the runs so far.
#[derive(Drop)]
pub(crate) struct Tally {
    ends: BTreeMap<Found, u64>,
    unended: u64,
    pub runs: u64,
}

impl Tally {
    pub(crate) fn new(alloc: Global) -> Tally
        ensures runs { result.runs ≡ 0 }
        ensures unended { result.unended ≡ 0 }
        ensures ends { result.ends.entries ≡ [] }
    {
        Tally {
            ends: BTreeMap::new(alloc),
            unended: 0,
            runs: 0,
        }
    }

    /// How many ends the runs came to.
    pub(crate) fn ends(&self) -> u64 {
        self.ends.len() as u64
    }

    /// Counts one more run.
    pub(crate) fn count(
        &mut self,
        program: &Program<'_>,
        schedule: Schedule,
    ) -> Result<(), AllocError>
        requires room { self.old.runs + 1 < 2 ^ 64 }
        requires tally { IsTally program.now.image.now program.now.config self.old }
        requires real { schedule.machine ≡ led program.now.image.now program.now.config schedule.events.items }
        requires replays { Replays program.now.image.now program.now.config schedule.events.items }
        requires moves { EachMoves program.now.image.now program.now.config schedule.events.items }
        requires within { length schedule.events.items ≤ most_events }
        requires results { told schedule.results.items ≡ results schedule.machine }
        ensures tally { IsTally program.now.image.now program.now.config self.new }
        ensures ok { OnOk result (self.new.runs ≡ self.old.runs + 1) }
        ensures err { OnErr result (self.new.runs ≡ self.old.runs) }
    {
        let Schedule {
            events,
            machine: _,
            results,
        } = schedule;
        if !all_ended(&results) {
            self.unended += 1;
            self.runs += 1;
            return Ok(());
        }
        let end = Found {
            harts: results,
            words: Vec::new(program.alloc),
            script: Realisation::Events(events),
        };
        self.count_end(program, end)
    }

    /// Counts one more run that came to this end.
    fn count_end(&mut self, program: &Program<'_>, end: Found) -> Result<(), AllocError>
        requires room { self.old.runs + 1 < 2 ^ 64 }
        requires tally { IsTally program.now.image.now program.now.config self.old }
        requires reached { IsRealEnd program.now.image.now program.now.config end }
        requires short { IsShort end.script }
        ensures tally { IsTally program.now.image.now program.now.config self.new }
        ensures ok { OnOk result (self.new.runs ≡ self.old.runs + 1) }
        ensures err { OnErr result (self.new.runs ≡ self.old.runs) }
    {
        let times = self.ends.get(&end).copied().unwrap_or(0);
        let end = kept(program, end, times == 0);
        if self.ends.insert(end, times + 1).is_err() {
            return Err(AllocError);
        }
        self.runs += 1;
        Ok(())
    }

    /// The ends in their order.
    pub(crate) fn into_sampled(
        self,
        program: &Program<'_>,
        out_of_memory: bool,
    ) -> Result<Sampled, AllocError>
        requires tally { IsTally program.now.image.now program.now.config self }
        ensures sampled { IfOk result (IsSampled program.now.image.now program.now.config) }
        ensures runs { IfOk result (λ s. s.runs ≡ self.runs) }
        ensures cut { IfOk result (λ s. s.out_of_memory ≡ out_of_memory) }
    {
        let Tally {
            ends: counted,
            unended,
            runs,
        } = self;
        let mut ends = Vec::new(program.alloc);
        let mut times = Vec::new(program.alloc);
        for (end, count) in counted {
            ends.push(end)?;
            times.push(count)?;
        }
        Ok(Sampled {
            ends,
            times,
            unended,
            runs,
            out_of_memory,
        })
    }
}

/// Whether no hart runs any more.
fn all_ended(harts: &[HartResult]) -> bool
    ensures { result ≡ all_ended (told harts.now) }
{
    let mut rest = harts;
    while let [first, tail @ ..] = rest {
        if first.status.is_running() {
            return false;
        }
        rest = tail;
    }
    true
}

/// The end as it is told: where it is new, with fewer events that lead there, if that was asked for and memory
/// lasts.
fn kept(program: &Program<'_>, end: Found, is_new: bool) -> Found
    requires reached { IsRealEnd program.now.image.now program.now.config end }
    ensures reached { IsRealEnd program.now.image.now program.now.config result }
    ensures outcome { outcome_of result ≡ outcome_of end }
{
    let Found {
        harts,
        words,
        script,
    } = end;
    let script = match script {
        Realisation::Events(events) if is_new => {
            let goal = HartResults { harts: &harts };
            Realisation::Events(program.shortened(events, &goal))
        }
        script => script,
    };
    Found {
        harts,
        words,
        script,
    }
}
