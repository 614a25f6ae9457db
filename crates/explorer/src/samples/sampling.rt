//! Random runs.

ghost use Rattle.std.specs.Prelude.{◌≡◌, ◌<◌, ◌≤◌, IfOk, OnErr, OnOk, false, length, true};
ghost use Rattle.flat_model.specs.Shown.{results, told};
ghost use Rattle.explorer.specs.Sampled.{IsSampled, IsTally, most_events};
ghost use Rattle.schedules.specs.Schedules.{EachMoves, Replays, led};

use crate::effort::most_played;
use crate::samples::sampled::Sampled;
use crate::samples::tally::Tally;
use crate::scripts::Program;
use elf_loader::Image;
use machine_types::Config;
use rand_core::{Rng, SeedableRng};
use rand_xoshiro::SplitMix64;
use schedules::{Schedule, sample};
use std::alloc::{AllocError, Global};

/// How many events a run tries at most, those that stall among them.
const MOST_EVENTS: u64 = 1_000_000;

/// Is told how far random runs are.
pub trait SampleWatch {
    /// So many runs were made so far, and came to so many ends.
    fn made(&self, runs: u64, ends: u64);
}

/// How a program is sampled.
#[derive(Clone, Copy)]
pub struct Sampling {
    pub runs: u64,
    /// What the runs are drawn from: the same seed gives the same runs.
    pub seed: u64,
    /// Whether each end's script is shortened.
    pub shortened: bool,
}

/// Plays random schedules of the machine, each from reset, and counts how often they come to each end. A
/// run whose harts haven't all ended after 1,000,000 tried events, or where a limit of the machine is met,
/// counts as unended. Where memory ends, the runs before are told, and that it did; the error is that there
/// was none for the list of their ends. Behind each run `watch` is told how many there were.
pub fn sample_ends<W: SampleWatch>(
    alloc: Global,
    image: &Image,
    config: Config,
    sampling: Sampling,
    watch: &W,
) -> Result<Sampled, AllocError>
    ensures sampled { IfOk result (IsSampled image.now config) }

    // As many runs are told as were asked for, unless memory ended.
    ensures all_made { IfOk result (λ s. s.out_of_memory ≡ false → s.runs ≡ sampling.runs) }
    ensures cut { IfOk result (λ s. s.out_of_memory ≡ true → s.runs < sampling.runs) }
    ensures within { IfOk result (λ s. s.runs ≤ sampling.runs) }
{
    let program = Program {
        alloc,
        image,
        config,
        most_played: most_played(sampling.shortened, 1),
    };
    let mut tally = Tally::new(alloc);
    let out_of_memory = make_runs(&program, sampling, watch, &mut tally).is_err();
    tally.into_sampled(&program, out_of_memory)
}

/// Counts as many runs as are asked for. The only error is want of memory; the runs before stay counted.
fn make_runs<W: SampleWatch>(
    program: &Program<'_>,
    sampling: Sampling,
    watch: &W,
    tally: &mut Tally,
) -> Result<(), AllocError>
    requires few { tally.old.runs ≤ sampling.runs }
    requires tally { IsTally program.now.image.now program.now.config tally.old }
    ensures tally { IsTally program.now.image.now program.now.config tally.new }
    ensures ok { OnOk result (tally.new.runs ≡ sampling.runs) }
    ensures err { OnErr result (tally.new.runs < sampling.runs) }
{
    let mut generator = SplitMix64::seed_from_u64(sampling.seed);
    while tally.runs < sampling.runs {
        let schedule = run(program, generator.next_u64())?;
        tally.count(program, schedule)?;
        watch.made(tally.runs, tally.ends());
    }
    Ok(())
}

/// A random schedule, played from reset.
fn run(program: &Program<'_>, seed: u64) -> Result<Schedule, AllocError>
    ensures real { IfOk result (λ schedule. schedule.machine ≡ led program.now.image.now program.now.config schedule.events.items) }
    ensures replays { IfOk result (λ schedule. Replays program.now.image.now program.now.config schedule.events.items) }
    ensures moves { IfOk result (λ schedule. EachMoves program.now.image.now program.now.config schedule.events.items) }
    ensures within { IfOk result (λ schedule. length schedule.events.items ≤ most_events) }
    ensures results { IfOk result (λ schedule. told schedule.results.items ≡ results schedule.machine) }
{
    let image = program.image.try_copy(program.alloc)?;
    sample(program.alloc, image, program.config, seed, MOST_EVENTS)
}
