//! `rvtl explore --sample`: random runs are made, and the ends they come to are told, judged and kept.

ghost use Rattle.std.specs.Prelude.{◌≡◌, ◌⊎◌, Err, IfErr, IfOk, OnErr};
ghost use Rattle.command_files.specs.Sizes.{IsOutside};
ghost use Rattle.explore_command.specs.Exploring.{ComesBeforeScripts, IsExploreFault, LeavesPart};
ghost use Rattle.explore_command.specs.Judging.{IsToldBy};
ghost use Rattle.explore_command.specs.Keeping.{IsScriptFile, SparesOthers};
ghost use Rattle.explore_command.specs.Sampling.{AreRuns, IsSampleTold, SampleHas, SampleRefusals};
ghost use Rattle.text_fields.specs.Writing.{Begins};

use crate::asked::Asked;
use crate::exploring::Telling;
use crate::findings::print;
use crate::judging::judge;
use crate::keeping::keep;
use crate::sample::random_runs::Runs;
use command_files::{Fault, Files, Judgement};
use command_settings::Explore;
use explorer::{SampleWatch, Sampled, Sampling, sample_ends};
use progress_line::{Progress, Stage};
use std::alloc::{AllocError, Global};
use std::io::Write;

impl<P: Progress> SampleWatch for Telling<'_, P> {
    fn made(&self, runs: u64, ends: u64) {
        self.progress.tell(Stage::Sample { runs, ends });
    }
}

/// Judges the machine's size, reads what is allowed, then the image, looks whether the folder may have scripts, makes
/// `runs` random runs that `seed` determines, prints the ends they came to on `out`, judges them, and writes their
/// scripts, shortened: `err` has been told which ends aren't allowed also where the scripts can't be written in the
/// end. Where memory ends, the runs before are printed, judged and written all the same. While they are made,
/// `progress` is told how far they are.
pub fn sample_files<'a, F: Files, O: Write, E: Write, P: Progress>(
    alloc: Global,
    files: &mut F,
    wanted: Explore<'a>,
    runs: u32,
    seed: u32,
    out: &mut O,
    err: &mut E,
    progress: &P,
) -> Result<Judgement, Fault<'a>>
    ensures sampled { IfOk result (λ judgement. IsSampleTold (F.held files.old) (F.held files.new) wanted.entry runs judgement (O.contents out.old) (O.contents out.new)) }
    ensures outside { IsOutside wanted.entry.machine → result ≡ Err Fault.Configuration }
    ensures told { IfErr result (IsExploreFault (F.held files.old) wanted.entry) }
    ensures unfinished { IfErr result (λ fault. LeavesPart fault (O.contents out.old) (O.contents out.new)
        (SampleHas (F.held files.old) wanted.entry runs)) }
    ensures spared { SparesOthers (IsScriptFile wanted.entry.scripts) (F.held files.old) (F.held files.new) }
    ensures untouched { IfErr result (λ fault. ComesBeforeScripts fault → F.held files.new ≡ F.held files.old) }
    ensures noted { IfOk result (λ judgement. SampleRefusals (F.held files.old) wanted.entry runs (O.contents out.old) (O.contents out.new)
        (IsToldBy judgement (E.contents err.old) (E.contents err.new))) }
    ensures silent { IfErr result (λ fault. ComesBeforeScripts fault → E.contents err.new ≡ E.contents err.old) }
    ensures judged_first { OnErr result ((E.contents err.new ≡ E.contents err.old) ⊎ SampleRefusals (F.held files.old) wanted.entry runs (O.contents out.old) (O.contents out.new)
        (Begins (E.contents err.old) (E.contents err.new))) }
{
    let asked = Asked::read(alloc, files, wanted)?;
    let Ok(sampled) = runs_of(alloc, &asked, wanted, runs, seed, progress) else {
        return Err(Fault::OutOfMemory);
    };
    let found = Runs {
        sampled,
        asked: runs,
    };
    print(alloc, &found, out)?;
    let judgement = judge(alloc, wanted, &asked.allowed, &found, err);
    keep(alloc, files, wanted, asked.config, &found)?;
    judgement
}

/// The ends that so many random runs of a program come to. While they are made, `progress` is told how far they are.
fn runs_of<P: Progress>(
    alloc: Global,
    asked: &Asked,
    wanted: Explore<'_>,
    runs: u32,
    seed: u32,
    progress: &P,
) -> Result<Sampled, AllocError>
    ensures { IfOk result (AreRuns asked.now.image asked.now.config runs) }
{
    let watch = Telling { progress };
    let sampling = Sampling {
        runs: u64::from(runs),
        seed: u64::from(seed),
        shortened: wanted.shortens(),
    };
    let sampled = sample_ends(alloc, &asked.image, asked.config, sampling, &watch);
    progress.end();
    sampled
}
