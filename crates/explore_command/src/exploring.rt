//! `rvtl explore`: every end that the machine can bring a program to is found, told, judged and kept.

ghost use Rattle.std.specs.Prelude.{◌≡◌, ◌⊎◌, ◌<◌, [], Err, IfErr, IfOk, OnErr, option_map};
ghost use Rattle.command_files.specs.Sizes.{IsOutside};
ghost use Rattle.explore_command.specs.Exploring.{ComesBeforeScripts, ExplorationHas, ExplorationRefusals, IsExploreFault, IsExplorationTold, IsFoundIn, LeavesPart};
ghost use Rattle.explore_command.specs.Judging.{IsToldBy};
ghost use Rattle.explore_command.specs.Keeping.{IsScriptFile, SparesOthers};
ghost use Rattle.explore_command.specs.Sought.{EndsBy};
ghost use Rattle.text_fields.specs.Writing.{Begins};

use crate::asked::Asked;
use crate::exploration::Explored;
use crate::findings::print;
use crate::judging::judge;
use crate::keeping::keep;
use crate::seeking::First;
use command_files::{Fault, Files, Judgement};
use command_settings::Explore;
use explorer::{Exploration, Exploring, explore};
use progress_line::{Progress, Stage};
use state_search::Watch;
use std::alloc::{AllocError, Global};
use std::io::Write;

/// Tells a command's progress how far its search is.
#[derive(Drop)]
pub(crate) struct Telling<'p, P> {
    pub progress: &'p P,
}

impl<P: Progress> Watch for Telling<'_, P> {
    fn found(&self, states: u64, outcomes: u64) {
        self.progress.tell(Stage::Explore { states, outcomes });
    }
}

/// Judges the machine's size, reads what is allowed, then the image, looks whether the folder may have scripts,
/// explores the image, prints what is found on `out`, judges the outcomes, and writes their scripts: `err` has been
/// told which outcomes aren't allowed also where the scripts can't be written in the end. Where memory ends, what
/// was found is printed, judged and written all the same. While it explores, `progress` is told how far it is.
pub fn explore_files<'a, F: Files, O: Write, E: Write, P: Progress>(
    alloc: Global,
    files: &mut F,
    wanted: Explore<'a>,
    out: &mut O,
    err: &mut E,
    progress: &P,
) -> Result<Judgement, Fault<'a>>
    requires room { 0 < wanted.states }
    ensures explored { IfOk result (λ judgement. IsExplorationTold (F.held files.old) (F.held files.new) wanted.entry judgement (O.contents out.old) (O.contents out.new)) }
    ensures outside { IsOutside wanted.entry.machine → result ≡ Err Fault.Configuration }
    ensures told { IfErr result (IsExploreFault (F.held files.old) wanted.entry) }
    ensures unfinished { IfErr result (λ fault. LeavesPart fault (O.contents out.old) (O.contents out.new)
        (ExplorationHas (F.held files.old) wanted.entry)) }
    ensures spared { SparesOthers (IsScriptFile wanted.entry.scripts) (F.held files.old) (F.held files.new) }
    ensures untouched { IfErr result (λ fault. ComesBeforeScripts fault → F.held files.new ≡ F.held files.old) }
    ensures noted { IfOk result (λ judgement. ExplorationRefusals (F.held files.old) wanted.entry (O.contents out.old) (O.contents out.new)
        (IsToldBy judgement (E.contents err.old) (E.contents err.new))) }
    ensures silent { IfErr result (λ fault. ComesBeforeScripts fault → E.contents err.new ≡ E.contents err.old) }
    ensures judged_first { OnErr result ((E.contents err.new ≡ E.contents err.old) ⊎ ExplorationRefusals (F.held files.old) wanted.entry (O.contents out.old) (O.contents out.new)
        (Begins (E.contents err.old) (E.contents err.new))) }
{
    let asked = Asked::read(alloc, files, wanted)?;
    let Ok(exploration) = found_in(alloc, &asked, wanted, progress) else {
        return Err(Fault::OutOfMemory);
    };
    let found = Explored {
        symbols: &asked.symbols,
        exploration,
    };
    print(alloc, &found, out)?;
    let judgement = judge(alloc, wanted, &asked.allowed, &found, err);
    keep(alloc, files, wanted, asked.config, &found)?;
    judgement
}

/// The ends that the machine can bring a program to, or the first that is sought. While it explores, `progress` is told how
/// far it is.
fn found_in<P: Progress>(
    alloc: Global,
    asked: &Asked,
    wanted: Explore<'_>,
    progress: &P,
) -> Result<Exploration, AllocError>
    requires room { 0 < wanted.states }
    ensures found { IfOk result (IsFoundIn asked.now.image asked.now.config [] wanted.entry.states) }
    ensures ends { IfOk result (EndsBy wanted.entry.first wanted.entry.seconds [] (option_map (λ bytes. bytes.items) asked.now.allowed)) }
{
    let watch = Telling { progress };
    let exploring = Exploring {
        limit: wanted.states,
        shortened: wanted.shortens(),
    };
    let seek = First::new(
        alloc,
        wanted.first,
        &[],
        &asked.allowed,
        wanted.seconds,
        progress,
    )?;
    let found = explore(
        alloc,
        &asked.image,
        asked.config,
        &[],
        exploring,
        &watch,
        &seek,
    );
    progress.end();
    found
}
