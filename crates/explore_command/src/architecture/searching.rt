//! `rvtl explore --architecture`: what a memory model allows a program is sought, told, judged and kept.

ghost use Rattle.std.specs.Prelude.{◌≡◌, ◌⊎◌, ◌<◌, Err, IfErr, IfOk, OnErr, option_map};
ghost use Rattle.explore_command.specs.ModelKeeping.{IsFileInNamed};
ghost use Rattle.explore_command.specs.Searching.{IsFoundUnder, IsSearchFault, IsSearchNoted, IsSearched, SearchHas};
ghost use Rattle.explore_command.specs.Telling.{AreRemarked};
ghost use Rattle.command_files.specs.Sizes.{IsOutside};
ghost use Rattle.explore_command.specs.Exploring.{ComesBeforeScripts, LeavesPart};
ghost use Rattle.explore_command.specs.Keeping.{SparesOthers};
ghost use Rattle.explore_command.specs.Sought.{EndsUnder};
ghost use Rattle.explorer.specs.Words.{CanShowEach};

use crate::architecture::allowed::Searched;
use crate::architecture::seeking::FirstOutcome;
use crate::architecture::telling::remarks_on;
use crate::exploring::Telling;
use crate::findings::print;
use crate::judging::judge;
use crate::keeping::keep;
use crate::show::AskedWords;
use architecture_outcomes::{Architecture, Outcome, explore_architecture};
use command_files::{Fault, Files, Judgement};
use command_settings::Explore;
use elf_loader::Image;
use exploration_text::WordName;
use explorer::Exploring;
use machine_types::Config;
use progress_line::Progress;
use std::alloc::{AllocError, Global};
use std::io::Write;
use text_fields::put;

/// Judges the machine's size, reads what is allowed, then the image, looks for the words of memory that are to be
/// shown, of which there need be none, and whether the folder may have scripts, searches for what the memory model
/// allows with at most `window` operations of a hart waiting at a time, prints what is found on `out`, judges the
/// outcomes, and writes scripts and traces. Before these are written, `err` has been told how the traces of what the
/// model alone allows leave program order, where a folder is named for them, and which outcomes aren't allowed. Where
/// memory ends, what was found is printed, judged and written all the same. While it searches, `progress` is told how
/// far it is.
pub fn architecture_files<'a, F: Files, O: Write, E: Write, P: Progress>(
    alloc: Global,
    files: &mut F,
    wanted: Explore<'a>,
    words: &[&'a str],
    window: u32,
    out: &mut O,
    err: &mut E,
    progress: &P,
) -> Result<Judgement, Fault<'a>>
    requires room { 0 < wanted.states }
    ensures searched { IfOk result (λ judgement. IsSearched (F.held files.old) (F.held files.new) wanted.entry words.now window judgement (O.contents out.old) (O.contents out.new)) }
    ensures outside { IsOutside wanted.entry.machine → result ≡ Err Fault.Configuration }
    ensures told { IfErr result (IsSearchFault (F.held files.old) wanted.entry words.now) }
    ensures unfinished { IfErr result (λ fault. LeavesPart fault (O.contents out.old) (O.contents out.new)
        (SearchHas (F.held files.old) wanted.entry words.now window)) }
    ensures spared { SparesOthers (IsFileInNamed wanted.entry.scripts) (F.held files.old) (F.held files.new) }
    ensures untouched { IfErr result (λ fault. ComesBeforeScripts fault → F.held files.new ≡ F.held files.old) }
    ensures noted { IfOk result (λ judgement. IsSearchNoted (F.held files.old) wanted.entry words.now window judgement (O.contents out.old) (O.contents out.new) (E.contents err.old) (E.contents err.new)) }
    ensures silent { IfErr result (λ fault. ComesBeforeScripts fault → E.contents err.new ≡ E.contents err.old) }
    ensures judged_first { OnErr result ((E.contents err.new ≡ E.contents err.old) ⊎ IsSearchNoted (F.held files.old) wanted.entry words.now window Judgement.NotAllowed (O.contents out.old) (O.contents out.new) (E.contents err.old) (E.contents err.new)) }
{
    let AskedWords {
        config,
        image,
        symbols,
        allowed,
        targets,
    } = AskedWords::read(alloc, files, wanted, words)?;
    let Ok(architecture) = found_under(
        alloc,
        &image,
        config,
        &targets.addresses,
        window,
        wanted,
        &targets.names,
        &allowed,
        progress,
    ) else {
        return Err(Fault::OutOfMemory);
    };
    let found = Searched {
        names: targets.names,
        symbols,
        architecture,
    };
    // Called for its clause that the bytes are an image's.
    let _entry = image.entry();
    print(alloc, &found, out)?;
    let remarked = tell(alloc, wanted, &found.architecture.outcomes, err);
    let judgement = judge(alloc, wanted, &allowed, &found, err);
    keep(alloc, files, wanted, config, &found)?;
    remarked?;
    judgement
}

/// What the memory model allows a program, with these words of memory. While it searches, `progress` is told how far it
/// is.
fn found_under<P: Progress>(
    alloc: Global,
    image: &Image,
    config: Config,
    addresses: &[u32],
    window: u32,
    wanted: Explore<'_>,
    names: &[WordName<'_>],
    allowed: &Option<Vec<u8>>,
    progress: &P,
) -> Result<Architecture, AllocError>
    requires room { 0 < wanted.states }
    requires words { CanShowEach image.now addresses.now }
    ensures found { IfOk result (IsFoundUnder image.now config addresses.now window wanted.entry.states) }
    ensures ends { IfOk result (EndsUnder wanted.entry.first wanted.entry.seconds names.now (option_map (λ bytes. bytes.items) allowed.now)) }
{
    let watch = Telling { progress };
    let exploring = Exploring {
        limit: wanted.states,
        shortened: wanted.shortens(),
    };
    let (is_asked, seconds) = (wanted.first, wanted.seconds);
    let seek = FirstOutcome::new(alloc, is_asked, names, allowed, seconds, progress)?;
    let found = explore_architecture(
        alloc, image, config, addresses, window, exploring, &watch, &seek, &seek,
    );
    progress.end();
    found
}

/// Tells what the traces show, where a folder is named for them. Where memory ends, it tells nothing.
fn tell<'a, E: Write>(
    alloc: Global,
    wanted: Explore<'a>,
    outcomes: &[Outcome],
    err: &mut E,
) -> Result<(), Fault<'a>>
    ensures told { IfErr result (λ fault. fault ≡ Fault.OutOfMemory) }
    ensures remarked { AreRemarked wanted.entry.scripts outcomes.now (E.contents err.old) (E.contents err.new) }
    ensures silent { OnErr result (E.contents err.new ≡ E.contents err.old) }
{
    if wanted.scripts.is_none() {
        return Ok(());
    }
    let Ok(remarks) = remarks_on(alloc, outcomes) else {
        return Err(Fault::OutOfMemory);
    };
    // Standard error has no other place to tell that it takes no more.
    let _ = put(err, &remarks);
    Ok(())
}
