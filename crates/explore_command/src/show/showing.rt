//! `rvtl explore --show`: every end that the machine can bring a program to is found with words of memory, told,
//! judged and kept.

ghost use Rattle.std.specs.Prelude.{◌≡◌, ◌⊎◌, ◌<◌, Err, IfErr, IfOk, IfSome, IsNone, OnErr, option_map};
ghost use Rattle.command_files.specs.Faults.{Name};
ghost use Rattle.command_files.specs.Sizes.{IsOutside};
ghost use Rattle.explore_command.specs.Exploring.{ComesBeforeScripts, IsFoundIn, LeavesPart};
ghost use Rattle.explore_command.specs.Judging.{IsToldBy};
ghost use Rattle.explore_command.specs.Keeping.{IsScriptFile, SparesOthers};
ghost use Rattle.explore_command.specs.Showing.{IsElsewhere, IsFirstOf, IsShowFault, AreWordsShown, WordRefusals, WordsHave};
ghost use Rattle.explore_command.specs.Sought.{EndsBy};
ghost use Rattle.explorer.specs.Words.{CanShowEach};
ghost use Rattle.text_fields.specs.Writing.{Begins};

use crate::exploring::Telling;
use crate::findings::print;
use crate::judging::judge;
use crate::keeping::keep;
use crate::seeking::First;
use crate::show::asked::AskedWords;
use crate::show::words::Shown;
use command_files::{Fault, Files, Judgement, Unshown};
use command_settings::{Explore, Show};
use explorer::{Exploration, Exploring, explore};
use progress_line::Progress;
use std::alloc::{AllocError, Global};
use std::io::Write;

/// Does what `explore_files` does, where words of memory are to be shown: each is judged behind the image. Random runs
/// show none.
pub fn show_files<'a, F: Files, O: Write, E: Write, P: Progress>(
    alloc: Global,
    files: &mut F,
    wanted: &Show<'a>,
    out: &mut O,
    err: &mut E,
    progress: &P,
) -> Result<Judgement, Fault<'a>>
    requires room { 0 < wanted.now.explore.states }
    ensures shown { IfOk result (λ judgement. AreWordsShown (F.held files.old) (F.held files.new) wanted.now judgement (O.contents out.old) (O.contents out.new)) }
    ensures elsewhere { IsElsewhere wanted.now.explore → (word : Name) × IsFirstOf wanted.now.words.items word × (result ≡ Err (Fault.CannotShow word Unshown.Elsewhere)) }
    ensures outside { IsOutside wanted.now.explore.machine → (result ≡ Err Fault.Configuration) ⊎ IsElsewhere wanted.now.explore }
    ensures told { IfErr result (IsShowFault (F.held files.old) wanted.now) }
    ensures unfinished { IfErr result (λ fault. LeavesPart fault (O.contents out.old) (O.contents out.new)
        (WordsHave (F.held files.old) wanted.now)) }
    ensures spared { SparesOthers (IsScriptFile wanted.now.explore.scripts) (F.held files.old) (F.held files.new) }
    ensures untouched { IfErr result (λ fault. ComesBeforeScripts fault → F.held files.new ≡ F.held files.old) }
    ensures noted { IfOk result (λ judgement. WordRefusals (F.held files.old) wanted.now (O.contents out.old) (O.contents out.new)
        (IsToldBy judgement (E.contents err.old) (E.contents err.new))) }
    ensures silent { IfErr result (λ fault. ComesBeforeScripts fault → E.contents err.new ≡ E.contents err.old) }
    ensures judged_first { OnErr result ((E.contents err.new ≡ E.contents err.old) ⊎ WordRefusals (F.held files.old) wanted.now (O.contents out.old) (O.contents out.new)
        (Begins (E.contents err.old) (E.contents err.new))) }
{
    let asked = wanted.explore;
    if let Some(word) = sought_elsewhere(wanted) {
        let cause = Unshown::Elsewhere;
        return Err(Fault::CannotShow { word, cause });
    }
    let words = AskedWords::read(alloc, files, asked, &wanted.words)?;
    let Ok(exploration) = found_in(alloc, &words, asked, progress) else {
        return Err(Fault::OutOfMemory);
    };
    let AskedWords {
        config,
        symbols,
        allowed,
        targets,
        ..
    } = words;
    let found = Shown {
        names: targets.names,
        symbols,
        exploration,
    };
    print(alloc, &found, out)?;
    let judgement = judge(alloc, asked, &allowed, &found, err);
    keep(alloc, files, asked, config, &found)?;
    judgement
}

/// The ends that the machine can bring a program to, with the words of memory that are asked for, or the first that is
/// sought. While it explores, `progress` is told how far it is.
fn found_in<P: Progress>(
    alloc: Global,
    asked: &AskedWords<'_>,
    wanted: Explore<'_>,
    progress: &P,
) -> Result<Exploration, AllocError>
    requires room { 0 < wanted.states }
    requires words { CanShowEach asked.now.image asked.now.targets.addresses.items }
    ensures found { IfOk result (IsFoundIn asked.now.image asked.now.config asked.now.targets.addresses.items wanted.entry.states) }
    ensures ends { IfOk result (EndsBy wanted.entry.first wanted.entry.seconds asked.now.targets.names.items (option_map (λ bytes. bytes.items) asked.now.allowed)) }
{
    let watch = Telling { progress };
    let exploring = Exploring {
        limit: wanted.states,
        shortened: wanted.shortens(),
    };
    let names = &asked.targets.names;
    let (is_asked, seconds) = (wanted.first, wanted.seconds);
    let seek = First::new(alloc, is_asked, names, &asked.allowed, seconds, progress)?;
    let addresses = &asked.targets.addresses;
    let found = explore(
        alloc,
        &asked.image,
        asked.config,
        addresses,
        exploring,
        &watch,
        &seek,
    );
    progress.end();
    found
}

/// The first of the words that are to be shown, where random runs are asked for.
fn sought_elsewhere<'a>(wanted: &Show<'a>) -> Option<&'a str>
    ensures sought { IfSome result (λ _. IsElsewhere wanted.now.explore) }
    ensures first { IfSome result (IsFirstOf wanted.now.words.items) }
    ensures none { IsNone result → IsElsewhere wanted.now.explore → ⊥ }
{
    if wanted.explore.sample == 0 {
        return None;
    }
    match wanted.words.as_slice() {
        [first, ..] => Some(first),
        [] => Some(""),
    }
}
