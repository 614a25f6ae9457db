//! `rvtl explore --until`: random runs are looked through for a message, and the shortest way to it is printed.

ghost use Rattle.std.specs.Prelude.{◌≡◌, ◌⊎◌, Err, IfErr, IfOk, OnErr, OnOk};
ghost use Rattle.std.specs.Io.KnownBytes.{Appends};
ghost use Rattle.command_files.specs.Sizes.{IsOutside};
ghost use Rattle.explore_command.specs.Exploring.{IsExploreFault, LeavesPart};
ghost use Rattle.explore_command.specs.Until.{AreLookedThrough, IsWayNoted, IsWayTold, WayHas, judgement_of, runs_wanted, told_of, way_text};
ghost use Rattle.text_fields.specs.Writing.{Begins, Writes};
ghost use Rattle.trace_text.specs.Scripts.{text};

use crate::asked::Asked;
use crate::exploring::Telling;
use command_files::{Fault, Files, Judgement, script_of};
use command_settings::Explore;
use machine_types::Config;
use message_pattern::MessagePattern;
use message_search::{Met, RunWatch, Runs, Searched, Sought, search_runs};
use progress_line::{Progress, Stage};
use std::alloc::Global;
use std::io::{self, Write};
use text_fields::{Piece, put_pieces};
use trace_text::{Script, write_script};

/// How many random runs are made where it isn't said.
const RUNS: u32 = 1_000;

impl<P: Progress> RunWatch for Telling<'_, P> {
    fn made(&self, runs: u64) {
        self.progress.tell(Stage::Look { runs });
    }
}

/// Judges the machine's size, reads the image, makes as many random runs as are asked for, or 1,000, that the seed
/// determines, prints on `out` the script of the fewest events that were found to send the message, shortened unless it is
/// to be whole, and tells on `err` how many these are. What is not allowed is that none of the runs sends it. Where memory
/// ends, what was found is printed all the same. While they are made, `progress` is told how far they are.
pub fn until_files<'a, F: Files, O: Write, E: Write, P: Progress>(
    alloc: Global,
    files: &mut F,
    wanted: Explore<'a>,
    message: MessagePattern,
    out: &mut O,
    err: &mut E,
    progress: &P,
) -> Result<Judgement, Fault<'a>>
    ensures way { IfOk result (λ judgement. IsWayTold (F.held files.old) wanted.entry message judgement (O.contents out.old) (O.contents out.new)) }
    ensures noted { IfOk result (λ judgement. IsWayNoted (F.held files.old) wanted.entry message (O.contents out.old) (O.contents out.new) (E.contents err.old) (E.contents err.new)) }
    ensures outside { IsOutside wanted.entry.machine → result ≡ Err Fault.Configuration }
    ensures told { IfErr result (IsExploreFault (F.held files.old) wanted.entry) }
    ensures unfinished { IfErr result (λ fault. LeavesPart fault (O.contents out.old) (O.contents out.new)
        (WayHas (F.held files.old) wanted.entry message)) }
    ensures stays { F.held files.new ≡ F.held files.old }
    ensures silent { OnErr result (E.contents err.new ≡ E.contents err.old) }
{
    let asked = Asked::read(alloc, files, wanted)?;
    let searched = searched_in(alloc, &asked, wanted, message, progress);
    let (runs, events) = (searched.runs, searched.length());
    let Searched {
        met,
        out_of_memory,
        ..
    } = searched;
    print_way(asked.config, wanted.machine.memory, met, out)?;
    if out_of_memory {
        return Err(Fault::OutOfMemory);
    }
    // Standard error has no other place to tell that it takes no more.
    let _ = tell_way(runs, events, err);
    Ok(judgement_of(events))
}

/// What random runs of a program show of a message. While they are made, `progress` is told how far they are.
fn searched_in<P: Progress>(
    alloc: Global,
    asked: &Asked,
    wanted: Explore<'_>,
    message: MessagePattern,
    progress: &P,
) -> Searched
    ensures { AreLookedThrough asked.now.image asked.now.config message (runs_wanted wanted.entry.sample) result }
{
    let watch = Telling { progress };
    let runs = Runs {
        count: u64::from(runs_wanted(wanted.sample)),
        seed: u64::from(wanted.seed),
        shortened: !wanted.whole,
    };
    let sought = Sought::new(message, asked.config.line);
    let searched = search_runs(alloc, &asked.image, asked.config, runs, &sought, &watch);
    progress.end();
    searched
}

/// As many random runs as are asked for, or 1,000.
fn runs_wanted(sample: u32) -> u32
    ensures { result ≡ runs_wanted sample }
{
    if sample == 0 { RUNS } else { sample }
}

/// Prints the script of the events that send the message, if some are known to.
fn print_way<'a, O: Write>(
    config: Config,
    kib: u32,
    met: Option<Met>,
    out: &mut O,
) -> Result<(), Fault<'a>>
    ensures printed { OnOk result (Appends (O.contents out.old) (O.contents out.new) (way_text config kib met)) }
    ensures told { IfErr result (λ fault. (fault ≡ Fault.CannotWrite) ⊎ (fault ≡ Fault.OutOfMemory)) }
    ensures begun { OnErr result (Begins (O.contents out.old) (O.contents out.new) (way_text config kib met)) }
{
    let Some(met) = met else {
        return Ok(());
    };
    let script = script_of(config, kib, met.events);
    print_script(&script, out)
}

fn print_script<'a, O: Write>(script: &Script, out: &mut O) -> Result<(), Fault<'a>>
    ensures printed { OnOk result (Appends (O.contents out.old) (O.contents out.new) (text script.now)) }
    ensures told { IfErr result (λ fault. (fault ≡ Fault.CannotWrite) ⊎ (fault ≡ Fault.OutOfMemory)) }
    ensures begun { OnErr result (Begins (O.contents out.old) (O.contents out.new) (text script.now)) }
{
    if let Err(error) = write_script(script, out) {
        return Err(Fault::writing(error));
    }
    match out.flush() {
        Ok(()) => Ok(()),
        Err(error) => Err(Fault::writing(error)),
    }
}

/// Tells by how many events so many random runs send the message, if one of them does.
fn tell_way<E: Write>(runs: u64, events: Option<usize>, err: &mut E) -> io::Result<()>
    ensures { Writes (E.contents err.old) (E.contents err.new) (told_of runs events) result }
{
    match events {
        Some(events) => put_pieces(
            err,
            &[
                Piece::Text(b"the last of "),
                Piece::Number(events as u64),
                Piece::Text(b" events sends the message, and none of "),
                Piece::Number(runs),
                Piece::Text(b" random runs sends it by fewer\n"),
            ],
        ),
        None => put_pieces(
            err,
            &[
                Piece::Text(b"none of "),
                Piece::Number(runs),
                Piece::Text(b" random runs sends the message (--until)\n"),
            ],
        ),
    }
}

/// What is not allowed is that no run sends the message.
fn judgement_of(events: Option<usize>) -> Judgement
    ensures { result ≡ judgement_of events }
{
    match events {
        Some(_) => Judgement::Allowed,
        None => Judgement::NotAllowed,
    }
}
