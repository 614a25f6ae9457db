//! `rvtl run`: a program runs with a thread for each hart, what happened is kept as a script, and the
//! trace printed.

ghost use Rattle.std.specs.Prelude.{◌≡◌, ◌≢◌, ◌⊎◌, ◌++◌, ℕ, Err, IfErr, IfOk, IsErr, List, OnErr, OnOk, map};
ghost use Rattle.std.specs.Io.KnownBytes.{Appends};
ghost use Rattle.std.specs.List.{list_any};
ghost use Rattle.command_files.specs.Contents.{HoldsBytes};
ghost use Rattle.command_files.specs.Ends.{hart_lines};
ghost use Rattle.command_settings.specs.Settings.{fails_on_stop};
ghost use Rattle.run_command.specs.Running.{ComesBeforeJournal, IsRun, IsRunCutOff, IsRunEndTold, is_stopped, judgement_line, judgement_of, run_fault};
ghost use Rattle.command_files.specs.Sizes.{IsOutside};
ghost use Rattle.run_command.specs.Running.{IsRunFault};
ghost use Rattle.command_files.specs.Faults.{LeavesAtFault};
ghost use Rattle.text_fields.specs.Writing.{Begins, Writes};
ghost use Rattle.trace_text.specs.Scripts.{text};
ghost use Rattle.trace_text.specs.TraceLimits.{IsTrace};
ghost use Rattle.trace_text.specs.Traces.{text as trace_text};

use crate::limits::LimitNote;
use command_files::{
    Fault, Files, Judgement, NamedImage, check_writable, every_trace_has_a_text, named_config,
    named_image_in, out_of_limits, print_ends, remark, script_of, unmade,
};
use command_settings::Run;
use elf_symbols::Symbols;
use hart::Status;
use host_threads::{Gate, Report, RunError, run};
use progress_line::{Progress, Stage};
use std::alloc::Global;
use std::io::{self, Write};
use std::sync::Wait;
use std::sync::atomic::{AtomicU64, Ordering};
use std::thread::Threads;
use stop_text::StopNote;
use text_fields::put;
use trace_recorder::Trace;
use trace_text::{Script, write_script, write_trace};

/// How many turns a worker takes before it tells how far the run is.
const TURNS: u64 = 256;

/// Holds no hart up, and tells how far the run is.
#[derive(Drop)]
struct Watch<'p, P> {
    progress: &'p P,
    // How many events were tried, as far as it is known here.
    events: AtomicU64,
}

impl<'p, P> Watch<'p, P> {
    fn new(progress: &'p P) -> Watch<'p, P> {
        Watch {
            progress,
            events: AtomicU64::new(0),
        }
    }
}

impl<P: Progress> Gate for Watch<'_, P> {
    fn pass(&self, _hart: u8, turn: u64, lengths: &[u64]) {
        if turn % TURNS == 0 {
            let events = self.events.load(Ordering::SeqCst);
            self.progress.tell(Stage::Run {
                events,
                retired: lengths,
            });
        }
    }

    fn draw(&self, _hart: u8, number: u64) {
        if number % TURNS == 0 {
            self.events.store(number, Ordering::SeqCst);
        }
    }
}

/// Judges the machine's size, reads the image, runs it, writes the journal, and then prints the trace on
/// `out` and each hart's end on `err`. Where the journal is not written nothing is printed. A journal in no
/// folder, or over the image's file or standard output by whatever name, is refused before the run, which can't be
/// made again. Where
/// and why harts stopped is remarked, and which limits ended the run before its harts. Where a hart stopped and the run may
/// not come to that, that is told behind the harts' ends. While it runs, `progress` is told how far it is.
pub fn run_files<'a, R: Threads + Wait + Sync, F: Files, O: Write, E: Write, P: Progress + Sync>(
    rt: &R,
    alloc: Global,
    files: &mut F,
    wanted: Run<'a>,
    out: &mut O,
    err: &mut E,
    progress: &P,
) -> Result<Judgement, Fault<'a>>
    ensures ran { IfOk result (λ judgement. IsRun (F.held files.old) (F.held files.new) wanted.entry judgement (O.contents out.old) (O.contents out.new)) }
    ensures ends { IfOk result (λ judgement. IsRunEndTold (F.held files.old) (F.held files.new) wanted.entry judgement (E.contents err.old) (E.contents err.new)) }
    ensures silent { OnErr result (E.contents err.new ≡ E.contents err.old) }
    ensures outside { IsOutside wanted.entry.machine → result ≡ Err Fault.Configuration }
    ensures told { IfErr result (IsRunFault (F.held files.old) wanted.entry) }
    ensures unfinished { IfErr result (λ fault. LeavesAtFault fault (O.contents out.old) (O.contents out.new)
        (IsRunCutOff (F.held files.old) (F.held files.new) wanted.entry (O.contents out.old) (O.contents out.new))) }
    ensures spared { (other : List ℕ) → other ≢ wanted.entry.journal.now → F.held files.new other ≡ F.held files.old other }
    ensures image { F.held files.new wanted.entry.image.now ≡ F.held files.old wanted.entry.image.now }
    ensures one_file { F.are_one wanted.entry.image.now wanted.entry.journal.now → IsErr result × (F.held files.new ≡ F.held files.old) }
    ensures untouched { IfErr result (λ fault. ComesBeforeJournal fault → F.held files.new ≡ F.held files.old) }
{
    every_trace_has_a_text();
    let Some(config) = named_config(wanted.machine) else {
        return Err(out_of_limits(alloc, files, wanted.machine));
    };
    let NamedImage { image, names } = named_image_in(
        alloc,
        files,
        wanted.raw,
        wanted.image,
        wanted.machine.memory,
    )?;
    check_journal(alloc, files, wanted.image, wanted.journal)?;
    let limit = u64::from(wanted.limit);
    let watch = Watch::new(progress);
    let report = match run(rt, alloc, image, config, limit, &watch) {
        Ok(report) => report,
        Err(error) => {
            progress.end();
            return Err(fault_of(error));
        }
    };
    progress.end();
    let Report {
        trace,
        outputs,
        journal,
        receipts: _,
    } = report;
    let changes = journal.len();
    let script = script_of(config, wanted.machine.memory, journal);
    remark_ends(alloc, files, &trace, &names, changes, limit);
    keep(alloc, files, wanted.journal, &script)?;
    print(&trace, out)?;
    let judgement = judged(wanted.fails_on_stop(), trace.statuses());
    // Standard error has no other place to tell that it takes no more.
    let _ = tell_ends(trace.statuses(), outputs.as_slice(), judgement, err);
    Ok(judgement)
}

/// Whether harts that ended so are what a run may come to.
fn judged(fails_on_stop: bool, statuses: &[Status]) -> Judgement
    ensures { result ≡ judgement_of fails_on_stop statuses.now }
{
    if !fails_on_stop {
        return Judgement::Allowed;
    }
    if have_stopped(statuses) {
        Judgement::NotAllowed
    } else {
        Judgement::Allowed
    }
}

/// Whether a hart of these stopped.
fn have_stopped(statuses: &[Status]) -> bool
    ensures { result ≡ list_any is_stopped statuses.now }
{
    statuses.iter().any(|status| is_stopped(*status))
}

fn is_stopped(status: Status) -> bool
    ensures { result ≡ is_stopped status }
{
    match status {
        Status::Stopped(_) => true,
        Status::Running | Status::Exited(_) => false,
    }
}

/// How each hart ended, and what was judged of that.
fn tell_ends<E: Write>(
    statuses: &[Status],
    outputs: &[Vec<u32>],
    judgement: Judgement,
    err: &mut E,
) -> io::Result<()>
    ensures { Writes (E.contents err.old) (E.contents err.new) (hart_lines 0 statuses.now (map (λ output. output.items) outputs.now) ++ judgement_line judgement) result }
{
    print_ends(statuses, outputs, err)?;
    match judgement {
        Judgement::Allowed => Ok(()),
        Judgement::NotAllowed => put(err, b"a hart stopped (--fail-on stop)\n"),
    }
}

/// Refuses a journal of which no file can be made, and one that would be written over the program or be lost in
/// what is printed.
fn check_journal<'a, F: Files>(
    alloc: Global,
    files: &mut F,
    image: &str,
    journal: &'a str,
) -> Result<(), Fault<'a>>
    ensures apart { OnOk result (image.now ≢ journal.entry.now) }
    ensures two_files { OnOk result (¬ F.are_one image.now journal.entry.now) }
    ensures told { IfErr result (λ fault. (fault ≡ Fault.CannotMake journal.entry) ⊎ (fault ≡ Fault.OutOfMemory)) }
    ensures stays { F.held files.new ≡ F.held files.old }
{
    spare_image(alloc, files, image, journal)?;
    spare_output(alloc, files, journal)?;
    check_writable(alloc, files, journal)?;
    Ok(())
}

/// Refuses a journal that would be written over the program, also by another name of that file.
fn spare_image<'a, F: Files>(
    alloc: Global,
    files: &mut F,
    image: &str,
    journal: &'a str,
) -> Result<(), Fault<'a>>
    ensures apart { OnOk result (image.now ≢ journal.entry.now) }
    ensures two_files { OnOk result (¬ F.are_one image.now journal.entry.now) }
    ensures told { IfErr result (λ fault. fault ≡ Fault.CannotMake journal.entry) }
    ensures stays { F.held files.new ≡ F.held files.old }
{
    if journal == image || files.are_same(image, journal) {
        remark(
            alloc,
            files,
            "this is the program: name another file for --journal",
        );
        return Err(Fault::CannotMake { file: journal });
    }
    Ok(())
}

/// Refuses a journal in the file that standard output goes into, by whatever name.
fn spare_output<'a, F: Files>(
    alloc: Global,
    files: &mut F,
    journal: &'a str,
) -> Result<(), Fault<'a>>
    ensures told { IfErr result (λ fault. fault ≡ Fault.CannotMake journal.entry) }
    ensures stays { F.held files.new ≡ F.held files.old }
{
    if files.is_output(journal) {
        remark(
            alloc,
            files,
            "standard output goes into this file: name another one for --journal",
        );
        return Err(Fault::CannotMake { file: journal });
    }
    Ok(())
}

/// Remarks where and why harts stopped, and which limits ended the run before its harts: so many events changed the
/// machine, and as many as the limit says were tried at most.
fn remark_ends<F: Files>(
    alloc: Global,
    files: &mut F,
    trace: &Trace,
    names: &Symbols,
    changes: usize,
    limit: u64,
)
    ensures stays { F.held files.new ≡ F.held files.old }
{
    let stops = StopNote { trace, names };
    let limits = LimitNote {
        trace,
        changes,
        tries: limit,
    };
    match (stops.is_needed(), limits.is_needed()) {
        (false, false) => {}
        (true, false) => remark(alloc, files, stops),
        (false, true) => remark(alloc, files, limits),
        (true, true) => remark(alloc, files, format_args!("{stops}; {limits}")),
    }
}

/// Why a run left no report.
fn fault_of<'a>(error: RunError) -> Fault<'a>
    ensures { result ≡ run_fault error }
{
    match error {
        RunError::Config => Fault::Configuration,
        RunError::NoMemory => Fault::OutOfMemory,
        RunError::Thread => Fault::NoThread,
        RunError::Mismatch => Fault::Mismatch,
        RunError::BadEvent => Fault::BadEvent,
    }
}

/// Writes a script into the file of this name.
fn keep<'a, F: Files>(
    alloc: Global,
    files: &mut F,
    name: &'a str,
    script: &Script,
) -> Result<(), Fault<'a>>
    ensures kept { OnOk result (HoldsBytes (F.held files.new) name.entry.now (text script.now)) }
    ensures told { IfErr result (λ fault. (fault ≡ Fault.CannotMake name.entry) ⊎ (fault ≡ Fault.OutOfMemory)) }
    ensures others { (other : List ℕ) → other ≢ name.entry.now → F.held files.new other ≡ F.held files.old other }
{
    let mut bytes = Vec::new(alloc);
    // Only memory can be wanting.
    if let Err(error) = write_script(script, &mut bytes) {
        return Err(Fault::making(name, error));
    }
    match files.write(name, bytes.as_slice()) {
        Ok(()) => Ok(()),
        Err(error) => Err(unmade(alloc, files, name, error)),
    }
}

fn print<'a, O: Write>(trace: &Trace, out: &mut O) -> Result<(), Fault<'a>>
    requires { IsTrace trace.now.history }
    ensures printed { OnOk result (Appends (O.contents out.old) (O.contents out.new) (trace_text trace.now.history)) }
    ensures told { IfErr result (λ fault. (fault ≡ Fault.CannotWrite) ⊎ (fault ≡ Fault.OutOfMemory)) }
    ensures begun { OnErr result (Begins (O.contents out.old) (O.contents out.new) (trace_text trace.now.history)) }
{
    if let Err(error) = write_trace(trace, out) {
        return Err(Fault::writing(error));
    }
    match out.flush() {
        Ok(()) => Ok(()),
        Err(error) => Err(Fault::writing(error)),
    }
}
