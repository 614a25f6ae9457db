//! What the words ask for is carried out, command by command.

ghost use Rattle.std.specs.Prelude.{◌≡◌, ◌≢◌, ◌⊎◌, ◌<◌, Err, IfErr, IfOk, OnErr, OnOk, nat_lt};
ghost use Rattle.clap.specs.Words.{Text};
ghost use Rattle.command_files.specs.Faults.{LeavesAtFault, Name};
ghost use Rattle.command_files.specs.Sizes.{IsOutside};
ghost use Rattle.command_files.specs.Status.{status_of};
ghost use Rattle.command_settings.specs.Settings.{asks_tilelink, message_in};
ghost use Rattle.command_line.specs.Telling.{AreJudged, AreWordsJudged, ComesBeforeFiles, IsExplainingFault, IsFaultOfCommand, IsJudgingFault, IsNotedAt, IsShowingFault, LeavesOf, LeavesOfExplaining};
ghost use Rattle.command_line.specs.Running.{Came, CheckCame, CheckNoted, ExplainBroke, ExplainCame, ExploreCame, ExploreHas, ExploreNoted, MeetsSomeState, IsOutOfRange, IsCheckBroken, IsExploreFile, IsNoted, IsWritten, ShowCame, ShowHas, ShowNoted, ShowsElsewhere, message_check_of, profile_of, skips, strictness_of, tells_all};
ghost use Rattle.explore_command.specs.Exploring.{ComesBeforeScripts, IsExploreFault, LeavesPart};
ghost use Rattle.explore_command.specs.Keeping.{SparesOthers};
ghost use Rattle.explore_command.specs.Showing.{IsFirstOf};

use command_files::event_stream::Strictness;
use command_files::{Fault, Files, Judgement, Unshown};
use command_settings::{Breaches, Check, Explain, Explore, OtherOpcodes, Settings, Show};
use explore_command::{architecture_files, explore_files, sample_files, show_files, until_files};
use fences_command::fences_files;
use message_judge::{MessageVerdict, Profile};
use progress_line::Progress;
use run_command::run_files;
use rvwmo_order::Verdict;
use script_commands::{chart_files, replay_files, wave_files};
use std::alloc::Global;
use std::io::Write;
use std::sync::Wait;
use std::thread::Threads;
use trace_commands::check_command::{MessageCheck, check_file, check_messages};
use trace_commands::{explain_files, page_files};

/// Carries out what the words ask for. What it answers is not allowed where an order or messages aren't
/// legal, an outcome isn't one that is allowed, a hart of a run stopped that may not, or a message that was looked for isn't
/// sent.
pub(crate) fn carry_out<
    'a,
    R: Threads + Wait + Sync,
    F: Files,
    O: Write,
    E: Write,
    P: Progress + Sync,
>(
    rt: &R,
    alloc: Global,
    wanted: Settings<'a>,
    files: &mut F,
    out: &mut O,
    err: &mut E,
    progress: &P,
) -> Result<Judgement, Fault<'a>>
    requires room { MeetsSomeState wanted }
    ensures came { IfOk result (Came (F.held files.old) (F.held files.new) (O.contents out.old) (O.contents out.new) wanted.entry) }
    ensures noted { IfOk result (λ judgement. IsNoted (F.held files.old) (F.held files.new) (O.contents out.old) (O.contents out.new) (E.contents err.old) (E.contents err.new) judgement wanted.entry) }
    ensures inside { IfOk result (λ _. ¬ IsOutOfRange wanted.entry) }
    ensures leaves { IfErr result (LeavesOf (F.held files.old) (F.held files.new) (O.contents out.old) (O.contents out.new) wanted.entry) }
    ensures outside { IfErr result (λ fault. IsOutOfRange wanted.entry → status_of fault ≡ 2) }
    ensures beyond { IfErr result (λ fault. status_of fault ≡ 2 → IsOutOfRange wanted.entry × (O.contents out.new ≡ O.contents out.old)) }
    ensures told { IfErr result (IsFaultOfCommand (F.held files.old) (O.contents out.old) (O.contents out.new) wanted.entry) }
    ensures silent { IfErr result (IsNotedAt (F.held files.old) (O.contents out.old) (O.contents out.new) (E.contents err.old) (E.contents err.new) wanted.entry) }
    ensures spared { (name : Text) → F.held files.new name ≢ F.held files.old name → IsWritten name wanted.entry }
    ensures untouched { IfErr result (λ fault. ComesBeforeFiles wanted.entry fault → F.held files.new ≡ F.held files.old) }
{
    match wanted {
        Settings::Replay(replay) => {
            replay_files(alloc, files, replay, out, err)?;
            Ok(Judgement::Allowed)
        }
        Settings::Explain(explain) => {
            explained(alloc, files, explain, out)?;
            Ok(Judgement::Allowed)
        }
        Settings::Chart(chart) => {
            chart_files(alloc, files, chart.replay, chart.line, out)?;
            Ok(Judgement::Allowed)
        }
        Settings::Page(replay) => {
            page_files(alloc, files, replay, out)?;
            Ok(Judgement::Allowed)
        }
        Settings::Run(run) => run_files(rt, alloc, files, run, out, err, progress),
        Settings::Explore(explore) => explored(alloc, files, explore, out, err, progress),
        Settings::Show(show) => shown(alloc, files, &show, out, err, progress),
        Settings::Fences(audit) => fences_files(rt, alloc, files, &audit, out, progress),
        Settings::Check(check) => checked(alloc, files, check, out, err),
    }
}

/// A script's events are told, or as waves what they change; or a trace's order.
fn explained<'a, F: Files, O: Write>(
    alloc: Global,
    files: &mut F,
    wanted: Explain<'a>,
    out: &mut O,
) -> Result<(), Fault<'a>>
    ensures came { OnOk result (ExplainCame wanted.entry.vcd (F.held files.old) wanted.entry (O.contents out.old) (O.contents out.new)) }
    ensures unfinished { IfErr result (λ fault. LeavesOfExplaining wanted.entry.vcd fault (O.contents out.old) (O.contents out.new)
        (ExplainBroke wanted.entry.vcd (F.held files.old) wanted.entry (O.contents out.old) (O.contents out.new))) }
    ensures told { IfErr result (IsExplainingFault wanted.entry.vcd (F.held files.old) (O.contents out.old) (O.contents out.new) wanted.entry) }
    ensures fitting { IfErr result (λ fault. status_of fault ≢ 2) }
    ensures spared { F.held files.new ≡ F.held files.old }
{
    if wanted.vcd {
        return wave_files(alloc, files, wanted.replay, out);
    }
    let strictness = strictness_of(wanted.strict);
    explain_files(alloc, files, wanted.replay, strictness, wanted.state, out)
}

/// The program's ends are looked for, by random runs, or under the memory model; or a message in random runs.
fn explored<'a, F: Files, O: Write, E: Write, P: Progress>(
    alloc: Global,
    files: &mut F,
    wanted: Explore<'a>,
    out: &mut O,
    err: &mut E,
    progress: &P,
) -> Result<Judgement, Fault<'a>>
    requires room { 0 < wanted.states }
    ensures came { IfOk result (λ judgement. ExploreCame (message_in wanted.entry.until) wanted.entry.architecture (nat_lt 0 wanted.entry.sample) judgement
        (F.held files.old) (F.held files.new) wanted.entry (O.contents out.old) (O.contents out.new)) }
    ensures noted { IfOk result (λ judgement. ExploreNoted (message_in wanted.entry.until) wanted.entry.architecture (nat_lt 0 wanted.entry.sample) judgement
        (F.held files.old) wanted.entry (O.contents out.old) (O.contents out.new) (E.contents err.old) (E.contents err.new)) }
    ensures outside { IsOutside wanted.entry.machine → result ≡ Err Fault.Configuration }
    ensures told { IfErr result (IsExploreFault (F.held files.old) wanted.entry) }
    ensures unfinished { IfErr result (λ fault. LeavesPart fault (O.contents out.old) (O.contents out.new)
        (ExploreHas (message_in wanted.entry.until) wanted.entry.architecture (nat_lt 0 wanted.entry.sample) (F.held files.old) wanted.entry)) }
    ensures silent { IfErr result (λ fault. ComesBeforeScripts fault → E.contents err.new ≡ E.contents err.old) }
    ensures judged_first { OnErr result ((E.contents err.new ≡ E.contents err.old) ⊎ AreJudged (message_in wanted.entry.until) wanted.entry.architecture (nat_lt 0 wanted.entry.sample)
        (F.held files.old) wanted.entry (O.contents out.old) (O.contents out.new) (E.contents err.old) (E.contents err.new)) }
    ensures spared { SparesOthers (IsExploreFile wanted.entry.architecture wanted.entry) (F.held files.old) (F.held files.new) }
    ensures untouched { IfErr result (λ fault. ComesBeforeScripts fault → F.held files.new ≡ F.held files.old) }
{
    if let Some(message) = wanted.message() {
        return until_files(alloc, files, wanted, message, out, err, progress);
    }
    if wanted.architecture {
        let window = wanted.window;
        return architecture_files(alloc, files, wanted, &[], window, out, err, progress);
    }
    if 0 < wanted.sample {
        let (runs, seed) = (wanted.sample, wanted.seed);
        return sample_files(alloc, files, wanted, runs, seed, out, err, progress);
    }
    explore_files(alloc, files, wanted, out, err, progress)
}

/// The program's ends are looked for with words of memory: all of them, or under the memory model.
fn shown<'a, F: Files, O: Write, E: Write, P: Progress>(
    alloc: Global,
    files: &mut F,
    wanted: &Show<'a>,
    out: &mut O,
    err: &mut E,
    progress: &P,
) -> Result<Judgement, Fault<'a>>
    requires room { 0 < wanted.now.explore.states }
    ensures came { IfOk result (λ judgement. ShowCame wanted.now.explore.architecture judgement
        (F.held files.old) (F.held files.new) wanted.now (O.contents out.old) (O.contents out.new)) }
    ensures noted { IfOk result (λ judgement. ShowNoted wanted.now.explore.architecture judgement
        (F.held files.old) wanted.now (O.contents out.old) (O.contents out.new) (E.contents err.old) (E.contents err.new)) }
    ensures elsewhere { ShowsElsewhere wanted.now.explore.architecture wanted.now.explore → (word : Name) × IsFirstOf wanted.now.words.items word × (result ≡ Err (Fault.CannotShow word Unshown.Elsewhere)) }
    ensures outside { IsOutside wanted.now.explore.machine → (result ≡ Err Fault.Configuration) ⊎ ShowsElsewhere wanted.now.explore.architecture wanted.now.explore }
    ensures told { IfErr result (IsShowingFault wanted.now.explore.architecture (F.held files.old) wanted.now) }
    ensures unfinished { IfErr result (λ fault. LeavesPart fault (O.contents out.old) (O.contents out.new)
        (ShowHas wanted.now.explore.architecture (F.held files.old) wanted.now)) }
    ensures silent { IfErr result (λ fault. ComesBeforeScripts fault → E.contents err.new ≡ E.contents err.old) }
    ensures judged_first { OnErr result ((E.contents err.new ≡ E.contents err.old) ⊎ AreWordsJudged wanted.now.explore.architecture
        (F.held files.old) wanted.now (O.contents out.old) (O.contents out.new) (E.contents err.old) (E.contents err.new)) }
    ensures spared { SparesOthers (IsExploreFile wanted.now.explore.architecture wanted.now.explore) (F.held files.old) (F.held files.new) }
    ensures untouched { IfErr result (λ fault. ComesBeforeScripts fault → F.held files.new ≡ F.held files.old) }
{
    let explore = wanted.explore;
    if explore.architecture {
        return architecture_files(
            alloc,
            files,
            explore,
            &wanted.words,
            explore.window,
            out,
            err,
            progress,
        );
    }
    show_files(alloc, files, wanted, out, err, progress)
}

/// The order of a trace is judged, or its messages.
#[tactic(auto, using(crate::proofs::Carried::messages_noted, crate::proofs::Carried::order_noted))]
fn checked<'a, F: Files, O: Write, E: Write>(
    alloc: Global,
    files: &mut F,
    wanted: Check<'a>,
    out: &mut O,
    err: &mut E,
) -> Result<Judgement, Fault<'a>>
    ensures came { IfOk result (λ judgement. CheckCame judgement wanted.entry.messages (F.held files.old) wanted.entry (O.contents out.old) (O.contents out.new)) }
    ensures unfinished { IfErr result (λ fault. LeavesAtFault fault (O.contents out.old) (O.contents out.new)
        (IsCheckBroken wanted.entry.messages (F.held files.old) wanted.entry (O.contents out.old) (O.contents out.new))) }
    ensures fitting { IfErr result (λ fault. status_of fault ≢ 2) }
    ensures told { IfErr result (IsJudgingFault wanted.entry.messages (F.held files.old) wanted.entry) }
    ensures noted { IfOk result (λ judgement. CheckNoted judgement wanted.entry.messages (F.held files.old) wanted.entry (E.contents err.old) (E.contents err.new)) }
    ensures silent { OnErr result (E.contents err.new ≡ E.contents err.old) }
    ensures spared { F.held files.new ≡ F.held files.old }
{
    if wanted.messages {
        return match check_messages(
            alloc,
            files,
            wanted.trace,
            message_check_of(&wanted),
            out,
            err,
        )? {
            MessageVerdict::Lawful => Ok(Judgement::Allowed),
            MessageVerdict::Unlawful {
                breach: _,
                index: _,
            } => Ok(Judgement::NotAllowed),
        };
    }
    match check_file(alloc, files, wanted.trace, wanted.model, out)? {
        Verdict::Legal => Ok(Judgement::Allowed),
        Verdict::Fault(_, _, _) => Ok(Judgement::NotAllowed),
    }
}

/// What is asked of messages.
fn message_check_of(check: &Check<'_>) -> MessageCheck
    ensures { result ≡ message_check_of check.now }
{
    MessageCheck {
        profile: profile_of(check),
        ended: check.ended,
        all: tells_all(check.breaches),
        skip: skips(check.other_opcodes),
    }
}

fn tells_all(breaches: Breaches) -> bool
    ensures { result ≡ tells_all breaches }
{
    match breaches {
        Breaches::First => false,
        Breaches::All => true,
    }
}

fn skips(others: OtherOpcodes) -> bool
    ensures { result ≡ skips others }
{
    match others {
        OtherOpcodes::Refused => false,
        OtherOpcodes::Skipped => true,
    }
}

/// Whose rules messages are judged by.
fn profile_of(check: &Check<'_>) -> Profile
    ensures { result ≡ profile_of (asks_tilelink check.now.profile) }
{
    if check.asks_tilelink() {
        Profile::TileLink
    } else {
        Profile::Machine
    }
}

fn strictness_of(strict: bool) -> Strictness
    ensures { result ≡ strictness_of strict }
{
    if strict {
        Strictness::Strict
    } else {
        Strictness::Lenient
    }
}
