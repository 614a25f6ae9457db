//! How the program's words are read by its usage.

ghost use Rattle.std.specs.Prelude.{ℕ, ◌≡◌, ◌≢◌, ◌<◌, ◌^◌, Bool, codes, IfErr, IfOk, IfSome, IsNone, List, OnOk, Some, map};
ghost use Rattle.clap.specs.Words.{Row, Text, app_of, found_of, rows_of, subcommand_rows_of};
ghost use Rattle.command_settings.specs.Refusals.{IsFitting, IsRefused, TellsConflict};
ghost use Rattle.command_settings.specs.Settings.{AreConflicting, HasAll, HasNumber, IsChartMeant, IsCheckMeant, IsComplete, IsExplainMeant, IsExploreMeant, IsFencesMeant, IsFlag, IsMachineMeant, IsMeant, IsNamed, IsNumberIn, IsReplayMeant, IsRunMeant, IsAsked, are_all, are_skipped, is_machine, name_of, shown_in};
ghost use Rattle.command_settings.specs.Usage.{IsUsage, chart_arguments, check_arguments, explain_arguments, explore_arguments, fences_arguments, machine_arguments, replay_arguments, run_arguments};

use crate::commands::command;
use crate::wanted::{
    Audit, Breaches, Chart, Check, Explain, Explore, Fences, MachineOptions, OtherOpcodes, Replay,
    Run, Settings, SettingsError, Show, Subject,
};
use clap::error::ErrorKind;
use clap::{ArgMatches, Command};
use machine_types::MemoryModel;
use std::alloc::{AllocError, Global};
use std::convert::AsStr;

/// How an exploration is asked for.
const EXPLORE_USAGE: &str = "rvtl explore [OPTIONS] <IMAGE>";

/// How a run is asked for.
const RUN_USAGE: &str = "rvtl run [OPTIONS] --journal <FILE> <IMAGE>";

/// How a check is asked for.
const CHECK_USAGE: &str = "rvtl check [OPTIONS] <TRACE>";

/// What the words ask for, of which the first is the program's name.
pub fn settings<'a, S: AsStr>(alloc: Global, words: &'a [S]) -> Result<Settings<'a>, SettingsError>
    ensures named { IfOk result (IsNamed (map S.text words.entry.now)) }
    ensures fitting { OnOk result (IsFitting (map S.text words.entry.now)) }
    ensures agreeing { IfOk result (λ settings. AreConflicting settings → ⊥) }
    ensures refused { IfErr result (IsRefused (map S.text words.entry.now)) }
{
    let mut command = command(alloc)?;
    settings_by(alloc, &mut command, words)
}

// What the words ask for by a command, which is the usage.
fn settings_by<'a, S: AsStr>(
    alloc: Global,
    command: &mut Command<'a>,
    words: &'a [S],
) -> Result<Settings<'a>, SettingsError>
    ensures named { IsUsage (app_of command.old) → IfOk result (IsNamed (map S.text words.entry.now)) }
    ensures fitting { IsUsage (app_of command.old) → OnOk result (IsFitting (map S.text words.entry.now)) }
    ensures agreeing { IfOk result (λ settings. AreConflicting settings → ⊥) }
    ensures refused { IsUsage (app_of command.old) → IfErr result (IsRefused (map S.text words.entry.now)) }
{
    let matches = command.try_get_matches_from_mut(words)?;
    match settings_of(alloc, &matches) {
        Some(settings) => {
            let settings = with_shown(alloc, &matches, settings)?;
            agreeing(alloc, settings)
        }
        // The usage asks for a subcommand and its files, so that the parse has refused such words.
        None => Err(without_subcommand(command)),
    }
}

/// The refusal of words that name no subcommand.
fn without_subcommand(command: &mut Command<'_>) -> SettingsError {
    let wanted = "replay, explain, chart, run, explore, fences or check is wanted";
    match command.error(ErrorKind::MissingSubcommand, wanted) {
        Ok(error) => SettingsError::Usage(error),
        Err(AllocError) => SettingsError::NoMemory,
    }
}

/// The settings, unless they don't go together: only those of a run, of an exploration and of a check may not.
fn agreeing<'a>(alloc: Global, settings: Settings<'a>) -> Result<Settings<'a>, SettingsError>
    ensures same { IfOk result (λ agreed. agreed ≡ settings.entry) }
    ensures agreeing { IfOk result (λ agreed. AreConflicting agreed → ⊥) }
    ensures told { IfErr result (TellsConflict settings.entry) }
{
    if let Some(conflict) = settings.conflict() {
        let (name, usage) = usage_of(&settings);
        let mut command = Command::new(alloc, name).override_usage(usage);
        let error = command.error(ErrorKind::ArgumentConflict, conflict)?;
        return Err(SettingsError::Usage(error));
    }
    Ok(settings)
}

/// The name of the subcommand whose settings don't go together, and how it is asked for.
fn usage_of(settings: &Settings<'_>) -> (&'static str, &'static str) {
    match settings {
        Settings::Check(_) => ("check", CHECK_USAGE),
        Settings::Run(_) => ("run", RUN_USAGE),
        _ => ("explore", EXPLORE_USAGE),
    }
}

/// The settings with the words of memory that are to be shown, if any are.
fn with_shown<'a>(
    alloc: Global,
    matches: &ArgMatches<'a>,
    settings: Settings<'a>,
) -> Result<Settings<'a>, AllocError>
    ensures { (name : Text) → (rows : List Row) → subcommand_rows_of matches.now ≡ Some (name, rows) → IsMeant name rows settings.entry → IfOk result (IsAsked name rows) }
{
    match settings {
        Settings::Explore(explore) => {
            let words = shown_in(alloc, matches)?;
            if words.as_slice().is_empty() {
                return Ok(Settings::Explore(explore));
            }
            Ok(Settings::Show(Show { explore, words }))
        }
        Settings::Fences(audit) => {
            let words = shown_in(alloc, matches)?;
            let fences = audit.fences;
            Ok(Settings::Fences(Audit { fences, words }))
        }
        others => Ok(others),
    }
}

/// The words of memory that are to be shown.
fn shown_in<'a>(alloc: Global, matches: &ArgMatches<'a>) -> Result<Vec<&'a str>, AllocError>
    ensures { (name : Text) → (rows : List Row) → subcommand_rows_of matches.now ≡ Some (name, rows)
        → IfOk result (λ words. map (λ word. word.now) words.items ≡ shown_in rows) }
{
    let mut words = Vec::new(alloc);
    let Some((_, subcommand)) = matches.subcommand() else {
        return Ok(words);
    };
    if let Some(given) = subcommand.get_strs("show") {
        words.extend_from_slice(given)?;
    }
    Ok(words)
}

/// The settings, without the words of memory that are to be shown.
fn settings_of<'a>(alloc: Global, matches: &ArgMatches<'a>) -> Option<Settings<'a>>
    ensures meant { IfSome result (λ settings. (name : Text) × (rows : List Row)
        × (subcommand_rows_of matches.now ≡ Some (name, rows)) × (IsComplete name rows → IsMeant name rows settings)) }
    ensures missing { IsNone result → (name : Text) → (rows : List Row)
        → subcommand_rows_of matches.now ≡ Some (name, rows) → IsComplete name rows → ⊥ }
{
    let (name, given) = matches.subcommand()?;
    settings_named(alloc, name, given)
}

/// The settings by what was given to the subcommand of this name.
fn settings_named<'a>(alloc: Global, name: &str, given: &ArgMatches<'a>) -> Option<Settings<'a>>
    ensures meant { IfSome result (λ settings. IsComplete name.now (rows_of (found_of given.now))
        → IsMeant name.now (rows_of (found_of given.now)) settings) }
    ensures missing { IsNone result → IsComplete name.now (rows_of (found_of given.now)) → ⊥ }
{
    match name {
        "replay" => Some(Settings::Replay(replay_of(given)?)),
        "explain" => Some(Settings::Explain(explain_of(given)?)),
        "chart" => Some(Settings::Chart(chart_of(given)?)),
        "page" => Some(Settings::Page(replay_of(given)?)),
        "run" => Some(Settings::Run(run_of(given)?)),
        "explore" => Some(Settings::Explore(explore_of(given)?)),
        "fences" => Some(Settings::Fences(audit_of(alloc, given)?)),
        "check" => Some(Settings::Check(check_of(given)?)),
        _ => None,
    }
}

fn replay_of<'a>(matches: &ArgMatches<'a>) -> Option<Replay<'a>>
    ensures meant { IfSome result (λ replay. HasAll (rows_of (found_of matches.now)) replay_arguments
        → IsReplayMeant (rows_of (found_of matches.now)) replay) }
    ensures missing { IsNone result → HasAll (rows_of (found_of matches.now)) replay_arguments → ⊥ }
{
    Some(Replay {
        raw: matches.get_flag("raw"),
        model: model_of(matches.get_str("model")?)?,
        image: matches.get_str("IMAGE")?,
        script: matches.get_str("SCRIPT")?,
    })
}

fn explain_of<'a>(matches: &ArgMatches<'a>) -> Option<Explain<'a>>
    ensures meant { IfSome result (λ explain. HasAll (rows_of (found_of matches.now)) explain_arguments
        → IsExplainMeant (rows_of (found_of matches.now)) explain) }
    ensures missing { IsNone result → HasAll (rows_of (found_of matches.now)) explain_arguments → ⊥ }
{
    let replay = replay_of(matches)?;
    Some(Explain {
        replay,
        strict: matches.get_flag("strict"),
        state: matches.get_flag("state"),
        vcd: matches.get_flag("vcd"),
    })
}

fn chart_of<'a>(matches: &ArgMatches<'a>) -> Option<Chart<'a>>
    ensures meant { IfSome result (λ chart. HasAll (rows_of (found_of matches.now)) chart_arguments
        → IsChartMeant (rows_of (found_of matches.now)) chart) }
    ensures missing { IsNone result → HasAll (rows_of (found_of matches.now)) chart_arguments → ⊥ }
{
    let replay = replay_of(matches)?;
    Some(Chart {
        replay,
        line: matches.get_str("line"),
    })
}

fn machine_of(matches: &ArgMatches<'_>) -> Option<MachineOptions>
    ensures meant { IfSome result (λ machine. HasAll (rows_of (found_of matches.now)) machine_arguments
        → IsMachineMeant (rows_of (found_of matches.now)) machine) }
    ensures missing { IsNone result → HasAll (rows_of (found_of matches.now)) machine_arguments → ⊥ }
{
    Some(MachineOptions {
        harts: number_of(matches, "harts")?,
        memory: number_of(matches, "memory")?,
        sets: number_of(matches, "sets")?,
        ways: number_of(matches, "ways")?,
        line: number_of(matches, "line")?,
        model: model_of(matches.get_str("model")?)?,
    })
}

fn run_of<'a>(matches: &ArgMatches<'a>) -> Option<Run<'a>>
    ensures meant { IfSome result (λ run. HasAll (rows_of (found_of matches.now)) run_arguments
        → IsRunMeant (rows_of (found_of matches.now)) run) }
    ensures missing { IsNone result → HasAll (rows_of (found_of matches.now)) run_arguments → ⊥ }
{
    Some(Run {
        raw: matches.get_flag("raw"),
        machine: machine_of(matches)?,
        limit: number_of(matches, "limit")?,
        journal: matches.get_str("journal")?,
        fail_on: matches.get_str("fail-on"),
        image: matches.get_str("IMAGE")?,
    })
}

fn explore_of<'a>(matches: &ArgMatches<'a>) -> Option<Explore<'a>>
    ensures meant { IfSome result (λ explore. HasAll (rows_of (found_of matches.now)) explore_arguments
        → IsExploreMeant (rows_of (found_of matches.now)) explore) }
    ensures missing { IsNone result → HasAll (rows_of (found_of matches.now)) explore_arguments → ⊥ }
{
    Some(Explore {
        raw: matches.get_flag("raw"),
        machine: machine_of(matches)?,
        states: number_of(matches, "states")?,
        scripts: matches.get_str("scripts"),
        whole: matches.get_flag("whole"),
        allow: matches.get_str("allow"),
        fail_on: matches.get_str("fail-on"),
        first: matches.get_flag("first"),
        seconds: number_of(matches, "seconds")?,
        sample: number_of(matches, "sample")?,
        seed: number_of(matches, "seed")?,
        until: matches.get_str("until"),
        architecture: matches.get_flag("architecture"),
        window: number_of(matches, "window")?,
        image: matches.get_str("IMAGE")?,
    })
}

/// An audit without words of memory.
fn audit_of<'a>(alloc: Global, matches: &ArgMatches<'a>) -> Option<Audit<'a>>
    ensures meant { IfSome result (λ audit. HasAll (rows_of (found_of matches.now)) fences_arguments
        → IsFencesMeant (rows_of (found_of matches.now)) audit.fences) }
    ensures missing { IsNone result → HasAll (rows_of (found_of matches.now)) fences_arguments → ⊥ }
{
    let fences = fences_of(matches)?;
    let words = Vec::new(alloc);
    Some(Audit { fences, words })
}

fn fences_of<'a>(matches: &ArgMatches<'a>) -> Option<Fences<'a>>
    ensures meant { IfSome result (λ fences. HasAll (rows_of (found_of matches.now)) fences_arguments
        → IsFencesMeant (rows_of (found_of matches.now)) fences) }
    ensures missing { IsNone result → HasAll (rows_of (found_of matches.now)) fences_arguments → ⊥ }
{
    Some(Fences {
        raw: matches.get_flag("raw"),
        machine: machine_of(matches)?,
        states: number_of(matches, "states")?,
        window: number_of(matches, "window")?,
        threads: number_of(matches, "threads")?,
        allow: matches.get_str("allow"),
        subject: subject_of(matches),
        scripts: matches.get_str("scripts"),
        write: matches.get_str("write"),
        image: matches.get_str("IMAGE")?,
    })
}

fn check_of<'a>(matches: &ArgMatches<'a>) -> Option<Check<'a>>
    ensures meant { IfSome result (λ check. HasAll (rows_of (found_of matches.now)) check_arguments
        → IsCheckMeant (rows_of (found_of matches.now)) check) }
    ensures missing { IsNone result → HasAll (rows_of (found_of matches.now)) check_arguments → ⊥ }
{
    let model = model_of(matches.get_str("model")?)?;
    let trace = matches.get_str("TRACE")?;
    Some(Check {
        messages: matches.get_flag("messages"),
        ended: matches.get_flag("ended"),
        profile: matches.get_str("profile"),
        breaches: breaches_of(matches),
        other_opcodes: other_opcodes_of(matches),
        model,
        trace,
    })
}

fn subject_of(matches: &ArgMatches<'_>) -> Subject
    ensures { (given : Bool) → IsFlag (codes "machine") (rows_of (found_of matches.now)) given
        → IsFlag (codes "machine") (rows_of (found_of matches.now)) (is_machine result) }
{
    if matches.get_flag("machine") {
        Subject::Machine
    } else {
        Subject::Model
    }
}

fn breaches_of(matches: &ArgMatches<'_>) -> Breaches
    ensures { (given : Bool) → IsFlag (codes "all") (rows_of (found_of matches.now)) given
        → IsFlag (codes "all") (rows_of (found_of matches.now)) (are_all result) }
{
    if matches.get_flag("all") {
        Breaches::All
    } else {
        Breaches::First
    }
}

fn other_opcodes_of(matches: &ArgMatches<'_>) -> OtherOpcodes
    ensures { (given : Bool) → IsFlag (codes "skip") (rows_of (found_of matches.now)) given
        → IsFlag (codes "skip") (rows_of (found_of matches.now)) (are_skipped result) }
{
    if matches.get_flag("skip") {
        OtherOpcodes::Skipped
    } else {
        OtherOpcodes::Refused
    }
}

fn number_of(matches: &ArgMatches<'_>, id: &str) -> Option<u32>
    ensures meant { IfSome result (λ n. (low high : ℕ) → HasNumber id.now low high (rows_of (found_of matches.now))
        → IsNumberIn id.now low high (rows_of (found_of matches.now)) n) }
    ensures missing { IsNone result → (low high : ℕ) → high < 2 ^ 32 → HasNumber id.now low high (rows_of (found_of matches.now)) → ⊥ }
{
    matches.get_one(id)
}

fn model_of(name: &str) -> Option<MemoryModel>
    ensures known { IfSome result (λ model. name.now ≡ name_of model) }
    ensures unknown { IsNone result → (model : MemoryModel) → name.now ≢ name_of model }
{
    match name {
        "rvwmo" => Some(MemoryModel::Rvwmo),
        "ztso" => Some(MemoryModel::Ztso),
        _ => None,
    }
}
