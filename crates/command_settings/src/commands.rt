//! The program's usage: its subcommands with their arguments.

ghost use Rattle.std.specs.Prelude.{◌≡◌, IfOk, codes, false, true};
ghost use Rattle.clap.specs.Words.{App, Rule, app_of, new_app, rule_of, with_rule, with_subcommand};
ghost use Rattle.command_settings.specs.Usage.{AreModelNames, ModelNames, IsUsage, app_for, chart, check, explain, explore, fences, file_rule, flag_rule, least_limit, least_window, machine_arguments, model_rule, most_limit, most_size, most_threads, most_window, named_rule, number_rule, optional_rule, page, repeated_rule, replay, replay_arguments, required_rule, run, sample_arguments, search_arguments, window_arguments, with_arguments};

use crate::help::{
    ALLOW_HELP, CHART_HELP, CHECK_HELP, EXPLAIN_HELP, EXPLORE_HELP, FAIL_ON_HELP, FENCES_HELP,
    LINE_HELP, PAGE_HELP, PROGRAM_HELP, REPLAY_HELP, RUN_HELP, SCRIPTS_HELP, SHOW_HELP, UNTIL_HELP,
    WITNESSES_HELP,
};
use clap::builder::ValueParser;
use clap::{Arg, ArgAction, Command};
use std::alloc::{AllocError, Global};

/// The models by their names, the first of which is meant where none is named.
const MODELS: [&str; 2] = ["rvwmo", "ztso"];

/// What `--version` tells behind the program's name.
const VERSION: &str = "1.0.0";

/// The least and the greatest number of a limit.
const LIMIT_RANGE: (u64, u64) = (1, 1_000_000_000);

/// The least and the greatest number of random runs.
const SAMPLE_RANGE: (u64, u64) = (0, 1_000_000_000);

/// The least and the greatest number of seconds.
const SECONDS_RANGE: (u64, u64) = (0, 1_000_000_000);

/// The least and the greatest number of a hart's operations that may wait at a time.
const WINDOW_RANGE: (u64, u64) = (1, 64);

/// The least and the greatest number of searches side by side, where 0 stands for as many as there are processors.
const THREADS_RANGE: (u64, u64) = (0, 64);

/// The greatest number of a machine's size, or of what random runs begin from.
const MOST: u64 = 4_294_967_295;

pub(crate) fn command<'a>(alloc: Global) -> Result<Command<'a>, AllocError>
    ensures { IfOk result (λ made. IsUsage (app_of made)) }
{
    command_over(alloc, MODELS.as_slice())
}

fn command_over<'a>(alloc: Global, models: &'a [&'a str]) -> Result<Command<'a>, AllocError>
    requires { AreModelNames models }
    ensures { IfOk result (λ made. IsUsage (app_of made)) }
{
    let about = "Runs RISC-V harts with private caches, one event at a time";
    let command = described(alloc, "rvtl", about, PROGRAM_HELP)
        .version(VERSION)
        .subcommand_required(true);
    let command = add_subcommand(Ok(command), replay_command(alloc, models));
    let command = add_subcommand(command, explain_command(alloc, models));
    let command = add_subcommand(command, chart_command(alloc, models));
    let command = add_subcommand(command, page_command(alloc, models));
    let command = add_subcommand(command, run_command(alloc, models));
    let command = add_subcommand(command, explore_command(alloc, models));
    let command = add_subcommand(command, fences_command(alloc, models));
    add_subcommand(command, check_command(alloc, models))
}

fn described<'a>(alloc: Global, name: &'a str, about: &'a str, after: &'a str) -> Command<'a>
    ensures { app_of result ≡ new_app name.entry.now }
{
    Command::new(alloc, name).about(about).after_help(after)
}

// Each `?` at a command is dear to prove, so that a chain of them goes through the two functions below.

fn add_arg<'a>(
    command: Result<Command<'a>, AllocError>,
    arg: Arg<'a>,
) -> Result<Command<'a>, AllocError>
    ensures { (app : App) → (rule : Rule) → IfOk command.entry (λ old. app_of old ≡ app) → rule_of arg.entry ≡ rule → arg.entry.global ≡ false
        → IfOk result (λ made. app_of made ≡ with_rule app rule) }
{
    command?.arg(arg)
}

fn add_subcommand<'a>(
    command: Result<Command<'a>, AllocError>,
    subcommand: Result<Command<'a>, AllocError>,
) -> Result<Command<'a>, AllocError>
    ensures { (app added : App) → IfOk command.entry (λ old. app_of old ≡ app) → IfOk subcommand.entry (λ old. app_of old ≡ added) → added.top.is_plain ≡ true
        → IfOk result (λ made. app_of made ≡ with_subcommand app added.top) }
{
    command?.subcommand(subcommand?)
}

// ---- the subcommands

fn replay_command<'a>(alloc: Global, models: &'a [&'a str]) -> Result<Command<'a>, AllocError>
    ensures { IfOk result (λ made. app_of made ≡ app_for models.entry replay) }
{
    let about = "Applies a script of events to a machine and prints the trace";
    let command = described(alloc, "replay", about, REPLAY_HELP);
    with_replay(alloc, models, Ok(command))
}

fn explain_command<'a>(alloc: Global, models: &'a [&'a str]) -> Result<Command<'a>, AllocError>
    ensures { IfOk result (λ made. app_of made ≡ app_for models.entry explain) }
{
    let about = "Applies a script of events to a machine and prints what each event did";
    let command = described(alloc, "explain", about, EXPLAIN_HELP);
    let command = add_arg(Ok(command), strict(alloc));
    let command = add_arg(command, state(alloc));
    with_replay(alloc, models, add_arg(command, vcd(alloc)))
}

fn chart_command<'a>(alloc: Global, models: &'a [&'a str]) -> Result<Command<'a>, AllocError>
    ensures { IfOk result (λ made. app_of made ≡ app_for models.entry chart) }
{
    let about = "Applies a script of events to a machine and draws what happened";
    let command = described(alloc, "chart", about, CHART_HELP);
    with_replay(alloc, models, add_arg(Ok(command), drawn_line(alloc)))
}

fn page_command<'a>(alloc: Global, models: &'a [&'a str]) -> Result<Command<'a>, AllocError>
    ensures { IfOk result (λ made. app_of made ≡ app_for models.entry page) }
{
    let about = "Prints a page for a browser that shows a run, event by event";
    let command = described(alloc, "page", about, PAGE_HELP);
    with_replay(alloc, models, Ok(command))
}

fn run_command<'a>(alloc: Global, models: &'a [&'a str]) -> Result<Command<'a>, AllocError>
    ensures { IfOk result (λ made. app_of made ≡ app_for models.entry run) }
{
    let about = "Runs a program with a thread for each hart, and prints the trace";
    let command = described(alloc, "run", about, RUN_HELP);
    let command = add_arg(Ok(command), raw(alloc));
    let command = with_machine(alloc, models, command);
    let command = add_arg(command, limit(alloc));
    let command = add_arg(command, journal(alloc));
    let command = add_arg(command, fail_on_stop(alloc));
    add_arg(command, image(alloc))
}

fn explore_command<'a>(alloc: Global, models: &'a [&'a str]) -> Result<Command<'a>, AllocError>
    ensures { IfOk result (λ made. app_of made ≡ app_for models.entry explore) }
{
    let about = "Finds every end that the machine can bring a program to";
    let command = described(alloc, "explore", about, EXPLORE_HELP);
    let command = add_arg(Ok(command), raw(alloc));
    let command = with_machine(alloc, models, command);
    let command = with_search(alloc, command);
    let command = with_sample(alloc, command);
    let command = add_arg(with_window(alloc, command), show(alloc));
    add_arg(command, image(alloc))
}

fn fences_command<'a>(alloc: Global, models: &'a [&'a str]) -> Result<Command<'a>, AllocError>
    ensures { IfOk result (λ made. app_of made ≡ app_for models.entry fences) }
{
    let about = "Finds which fences and annotations a program needs, and which it could do without";
    let command = described(alloc, "fences", about, FENCES_HELP);
    let command = add_arg(Ok(command), raw(alloc));
    let command = with_machine(alloc, models, command);
    let command = add_arg(command, states(alloc));
    let command = add_arg(command, window(alloc));
    let command = add_arg(command, threads(alloc));
    let command = add_arg(command, allow(alloc));
    let command = add_arg(command, machine_outcomes(alloc));
    let command = add_arg(command, witnesses(alloc));
    let command = add_arg(command, written(alloc));
    let command = add_arg(command, show(alloc));
    add_arg(command, image(alloc))
}

fn check_command<'a>(alloc: Global, models: &'a [&'a str]) -> Result<Command<'a>, AllocError>
    ensures { IfOk result (λ made. app_of made ≡ app_for models.entry check) }
{
    let about =
        "Judges the order in which a trace's memory operations were performed, or its messages";
    let command = described(alloc, "check", about, CHECK_HELP);
    let command = add_arg(Ok(command), messages(alloc));
    let command = add_arg(command, ended(alloc));
    let command = add_arg(command, profile(alloc));
    let command = add_arg(command, all(alloc));
    let command = add_arg(command, skip(alloc));
    let command = add_arg(command, judged_model(alloc, models));
    add_arg(command, trace(alloc))
}

// ---- arguments of several subcommands

/// An image and a script for it.
fn with_replay<'a>(
    alloc: Global,
    models: &'a [&'a str],
    command: Result<Command<'a>, AllocError>,
) -> Result<Command<'a>, AllocError>
    ensures { (app : App) → IfOk command.entry (λ old. app_of old ≡ app)
        → IfOk result (λ made. app_of made ≡ with_arguments models.entry app replay_arguments) }
{
    let command = add_arg(command, raw(alloc));
    let command = add_arg(command, machine_model(alloc, models));
    let command = add_arg(command, image(alloc));
    add_arg(command, script(alloc))
}

/// A machine's size, which is judged when the machine is made, and its memory model.
fn with_machine<'a>(
    alloc: Global,
    models: &'a [&'a str],
    command: Result<Command<'a>, AllocError>,
) -> Result<Command<'a>, AllocError>
    ensures { (app : App) → IfOk command.entry (λ old. app_of old ≡ app)
        → IfOk result (λ made. app_of made ≡ with_arguments models.entry app machine_arguments) }
{
    let command = add_arg(command, harts(alloc));
    let command = add_arg(command, memory(alloc));
    let command = add_arg(command, sets(alloc));
    let command = add_arg(command, ways(alloc));
    let command = add_arg(command, line(alloc));
    add_arg(command, machine_model(alloc, models))
}

/// How a search for a program's ends goes, and what it writes and judges.
fn with_search<'a>(
    alloc: Global,
    command: Result<Command<'a>, AllocError>,
) -> Result<Command<'a>, AllocError>
    ensures { (app : App) → (names : ModelNames) → IfOk command.entry (λ old. app_of old ≡ app)
        → IfOk result (λ made. app_of made ≡ with_arguments names app search_arguments) }
{
    let command = add_arg(command, states(alloc));
    let command = add_arg(command, scripts(alloc));
    let command = add_arg(command, whole(alloc));
    let command = add_arg(command, allow(alloc));
    let command = add_arg(command, fail_on(alloc));
    let command = add_arg(command, first(alloc));
    add_arg(command, seconds(alloc))
}

/// Random runs in place of a search.
fn with_sample<'a>(
    alloc: Global,
    command: Result<Command<'a>, AllocError>,
) -> Result<Command<'a>, AllocError>
    ensures { (app : App) → (names : ModelNames) → IfOk command.entry (λ old. app_of old ≡ app)
        → IfOk result (λ made. app_of made ≡ with_arguments names app sample_arguments) }
{
    let command = add_arg(command, sample(alloc));
    let command = add_arg(command, seed(alloc));
    add_arg(command, until(alloc))
}

/// A search of what the memory model allows.
fn with_window<'a>(
    alloc: Global,
    command: Result<Command<'a>, AllocError>,
) -> Result<Command<'a>, AllocError>
    ensures { (app : App) → (names : ModelNames) → IfOk command.entry (λ old. app_of old ≡ app)
        → IfOk result (λ made. app_of made ≡ with_arguments names app window_arguments) }
{
    let command = add_arg(command, architecture(alloc));
    add_arg(command, window(alloc))
}

// ---- the arguments, each made apart: a text is dear to prove where a command is at hand

fn harts<'a>(alloc: Global) -> Arg<'a>
    ensures rule { rule_of result ≡ number_rule (codes "harts") (codes "1") 0 most_size }
    ensures local { result.global ≡ false }
{
    size(alloc, "harts", "N", "1", "how many harts, 1 to 8")
}

fn memory<'a>(alloc: Global) -> Arg<'a>
    ensures rule { rule_of result ≡ number_rule (codes "memory") (codes "64") 0 most_size }
    ensures local { result.global ≡ false }
{
    size(
        alloc,
        "memory",
        "KIB",
        "64",
        "main memory in KiB, a multiple of 4 from 4 to 1024",
    )
}

fn sets<'a>(alloc: Global) -> Arg<'a>
    ensures rule { rule_of result ≡ number_rule (codes "sets") (codes "4") 0 most_size }
    ensures local { result.global ≡ false }
{
    size(
        alloc,
        "sets",
        "N",
        "4",
        "sets a cache, a power of two to 64",
    )
}

fn ways<'a>(alloc: Global) -> Arg<'a>
    ensures rule { rule_of result ≡ number_rule (codes "ways") (codes "2") 0 most_size }
    ensures local { result.global ≡ false }
{
    size(alloc, "ways", "N", "2", "lines a set, 1 to 4")
}

fn line<'a>(alloc: Global) -> Arg<'a>
    ensures rule { rule_of result ≡ number_rule (codes "line") (codes "16") 0 most_size }
    ensures local { result.global ≡ false }
{
    size(alloc, "line", "N", "16", "bytes a line, 16 or 64")
}

fn machine_model<'a>(alloc: Global, models: &'a [&'a str]) -> Arg<'a>
    ensures rule { rule_of result ≡ model_rule models.entry }
    ensures local { result.global ≡ false }
{
    model(
        alloc,
        models,
        "the memory model that the machine runs under",
    )
}

fn judged_model<'a>(alloc: Global, models: &'a [&'a str]) -> Arg<'a>
    ensures rule { rule_of result ≡ model_rule models.entry }
    ensures local { result.global ≡ false }
{
    model(alloc, models, "the memory model that the order has to keep")
}

fn limit<'a>(alloc: Global) -> Arg<'a>
    ensures rule { rule_of result ≡ number_rule (codes "limit") (codes "1000000") least_limit most_limit }
    ensures local { result.global ≡ false }
{
    number(
        alloc,
        "limit",
        "N",
        "1000000",
        LIMIT_RANGE,
        "how many events the harts may try before the run ends, 1 to 1000000000",
    )
}

fn states<'a>(alloc: Global) -> Arg<'a>
    ensures rule { rule_of result ≡ number_rule (codes "states") (codes "4000000") least_limit most_limit }
    ensures local { result.global ≡ false }
{
    number(
        alloc,
        "states",
        "LIMIT",
        "4000000",
        LIMIT_RANGE,
        "how many states the search may meet before it ends, 1 to 1000000000",
    )
}

fn sample<'a>(alloc: Global) -> Arg<'a>
    ensures rule { rule_of result ≡ number_rule (codes "sample") (codes "0") 0 most_limit }
    ensures local { result.global ≡ false }
{
    number(
        alloc,
        "sample",
        "RUNS",
        "0",
        SAMPLE_RANGE,
        "make so many random runs, to 1000000000, in place of a search, where it isn't 0",
    )
}

fn seed<'a>(alloc: Global) -> Arg<'a>
    ensures rule { rule_of result ≡ number_rule (codes "seed") (codes "1") 0 most_size }
    ensures local { result.global ≡ false }
{
    number(
        alloc,
        "seed",
        "S",
        "1",
        (0, MOST),
        "what the random runs begin from, 0 to 4294967295: the same number makes the same runs",
    )
}

fn window<'a>(alloc: Global) -> Arg<'a>
    ensures rule { rule_of result ≡ number_rule (codes "window") (codes "16") least_window most_window }
    ensures local { result.global ≡ false }
{
    number(
        alloc,
        "window",
        "N",
        "16",
        WINDOW_RANGE,
        "how many operations of a hart may wait at a time, 1 to 64, with --architecture",
    )
}

fn threads<'a>(alloc: Global) -> Arg<'a>
    ensures rule { rule_of result ≡ number_rule (codes "threads") (codes "0") 0 most_threads }
    ensures local { result.global ≡ false }
{
    number(
        alloc,
        "threads",
        "N",
        "0",
        THREADS_RANGE,
        "how many searches go side by side, 1 to 64, or 0 for as many as there are processors; what is told is the same",
    )
}

fn scripts<'a>(alloc: Global) -> Arg<'a>
    ensures rule { rule_of result ≡ optional_rule (codes "scripts") }
    ensures local { result.global ≡ false }
{
    optional(alloc, "scripts", "FOLDER", SCRIPTS_HELP)
}

fn whole<'a>(alloc: Global) -> Arg<'a>
    ensures rule { rule_of result ≡ flag_rule (codes "whole") }
    ensures local { result.global ≡ false }
{
    flag(
        alloc,
        "whole",
        "with --scripts, keep the events that an outcome doesn't need, as what else happened in a random run",
    )
}

fn allow<'a>(alloc: Global) -> Arg<'a>
    ensures rule { rule_of result ≡ optional_rule (codes "allow") }
    ensures local { result.global ≡ false }
{
    optional(alloc, "allow", "FILE", ALLOW_HELP)
}

fn fail_on<'a>(alloc: Global) -> Arg<'a>
    ensures rule { rule_of result ≡ optional_rule (codes "fail-on") }
    ensures local { result.global ≡ false }
{
    optional(alloc, "fail-on", "LIST", FAIL_ON_HELP)
}

fn first<'a>(alloc: Global) -> Arg<'a>
    ensures rule { rule_of result ≡ flag_rule (codes "first") }
    ensures local { result.global ≡ false }
{
    flag(
        alloc,
        "first",
        "end the search at the first failure, and at the first outcome that isn't in the file of --allow",
    )
}

fn fail_on_stop<'a>(alloc: Global) -> Arg<'a>
    ensures rule { rule_of result ≡ optional_rule (codes "fail-on") }
    ensures local { result.global ≡ false }
{
    optional(
        alloc,
        "fail-on",
        "stop",
        "what the run may not come to: stop (a hart stopped); where it comes to it the status is 3",
    )
}

fn seconds<'a>(alloc: Global) -> Arg<'a>
    ensures rule { rule_of result ≡ number_rule (codes "seconds") (codes "0") 0 most_limit }
    ensures local { result.global ≡ false }
{
    number(
        alloc,
        "seconds",
        "N",
        "0",
        SECONDS_RANGE,
        "how many seconds the search may take before it ends, to 1000000000, where it isn't 0",
    )
}

fn until<'a>(alloc: Global) -> Arg<'a>
    ensures rule { rule_of result ≡ optional_rule (codes "until") }
    ensures local { result.global ≡ false }
{
    optional(alloc, "until", "MESSAGE", UNTIL_HELP)
}

fn show<'a>(alloc: Global) -> Arg<'a>
    ensures rule { rule_of result ≡ repeated_rule (codes "show") }
    ensures local { result.global ≡ false }
{
    repeated(alloc, "show", "ADDRESS|SYMBOL", SHOW_HELP)
}

fn machine_outcomes<'a>(alloc: Global) -> Arg<'a>
    ensures rule { rule_of result ≡ flag_rule (codes "machine") }
    ensures local { result.global ≡ false }
{
    flag(
        alloc,
        "machine",
        "ask for the outcomes that this machine shows, in place of those that the memory model allows",
    )
}

fn witnesses<'a>(alloc: Global) -> Arg<'a>
    ensures rule { rule_of result ≡ optional_rule (codes "scripts") }
    ensures local { result.global ≡ false }
{
    optional(alloc, "scripts", "FOLDER", WITNESSES_HELP)
}

fn written<'a>(alloc: Global) -> Arg<'a>
    ensures rule { rule_of result ≡ optional_rule (codes "write") }
    ensures local { result.global ≡ false }
{
    optional(
        alloc,
        "write",
        "FILE",
        "the file to write the program into with the orderings that are enough together, or with those that were missing",
    )
}

fn drawn_line<'a>(alloc: Global) -> Arg<'a>
    ensures rule { rule_of result ≡ optional_rule (codes "line") }
    ensures local { result.global ≡ false }
{
    optional(alloc, "line", "ADDRESS", LINE_HELP)
}

fn strict<'a>(alloc: Global) -> Arg<'a>
    ensures rule { rule_of result ≡ flag_rule (codes "strict") }
    ensures local { result.global ≡ false }
{
    flag(
        alloc,
        "strict",
        "end before the first event that changes nothing",
    )
}

fn state<'a>(alloc: Global) -> Arg<'a>
    ensures rule { rule_of result ≡ flag_rule (codes "state") }
    ensures local { result.global ≡ false }
{
    flag(
        alloc,
        "state",
        "print behind the stream what the machine holds at its end",
    )
}

fn vcd<'a>(alloc: Global) -> Arg<'a>
    ensures rule { rule_of result ≡ flag_rule (codes "vcd") }
    ensures local { result.global ≡ false }
{
    flag(
        alloc,
        "vcd",
        "print what each event changed as a value change dump, for a viewer of waves",
    )
}

fn messages<'a>(alloc: Global) -> Arg<'a>
    ensures rule { rule_of result ≡ flag_rule (codes "messages") }
    ensures local { result.global ≡ false }
{
    flag(
        alloc,
        "messages",
        "judge the trace's messages, and not its order",
    )
}

fn ended<'a>(alloc: Global) -> Arg<'a>
    ensures rule { rule_of result ≡ flag_rule (codes "ended") }
    ensures local { result.global ≡ false }
{
    flag(
        alloc,
        "ended",
        "with --messages, also ask that each question has its answer by the end",
    )
}

fn profile<'a>(alloc: Global) -> Arg<'a>
    ensures rule { rule_of result ≡ optional_rule (codes "profile") }
    ensures local { result.global ≡ false }
{
    optional(
        alloc,
        "profile",
        "NAME",
        "with --messages, whose rules they have to keep: machine (all that rvtl's machine keeps, the default) or tilelink (not those by which that machine asks more than TileLink)",
    )
}

fn all<'a>(alloc: Global) -> Arg<'a>
    ensures rule { rule_of result ≡ flag_rule (codes "all") }
    ensures local { result.global ≡ false }
{
    flag(
        alloc,
        "all",
        "with --messages, tell each message that breaks a rule, up to 100, and how many there are",
    )
}

fn skip<'a>(alloc: Global) -> Arg<'a>
    ensures rule { rule_of result ≡ flag_rule (codes "skip") }
    ensures local { result.global ≡ false }
{
    flag(
        alloc,
        "skip",
        "with --messages, pass over messages of other opcodes than those below, and count them",
    )
}

fn architecture<'a>(alloc: Global) -> Arg<'a>
    ensures rule { rule_of result ≡ flag_rule (codes "architecture") }
    ensures local { result.global ≡ false }
{
    flag(
        alloc,
        "architecture",
        "find what the memory model allows too, where this machine can't show it",
    )
}

fn script<'a>(alloc: Global) -> Arg<'a>
    ensures rule { rule_of result ≡ file_rule (codes "SCRIPT") }
    ensures local { result.global ≡ false }
{
    file(
        alloc,
        "SCRIPT",
        "the machine's size and its events, one a line",
    )
}

fn trace<'a>(alloc: Global) -> Arg<'a>
    ensures rule { rule_of result ≡ file_rule (codes "TRACE") }
    ensures local { result.global ≡ false }
{
    file(alloc, "TRACE", "a trace, as replay and run print it")
}

fn raw<'a>(alloc: Global) -> Arg<'a>
    ensures rule { rule_of result ≡ flag_rule (codes "raw") }
    ensures local { result.global ≡ false }
{
    flag(
        alloc,
        "raw",
        "IMAGE has bare little-endian words, the first at 0x80000000",
    )
}

fn image<'a>(alloc: Global) -> Arg<'a>
    ensures rule { rule_of result ≡ file_rule (codes "IMAGE") }
    ensures local { result.global ≡ false }
{
    file(alloc, "IMAGE", "the program that the harts run")
}

fn journal<'a>(alloc: Global) -> Arg<'a>
    ensures rule { rule_of result ≡ required_rule (codes "journal") }
    ensures local { result.global ≡ false }
{
    required_option(
        alloc,
        "journal",
        "FILE",
        "the file to write what happened into, as a script for replay",
    )
}

// ---- kinds of argument

fn named<'a>(alloc: Global, id: &'a str, help: &'a str) -> Arg<'a>
    ensures rule { rule_of result ≡ named_rule id.entry.now }
    ensures local { result.global ≡ false }
{
    Arg::new(alloc, id).long(id).help(help)
}

fn flag<'a>(alloc: Global, id: &'a str, help: &'a str) -> Arg<'a>
    ensures rule { rule_of result ≡ flag_rule id.entry.now }
    ensures local { result.global ≡ false }
{
    named(alloc, id, help).action(ArgAction::SetTrue)
}

fn model<'a>(alloc: Global, models: &'a [&'a str], help: &'a str) -> Arg<'a>
    ensures rule { rule_of result ≡ model_rule models.entry }
    ensures local { result.global ≡ false }
{
    named(alloc, "model", help)
        .value_parser(models)
        .default_value(MODELS[0])
}

/// A whole number in a range, of which both ends belong to it.
fn number<'a>(
    alloc: Global,
    id: &'a str,
    unit: &'a str,
    default: &'a str,
    range: (u64, u64),
    help: &'a str,
) -> Arg<'a>
    ensures rule { rule_of result ≡ number_rule id.entry.now default.entry.now range.0 range.1 }
    ensures local { result.global ≡ false }
{
    optional(alloc, id, unit, help)
        .value_parser(ValueParser::unsigned(range.0, range.1))
        .default_value(default)
}

fn size<'a>(alloc: Global, id: &'a str, unit: &'a str, default: &'a str, help: &'a str) -> Arg<'a>
    ensures rule { rule_of result ≡ number_rule id.entry.now default.entry.now 0 most_size }
    ensures local { result.global ≡ false }
{
    number(alloc, id, unit, default, (0, MOST), help)
}

fn required_option<'a>(alloc: Global, id: &'a str, unit: &'a str, help: &'a str) -> Arg<'a>
    ensures rule { rule_of result ≡ required_rule id.entry.now }
    ensures local { result.global ≡ false }
{
    optional(alloc, id, unit, help).required(true)
}

fn optional<'a>(alloc: Global, id: &'a str, unit: &'a str, help: &'a str) -> Arg<'a>
    ensures rule { rule_of result ≡ optional_rule id.entry.now }
    ensures local { result.global ≡ false }
{
    named(alloc, id, help).value_name(unit)
}

fn repeated<'a>(alloc: Global, id: &'a str, unit: &'a str, help: &'a str) -> Arg<'a>
    ensures rule { rule_of result ≡ repeated_rule id.entry.now }
    ensures local { result.global ≡ false }
{
    optional(alloc, id, unit, help).action(ArgAction::Append)
}

fn file<'a>(alloc: Global, id: &'a str, help: &'a str) -> Arg<'a>
    ensures rule { rule_of result ≡ file_rule id.entry.now }
    ensures local { result.global ≡ false }
{
    Arg::new(alloc, id).required(true).help(help)
}
