//! What the words of the command line ask for.

ghost use Rattle.std.specs.Prelude.{◌↔◌, ◌≡◌, ◌⊎◌, IsSome, IsTrue};
ghost use Rattle.command_settings.specs.Settings.{AreConflicting, HasConflict, HasNoRules, IsBesideMessages, IsBlind, IsMixed, IsTwofold, IsUnknown, IsUnread, IsUnsearched, IsUnstopping, IsUntimed, ShowsNoEnd, are_all, are_conditions, are_skipped, asks_of_ends, asks_of_messages, asks_tilelink, fails_on_stop, has_word, is_condition, is_profile, is_stop, lists, message_in, shortens};

use clap::error::ErrorKind;
use machine_types::MemoryModel;
use message_pattern::{MessagePattern, pattern_in};
use std::alloc::AllocError;
use thiserror::Error;

/// What to do where random runs are to be made, and the memory model searched.
const TWOFOLD: &str =
    "--sample makes random runs of the machine, and goes with --seed; --architecture searches the memory model, and goes with --window and --show: leave out one of them";

/// What to do where a search is to fail on what it doesn't look for.
const BLIND: &str =
    "neither --sample nor --architecture looks for states from which no schedule ends: leave out --fail-on stuck";

/// What to do where a search is to end at its first, and there is none.
const UNSEARCHED: &str =
    "--first ends a search, and goes with --allow, --show and --architecture: leave it out, or else --sample";

/// What to do where a search is to fail on what there isn't.
const UNKNOWN: &str =
    "--fail-on takes failure, stuck or incomplete, or several of them with a comma between each two";

/// What to do where random runs are to be made, and a search to end by the clock.
const UNTIMED: &str = "--seconds ends a search: leave it out, or else --sample";

/// What to do where a message is looked for, and something asked of a program's ends.
const MIXED: &str =
    "--until looks for a message in random runs, and goes with --sample, --seed and --whole: leave it out, or what is said of a program's ends";

/// What to do where no message is named that could be looked for.
const UNREAD: &str =
    "--until takes a message's name, hart and an address in its line as in a trace, or * for any of them, as 'ReleaseData 0 *' or 'GrantAck * 0x80000100'";

/// What to do where a run is to fail on what there isn't.
const UNSTOPPING: &str = "--fail-on of a run takes stop";

/// What to do where messages are to be judged by rules that there aren't.
const NO_PROFILE: &str = "--profile takes machine or tilelink";

/// What to do where something is asked of messages that aren't judged.
const NO_MESSAGES: &str =
    "--ended, --profile, --all and --skip go with --messages: leave them out, or judge the messages";

/// Apply the events of the file `script` to a machine that begins with the file `image`, which has bare
/// words where `raw` is set, and else is an ELF file.
#[derive(Clone, Copy)]
pub struct Replay<'a> {
    pub raw: bool,
    /// Under which the machine runs.
    pub model: MemoryModel,
    pub image: &'a str,
    pub script: &'a str,
}

/// The machine that the words name. Its numbers are as they were given: no machine need be of that size.
#[derive(Clone, Copy)]
pub struct MachineOptions {
    /// How many harts the machine has.
    pub harts: u32,
    /// Main memory's size in KiB.
    pub memory: u32,
    /// How many sets each cache has.
    pub sets: u32,
    /// How many lines a set holds.
    pub ways: u32,
    /// How many bytes a line has.
    pub line: u32,
    /// Under which the machine runs.
    pub model: MemoryModel,
}

/// Run the file `image` with a thread for each hart, and write the events that happened into the file
/// `journal` as a script. The image has bare words where `raw` is set, and else is an ELF file.
#[derive(Clone, Copy)]
pub struct Run<'a> {
    pub raw: bool,
    pub machine: MachineOptions,
    /// After how many events, those that change nothing among them, the run ends: 1 to 1000000000.
    pub limit: u32,
    pub journal: &'a str,
    /// What the run may not come to: `stop`.
    pub fail_on: Option<&'a str>,
    pub image: &'a str,
}

impl Run<'_> {
    /// Whether the run may not come to a hart that stops.
    pub fn fails_on_stop(&self) -> bool
        ensures { result ≡ fails_on_stop self.now.fail_on }
    {
        match self.fail_on {
            Some(word) => is_stop(word),
            None => false,
        }
    }

    /// What doesn't go together, and what to do, if there is anything.
    fn conflict(&self) -> Option<&'static str>
        ensures { IsSome result ↔ IsUnstopping self.now }
    {
        match self.fail_on {
            Some(word) if !is_stop(word) => Some(UNSTOPPING),
            _ => None,
        }
    }
}

/// Whether this is what a run can come to.
fn is_stop(word: &str) -> bool
    ensures { result ≡ is_stop word.now }
{
    word == "stop"
}

/// Replay, and tell of each event what it did.
#[derive(Clone, Copy)]
pub struct Explain<'a> {
    pub replay: Replay<'a>,
    /// End before the first event that changes nothing.
    pub strict: bool,
    /// Tell behind the stream what the machine holds at its end.
    pub state: bool,
    /// Tell what each event changed as waves: the other two say nothing then.
    pub vcd: bool,
}

/// Replay, and draw what happened as a picture.
#[derive(Clone, Copy)]
pub struct Chart<'a> {
    pub replay: Replay<'a>,
    /// The address of the line whose messages alone are drawn, as it was given.
    pub line: Option<&'a str>,
}

/// Find every end that the machine can bring the program of the file `image` to, which has bare words
/// where `raw` is set, and else is an ELF file.
#[derive(Clone, Copy)]
pub struct Explore<'a> {
    pub raw: bool,
    pub machine: MachineOptions,
    /// How many states may be met before the search ends: 1 to 1000000000.
    pub states: u32,
    /// The folder into which a script for each outcome is written.
    pub scripts: Option<&'a str>,
    /// A script keeps the events that its outcome doesn't need.
    pub whole: bool,
    /// The file with the outcomes that are allowed.
    pub allow: Option<&'a str>,
    /// What the search may not come to: `failure`, `stuck` or `incomplete`, with a comma between each two.
    pub fail_on: Option<&'a str>,
    /// The search ends at the first failure, and at the first outcome that the file doesn't allow.
    pub first: bool,
    /// After how many seconds the search ends: 0 to 1000000000, and never where it is 0.
    pub seconds: u32,
    /// How many random runs to make in place of a search: 0 to 1000000000, and none where it is 0.
    pub sample: u32,
    /// What the random runs begin from.
    pub seed: u32,
    /// The message that the random runs are looked through for: its name, its hart and an address in its line.
    pub until: Option<&'a str>,
    /// Find what the memory model allows too, where the machine can't show it.
    pub architecture: bool,
    /// How many operations of a hart may wait at a time in a search of what the model allows: 1 to 64.
    pub window: u32,
    pub image: &'a str,
}

impl Explore<'_> {
    /// Whether the search may not come to this.
    pub fn fails_on(&self, condition: &str) -> bool
        ensures { result ≡ lists condition.now self.now.fail_on }
    {
        match self.fail_on {
            Some(list) => has_word(list, condition),
            None => false,
        }
    }

    /// Whether scripts are to be written, without the events that their outcomes don't need.
    pub fn shortens(&self) -> bool
        ensures { result ≡ shortens self.now }
    {
        self.scripts.is_some() && !self.whole
    }

    /// The message that random runs are looked through for, if one is.
    pub fn message(&self) -> Option<MessagePattern>
        ensures { result ≡ message_in self.now.until }
    {
        pattern_in(self.until?.as_bytes())
    }

    /// Whether random runs are asked for, and a search of the memory model.
    fn is_twofold(&self) -> bool
        ensures { IsTrue result ↔ IsTwofold self.now }
    {
        self.architecture && 0 < self.sample
    }

    /// Whether the search is to fail on states from which no schedule ends, and doesn't look for them.
    fn is_blind(&self) -> bool
        ensures { IsTrue result ↔ IsBlind self.now }
    {
        self.fails_on("stuck") && (self.architecture || 0 < self.sample)
    }

    /// Whether the first of what a search finds is asked for, and no search.
    fn is_unsearched(&self) -> bool
        ensures { IsTrue result ↔ IsUnsearched self.now }
    {
        self.first && 0 < self.sample
    }

    /// Whether the search is to fail on what there isn't.
    fn is_unknown(&self) -> bool
        ensures { IsTrue result ↔ IsUnknown self.now }
    {
        match self.fail_on {
            Some(list) => !are_conditions(list),
            None => false,
        }
    }

    /// Whether random runs are asked for, and a search that ends by the clock.
    fn is_untimed(&self) -> bool
        ensures { IsTrue result ↔ IsUntimed self.now }
    {
        0 < self.seconds && 0 < self.sample
    }

    /// Whether something is asked of a program's ends.
    fn asks_of_ends(&self) -> bool
        ensures { result ≡ asks_of_ends self.now }
    {
        self.architecture
            || self.first
            || self.scripts.is_some()
            || self.allow.is_some()
            || self.fail_on.is_some()
            || 0 < self.seconds
    }

    /// Whether that is asked, and a message looked for.
    fn is_mixed(&self) -> bool
        ensures { IsTrue result ↔ IsMixed self.now }
    {
        self.until.is_some() && self.asks_of_ends()
    }

    /// Whether what is looked for is no message.
    fn is_unread(&self) -> bool
        ensures { IsTrue result ↔ IsUnread self.now }
    {
        self.until.is_some() && self.message().is_none()
    }

    /// What doesn't go together, and what to do, if there is anything.
    fn conflict(&self) -> Option<&'static str>
        ensures { IsSome result ↔ HasConflict self.now }
    {
        if self.is_twofold() {
            Some(TWOFOLD)
        } else if self.is_unsearched() {
            Some(UNSEARCHED)
        } else if self.is_unknown() {
            Some(UNKNOWN)
        } else if self.is_blind() {
            Some(BLIND)
        } else if self.is_untimed() {
            Some(UNTIMED)
        } else if self.is_mixed() {
            Some(MIXED)
        } else if self.is_unread() {
            Some(UNREAD)
        } else {
            None
        }
    }
}

/// Whether one of the words of the list is this one.
fn has_word(list: &str, word: &str) -> bool
    ensures { result ≡ has_word word.now list.now }
{
    list.split(',').any(|each| each == word)
}

/// Whether a search can come to this.
fn is_condition(word: &str) -> bool
    ensures { result ≡ is_condition word.now }
{
    matches!(word, "failure" | "stuck" | "incomplete")
}

/// Whether a search can come to each word of the list.
fn are_conditions(list: &str) -> bool
    ensures { result ≡ are_conditions list.now }
{
    list.split(',').all(|each| is_condition(each))
}

/// Explore until no store waits, and show words of memory at the ends.
#[derive(Drop)]
pub struct Show<'a> {
    pub explore: Explore<'a>,
    /// The words, one at least, in the order of their asking: each an address or a symbol, as it was given.
    pub words: Vec<&'a str>,
}

impl Show<'_> {
    /// What doesn't go together, and what to do, if there is anything.
    fn conflict(&self) -> Option<&'static str>
        ensures { IsSome result ↔ (ShowsNoEnd self.now.explore ⊎ HasConflict self.now.explore) }
    {
        if self.explore.until.is_some() {
            return Some(MIXED);
        }
        self.explore.conflict()
    }
}

/// Whose outcomes of a program are asked for.
#[derive(Clone, Copy)]
pub enum Subject {
    /// Those that the memory model allows.
    Model,
    /// Those that this machine shows.
    Machine,
}

/// Find out which of the orderings of the program of the file `image` it needs. The image has bare words where `raw` is
/// set, and else is an ELF file.
#[derive(Clone, Copy)]
pub struct Fences<'a> {
    pub raw: bool,
    pub machine: MachineOptions,
    /// How many states each search may meet before it ends: 1 to 1000000000.
    pub states: u32,
    /// How many operations of a hart may wait at a time: 1 to 64.
    pub window: u32,
    /// How many searches go side by side, 0 to 64: as many as there are processors where it is 0.
    pub threads: u32,
    /// The file with the outcomes that are allowed, in place of those of the program as it is.
    pub allow: Option<&'a str>,
    /// Whose outcomes are compared.
    pub subject: Subject,
    /// The folder into which go runs that show what is lost without an ordering that is needed.
    pub scripts: Option<&'a str>,
    /// The file into which the program goes with the orderings that are enough.
    pub write: Option<&'a str>,
    pub image: &'a str,
}

/// Find out which orderings a program needs, by its outcomes with words of memory.
#[derive(Drop)]
pub struct Audit<'a> {
    pub fences: Fences<'a>,
    /// The words that belong to an outcome, in the order of their asking: each an address or a symbol, as it was given.
    pub words: Vec<&'a str>,
}

/// Which of the messages that break a rule are told.
#[derive(Clone, Copy)]
pub enum Breaches {
    /// The first alone.
    First,
    All,
}

impl Breaches {
    fn are_all(self) -> bool
        ensures { result ≡ are_all self }
    {
        match self {
            Breaches::First => false,
            Breaches::All => true,
        }
    }
}

/// What becomes of messages whose opcode is none of TL-C's own, such as Get, Put and Hint.
#[derive(Clone, Copy)]
pub enum OtherOpcodes {
    Refused,
    /// They are passed over, and counted.
    Skipped,
}

impl OtherOpcodes {
    fn are_skipped(self) -> bool
        ensures { result ≡ are_skipped self }
    {
        match self {
            OtherOpcodes::Refused => false,
            OtherOpcodes::Skipped => true,
        }
    }
}

/// Judge the order of the trace in the file `trace`, or its messages.
#[derive(Clone, Copy)]
pub struct Check<'a> {
    /// Judge the messages in place of the order.
    pub messages: bool,
    /// Each question among the messages has its answer by the end.
    pub ended: bool,
    /// By whose rules the messages are judged: `machine` or `tilelink`, and this machine's where none is named.
    pub profile: Option<&'a str>,
    /// Which of the messages that break a rule are told: the first alone where nothing else is asked for.
    pub breaches: Breaches,
    /// What becomes of messages with other opcodes: they are refused where nothing else is asked for.
    pub other_opcodes: OtherOpcodes,
    /// Under which the order is judged.
    pub model: MemoryModel,
    pub trace: &'a str,
}

impl Check<'_> {
    /// Whether the messages are judged by what TileLink asks, and not by all that this machine keeps.
    pub fn asks_tilelink(&self) -> bool
        ensures { result ≡ asks_tilelink self.now.profile }
    {
        match self.profile {
            Some(name) => name == "tilelink",
            None => false,
        }
    }

    /// Whether something is asked that only messages answer.
    fn asks_of_messages(&self) -> bool
        ensures { result ≡ asks_of_messages self.now }
    {
        self.ended
            || self.profile.is_some()
            || self.breaches.are_all()
            || self.other_opcodes.are_skipped()
    }

    /// Whether that is asked, and the messages aren't judged.
    fn is_beside_messages(&self) -> bool
        ensures { IsTrue result ↔ IsBesideMessages self.now }
    {
        !self.messages && self.asks_of_messages()
    }

    /// Whether rules are asked for that there aren't.
    fn has_no_rules(&self) -> bool
        ensures { IsTrue result ↔ HasNoRules self.now }
    {
        match self.profile {
            Some(name) => !is_profile(name),
            None => false,
        }
    }

    /// What doesn't go together, and what to do, if there is anything.
    fn conflict(&self) -> Option<&'static str>
        ensures { IsSome result ↔ (IsBesideMessages self.now ⊎ HasNoRules self.now) }
    {
        if self.is_beside_messages() {
            Some(NO_MESSAGES)
        } else if self.has_no_rules() {
            Some(NO_PROFILE)
        } else {
            None
        }
    }
}

/// Whether somebody's rules have this name.
fn is_profile(name: &str) -> bool
    ensures { result ≡ is_profile name.now }
{
    matches!(name, "machine" | "tilelink")
}

/// What the program is to do.
#[derive(Drop)]
pub enum Settings<'a> {
    Replay(Replay<'a>),
    Run(Run<'a>),
    Explain(Explain<'a>),
    Chart(Chart<'a>),
    /// Replay, and print a page that shows what happened, event by event.
    Page(Replay<'a>),
    Explore(Explore<'a>),
    Show(Show<'a>),
    Fences(Audit<'a>),
    Check(Check<'a>),
}

impl Settings<'_> {
    /// What doesn't go together, and what to do, if there is anything.
    pub(crate) fn conflict(&self) -> Option<&'static str>
        ensures { IsSome result ↔ AreConflicting self.now }
    {
        match self {
            Settings::Explore(explore) => explore.conflict(),
            Settings::Show(show) => show.conflict(),
            Settings::Run(run) => run.conflict(),
            Settings::Check(check) => check.conflict(),
            Settings::Replay(_)
            | Settings::Explain(_)
            | Settings::Chart(_)
            | Settings::Page(_)
            | Settings::Fences(_) => None,
        }
    }
}

/// Why the words ask for nothing that the program can do.
#[derive(Debug, Drop, Error)]
pub enum SettingsError {
    /// The words don't fit the usage, or ask for help: the text to print.
    #[error("{0}")]
    Usage(clap::Error),
    #[error("out of memory")]
    NoMemory,
}

impl From<AllocError> for SettingsError {
    ghost use Rattle.std.specs.Prelude.{◌≡◌};
    ghost use Rattle.command_settings.specs.declared.wanted.SettingsError.TheVariants.{NoMemory};

    ghost from_gives = { λ _ error. error ≡ NoMemory };

    fn from(_error: AllocError) -> Self {
        SettingsError::NoMemory
    }
}

impl From<clap::Error> for SettingsError {
    ghost use Rattle.command_settings.specs.Refusals.{TellsError};

    ghost from_gives = { TellsError };

    fn from(error: clap::Error) -> Self {
        match error.kind() {
            ErrorKind::OutOfMemory => SettingsError::NoMemory,
            _ => SettingsError::Usage(error),
        }
    }
}
