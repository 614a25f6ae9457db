//! The rules of the lawful log, and the verdict on a log.
ghost use Rattle.std.specs.Prelude.{◌≡◌};
ghost use Rattle.lawful_log.specs.Laws.{EntriesDecide, IsOwnRule, ProfilesNest};
ghost use Rattle.lawful_log.specs.Rules.{asks_more, gives_trunk, rule_name};

use std::fmt;
use std::fmt::Display;
use tl_types::{Body, Cap};
use trace_recorder::Logged;

/// A rule that each entry of a log keeps, in the order in which they are asked.
#[derive(Clone, Copy, Debug, PartialEq, Eq)]
pub enum LogRule {
    /// A message that is taken was the front of its queue.
    InOrder,
    /// An answer is sent where a question of its kind has arrived that wasn't answered yet.
    Question,
    /// A Grant gives the permission that its Acquire asked for; by TileLink's rules it may give more.
    Permission,
    /// A Grant is without data exactly where its Acquire was BtoT and the Branch copy wasn't lost meanwhile; by
    /// TileLink's rules it may have data there too.
    Data,
    /// No second Acquire before the first one's Grant is taken.
    AcquireOnce,
    /// No second Probe to a hart before its ProbeAck is taken.
    ProbeOnce,
    /// No Probe and no other Grant of the line from a Grant's sending until its GrantAck is taken, and no
    /// Grant from a Probe's sending until its ProbeAck is taken.
    GrantAlone,
    /// No ProbeAck, Acquire or Release from a Release until its ReleaseAck is taken, and no Release from an
    /// Acquire until its Grant is taken.
    ReleaseAlone,
}

impl LogRule {
    /// All rules, in their order.
    pub const ALL: [LogRule; 8] = [
        LogRule::InOrder,
        LogRule::Question,
        LogRule::Permission,
        LogRule::Data,
        LogRule::AcquireOnce,
        LogRule::ProbeOnce,
        LogRule::GrantAlone,
        LogRule::ReleaseAlone,
    ];

    /// The rule's name.
    pub fn name(self) -> &'static str
        ensures { result.now ≡ rule_name self }
    {
        match self {
            LogRule::InOrder => "in-order",
            LogRule::Question => "question",
            LogRule::Permission => "permission",
            LogRule::Data => "data",
            LogRule::AcquireOnce => "acquire-once",
            LogRule::ProbeOnce => "probe-once",
            LogRule::GrantAlone => "grant-alone",
            LogRule::ReleaseAlone => "release-alone",
        }
    }

    /// Whether an entry that breaks this rule of the machine's keeps it as TileLink asks it.
    pub fn is_own(self, entry: &Logged) -> bool
        ensures { IsOwnRule self entry.now result }
    {
        asks_more(self, &entry.message.body)
    }
}

/// Whether this machine's rule may refuse a message to which TileLink's has nothing to object.
fn asks_more(rule: LogRule, body: &Body) -> bool
    ensures { result ≡ asks_more rule body.now }
{
    match rule {
        LogRule::Permission => gives_trunk(body),
        LogRule::Data => matches!(body, Body::GrantData { .. }),
        _ => false,
    }
}

fn gives_trunk(body: &Body) -> bool
    ensures { result ≡ gives_trunk body.now }
{
    match body {
        Body::Grant(cap) | Body::GrantData { cap, .. } => *cap == Cap::ToT,
        _ => false,
    }
}

impl Display for LogRule {
    fn fmt<W: fmt::Write>(&self, f: &mut fmt::Formatter<W>) -> fmt::Result {
        f.write_str(self.name())
    }
}

/// What is said of a log.
#[derive(Clone, Copy, Debug, PartialEq, Eq)]
pub enum LogVerdict {
    Lawful,
    /// The entry at `index`, counted from 0, is the first that breaks a rule, and `rule` the first of the
    /// rules that it breaks.
    Unlawful { rule: LogRule, index: usize },
}

impl Display for LogVerdict {
    fn fmt<W: fmt::Write>(&self, f: &mut fmt::Formatter<W>) -> fmt::Result {
        match self {
            LogVerdict::Lawful => f.write_str("lawful"),
            LogVerdict::Unlawful { rule, index } => write!(f, "unlawful {rule} {index}"),
        }
    }
}

/// A log is lawful exactly where each entry keeps each rule, behind the entries before it.
pub fn entries_decide()
    ensures { EntriesDecide }
{}

/// Whoever keeps this machine's rules keeps TileLink's.
pub fn profiles_nest()
    ensures { ProfilesNest }
{}
