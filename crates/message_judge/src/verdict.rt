//! The verdict on the messages of a log.
ghost use Rattle.std.specs.Prelude.{◌≡◌};
ghost use Rattle.message_judge.specs.Names.{rule_name};

use coherent_log::Breach;
use lawful_log::LogRule;

/// What a message breaks.
#[derive(Clone, Copy, Debug, PartialEq, Eq)]
pub enum MessageBreach {
    /// A rule of the lawful log.
    Unlawful(LogRule),
    /// A rule of the coherent log, and none of the lawful log: what the log said before doesn't fit.
    Incoherent(Breach),
    /// No other rule is broken, the log has ended, and the answer that the message asks for wasn't taken.
    Unanswered,
    /// No other rule is broken but that of answers, and the byte at this address is neither one that the message's hart
    /// was granted nor one that it wrote. No log tells that: it takes a trace with its operations.
    Unwritten { address: u64 },
}

impl MessageBreach {
    /// The name of the rule that is broken.
    pub fn rule_name(&self) -> &'static str
        ensures { result.now ≡ rule_name self.now }
    {
        match self {
            MessageBreach::Unlawful(rule) => rule.name(),
            MessageBreach::Incoherent(breach) => breach.rule().name(),
            MessageBreach::Unanswered => "ended",
            MessageBreach::Unwritten { address: _ } => "data-written",
        }
    }
}

/// What is said of the messages of a log.
#[derive(Clone, Copy, Debug, PartialEq, Eq)]
pub enum MessageVerdict {
    /// Each message keeps each rule of the lawful log and of the coherent log.
    Lawful,
    /// The message at `index`, counted from 0, is the first that breaks a rule.
    Unlawful { breach: MessageBreach, index: usize },
}
