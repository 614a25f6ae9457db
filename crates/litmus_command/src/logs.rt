//! Logs with which answers are compared.

ghost use Rattle.std.specs.Prelude.{◌≡◌, IfOk};
ghost use Rattle.std.specs.Option.{option_map};
ghost use Rattle.litmus_answers.specs.Entries.{all_said, said};
ghost use Rattle.litmus_command.specs.Comparing as comparing;
ghost use Rattle.litmus_command.specs.Waiting as waiting;

use litmus_answers::{Entry, agrees, entries_of, is_within};
use litmus_parts::is_same;
use std::alloc::{AllocError, Global};

/// The logs that are named.
#[derive(Drop)]
pub(crate) struct Logs {
    /// Whose states and answers are expected.
    pub expect: Option<Vec<Entry>>,
    /// Each of whose states has to be found.
    pub seen: Option<Vec<Entry>>,
}

/// What a log has of the test of this name, where it first tells of it.
fn entry_of<'a>(entries: &'a [Entry], name: &[u8]) -> Option<&'a Entry>
    ensures { option_map (λ entry. said entry.now) result ≡ comparing.test_named name.now (all_said entries.now) }
{
    let mut rest = entries;
    while let [first, tail @ ..] = rest {
        if is_same(name, &first.name) {
            return Some(first);
        }
        rest = tail;
    }
    None
}

/// Whether a test's states and answer are those that are expected.
fn is_expected(log: &Option<Vec<Entry>>, own: &Entry) -> bool
    ensures { result ≡ comparing.is_expected (comparing.read log.now) (said own.now) }
{
    let Some(entries) = log else {
        return true;
    };
    match entry_of(entries, &own.name) {
        Some(entry) => agrees(own, entry),
        None => false,
    }
}

/// Whether none of the states that were seen of a test is missing.
fn has_seen(log: &Option<Vec<Entry>>, own: &Entry) -> bool
    ensures { result ≡ comparing.has_seen (comparing.read log.now) (said own.now) }
{
    let Some(entries) = log else {
        return true;
    };
    match entry_of(entries, &own.name) {
        Some(entry) => is_within(entry, own),
        None => false,
    }
}

impl Logs {
    /// Whether answers are compared.
    pub fn are_named(&self) -> bool
        ensures { result ≡ waiting.are_named self.now }
    {
        self.expect.is_some() || self.seen.is_some()
    }

    /// Whether a test's block is as the logs have it.
    pub fn judge(&self, alloc: Global, block: &[u8]) -> Result<bool, AllocError>
        ensures { IfOk result (λ is_as_logged. is_as_logged ≡ comparing.as_logged (comparing.logged self.now) block.now) }
    {
        let own = entries_of(alloc, block)?;
        match own.as_slice() {
            [own, ..] => Ok(is_expected(&self.expect, own) && has_seen(&self.seen, own)),
            [] => Ok(false),
        }
    }
}
