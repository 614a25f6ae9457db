//! What an exploration that is to end at the first of what it finds seeks.

ghost use Rattle.std.specs.Prelude.{◌≡◌, ◌<◌, IfOk, List, option_map, true, ℕ};
ghost use Rattle.exploration_text.specs.Words.{end_text};
ghost use Rattle.explore_command.specs.Sought.{IsRefused, IsRefusedBy};

use allowed_outcomes::{Allowed, without_number};
use exploration_text::{WordName, end_text};
use explorer::{Outcome, Seek};
use progress_line::Progress;
use std::alloc::{AllocError, Global};

/// Seeks a hart that stops, and an outcome that a text doesn't allow, where it is asked to, and ends by the clock, where it
/// is given seconds.
#[derive(Drop)]
pub(crate) struct First<'f, 'w, P> {
    pub(crate) alloc: Global,
    pub(crate) is_asked: bool,
    /// What lines call the words that are shown.
    pub(crate) names: &'f [WordName<'w>],
    /// What the text allows, where there is one.
    pub(crate) allowed: Option<Allowed<'f>>,
    /// After how many seconds of the command the search ends; never where it is 0.
    pub(crate) seconds: u32,
    progress: &'f P,
}

impl<'f, 'w, P: Progress> First<'f, 'w, P> {
    pub(crate) fn new(
        alloc: Global,
        is_asked: bool,
        names: &'f [WordName<'w>],
        text: &'f Option<Vec<u8>>,
        seconds: u32,
        progress: &'f P,
    ) -> Result<First<'f, 'w, P>, AllocError>
        ensures asked { IfOk result (λ first. first.is_asked ≡ is_asked) }
        ensures seconds { IfOk result (λ first. first.seconds ≡ seconds) }
        ensures names { IfOk result (λ first. first.names.now ≡ names.now) }
        ensures refuses { IfOk result (λ first. (line : List ℕ) → IsRefusedBy first.allowed line → IsRefused (option_map (λ bytes. bytes.items) text.now) line) }
    {
        let allowed = match text {
            Some(text) if is_asked => Some(Allowed::new(alloc, text)?),
            _ => None,
        };
        Ok(First {
            alloc,
            is_asked,
            names,
            allowed,
            seconds,
            progress,
        })
    }
}

impl<P: Progress> First<'_, '_, P> {
    /// Whether the command has taken all the seconds that it has.
    pub(crate) fn is_out_of_time(&self) -> bool
        ensures { result ≡ true → 0 < self.now.seconds }
    {
        0 < self.seconds && self.progress.has_taken(self.seconds)
    }
}

impl<P: Progress> Seek for First<'_, '_, P> {
    ghost SeeksStops = { λ first. first.is_asked ≡ true };

    ghost IsSought = { λ first outcome. (first.is_asked ≡ true) × IsRefusedBy first.allowed (end_text first.names.now outcome) };

    ghost IsTimed = { λ first. 0 < first.seconds };

    fn seeks_stops(&self) -> bool {
        self.is_asked
    }

    fn seeks_outcomes(&self) -> bool {
        self.is_asked && self.allowed.is_some()
    }

    fn seeks(&self, outcome: &Outcome) -> Result<bool, AllocError> {
        match &self.allowed {
            Some(allowed) if self.is_asked => {
                let harts = outcome.results().harts();
                let line = end_text(self.alloc, self.names, harts, outcome.words())?;
                Ok(!allowed.has(without_number(&line)))
            }
            _ => Ok(false),
        }
    }

    fn is_late(&self) -> bool {
        self.is_out_of_time()
    }
}
