//! What a search under a memory model that is to end at the first of what it finds seeks.

ghost use Rattle.std.specs.Prelude.{◌≡◌, ◌<◌, IfOk, List, Ok, option_map, true, ℕ};
ghost use Rattle.explore_command.specs.Sought.{IsRefused, IsRefusedBy, IsSoughtBy};
ghost use Rattle.explorer.specs.Ends.{outcome_with};

use crate::failing::has_stopped;
use crate::seeking::First;
use allowed_outcomes::without_number;
use exploration_text::{WordName, end_text};
use explorer::{Outcome, Seek};
use flat_model::HartResult;
use progress_line::Progress;
use std::alloc::{AllocError, Global};

/// Seeks a hart that stops, and an outcome in which one has, or that a text doesn't allow, where it is asked to.
#[derive(Drop)]
pub(crate) struct FirstOutcome<'f, 'w, P> {
    pub(crate) first: First<'f, 'w, P>,
}

impl<'f, 'w, P: Progress> FirstOutcome<'f, 'w, P> {
    pub(crate) fn new(
        alloc: Global,
        is_asked: bool,
        names: &'f [WordName<'w>],
        text: &'f Option<Vec<u8>>,
        seconds: u32,
        progress: &'f P,
    ) -> Result<FirstOutcome<'f, 'w, P>, AllocError>
        ensures asked { IfOk result (λ seek. seek.first.is_asked ≡ is_asked) }
        ensures seconds { IfOk result (λ seek. seek.first.seconds ≡ seconds) }
        ensures names { IfOk result (λ seek. seek.first.names.now ≡ names.now) }
        ensures refuses { IfOk result (λ seek. (line : List ℕ) → IsRefusedBy seek.first.allowed line → IsRefused (option_map (λ bytes. bytes.items) text.now) line) }
    {
        let first = First::new(alloc, is_asked, names, text, seconds, progress)?;
        Ok(FirstOutcome { first })
    }

    /// Whether an outcome with these results and words is sought.
    pub(crate) fn is_sought(&self, harts: &[HartResult], words: &[u32]) -> Result<bool, AllocError>
        ensures { result ≡ Ok true → IsSoughtBy self.now.first.is_asked self.now.first.names.now self.now.first.allowed (outcome_with harts.now words.now) }
    {
        if !self.first.is_asked {
            return Ok(false);
        }
        if has_stopped(harts) {
            return Ok(true);
        }
        let Some(allowed) = &self.first.allowed else {
            return Ok(false);
        };
        let line = end_text(self.first.alloc, self.first.names, harts, words)?;
        Ok(!allowed.has(without_number(&line)))
    }
}

impl<P: Progress> Seek for FirstOutcome<'_, '_, P> {
    ghost SeeksStops = { λ seek. seek.first.is_asked ≡ true };

    ghost IsSought = { λ seek outcome. IsSoughtBy seek.first.is_asked seek.first.names.now seek.first.allowed outcome };

    ghost IsTimed = { λ seek. 0 < seek.first.seconds };

    fn seeks_stops(&self) -> bool {
        self.first.is_asked
    }

    fn seeks_outcomes(&self) -> bool {
        self.first.is_asked
    }

    fn seeks(&self, outcome: &Outcome) -> Result<bool, AllocError> {
        self.is_sought(outcome.results().harts(), outcome.words())
    }

    fn is_late(&self) -> bool {
        self.first.is_out_of_time()
    }
}
