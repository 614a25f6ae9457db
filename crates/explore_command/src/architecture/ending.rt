//! What ends the search under the model itself.

ghost use Rattle.std.specs.Prelude.{◌≡◌, ◌<◌, true};
ghost use Rattle.explore_command.specs.Sought.{IsSoughtBy};

use crate::architecture::seeking::FirstOutcome;
use architecture_outcomes::window_search::Seek;
use flat_model::HartResult;
use progress_line::Progress;
use std::alloc::AllocError;

impl<P: Progress> Seek for FirstOutcome<'_, '_, P> {
    ghost SeeksStops = { λ seek. seek.first.is_asked ≡ true };

    ghost IsSought = { λ seek outcome. IsSoughtBy seek.first.is_asked seek.first.names.now seek.first.allowed outcome };

    ghost IsTimed = { λ seek. 0 < seek.first.seconds };

    fn seeks_stops(&self) -> bool {
        self.first.is_asked
    }

    fn seeks_outcomes(&self) -> bool {
        self.first.is_asked
    }

    fn seeks(&self, harts: &[HartResult], words: &[u32]) -> Result<bool, AllocError> {
        self.is_sought(harts, words)
    }

    fn is_late(&self) -> bool {
        self.first.is_out_of_time()
    }
}
