//! Which outcomes were met.

use super::WORD;
use machine_types::Outcome;

/// The outcomes that a stream is to meet.
static EXPECTED: [Outcome; 14] = [
    Outcome::Retired,
    Outcome::Drained,
    Outcome::Delivered,
    Outcome::Evicted,
    Outcome::Missed(WORD),
    Outcome::WaitRelease,
    Outcome::WaitGrant,
    Outcome::NoEntry,
    Outcome::Empty,
    Outcome::Busy,
    Outcome::Releasing,
    Outcome::NotHeld,
    Outcome::AcquirePending,
    Outcome::NotLocal,
];

/// How often each expected outcome was met.
#[derive(Clone, Copy)]
pub struct Met {
    counts: [u32; 14],
}

impl Met {
    pub fn nothing() -> Met {
        Met { counts: [0; 14] }
    }

    pub fn count(&mut self, outcome: Outcome) {
        for (count, expected) in self.counts.iter_mut().zip(EXPECTED.iter()) {
            if *expected == outcome {
                *count = count.saturating_add(1);
            }
        }
    }

    /// The first expected outcome that wasn't met.
    pub fn missing(&self) -> Option<Outcome> {
        for (count, expected) in self.counts.iter().zip(EXPECTED.iter()) {
            if *count == 0 {
                return Some(*expected);
            }
        }
        None
    }
}
