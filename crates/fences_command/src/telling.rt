//! How far an audit is, told as a command's progress.

use fence_audit::Steps;
use progress_line::{Progress, Stage};
use state_search::Watch;
use std::sync::atomic::{AtomicU64, Ordering};

/// Tells a command's progress how far its searches are.
#[derive(Drop)]
pub(crate) struct Telling<'p, P> {
    progress: &'p P,
    /// How many programs were searched so far, which is told once the first was.
    programs: AtomicU64,
    /// Of at most how many: 0 where that isn't known yet.
    most: AtomicU64,
}

impl<'p, P: Progress> Telling<'p, P> {
    pub(crate) fn new(progress: &'p P) -> Telling<'p, P> {
        Telling {
            progress,
            programs: AtomicU64::new(1),
            most: AtomicU64::new(0),
        }
    }
}

impl<P: Progress> Watch for Telling<'_, P> {
    fn found(&self, states: u64, outcomes: u64) {
        let most = self.most.load(Ordering::SeqCst);
        self.progress.tell(if most == 0 {
            Stage::Explore { states, outcomes }
        } else {
            Stage::Done {
                done: self.programs.load(Ordering::SeqCst),
                known: most,
                what: "programs at most",
            }
        });
    }
}

impl<P: Progress> Steps for Telling<'_, P> {
    fn expects(&self, most: u64) {
        self.most.store(most, Ordering::SeqCst);
    }

    fn searched(&self, programs: u64) {
        self.programs.store(programs, Ordering::SeqCst);
    }
}
