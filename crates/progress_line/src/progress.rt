//! What a command tells of its way.

/// How far a command is.
#[derive(Clone, Copy, Debug)]
pub enum Stage<'a> {
    /// The events that harts have tried, and how many instructions each has retired, by hart.
    Run {
        events: u64,
        retired: &'a [u64],
    },
    /// The states and the outcomes that were found.
    Explore {
        states: u64,
        outcomes: u64,
    },
    /// The random runs that were made, and the ends that they came to.
    Sample {
        runs: u64,
        ends: u64,
    },
    /// The random runs that were looked through.
    Look {
        runs: u64,
    },
    /// How many of those that are known are done, and what they are, as `tests`.
    Done {
        done: u64,
        known: u64,
        what: &'static str,
    },
}

/// Is told how far a command is, as often as the command likes.
pub trait Progress {
    /// The command has come this far.
    fn tell(&self, stage: Stage<'_>);

    /// The command is about to print, or has ended.
    fn end(&self);

    /// Whether the command has taken so many seconds, as far as there is a clock.
    fn has_taken(&self, seconds: u32) -> bool;
}

/// Listens to nothing.
#[derive(Clone, Copy, Debug)]
pub struct Silent;

impl Progress for Silent {
    fn tell(&self, _stage: Stage<'_>) {}

    fn end(&self) {}

    fn has_taken(&self, _seconds: u32) -> bool {
        false
    }
}

impl<P: Progress> Progress for Option<P> {
    fn tell(&self, stage: Stage<'_>) {
        if let Some(progress) = self {
            progress.tell(stage);
        }
    }

    fn end(&self) {
        if let Some(progress) = self {
            progress.end();
        }
    }

    fn has_taken(&self, seconds: u32) -> bool {
        match self {
            Some(progress) => progress.has_taken(seconds),
            None => false,
        }
    }
}
