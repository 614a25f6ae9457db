//! The line's texts, and when they come.

use crate::same::{same, same_of};
use progress_line::{Progress, ProgressLine, Silent, Stage};
use std::alloc::Global;
use std::cell::{Cell, RefCell};
use std::fmt::Display;
use std::io::{self, Eprint, ErrorKind, Write};
use std::process::Abort;
use std::test::Fail;
use std::time::{Clock, Duration};

/// A clock that is set by hand, and what was written to standard error.
#[derive(Drop)]
struct Desk {
    millis: Cell<u64>,
    written: RefCell<Vec<u8>>,
}

impl Clock for Desk {
    fn monotonic(&self) -> io::Result<Duration> {
        Ok(Duration::from_millis(self.millis.get()))
    }

    fn since_1970(&self) -> io::Result<Duration> {
        Err(io::Error::from(ErrorKind::Unsupported))
    }
}

impl Eprint for Desk {
    fn eprint<D: Display + Drop>(&self, value: D) -> io::Result<()> {
        let mut written = self.written.try_borrow_mut()?;
        write!(&mut *written, "{value}")
    }

    fn eprintln<D: Display + Drop>(&self, value: D) -> io::Result<()> {
        self.eprint(value)
    }
}

impl Desk {
    fn new(alloc: Global, millis: u64) -> Desk {
        Desk {
            millis: Cell::new(millis),
            written: RefCell::new(Vec::new(alloc)),
        }
    }

    /// The clock is set, and what was written taken away.
    fn turn_to(&self, rt: &impl Abort, millis: u64) {
        self.millis.set(millis);
        self.written.try_borrow_mut().expect(rt, "a desk").clear();
    }

    /// What was written is this.
    fn holds(&self, rt: &impl Abort, text: &str) {
        let written = self.written.try_borrow().expect(rt, "a desk");
        same(rt, written.as_slice(), text.as_bytes());
    }

    fn is_empty(&self, rt: &impl Abort) -> bool {
        self.written.try_borrow().expect(rt, "a desk").is_empty()
    }
}

const RUN: Stage<'static> = Stage::Run {
    events: 12_345_678,
    retired: &[0, 9_999, 10_000, 1_000_000, 10_000_000],
};

/// Milliseconds since the start, and whether a line comes.
static TIMES: [(u64, bool); 8] = [
    (0, false),
    (999, false),
    (1_000, true),
    (1_001, false),
    (1_499, false),
    (1_500, true),
    (9_999, true),
    (10_000, true),
];

fn tells_at_times(rt: &impl Abort, desk: &Desk, progress: &impl Progress) {
    for (millis, is_due) in &TIMES {
        desk.turn_to(rt, millis.wrapping_add(70));
        progress.tell(RUN);
        same_of(rt, desk.is_empty(rt), !*is_due, millis);
    }
}

#[test]
fn a_line_comes_twice_a_second(rt: HostRuntime) -> Result<(), Fail> {
    let desk = Desk::new(rt.alloc(), 70);
    let progress = Some(ProgressLine::start(&desk, true)?);
    tells_at_times(&rt, &desk, &progress);
    Ok(())
}

const EXPLORE: Stage<'static> = Stage::Explore {
    states: 1_000_000,
    outcomes: 3,
};

const SAMPLE: Stage<'static> = Stage::Sample {
    runs: 50_000,
    ends: 4,
};

const LOOK: Stage<'static> = Stage::Look { runs: 600 };

/// Milliseconds since the start, what is told then, and the line.
static LINES: [(u64, Stage<'static>, &str); 6] = [
    (
        12_000,
        RUN,
        "12 s, 12M events, retired 0 9999 10k 1000k 10M\x1b[K\r",
    ),
    (
        13_999,
        SAMPLE,
        "13 s, 50k runs (3571 a second), 4 ends\x1b[K\r",
    ),
    (
        16_500,
        EXPLORE,
        "16 s, 1000k states (60k a second), 3 outcomes\x1b[K\r",
    ),
    (
        20_000,
        EXPLORE,
        "20 s, 1000k states (50k a second), 3 outcomes\x1b[K\r",
    ),
    (
        25_000,
        SAMPLE,
        "25 s, 50k runs (2000 a second), 4 ends\x1b[K\r",
    ),
    (30_000, LOOK, "30 s, 600 runs (20 a second)\x1b[K\r"),
];

fn tells_lines(rt: &impl Abort, desk: &Desk, progress: &impl Progress) {
    progress.end();
    desk.holds(rt, "");
    for (millis, stage, line) in &LINES {
        desk.turn_to(rt, *millis);
        progress.tell(*stage);
        desk.holds(rt, line);
    }
    desk.turn_to(rt, 30_000);
    progress.end();
    desk.holds(rt, "\x1b[K");
}

#[test]
fn lines_are_short(rt: HostRuntime) -> Result<(), Fail> {
    let desk = Desk::new(rt.alloc(), 0);
    let progress = ProgressLine::start(&desk, true)?;
    tells_lines(&rt, &desk, &progress);
    Silent.tell(RUN);
    Silent.end();
    Ok(())
}

/// Milliseconds since the start, how many seconds are asked for, and whether they are over.
static SECONDS: [(u64, u32, bool); 4] = [
    (0, 1, false),
    (999, 1, false),
    (1_000, 1, true),
    (3_500, 4, false),
];

#[test]
fn a_line_that_is_not_shown_has_the_time(rt: HostRuntime) -> Result<(), Fail> {
    let desk = Desk::new(rt.alloc(), 0);
    let progress = Some(ProgressLine::start(&desk, false)?);
    for (millis, seconds, is_over) in &SECONDS {
        desk.turn_to(&rt, *millis);
        same_of(&rt, progress.has_taken(*seconds), *is_over, millis);
        progress.tell(RUN);
        desk.holds(&rt, "");
    }
    assert!(rt; !Silent.has_taken(0));
    Ok(())
}
