//! The line of a terminal that tells how far a command is.

ghost use Rattle.std.specs.Prelude.{◌≡◌, ◌*◌, ◌/◌, ◌^◌, ◌-◌, max, min};
ghost use Rattle.std.specs.Duration.{as_nanos};

use crate::progress::{Progress, Stage};
use std::fmt::{self, Display, Formatter};
use std::io::{self, Eprint};
use std::sync::atomic::{AtomicU64, Ordering};
use std::time::{Clock, Duration, Instant};

/// The half second before which nothing is told, counted from 0: a command that takes no longer than a
/// second tells nothing.
const FIRST_TOLD: u64 = 2;

/// Erases a terminal's line from the cursor on.
const ERASE: &str = "\x1b[K";

/// Tells how far a command is on standard error, which is a terminal: behind the first second, once in each
/// half second, each line over the last one. A line that can't be written is left out. Where standard error is none, it
/// has the command's time alone.
#[derive(Drop)]
pub struct ProgressLine<'r, R> {
    rt: &'r R,
    started: Instant,
    is_shown: bool,
    // The half second from which the next line may be told.
    next: AtomicU64,
}

impl<'r, R: Clock> ProgressLine<'r, R> {
    /// For a command that starts now, with or without a line that is shown. It errs where the clock does.
    pub fn start(rt: &'r R, is_shown: bool) -> io::Result<ProgressLine<'r, R>> {
        Ok(ProgressLine {
            rt,
            started: Instant::now(rt)?,
            is_shown,
            next: AtomicU64::new(FIRST_TOLD),
        })
    }

    // The time since the start, where a line is due. Of several threads one is answered so.
    fn due(&self) -> Option<Duration> {
        if !self.is_shown {
            return None;
        }
        let elapsed = self.started.elapsed(self.rt).ok()?;
        let half = half_seconds(elapsed);
        let next = self.next.load(Ordering::SeqCst);
        if half < next {
            return None;
        }
        let following = half.saturating_add(1);
        self.next
            .compare_exchange(next, following, Ordering::SeqCst, Ordering::SeqCst)
            .ok()?;
        Some(elapsed)
    }
}

impl<R: Clock + Eprint> Progress for ProgressLine<'_, R> {
    fn tell(&self, stage: Stage<'_>) {
        if let Some(elapsed) = self.due() {
            let _ = self.rt.eprint(Line { elapsed, stage });
        }
    }

    fn end(&self) {
        if self.next.load(Ordering::SeqCst) != FIRST_TOLD {
            let _ = self.rt.eprint(ERASE);
        }
    }

    fn has_taken(&self, seconds: u32) -> bool {
        match self.started.elapsed(self.rt) {
            Ok(elapsed) => elapsed.as_secs() >= u64::from(seconds),
            Err(_) => false,
        }
    }
}

/// How many half seconds have passed, as far as a number of 64 bits tells it.
fn half_seconds(elapsed: Duration) -> u64
    ensures { result ≡ min (as_nanos elapsed / 1000000 / 500) (2 ^ 64 - 1) }
{
    u64::try_from(elapsed.as_millis() / 500).unwrap_or(u64::MAX)
}

/// How many of so many things came in each second of this time, which counts as a millisecond at least; as far as a
/// number of 64 bits tells it.
fn per_second(count: u64, elapsed: Duration) -> u64
    ensures { result ≡ min (count * 1000 / max 1 (as_nanos elapsed / 1000000)) (2 ^ 64 - 1) }
{
    let millis = elapsed.as_millis().max(1);
    u64::try_from(u128::from(count) * 1_000 / millis).unwrap_or(u64::MAX)
}

// What stands on the line; the cursor stays at its beginning. It is shorter than 80 columns while the
// command takes less than a day.
#[derive(Drop)]
struct Line<'a> {
    elapsed: Duration,
    stage: Stage<'a>,
}

impl Display for Line<'_> {
    fn fmt<W: fmt::Write>(&self, f: &mut Formatter<W>) -> fmt::Result {
        write!(f, "{} s, ", self.elapsed.as_secs())?;
        match self.stage {
            Stage::Run { events, retired } => {
                write!(f, "{} events, retired", Rounded(events))?;
                put_each(retired, f)?;
            }
            Stage::Explore { states, outcomes } => {
                let rate = per_second(states, self.elapsed);
                write!(
                    f,
                    "{} states ({} a second), {outcomes} outcomes",
                    Rounded(states),
                    Rounded(rate)
                )?;
            }
            Stage::Sample { runs, ends } => {
                let rate = per_second(runs, self.elapsed);
                write!(
                    f,
                    "{} runs ({} a second), {ends} ends",
                    Rounded(runs),
                    Rounded(rate)
                )?;
            }
            Stage::Look { runs } => {
                let rate = per_second(runs, self.elapsed);
                write!(f, "{} runs ({} a second)", Rounded(runs), Rounded(rate))?;
            }
            Stage::Done { done, known, what } => write!(f, "{done} of {known} {what}")?,
        }
        write!(f, "{ERASE}\r")
    }
}

fn put_each<W: fmt::Write>(numbers: &[u64], f: &mut Formatter<W>) -> fmt::Result {
    for number in numbers {
        write!(f, " {}", Rounded(*number))?;
    }
    Ok(())
}

/// A number in four digits, with k for thousands and M for millions.
#[derive(Drop)]
struct Rounded(u64);

impl Display for Rounded {
    fn fmt<W: fmt::Write>(&self, f: &mut Formatter<W>) -> fmt::Result {
        let number = self.0;
        if number < 10_000 {
            write!(f, "{number}")
        } else if number < 10_000_000 {
            write!(f, "{}k", number / 1_000)
        } else {
            write!(f, "{}M", number / 1_000_000)
        }
    }
}
