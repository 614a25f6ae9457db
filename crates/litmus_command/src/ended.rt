//! How files end, and the status that comes of it.
ghost use Rattle.std.specs.Prelude.{◌≡◌, ◌||◌, nat_lt, true};
ghost use Rattle.litmus_command.specs.Ended as ends;

use std::fmt::{self, Display, Formatter};

/// How a file ended.
#[derive(Clone, Copy)]
pub(crate) enum Ended {
    /// Its test was answered; whether the answer is proved.
    Answered { is_proved: bool },
    /// Its test was answered so, and not as the logs have it.
    Differs { is_proved: bool },
    /// It has a test, but for another machine.
    Skipped,
    /// It can't be read, or has no test.
    Failed,
    /// Standard output takes no more.
    Closed,
    /// Memory was refused.
    NoMemory,
}

/// How many files ended so.
#[derive(Clone, Copy)]
pub(crate) struct Counts {
    pub answered: usize,
    /// How many of the answers are proved.
    pub proved: usize,
    pub differing: usize,
    pub skipped: usize,
    pub failed: usize,
}

impl Counts {
    pub fn none() -> Counts
        ensures failed { result.failed ≡ 0 }
        ensures differing { result.differing ≡ 0 }
    {
        Counts {
            answered: 0,
            proved: 0,
            differing: 0,
            skipped: 0,
            failed: 0,
        }
    }

    /// The status: a file without a test goes before a difference.
    pub fn status(self) -> u8
        ensures { result ≡ ends.status_by (nat_lt 0 self.failed) (nat_lt 0 self.differing) }
    {
        if self.failed > 0 {
            1
        } else if self.differing > 0 {
            3
        } else {
            0
        }
    }

    fn count_answer(&mut self, is_proved: bool)
        ensures failed { self.new.failed ≡ self.old.failed }
        ensures differing { self.new.differing ≡ self.old.differing }
    {
        self.answered = self.answered.saturating_add(1);
        if is_proved {
            self.proved = self.proved.saturating_add(1);
        }
    }

    /// Counts a file.
    pub fn count(&mut self, ended: Ended)
        ensures failed { nat_lt 0 self.new.failed ≡ (nat_lt 0 self.old.failed || ends.is_failed ended) }
        ensures differing { nat_lt 0 self.new.differing ≡ (nat_lt 0 self.old.differing || ends.is_differing ended) }
    {
        match ended {
            Ended::Answered { is_proved } => self.count_answer(is_proved),
            Ended::Differs { is_proved } => {
                self.count_answer(is_proved);
                self.differing = self.differing.saturating_add(1);
            }
            Ended::Skipped => self.skipped = self.skipped.saturating_add(1),
            Ended::Failed => self.failed = self.failed.saturating_add(1),
            Ended::Closed | Ended::NoMemory => {}
        }
    }
}

impl Display for Counts {
    fn fmt<W: fmt::Write>(&self, f: &mut Formatter<W>) -> fmt::Result {
        let Counts {
            answered,
            proved,
            skipped,
            failed,
            ..
        } = self;
        write!(f, "{answered} answered, {proved} of them proved")?;
        if proved < answered {
            f.write_str(" (a bound was met in searching for the others)")?;
        }
        if *skipped > 0 {
            write!(f, "; {skipped} skipped")?;
        }
        if *failed > 0 {
            write!(f, "; {failed} without a test that can be run")?;
        }
        Ok(())
    }
}

/// The status with which the command ends where a file ended so, if it does.
pub(crate) fn final_status(ended: Ended) -> Option<u8>
    ensures { result ≡ ends.final_status ended }
{
    match ended {
        Ended::Closed => Some(1),
        Ended::NoMemory => Some(4),
        Ended::Answered { .. } | Ended::Differs { .. } | Ended::Skipped | Ended::Failed => None,
    }
}
