//! Which limits a run met before its harts ended.

ghost use Rattle.std.specs.Prelude.{◌≡◌, ◌<◌, length};
ghost use Rattle.run_command.specs.Limits as spec;

use machine_types::{MAX_CHANGES, MAX_ENTRIES};
use std::fmt::{self, Display, Formatter};
use trace_recorder::Trace;

/// What may keep a hart of a run from its end.
#[derive(Clone, Copy, PartialEq, Eq)]
pub(crate) enum Limit {
    /// It has retired as many instructions as a hart may.
    Instructions,
    /// As many events have changed the machine as may.
    Changes,
    /// As many events were tried as were asked for.
    Tries,
}

/// Each limit that a run met, with the harts that it kept from their ends.
#[derive(Clone, Copy)]
pub(crate) struct LimitNote<'a> {
    pub(crate) trace: &'a Trace,
    /// How many events changed the machine.
    pub(crate) changes: usize,
    /// How many were tried at most.
    pub(crate) tries: u64,
}

impl LimitNote<'_> {
    /// Whether there is a hart that hasn't ended.
    pub(crate) fn is_needed(&self) -> bool {
        let mut statuses = self.trace.statuses().iter();
        statuses.any(|status| status.is_running())
    }

    /// The limit that kept a hart from its end, if one did.
    fn limit_of(&self, hart: usize) -> Option<Limit>
        requires { hart < length self.now.trace.now.history.entries }
        ensures { result ≡ spec.limit_of self.now.trace.now.history self.now.changes hart }
    {
        let status = self.trace.statuses().get(hart)?;
        if !status.is_running() {
            return None;
        }
        if self.trace.entries(hart).len() >= MAX_ENTRIES {
            return Some(Limit::Instructions);
        }
        if self.changes >= MAX_CHANGES as usize {
            return Some(Limit::Changes);
        }
        Some(Limit::Tries)
    }

    // How many harts the limit kept from their ends.
    fn count(&self, limit: Limit) -> usize {
        let mut count = 0;
        for hart in 0..self.trace.harts() {
            if self.limit_of(hart) == Some(limit) {
                count += 1;
            }
        }
        count
    }

    // Of so many harts the numbers, as in `harts 0, 1 and 3`.
    fn put_harts<W: fmt::Write>(
        &self,
        limit: Limit,
        count: usize,
        f: &mut Formatter<W>,
    ) -> fmt::Result {
        f.write_str(if count == 1 { "hart" } else { "harts" })?;
        let mut told = 0;
        for hart in 0..self.trace.harts() {
            if self.limit_of(hart) == Some(limit) {
                told += 1;
                let before = match told {
                    1 => " ",
                    _ if told == count => " and ",
                    _ => ", ",
                };
                write!(f, "{before}{hart}")?;
            }
        }
        Ok(())
    }

    fn put_limit<W: fmt::Write>(&self, limit: Limit, f: &mut Formatter<W>) -> fmt::Result {
        match limit {
            Limit::Instructions => write!(f, "{MAX_ENTRIES} instructions of a hart"),
            Limit::Changes => write!(f, "{MAX_CHANGES} events that change the machine"),
            Limit::Tries => write!(f, "--limit, {} events tried", self.tries),
        }
    }
}

impl Display for LimitNote<'_> {
    fn fmt<W: fmt::Write>(&self, f: &mut Formatter<W>) -> fmt::Result {
        let mut between = "";
        for limit in [Limit::Instructions, Limit::Changes, Limit::Tries] {
            let count = self.count(limit);
            if count > 0 {
                f.write_str(between)?;
                self.put_harts(limit, count, f)?;
                f.write_str(" hadn't ended when a limit was met: ")?;
                self.put_limit(limit, f)?;
                between = "; ";
            }
        }
        Ok(())
    }
}
