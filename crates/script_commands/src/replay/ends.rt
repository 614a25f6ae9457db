//! What a user may want to know of how a replay ended.

ghost use Rattle.std.specs.Prelude.{◌≡◌};

use crate::idle::IdleNote;
use command_files::{Files, config_of, remark};
use elf_symbols::Symbols;
use machine_types::MemoryModel;
use std::alloc::Global;
use std::fmt::{self, Display, Formatter};
use stop_text::schedules::{Circle, circles};
use stop_text::{CircleNote, StopNote};
use trace_recorder::Trace;
use trace_text::Script;

/// Behind a script of more events it isn't looked whether harts go round.
const MOST_FOLLOWED: usize = 200_000;

/// Which harts stopped, which go round, and that most of the script's events changed nothing.
#[derive(Clone, Copy)]
pub(crate) struct EndNote<'a> {
    pub stops: StopNote<'a>,
    pub circles: CircleNote<'a>,
    pub idle: Option<IdleNote>,
}

impl EndNote<'_> {
    /// Remarks it, if there is any.
    pub(crate) fn tell<F: Files>(self, alloc: Global, files: &mut F)
        ensures { F.held files.new ≡ F.held files.old }
    {
        if self.stops.is_needed() || !self.circles.circles.is_empty() || self.idle.is_some() {
            remark(alloc, files, self);
        }
    }
}

impl Display for EndNote<'_> {
    /// A semicolon stands between two.
    fn fmt<W: fmt::Write>(&self, f: &mut Formatter<W>) -> fmt::Result {
        let mut between = "";
        if self.stops.is_needed() {
            write!(f, "{}", self.stops)?;
            between = "; ";
        }
        if !self.circles.circles.is_empty() {
            write!(f, "{between}{}", self.circles)?;
            between = "; ";
        }
        match &self.idle {
            Some(idle) => write!(f, "{between}{idle}"),
            None => Ok(()),
        }
    }
}

/// The circles of the harts that run where a script leads; none behind a long one, or where memory is wanting.
pub(crate) fn circles_behind(
    alloc: Global,
    trace: &Trace,
    script: &Script,
    model: MemoryModel,
) -> Vec<Circle> {
    let events = script.events.as_slice();
    let mut statuses = trace.statuses().iter();
    if events.len() > MOST_FOLLOWED || !statuses.any(|status| status.is_running()) {
        return Vec::new(alloc);
    }
    let Ok(image) = trace.image().try_copy(alloc) else {
        return Vec::new(alloc);
    };
    match circles(alloc, image, config_of(script, model), events) {
        Ok(found) => found,
        Err(_) => Vec::new(alloc),
    }
}
