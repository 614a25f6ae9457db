//! The trace of a run. Its lists only grow.
ghost use Rattle.std.specs.Prelude.{◌≡◌, ◌+◌, ◌-◌, ◌<◌, ◌≤◌, [], ◌∷◌, ◌++◌, All, length, map, replicate, IfOk, OnOk, IsOk, slice_get, slice_index, Some};
ghost use Rattle.hart.specs.Image.{Initial};
ghost use Rattle.hart.specs.TheConstants.{MAX_ENTRIES, MAX_HARTS};
ghost use Rattle.trace_recorder.specs.History.{Recorded, opening, listed, performed, logged, halted, entries_of};
ghost use Rattle.trace_recorder.specs.Limits.{AreWithinLimits, IsWithinLimits};

use crate::logged::{Direction, Logged};
use crate::operation::OpId;
use hart::elf_loader::Image;
use hart::{Retired, Status};
use std::alloc::{AllocError, Global};
use std::marker::Model;
use tl_types::{LineSize, Msg};

/// What is kept of a run: its image, its line size, and by hart the retired instructions and the status,
/// then the performed operations and the messages in the order in which they came. It has at most `MAX_HARTS`
/// harts, each with at most `MAX_ENTRIES` retired instructions.
pub struct Trace {
    image: Image,
    line: LineSize,
    entries: Vec<Vec<Retired>>,
    statuses: Vec<Status>,
    performed: Vec<OpId>,
    log: Vec<Logged>,
}

// A call of its own: derived, it would stand field by field in each function that owns one.
impl Drop for Trace {
    fn drop(self) {
        let Trace {
            image: _,
            line: _,
            entries: _,
            statuses: _,
            performed: _,
            log: _,
        } = self;
    }
}

impl Model for Trace {
    ghost use Rattle.std.specs.Prelude.{◌≡◌, length};
    ghost use Rattle.trace_recorder.specs.History.{Recorded};
    ghost use Rattle.trace_recorder.specs.Limits.{AreWithinLimits};

    ghost Value = { Recorded };

    ghost use Rattle.trace_recorder.specs.Recorded.{recorded_of};

    ghost view = { recorded_of };

    ghost invariant = { λ t. (length t.statuses.items ≡ length t.entries.items) × AreWithinLimits t.entries.items };
}

impl Trace {
    /// The trace of harts that have done nothing yet.
    pub fn new(
        alloc: Global,
        image: Image,
        line: LineSize,
        harts: usize,
    ) -> Result<Trace, AllocError>
        requires { harts ≤ MAX_HARTS }
        ensures { IfOk result (λ t. t.history ≡ opening image line harts) }
    {
        Ok(Trace {
            image,
            line,
            entries: empty_lists(alloc, harts)?,
            statuses: vec![in alloc; Status::Running; harts]?,
            performed: Vec::new(alloc),
            log: Vec::new(alloc),
        })
    }

    /// The trace of these lists, `entries` and `statuses` by hart. It takes no memory. Whether the lists are within
    /// the limits, [`are_within_limits`](crate::are_within_limits) says.
    pub fn from_parts(
        image: Image,
        line: LineSize,
        entries: Vec<Vec<Retired>>,
        statuses: Vec<Status>,
        performed: Vec<OpId>,
        log: Vec<Logged>,
    ) -> Trace
        requires statuses { length statuses.items ≡ length entries.items }
        requires limits { AreWithinLimits entries.items }
        ensures { result.history ≡ record { image = image; line = line; entries = map (λ v. v.items) entries.items; statuses = statuses.items; performed = performed.items; log = log.items } }
    {
        Trace {
            image,
            line,
            entries,
            statuses,
            performed,
            log,
        }
    }

    /// Main memory at reset, and the entry.
    pub fn image(&self) -> &Image
        ensures { result.now ≡ self.now.history.image }
    {
        &self.image
    }

    /// The size of the machine's lines.
    pub fn line_size(&self) -> LineSize
        ensures { result ≡ self.now.history.line }
    {
        self.line
    }

    /// How many harts there are.
    pub fn harts(&self) -> usize
        ensures entries { result ≡ length self.now.history.entries }
        ensures statuses { result ≡ length self.now.history.statuses }
        ensures few { result ≤ MAX_HARTS }
        ensures within { IsWithinLimits self.now.history }
    {
        self.statuses.len()
    }

    /// What a hart has retired, the first instruction first.
    pub fn entries(&self, hart: usize) -> &[Retired]
        requires { hart < length self.now.history.entries }
        ensures list { result.now ≡ entries_of self.now.history hart }
        ensures few { length result.now ≤ MAX_ENTRIES }
    {
        &self.entries[hart]
    }

    /// Each hart's status.
    pub fn statuses(&self) -> &[Status]
        ensures { result.now ≡ self.now.history.statuses }
    {
        &self.statuses
    }

    /// The performed operations, the first one first.
    pub fn performed(&self) -> &[OpId]
        ensures { result.now ≡ self.now.history.performed }
    {
        &self.performed
    }

    /// The messages that were sent and taken, the first one first.
    pub fn log(&self) -> &[Logged]
        ensures { result.now ≡ self.now.history.log }
    {
        &self.log
    }

    /// Makes room for what one event of a hart adds: so many retired instructions, performed
    /// operations and messages.
    pub fn reserve(
        &mut self,
        hart: usize,
        entries: usize,
        performed: usize,
        log: usize,
    ) -> Result<(), AllocError>
        requires { hart < length self.old.history.entries }
        ensures history { self.new.history ≡ self.old.history }
        ensures entries { OnOk result (entries ≤ slice_index self.new.room.entries hart) }
        ensures performed { OnOk result (performed ≤ self.new.room.performed) }
        ensures log { OnOk result (log ≤ self.new.room.log) }
        ensures nothing { entries ≡ 0 → performed ≡ 0 → log ≡ 0 → IsOk result }
    {
        self.entries[hart].reserve(entries)?;
        self.performed.reserve(performed)?;
        self.log.reserve(log)?;
        Ok(())
    }

    /// One more retired instruction, for which there is room, of a hart that has fewer than `MAX_ENTRIES`.
    pub fn retire(&mut self, hart: usize, entry: Retired)
        requires hart { hart < length self.old.history.entries }
        requires few { length (entries_of self.old.history hart) < MAX_ENTRIES }
        requires room { 0 < slice_index self.old.room.entries hart }
        ensures { self.new ≡ listed hart entry self.old }
    {
        self.entries[hart].push_reserved(entry);
    }

    /// One more performed operation, for which there is room.
    pub fn perform(&mut self, operation: OpId)
        requires { 0 < self.old.room.performed }
        ensures { self.new ≡ performed operation self.old }
    {
        self.performed.push_reserved(operation);
    }

    /// A message goes into a queue of the hart's. There is room.
    pub fn send(&mut self, hart: u8, message: Msg)
        requires { 0 < self.old.room.log }
        ensures { self.new ≡ logged (record { direction = Direction.Sent; hart = hart; message = message }) self.old }
    {
        self.note(Direction::Sent, hart, message);
    }

    /// A message leaves a queue of the hart's. There is room.
    pub fn take(&mut self, hart: u8, message: Msg)
        requires { 0 < self.old.room.log }
        ensures { self.new ≡ logged (record { direction = Direction.Taken; hart = hart; message = message }) self.old }
    {
        self.note(Direction::Taken, hart, message);
    }

    // One more line of the log, for which there is room.
    fn note(&mut self, direction: Direction, hart: u8, message: Msg)
        requires { 0 < self.old.room.log }
        ensures { self.new ≡ logged (record { direction = direction; hart = hart; message = message }) self.old }
    {
        self.log.push_reserved(Logged {
            direction,
            hart,
            message,
        });
    }

    /// The hart's status is this from now on.
    pub fn halt(&mut self, hart: usize, status: Status)
        requires { hart < length self.old.history.statuses }
        ensures { self.new ≡ halted hart status self.old }
    {
        self.statuses[hart] = status;
    }
}

fn empty_lists(alloc: Global, harts: usize) -> Result<Vec<Vec<Retired>>, AllocError>
    ensures lists { IfOk result (λ lists. map (λ list. list.items) lists.items ≡ replicate harts []) }
    ensures empty { IfOk result (λ lists. All (λ list. list.items ≡ []) lists.items) }
{
    let mut lists = Vec::new(alloc);
    for _ in 0..harts {
        lists.push(Vec::new(alloc))?;
    }
    Ok(lists)
}
