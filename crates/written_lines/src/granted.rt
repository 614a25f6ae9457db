//! What each hart was granted last of each line, kept as a log grows.
ghost use Rattle.std.specs.Prelude.{ℕ, ◌≡◌, ◌<◌, ◌==◌, List, ◌∷◌, ◌++◌, [], None, OnOk, Some, if◌then◌else◌, length};
ghost use Rattle.trace_recorder.specs.declared.logged.Logged.{Logged as LoggedValue};
ghost use Rattle.written_lines.specs.Granted.{Follows, granted_at, granted_in};
ghost use Rattle.written_lines.specs.Written as spec;
ghost use Rattle.written_lines.specs.Written.{concerns};

use std::alloc::{AllocError, Global};
use std::collections::HashMap;
use tl_types::{Body, LineData};
use trace_recorder::{Direction, Logged};

/// What each hart was granted last of a line.
#[derive(Drop)]
pub(crate) struct LineGrants {
    /// By hart, as far as harts were granted it.
    pub(crate) harts: Vec<Option<LineData>>,
}

impl LineGrants {
    /// Of a line that no hart was granted.
    fn new(alloc: Global) -> LineGrants
        ensures { (h : ℕ) → granted_at result.harts.items h ≡ None }
    {
        LineGrants {
            harts: Vec::new(alloc),
        }
    }

    /// The entry's hart is granted these bytes.
    fn note(&mut self, entry: &Logged, bytes: LineData) -> Result<(), AllocError>
        ensures { OnOk result ((h : ℕ) → granted_at self.new.harts.items h
            ≡ (if entry.now.hart == h then Some bytes else granted_at self.old.harts.items h)) }
    {
        let hart = usize::from(entry.hart);
        reach(&mut self.harts, hart)?;
        self.harts[hart] = Some(bytes);
        Ok(())
    }

    fn to(&self, hart: u8) -> Option<LineData>
        ensures { result ≡ granted_at self.now.harts.items hart }
    {
        match self.harts.get(usize::from(hart)) {
            Some(bytes) => *bytes,
            None => None,
        }
    }
}

/// Lengthens the list so that it has the hart.
fn reach(harts: &mut Vec<Option<LineData>>, hart: usize) -> Result<(), AllocError>
    requires { hart < 256 }
    ensures reaches { OnOk result (hart < length harts.new.items) }
    ensures same { OnOk result ((h : ℕ) → granted_at harts.new.items h ≡ granted_at harts.old.items h) }
{
    while harts.len() <= hart {
        harts.push(None)?;
    }
    Ok(())
}

/// What each hart was granted last of each line.
pub(crate) struct Granted {
    /// By the line's address.
    pub(crate) lines: HashMap<u32, LineGrants>,
}

// A call of its own: derived, it would stand field by field in each function that owns one.
impl Drop for Granted {
    fn drop(self) {
        let Granted { lines: _ } = self;
    }
}

impl Granted {
    /// By a log with no entry.
    pub(crate) fn new(alloc: Global) -> Granted
        ensures { Follows result [] }
    {
        Granted {
            lines: HashMap::new(alloc),
        }
    }

    /// What the hart was granted last of the line.
    pub(crate) fn to(&self, hart: u8, line: u32) -> Option<LineData>
        ensures { result ≡ granted_in self.now.lines hart line }
    {
        match self.lines.get(&line) {
            Some(grants) => grants.to(hart),
            None => None,
        }
    }

    /// One more entry.
    pub(crate) fn note(&mut self, alloc: Global, entry: &Logged) -> Result<(), AllocError>
        ensures { OnOk result ((log : List LoggedValue) → Follows self.old log → Follows self.new (log ++ entry.now ∷ [])) }
    {
        match given(entry) {
            Some(bytes) => {
                note_line(alloc, &mut self.lines, entry, bytes)?;
                Ok(())
            }
            None => Ok(()),
        }
    }
}

fn note_line(
    alloc: Global,
    lines: &mut HashMap<u32, LineGrants>,
    entry: &Logged,
    bytes: LineData,
) -> Result<(), AllocError>
    ensures { OnOk result ((h line : ℕ) → granted_in lines.new h line
        ≡ (if concerns h line entry.now then Some bytes else granted_in lines.old h line)) }
{
    let line = lines
        .entry(entry.message.line)?
        .or_insert_with(|| LineGrants::new(alloc));
    line.note(entry, bytes)
}

/// The bytes that a Grant gives its hart, once that takes it.
fn given(entry: &Logged) -> Option<LineData>
    ensures { result ≡ spec.granted entry.now.direction entry.now.message.body }
{
    match (entry.direction, entry.message.body) {
        (Direction::Taken, Body::GrantData { bytes, .. }) => Some(bytes),
        _ => None,
    }
}

/// The bytes that leave a hart, once that sends them.
pub(crate) fn left(entry: &Logged) -> Option<LineData>
    ensures { result ≡ spec.left entry.now.direction entry.now.message.body }
{
    match (entry.direction, entry.message.body) {
        (Direction::Sent, Body::ProbeAckData { bytes, .. } | Body::ReleaseData { bytes, .. }) => {
            Some(bytes)
        }
        _ => None,
    }
}
