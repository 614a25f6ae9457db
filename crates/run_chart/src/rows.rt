//! What a chart shows of a run. Lines are lines of text of the picture, counted from 0 downward.
ghost use Rattle.std.specs.Prelude.{◌≤◌, vec_len};
ghost use Rattle.machine_types.specs.declared.limits.TheConstants.{MAX_HARTS};

use crate::shapes::Hold;
use hart::Retired;
use machine_types::{Event, Outcome};
use rv32_exec::Action;
use tl_types::LineSize;
use trace_recorder::Logged;

/// Something that a hart's core did.
#[derive(Clone, Copy, Debug)]
pub enum Note {
    /// An instruction retired.
    Retired(Retired),
    /// It accessed memory, as the instruction that retired was to do.
    Accessed(Action, Retired),
    /// A store that had waited was performed.
    Performed(Retired),
    /// A number was put out.
    PutOut(u32),
    /// The word at this address was reserved.
    Reserved(u32),
    /// The word at this address is reserved no more.
    Lost(u32),
    /// The program ended the hart with this code.
    Exited(u8),
    /// An instruction that can't be carried out stopped the hart, with this code.
    Stopped(u8),
}

/// A note, and the line that it stands on.
#[derive(Clone, Copy, Debug)]
pub struct Noted {
    pub line: u16,
    pub note: Note,
}

/// An entry of the message log, and the line on which its arrow leaves or arrives.
#[derive(Clone, Copy, Debug)]
pub struct Posted {
    pub line: u16,
    pub entry: Logged,
}

/// What a cache holds of the line of memory that begins at the address `line`.
#[derive(Clone, Copy, Debug)]
pub struct Copied {
    pub line: u32,
    pub hold: Hold,
}

/// An event that changed the machine, and what it did.
#[derive(Drop)]
pub struct Row {
    /// The line on which the row begins.
    pub line: u16,
    /// The line on which the next row begins.
    pub end: u16,
    /// The line of the script on which the event stands.
    pub script_line: usize,
    pub hart: u8,
    pub event: Event,
    pub outcome: Outcome,
    /// The messages that it took and sent.
    pub log: Vec<Posted>,
    /// What the hart's core did.
    pub notes: Vec<Noted>,
    /// What the hart's cache holds behind the event.
    pub copies: Vec<Copied>,
}

/// A run: its harts, how large a line of memory is, the lines that have a bar in each cache's lane, and its rows
/// in their order.
#[derive(Drop)]
pub struct Story {
    pub harts: u8,
    pub size: LineSize,
    pub columns: Vec<u32>,
    pub rows: Vec<Row>,
    ghost few_harts: { harts ≤ MAX_HARTS },
    ghost few_columns: { vec_len columns ≤ 1048576 },
}
