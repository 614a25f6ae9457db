//! What a log says so far of each line, kept as the log grows.
ghost use Rattle.std.specs.Prelude.{◌≡◌, ◌==◌, ℕ, List, ◌∷◌, ◌++◌, [], OnOk, if◌then◌else◌, length};
ghost use Rattle.std.specs.Option.{option_copied, option_or};
ghost use Rattle.coherent_log.specs.Followed.{FindsBreach, FindsBroken, Follows, brought_in, client_in, client_noted};
ghost use Rattle.coherent_log.specs.Told as told;
ghost use Rattle.coherent_log.specs.Told.{concerns, is_of_line};
ghost use Rattle.trace_recorder.specs.declared.logged.Logged.{Logged as LoggedValue};

use crate::lines::{LineLog, LineTold};
use crate::verdict::Breach;
use elf_loader::Image;
use std::alloc::{AllocError, Global};
use std::collections::HashMap;
use trace_recorder::{Direction, Logged};

/// What a log says so far, coherent or not.
pub struct Followed {
    /// By the line's address, what was said of it.
    lines: HashMap<u32, LineLog>,
}

// A call of its own: derived, it would stand field by field in each function that owns one.
impl Drop for Followed {
    fn drop(self) {
        let Followed { lines: _ } = self;
    }
}

impl Followed {
    /// Of a log with no entry.
    pub fn new(alloc: Global) -> Followed
        ensures { Follows result [] }
    {
        Followed {
            lines: HashMap::new(alloc),
        }
    }

    /// The first rule that the next entry breaks, with its cause.
    pub fn broken(&self, image: Option<&Image>, entry: &Logged) -> Option<Breach>
        ensures { (log : List LoggedValue) → Follows self.now log → FindsBreach (option_copied image.entry) log entry.now result }
    {
        match entry.direction {
            Direction::Sent => broken_by_sending(&self.lines, image, entry),
            Direction::Taken => None,
        }
    }

    /// One more entry, the message of this number, whether it breaks a rule or not. The only error is want of memory.
    pub fn note(&mut self, alloc: Global, entry: &Logged, index: usize) -> Result<(), AllocError>
        ensures { OnOk result ((log : List LoggedValue) → Follows self.old log → index ≡ length log → Follows self.new (log ++ entry.now ∷ [])) }
    {
        note_line(alloc, &mut self.lines, entry, index)?;
        Ok(())
    }
}

fn broken_by_sending(
    lines: &HashMap<u32, LineLog>,
    image: Option<&Image>,
    entry: &Logged,
) -> Option<Breach>
    ensures { FindsBroken (option_copied image.entry) entry.now.hart entry.now.message.line entry.now.message.body (λ h. client_in lines.now h entry.now.message.line) (brought_in lines.now entry.now.message.line) result }
{
    match lines.get(&entry.message.line) {
        Some(line) => line.told().broken(image, entry),
        None => LineTold::NOTHING.broken(image, entry),
    }
}

fn note_line(
    alloc: Global,
    lines: &mut HashMap<u32, LineLog>,
    entry: &Logged,
    index: usize,
) -> Result<(), AllocError>
    ensures brought { OnOk result ((line : ℕ) → brought_in lines.new line
        ≡ (if is_of_line line entry.now then option_or (told.brought_at index (told.brought entry.now.direction entry.now.message.body)) (brought_in lines.old line) else brought_in lines.old line)) }
    ensures clients { OnOk result ((h line : ℕ) → client_in lines.new h line
        ≡ (if concerns h line entry.now then client_noted entry.now index (client_in lines.old h line) else client_in lines.old h line)) }
{
    let line = lines
        .entry(entry.message.line)?
        .or_insert_with(|| LineLog::new(alloc));
    line.note(entry, index)
}
