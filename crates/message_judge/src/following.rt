//! A log that is judged message by message, as it comes.
ghost use Rattle.std.specs.Prelude.{List, ◌∷◌, ◌++◌, [], IfOk};
ghost use Rattle.std.specs.Option.{option_copied};
ghost use Rattle.message_judge.specs.Breaches.{BreaksAs};
ghost use Rattle.message_judge.specs.Following.{HasJudged, Judges};
ghost use Rattle.trace_recorder.specs.declared.logged.Logged.{Logged as LoggedValue};

use crate::breaches::breach_of;
use crate::verdict::MessageBreach;
use coherent_log::Followed as Copies;
use elf_loader::Image;
use lawful_log::{Followed as Order, Profile};
use std::alloc::{AllocError, Global};
use trace_recorder::Logged;

/// What a log says so far, by which its next message is judged. It grows with lines, clients and what waits in queues,
/// and not with messages.
pub struct Judge {
    order: Order,
    copies: Copies,
    /// How many messages it has judged.
    count: usize,
}

// A call of its own: derived, it would stand field by field in each function that owns one.
impl Drop for Judge {
    fn drop(self) {
        let Judge {
            order: _,
            copies: _,
            count: _,
        } = self;
    }
}

impl Judge {
    /// Of a log with no message.
    pub fn new(alloc: Global) -> Judge
        ensures { Judges result [] }
    {
        Judge {
            order: Order::new(alloc),
            copies: Copies::new(alloc),
            count: 0,
        }
    }

    /// What the log's next message breaks by the profile's rules, where memory begins as the image says; the log goes on
    /// behind the message either way. The only error is want of memory.
    pub fn next(
        &mut self,
        alloc: Global,
        profile: Profile,
        image: Option<&Image>,
        entry: &Logged,
    ) -> Result<Option<MessageBreach>, AllocError>
        requires { HasJudged self.old }
        ensures { IfOk result (λ found. (log : List LoggedValue) → Judges self.old log
            → BreaksAs profile (option_copied image.entry) log entry.now found × Judges self.new (log ++ entry.now ∷ [])) }
    {
        if self.count >= usize::MAX - 1 {
            return Err(AllocError);
        }
        let found = breach_of(&self.order, &self.copies, profile, image, entry);
        self.order.note(alloc, entry)?;
        self.copies.note(alloc, entry, self.count)?;
        self.count += 1;
        Ok(found)
    }
}
