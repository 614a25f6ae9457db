//! What stands in a text where it can't be read, and what should.
ghost use Rattle.std.specs.Prelude.{◌≡◌};
ghost use Rattle.trace_text.specs.Causes.{fields_of, takes};

use elf_loader::is_memory_kib;
use machine_types::{MAX_HARTS, MAX_WAYS, is_set_count};
use text_fields::Excerpt;
use tl_types::LineSize;

/// What stands in a text where it can't be read, and what should.
#[derive(Clone, Copy, Debug, PartialEq, Eq)]
pub enum TextCause {
    /// Nothing is known of the text: memory was refused.
    Unsaid,
    /// No line ends in the first 65,536 bytes.
    LongLine,
    /// This is no line of a script.
    Script { line: Excerpt, misfit: Misfit },
    /// This is no line of a trace.
    Trace { line: Excerpt },
}

/// What keeps a line of a script from being one.
#[derive(Clone, Copy, Debug, PartialEq, Eq)]
pub enum Misfit {
    /// It doesn't begin as a line may that stands here.
    Lead,
    /// It begins as a line of this form, and this is the first that isn't as there.
    Fields { form: Form, wrong: Wrong },
}

/// The first that isn't as a form has it.
#[derive(Clone, Copy, Debug, PartialEq, Eq)]
pub enum Wrong {
    /// This field is none: this word stands there.
    Field { field: Field, word: Excerpt },
    /// The line ends where this field should stand.
    Missing(Field),
    /// This stands behind the last field.
    Surplus(Excerpt),
    /// Each field is one, but not beside the others.
    Together,
}

/// How a line of a script is written.
#[derive(Clone, Copy, Debug, PartialEq, Eq)]
pub enum Form {
    /// The first line of version 1.
    First,
    /// The first line of version 2.
    Second,
    Step,
    Drain,
    Evict,
    Deliver,
    Local,
}

/// A word that a line of a script has behind its first.
#[derive(Clone, Copy, Debug, PartialEq, Eq)]
pub enum Field {
    /// How many harts.
    Harts,
    /// Main memory's size in KiB.
    Kib,
    Sets,
    Ways,
    /// How many bytes a line of memory has.
    Line,
    /// The number of a hart.
    Hart,
    Address,
    Channel,
    /// How many instructions.
    Count,
}

const FIRST: [Field; 4] = [Field::Harts, Field::Kib, Field::Sets, Field::Ways];

const SECOND: [Field; 5] = [
    Field::Harts,
    Field::Kib,
    Field::Sets,
    Field::Ways,
    Field::Line,
];

impl Form {
    /// The fields behind its first words.
    pub fn fields(self) -> &'static [Field]
        ensures { result.now ≡ fields_of self }
    {
        match self {
            Form::First => &FIRST,
            Form::Second => &SECOND,
            Form::Step => &[Field::Hart],
            Form::Drain | Form::Evict => &[Field::Hart, Field::Address],
            Form::Deliver => &[Field::Channel, Field::Hart],
            Form::Local => &[Field::Hart, Field::Count],
        }
    }
}

impl Field {
    /// Whether a field of numbers takes this one.
    pub fn takes(self, number: u32) -> bool
        ensures { result ≡ takes self number }
    {
        match self {
            Field::Harts => (1..=MAX_HARTS).contains(&number),
            Field::Kib => is_memory_kib(number),
            Field::Sets => is_set_count(number),
            Field::Ways => (1..=MAX_WAYS).contains(&number),
            Field::Line => LineSize::of_bytes(number).is_some(),
            Field::Hart => number <= 255,
            Field::Count => true,
            Field::Address | Field::Channel => false,
        }
    }
}
