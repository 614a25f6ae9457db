//! What is wrong with a script.

use crate::field::{Limits, name_of};
use crate::flaw::Flaw;
use crate::kind::Kind;
use crate::lines::{UNENDED, blemish_of, word_of};
use crate::number::{is_padded, number_of};
use machine_types::MAX_HARTS;
use std::fmt::{self, Display, Formatter};
use text_fields::Excerpt;
use trace_text::{Field, Form, Misfit, TextCause, TextCode, TextError, Wrong};

/// What is wrong with a script that was refused so.
#[derive(Clone, Copy)]
pub struct ScriptNote(TextError);

impl ScriptNote {
    /// None where memory was refused, so that nothing is known of the script.
    pub fn of(error: TextError) -> Option<ScriptNote> {
        match error.cause {
            TextCause::Unsaid => None,
            _ => Some(ScriptNote(error)),
        }
    }
}

impl Display for ScriptNote {
    fn fmt<W: fmt::Write>(&self, f: &mut Formatter<W>) -> fmt::Result {
        match self.0.cause {
            TextCause::LongLine => f.write_str("no line ends in its first 65536 bytes"),
            TextCause::Script { line, misfit } => put_line(&self.0, line, misfit, f),
            TextCause::Trace { .. } | TextCause::Unsaid => Ok(()),
        }
    }
}

fn put_line<W: fmt::Write>(
    error: &TextError,
    line: Excerpt,
    misfit: Misfit,
    f: &mut Formatter<W>,
) -> fmt::Result {
    if error.line == 1 {
        match Kind::of(line.kept()) {
            None => return beginning(line, f),
            Some(Kind::Script) => {}
            Some(kind) => return write!(f, "this is {kind}, and a script is wanted"),
        }
    }
    if error.code == TextCode::End {
        return f.write_str(UNENDED);
    }
    if let Some(blemish) = blemish_of(line.kept()) {
        return f.write_str(blemish);
    }
    match misfit {
        Misfit::Lead if error.line == 1 => {
            let version = Excerpt::of(word_of(line.kept(), 1));
            write!(f, "the version is 1 or 2, not {version}")
        }
        Misfit::Lead => {
            let word = Excerpt::of(word_of(line.kept(), 0));
            write!(
                f,
                "no event begins with {word}: they are step, drain, evict, deliver and local"
            )
        }
        Misfit::Fields { form, wrong } => match header_of(form) {
            Some(header) => put_header(header, wrong, f),
            None => put_event(form, wrong, line, f),
        },
    }
}

fn beginning<W: fmt::Write>(line: Excerpt, f: &mut Formatter<W>) -> fmt::Result {
    write!(
        f,
        "a script begins with `rvtl-script 1 HARTS KIB SETS WAYS`, not with {line}"
    )
}

// What is said of the first line of a version whose numbers are those of the other.
fn header_of(form: Form) -> Option<&'static str> {
    match form {
        Form::First => {
            Some("5 to 8 harts are for version 2, `rvtl-script 2 HARTS KIB SETS WAYS LINE`")
        }
        Form::Second => Some(
            "up to 4 harts with lines of 16 bytes are for version 1, `rvtl-script 1 HARTS KIB SETS WAYS`",
        ),
        _ => None,
    }
}

// What is wrong with a script's first line.
fn put_header<W: fmt::Write>(otherwise: &str, wrong: Wrong, f: &mut Formatter<W>) -> fmt::Result {
    match wrong {
        Wrong::Field { word, .. } if is_padded(word.kept()) => write!(f, "{}", Flaw::Padded),
        Wrong::Field { field, word } => {
            write!(f, "{} is {}, not {word}", name_of(field), Limits(field))
        }
        Wrong::Missing(field) => {
            write!(f, "{} is {}, and is missing", name_of(field), Limits(field))
        }
        Wrong::Surplus(more) => write!(f, "no further number is due: {more}"),
        Wrong::Together => f.write_str(otherwise),
    }
}

// What is wrong with an event's line.
fn put_event<W: fmt::Write>(
    form: Form,
    wrong: Wrong,
    line: Excerpt,
    f: &mut Formatter<W>,
) -> fmt::Result {
    if let Wrong::Field { field, word } = wrong {
        let word = word.kept();
        match field {
            Field::Address if word.starts_with(b"0x") => {
                return write!(f, "{}", Flaw::Misspelt(word));
            }
            Field::Hart | Field::Count if is_padded(word) => {
                return write!(f, "{}", Flaw::Padded);
            }
            Field::Hart => {
                if let Some(hart) = number_of(word) {
                    let last = MAX_HARTS.saturating_sub(1);
                    return write!(
                        f,
                        "no hart {hart}: a machine's harts are 0 to {last} at most"
                    );
                }
            }
            _ => {}
        }
    }
    write!(f, "{} is wanted, not {line}", words_of(form))
}

// How an event is written.
fn words_of(form: Form) -> &'static str {
    match form {
        Form::Step => "`step HART`",
        Form::Drain => {
            "`drain HART ADDRESS`, with an address of 8 lower-case digits such as 0x80000abc,"
        }
        Form::Evict => {
            "`evict HART ADDRESS`, with an address of 8 lower-case digits such as 0x80000ab0,"
        }
        Form::Deliver => "`deliver CHANNEL HART`, with a channel from A to E,",
        Form::Local => "`local HART COUNT`, with a count of 1 to 256,",
        Form::First | Form::Second => "`rvtl-script 1 HARTS KIB SETS WAYS`",
    }
}
