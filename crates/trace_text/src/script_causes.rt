//! What keeps the line of a script that can't be read from being one. Only a refused script comes here.
ghost use Rattle.std.specs.Prelude.{◌≡◌, ℕ, List};
ghost use Rattle.std.specs.Option.{option_map};
ghost use Rattle.trace_text.specs.Causes as causes;

use crate::cause::{Field, Form, Misfit, TextCause, Wrong};
use crate::reading::word_of;
use crate::script_reading::channel_at;
use crate::words::{line_text, word_text};
use text_fields::{Excerpt, after, number_at, word_at};

const HEADS: [(&[u8], Form); 2] = [
    (b"rvtl-script 1", Form::First),
    (b"rvtl-script 2", Form::Second),
];

const EVENTS: [(&[u8], Form); 5] = [
    (b"step", Form::Step),
    (b"drain", Form::Drain),
    (b"evict", Form::Evict),
    (b"deliver", Form::Deliver),
    (b"local", Form::Local),
];

/// Why the line of this number, which begins here, isn't one of a script.
pub(crate) fn script_cause(line: usize, bytes: &[u8]) -> TextCause
    ensures { result ≡ causes.script_cause line bytes.now }
{
    let misfit = misfit_of(line, bytes);
    let line = Excerpt::of(line_text(bytes));
    TextCause::Script { line, misfit }
}

fn misfit_of(line: usize, bytes: &[u8]) -> Misfit
    ensures { result ≡ causes.misfit_of line bytes.now }
{
    let Some((form, rest)) = form_at(line, bytes) else {
        return Misfit::Lead;
    };
    match rest {
        [b' ', fields @ ..] => {
            let wrong = wrong_in(form.fields(), fields);
            Misfit::Fields { form, wrong }
        }
        [b'\n', ..] => {
            let wrong = missing(form.fields());
            Misfit::Fields { form, wrong }
        }
        _ => Misfit::Lead,
    }
}

/// The form whose first words stand here, and what stands behind them.
fn form_at(line: usize, bytes: &[u8]) -> Option<(Form, &[u8])>
    ensures { option_map {U = Form × List ℕ} (λ x. (x.0, x.1.now)) result ≡ causes.form_at line bytes.now }
{
    if line == 1 {
        word_of(&HEADS, bytes)
    } else {
        word_of(&EVENTS, bytes)
    }
}

/// The first of these fields that isn't one, or what else is wrong with them.
fn wrong_in(fields: &[Field], bytes: &[u8]) -> Wrong
    ensures { result ≡ causes.wrong_in fields.now bytes.now }
{
    let mut left = fields;
    let mut rest = bytes;
    while let [field, others @ ..] = left {
        let Some(later) = behind_field(*field, rest, b' ') else {
            return lacking(*field, others, rest);
        };
        if others.is_empty() {
            return Wrong::Surplus(Excerpt::of(line_text(later)));
        }
        left = others;
        rest = later;
    }
    Wrong::Together
}

/// What is wrong where no space stands behind this field.
fn lacking(field: Field, others: &[Field], bytes: &[u8]) -> Wrong
    ensures { result ≡ causes.lacking field others.now bytes.now }
{
    match behind_field(field, bytes, b'\n') {
        Some(_) => missing(others),
        None => {
            let word = Excerpt::of(word_text(bytes));
            Wrong::Field { field, word }
        }
    }
}

/// What is wrong where the line ends before these fields.
fn missing(fields: &[Field]) -> Wrong
    ensures { result ≡ causes.missing fields.now }
{
    match fields {
        [field, ..] => Wrong::Missing(*field),
        [] => Wrong::Together,
    }
}

/// What stands behind a field, and behind the byte that ends it.
fn behind_field(field: Field, bytes: &[u8], end: u8) -> Option<&[u8]>
    ensures { option_map (λ r. r.now) result ≡ causes.behind_field field end bytes.now }
{
    match field {
        Field::Address => behind_address(bytes, end),
        Field::Channel => behind_channel(bytes, end),
        _ => behind_number(field, bytes, end),
    }
}

#[tactic(auto, unfolding(crate::specs::Causes::behind_number))]
fn behind_number(field: Field, bytes: &[u8], end: u8) -> Option<&[u8]>
    ensures { option_map (λ r. r.now) result ≡ causes.behind_number field end bytes.now }
{
    let (number, rest) = number_at(bytes, end, u32::MAX)?;
    if field.takes(number) {
        Some(rest)
    } else {
        None
    }
}

#[tactic(auto, unfolding(crate::specs::Causes::behind_address))]
fn behind_address(bytes: &[u8], end: u8) -> Option<&[u8]>
    ensures { option_map (λ r. r.now) result ≡ causes.behind_address end bytes.now }
{
    let (_, rest) = word_at(bytes)?;
    after(&[end], rest)
}

#[tactic(auto, unfolding(crate::specs::Causes::behind_channel))]
fn behind_channel(bytes: &[u8], end: u8) -> Option<&[u8]>
    ensures { option_map (λ r. r.now) result ≡ causes.behind_channel end bytes.now }
{
    let (_, rest) = channel_at(bytes)?;
    if end == b' ' { Some(rest) } else { None }
}
