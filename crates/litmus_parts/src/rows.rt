//! The columns of instructions.
ghost use Rattle.std.specs.Prelude.{◌≡◌, ◌<◌, ◌≤◌, ◌+◌, IfOk};
ghost use Rattle.std.specs.Option.{option_map};
ghost use Rattle.litmus_parts.specs.Rows as rows;
ghost use Rattle.litmus_parts.specs.Stops.{seen, Adds};

use crate::initial::MOST_HARTS;
use crate::scanning::{is_same, keyword_at, split_until};
use crate::stop::{Cause, Stop};
use text_fields::after;
use text_words::{Name, is_name, skip_blanks, split_word, symbol_at};

/// What stands in a cell of a hart's column. Of its text, `left` is how many bytes stand from its first one to the file's end.
#[derive(Clone, Copy)]
pub enum Item {
    /// A label of what follows.
    Label {
        hart: u8,
        name: Name,
        left: usize,
    },
    /// The text of an instruction, so many bytes long: none where the cell has no instruction. Blanks may end it.
    Instruction {
        hart: u8,
        left: usize,
        length: usize,
    },
}

/// Whether a word names this hart.
fn is_hart(hart: u8, word: &[u8]) -> bool
    requires { hart < 10 }
    ensures { result ≡ rows.is_hart hart word.now }
{
    matches!(word, [b'P', digit] if *digit == b'0' + hart)
}

/// What stands behind a hart's name.
#[tactic(auto, unfolding(crate::specs::Rows::past_hart))]
fn past_hart(hart: u8, bytes: &[u8]) -> Result<&[u8], Stop>
    requires { hart < 10 }
    ensures { seen (λ x. x.now) result ≡ rows.past_hart hart bytes.now }
{
    let (word, rest) = split_word(skip_blanks(bytes));
    if is_hart(hart, word) {
        Ok(rest)
    } else {
        Err(Stop::at(Cause::Head, bytes))
    }
}

/// How many harts the head names, and what stands behind it.
pub(crate) fn head_at(bytes: &[u8]) -> Result<(u8, &[u8]), Stop>
    ensures value { seen (λ x. (x.0, x.1.now)) result ≡ rows.head_at 8 0 bytes.now }
    ensures few { IfOk result (λ x. x.0 ≤ 8) }
{
    let mut rest = bytes;
    for hart in 0..MOST_HARTS {
        match past_hart(hart, rest) {
            Ok(later) => match (symbol_at(b"|", later), symbol_at(b";", later)) {
                (Some(next), _) => rest = next,
                (None, Some(rest)) => return Ok((hart + 1, rest)),
                (None, None) => return Err(Stop::at(Cause::HeadEnd, later)),
            },
            Err(stop) => return Err(stop),
        }
    }
    Err(Stop::at(Cause::FewHarts, rest))
}

/// A label, and what stands behind its colon. Most cells have none, so that no name is made before the colon is seen.
#[tactic(auto, using(crate::proofs::Labels::label_none, crate::proofs::Labels::label_open, crate::proofs::Labels::label_some))]
pub(crate) fn label_at(bytes: &[u8]) -> Option<(Name, &[u8])>
    ensures { option_map (λ x. (x.0, x.1.now)) result ≡ rows.label_at bytes.now }
{
    let (word, rest) = split_word(skip_blanks(bytes));
    if !is_name(word) {
        return None;
    }
    match symbol_at(b":", rest) {
        Some(rest) => Some((Name::of(word), rest)),
        None => None,
    }
}

/// Adds what stands at the front up to the cell's end, and answers what stands behind that.
#[tactic(auto, unfolding(crate::specs::Rows::instruction_at), using(crate::proofs::Adding::instruction_added, crate::proofs::Adding::instruction_misplaced))]
pub(crate) fn instruction_at<'a>(
    hart: u8,
    end: u8,
    bytes: &'a [u8],
    items: &mut Vec<Item>,
) -> Result<&'a [u8], Stop>
    ensures { Adds (λ x. x.now) items.old.items items.new.items result (rows.instruction_at hart end bytes.now) }
{
    let start = skip_blanks(bytes);
    let (text, behind) = split_until(b"|;", start);
    match after(&[end], behind) {
        Some(rest) => {
            let left = start.len();
            let length = text.len();
            match items.push(Item::Instruction { hart, left, length }) {
                Ok(()) => Ok(rest),
                Err(_) => Err(Stop::Memory),
            }
        }
        None => Err(Stop::here(Cause::Cell, start)),
    }
}

/// Whether `not` stands here as a word of the question, and not as an instruction.
fn is_denial(bytes: &[u8]) -> bool
    ensures { result ≡ rows.is_denial bytes.now }
{
    match keyword_at(b"not", bytes) {
        Some(rest) => symbol_at(b"(", rest).is_some() || keyword_at(b"exists", rest).is_some(),
        None => false,
    }
}

fn is_question_word(word: &[u8]) -> bool
    ensures { result ≡ rows.is_question_word word.now }
{
    is_same(b"exists", word)
        || is_same(b"forall", word)
        || is_same(b"locations", word)
        || is_same(b"filter", word)
}

/// Whether no row follows: what is asked begins here, or nothing is left.
pub fn is_end(bytes: &[u8]) -> bool
    ensures { result ≡ rows.is_end bytes.now }
{
    let rest = skip_blanks(bytes);
    let (word, _) = split_word(rest);
    rest.is_empty() || is_question_word(word) || symbol_at(b"~", rest).is_some() || is_denial(rest)
}
