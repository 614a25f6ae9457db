//! Why a text is no log's.
ghost use Rattle.std.specs.Prelude.{◌≡◌, ◌<◌, IfSome, codes, is_some, length, position};
ghost use Rattle.std.specs.List.{list_any};
ghost use Rattle.text_fields.specs.Excerpts.{excerpt};
ghost use Rattle.text_fields.specs.Reading.{after};
ghost use Rattle.trace_text.specs.declared.cause.TextCause.TheVariants as causes;
ghost use Rattle.wide_logs.specs.Logs.{code_at, is_feed, line_text};

use text_fields::{Excerpt, after};
use trace_text::{TextCause, TextCode, TextError};

/// Memory was refused.
pub(crate) const NO_MEMORY: TextError = TextError {
    line: 0,
    code: TextCode::NoMemory,
    cause: TextCause::Unsaid,
};

/// The fault at the line of this number, counted from 1, that begins with these bytes.
pub(crate) fn fault_at(line: usize, rest: &[u8]) -> TextError
    ensures line { result.line ≡ line }
    ensures code { result.code ≡ code_at line rest.now }
    ensures cause { result.cause ≡ causes.Trace (excerpt (line_text rest.now)) }
{
    TextError {
        line,
        code: code_at(line, rest),
        cause: TextCause::Trace {
            line: Excerpt::of(line_text(rest)),
        },
    }
}

fn code_at(line: usize, rest: &[u8]) -> TextCode
    ensures { result ≡ code_at line rest.now }
{
    if !has_line_feed(rest) {
        TextCode::End
    } else if line == 1 {
        TextCode::Header
    } else if is_message(rest) {
        TextCode::Fields
    } else {
        TextCode::Word
    }
}

fn has_line_feed(bytes: &[u8]) -> bool
    ensures { result ≡ list_any is_feed bytes.now }
{
    bytes.iter().any(|byte| *byte == b'\n')
}

fn is_message(bytes: &[u8]) -> bool
    ensures { result ≡ is_some (after (codes "M ") bytes.now) }
{
    after(b"M ", bytes).is_some()
}

/// The line that begins here, without its line feed.
fn line_text(bytes: &[u8]) -> &[u8]
    ensures { result.now ≡ line_text bytes.now }
{
    match line_feed(bytes) {
        Some(at) => &bytes[..at],
        None => bytes,
    }
}

fn line_feed(bytes: &[u8]) -> Option<usize>
    ensures value { result ≡ position is_feed bytes.now }
    ensures inside { IfSome result (λ at. at < length bytes.now) }
{
    bytes.iter().position(|byte| *byte == b'\n')
}
