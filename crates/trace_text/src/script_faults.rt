//! Which line of a script can't be read, and why. Only a refused script comes here.
ghost use Rattle.std.specs.Prelude.{◌≡◌, ◌↔◌, IsTrue, true};
ghost use Rattle.trace_text.specs.Reading.{IsFaultOf};
ghost use Rattle.trace_text.specs.Refusals.{has_line_feed, first_word, IsEventWord, IsScriptCode, IsScriptRefusal};
ghost use Rattle.trace_text.specs.Stops.{IsScriptStop};

use crate::cause::TextCause;
use crate::fault::{Stop, TextCode, TextError, is_word, line_at};
use crate::script_causes::script_cause;

/// The fault of a script whose reader stopped there.
pub(crate) fn script_fault(bytes: &[u8], stop: Stop) -> TextError
    requires { IsScriptStop bytes.now stop }
    ensures memory { IsFaultOf stop result }
    ensures refused { ¬ (result.code ≡ TextCode.NoMemory) → IsScriptRefusal bytes.now result }
{
    let (line, rest) = line_at(bytes, stop.left());
    match stop {
        Stop::Memory { .. } => TextError {
            line,
            code: TextCode::NoMemory,
            cause: TextCause::Unsaid,
        },
        Stop::Bytes { .. } => TextError {
            line,
            code: code_at(line, rest),
            cause: script_cause(line, rest),
        },
    }
}

fn code_at(line: usize, rest: &[u8]) -> TextCode
    ensures { IsScriptCode result line rest.now }
{
    if !rest.contains(&b'\n') {
        TextCode::End
    } else if line == 1 {
        TextCode::Header
    } else if !is_known(rest) {
        TextCode::Word
    } else {
        TextCode::Fields
    }
}

/// Whether the first word of a line is that of an event.
fn is_known(line: &[u8]) -> bool
    requires { has_line_feed line.now ≡ true }
    ensures { IsTrue result ↔ IsEventWord (first_word line.now) }
{
    is_word(line, b"step")
        || is_word(line, b"drain")
        || is_word(line, b"evict")
        || is_word(line, b"deliver")
        || is_word(line, b"local")
}
