//! The words of the command line.

ghost use Rattle.std.specs.Prelude.{◌≡◌, ◌⊎◌, IfOk, IsTrue, map};
ghost use Rattle.std.specs.String.{string_bytes};
ghost use Rattle.rvtl.specs.Words.{AreRefused};

use command_files::Escaped;
use command_settings::{SettingsError, settings};
use std::alloc::{AllocError, Global};
use std::convert::AsStr;

/// The words, but as messages have them where they fit no usage, so that what the usage says of them ends no line and steers
/// no terminal.
pub fn told(alloc: Global, words: Vec<String>) -> Result<Vec<String>, AllocError>
    ensures { IfOk result (λ told. (told ≡ words) ⊎ (AreRefused (map string_bytes words.items) × AreRefused (map string_bytes told.items))) }
{
    // Its words are read by a usage of its own.
    if words
        .get(1)
        .is_some_and(|command| command.as_str() == "litmus")
    {
        return Ok(words);
    }
    let escaped = escaped(alloc, &words)?;
    // What would fit is left as it is, so that no other files are meant.
    if escaped != words && is_refused(alloc, &words) && is_refused(alloc, &escaped) {
        return Ok(escaped);
    }
    Ok(words)
}

fn escaped(alloc: Global, words: &[String]) -> Result<Vec<String>, AllocError> {
    let mut escaped = Vec::new(alloc);
    for word in words {
        escaped.push(format!(in alloc; "{}", Escaped(word))?)?;
    }
    Ok(escaped)
}

/// Whether the usage has something to say of the words.
fn is_refused<S: AsStr>(alloc: Global, words: &[S]) -> bool
    ensures { IsTrue result → AreRefused (map S.text words.now) }
{
    match settings(alloc, words) {
        Err(SettingsError::Usage(error)) => error.use_stderr(),
        Err(SettingsError::NoMemory) | Ok(_) => false,
    }
}
