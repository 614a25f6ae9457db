//! The file of the outcomes that are allowed, and what a command judges.

ghost use Rattle.std.specs.Prelude.{◌≡◌, IfErr, IfOk, option_map};
ghost use Rattle.command_files.specs.Allowing.{IsAllowFile, IsNamedBy};
ghost use Rattle.command_files.specs.Faults.{IsReadFault};

use crate::fault::Fault;
use crate::files::Files;
use crate::no_outcomes::remark_no_outcomes;
use crate::reading::contents;
use std::alloc::Global;

/// Whether what a command found may be so: each outcome by the file of what is allowed, if one was named, and nothing else
/// that it may not come to; an order by the memory model; messages by their rules.
#[derive(Clone, Copy, Debug, PartialEq, Eq)]
pub enum Judgement {
    Allowed,
    NotAllowed,
}

/// The bytes of the file that was named, if one was. Which lines are no outcome is remarked.
pub fn allow_file<'a, F: Files>(
    alloc: Global,
    files: &mut F,
    allow: Option<&'a str>,
) -> Result<Option<Vec<u8>>, Fault<'a>>
    ensures read { IfOk result (λ text. IsAllowFile (F.held files.old) allow.entry (option_map (λ bytes. bytes.items) text)) }
    ensures told { IfErr result (IsNamedBy allow.entry IsReadFault) }
    ensures stays { F.held files.new ≡ F.held files.old }
{
    let Some(file) = allow else {
        return Ok(None);
    };
    let bytes = contents(alloc, files, file)?;
    remark_no_outcomes(alloc, files, file, &bytes);
    Ok(Some(bytes))
}
