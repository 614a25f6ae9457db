//! `rvtl page`: what is told of a script's events, or of a trace's order, behind a page that shows it in a browser.

ghost use Rattle.std.specs.Prelude.{◌≡◌, IfErr, OnOk};
ghost use Rattle.trace_commands.specs.Pages.{IsPageFault, IsPaged, LeavesOfPage};

use crate::document::PAGE;
use crate::kinds::explain_files;
use command_files::event_stream::Strictness;
use command_files::{Fault, Files};
use command_settings::Replay;
use std::alloc::Global;
use std::io::Write;
use text_fields::put;

/// Prints on `out` a page for a browser, and behind it what `explain_files` tells of the file: of a script each event, also
/// those that change nothing, and what the machine holds at the end, which the page holds against its own account. Where
/// there is a fault, the page stands alone, or before what was told until then.
pub fn page_files<'a, F: Files, O: Write>(
    alloc: Global,
    files: &mut F,
    wanted: Replay<'a>,
    out: &mut O,
) -> Result<(), Fault<'a>>
    ensures paged { OnOk result (IsPaged (F.held files.old) wanted.entry (O.contents out.old) (O.contents out.new)) }
    ensures unfinished { IfErr result (LeavesOfPage (F.held files.old) wanted.entry (O.contents out.old) (O.contents out.new)) }
    ensures told { IfErr result (IsPageFault (F.held files.old) wanted.entry (O.contents out.old) (O.contents out.new)) }
    ensures spared { F.held files.new ≡ F.held files.old }
{
    match put(out, PAGE) {
        Ok(()) => explain_files(alloc, files, wanted, Strictness::Lenient, true, out),
        Err(error) => Err(Fault::writing(error)),
    }
}
