//! The program's last write: a status that says that all was printed comes behind it.

ghost use Rattle.std.specs.Prelude.{◌≡◌, ◌⊎◌, [], map};
ghost use Rattle.std.specs.Io.Buffered.{writer_buffer, writer_contents};
ghost use Rattle.std.specs.Io.KnownBytes.{Keeps};
ghost use Rattle.rvtl.specs.Delivered.{IsDelivered, IsStatusOf};

use command_files::{Files, tell_lost};
use command_line::run_program;
use progress_line::Progress;
use std::convert::AsStr;
use std::io::{BufWriter, Write};
use std::sync::Wait;
use std::thread::Threads;

/// The status of what was done, and is legal and allowed.
const DONE: u8 = 0;

/// The status of what was judged, and isn't legal, or not allowed.
const NOT_LEGAL: u8 = 3;

/// Does what the words ask for, the first of which is the program's name, as `run_program` says, and answers the exit
/// status: the command's own, 0 or 3 only where all that was printed has reached the writer behind the buffer. Where that
/// took no more, it is told, with status 1, or 4 for want of memory.
pub fn run_whole<
    R: Threads + Wait + Sync + AllocGlobal,
    S: AsStr,
    F: Files,
    O: Write + Drop,
    E: Write,
    P: Progress + Sync,
>(rt: &R, words: &[S], files: &mut F, out: &mut BufWriter<O>, err: &mut E, progress: &P) -> u8
    ensures reached { (result ≡ 0) ⊎ (result ≡ 3) → writer_buffer out.new ≡ [] }
    ensures done { IsDelivered (map S.text words.now) (F.held files.old) (F.held files.new) (writer_contents O.contents out.old) (writer_contents O.contents out.new) (E.contents err.old) (E.contents err.new) result }
{
    let status = run_program(rt, rt.alloc(), words, files, out, err, progress);
    delivered(status, out, err)
}

/// The status of a command that ended with this one, behind its last write.
fn delivered<O: Write + Drop, E: Write>(status: u8, out: &mut BufWriter<O>, err: &mut E) -> u8
    ensures reached { (result ≡ 0) ⊎ (result ≡ 3) → writer_buffer out.new ≡ [] }
    ensures kept { Keeps (writer_contents O.contents out.old) (writer_contents O.contents out.new) }
    ensures of_command { IsStatusOf status (E.contents err.old) (E.contents err.new) result }
{
    if status != DONE && status != NOT_LEGAL {
        return status;
    }
    match out.flush() {
        Ok(()) => status,
        Err(error) => tell_lost(error, err),
    }
}
