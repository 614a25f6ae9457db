//! The whole program, over what the caller hands in.

ghost use Rattle.std.specs.Prelude.{◌≡◌, ◌≢◌, ◌⊎◌, ◌≤◌, ◌<◌, map};
ghost use Rattle.clap.specs.Words.{kind_of};
ghost use Rattle.command_settings.specs.Refusals.{IsFitting, IsForHelp, IsHelp, IsUnfit};
ghost use Rattle.command_files.specs.Messages.{IsLost};
ghost use Rattle.command_line.specs.Running.{AreMisused, HasNamed, HasNoted, IsCarriedOut, IsNotLegal, IsNoted, IsUnprinted, Spares};
ghost use Rattle.command_line.specs.Telling.{HasToldFault, HasToldMisuse, HasToldWant};

use crate::carrying::carry_out;
use command_files::{Fault, Files, Judgement, tell, tell_lost};
use command_settings::{SettingsError, settings};
use progress_line::Progress;
use std::alloc::Global;
use std::convert::AsStr;
use std::io::Write;
use std::sync::Wait;
use std::thread::Threads;

/// The status where the order or the messages are not legal, an outcome is not allowed, a hart of a run stopped that may
/// not, or no run sends a message.
const NOT_LEGAL: u8 = 3;

/// Does what the words ask for, the first of which is the program's name, and answers the exit status:
/// 0 done or legal, 1 for files, streams, threads and what files hold, 2 for words that don't fit the usage
/// or don't go together (as `--show` with `--sample`), for a machine that can't be and for `--line` of no address, 3 for an order or messages that are not legal, or an
/// outcome that is not allowed, a hart of a run that stopped and may not, or a message that no run sends, 4 out of memory. A message that standard error does not take is lost. A command
/// that takes long tells `progress` how far it is. It may wait for threads.
pub fn run_line<
    R: Threads + Wait + Sync,
    S: AsStr,
    F: Files,
    O: Write,
    E: Write,
    P: Progress + Sync,
>(rt: &R, alloc: Global, words: &[S], files: &mut F, out: &mut O, err: &mut E, progress: &P) -> u8
    ensures status { result ≤ 4 }
    ensures carried_out { result ≡ 0 → IsCarriedOut (map S.text words.now) (F.held files.old) (F.held files.new) (O.contents out.old) (O.contents out.new) }
    ensures noted { result ≡ 0 → HasNoted (map S.text words.now) (F.held files.old) (F.held files.new) (O.contents out.old) (O.contents out.new) (E.contents err.old) (E.contents err.new) }
    ensures judged_noted { result ≡ 3 → HasNamed (map S.text words.now) (IsNoted (F.held files.old) (F.held files.new) (O.contents out.old) (O.contents out.new) (E.contents err.old) (E.contents err.new) Judgement.NotAllowed) }
    ensures not_legal { result ≡ 3 → IsNotLegal (map S.text words.now) (F.held files.old) (F.held files.new) (O.contents out.old) (O.contents out.new) }
    ensures unprinted { 0 < result → result ≢ 3 → IsUnprinted (map S.text words.now) (F.held files.old) (F.held files.new) (O.contents out.old) (O.contents out.new) }
    ensures faulted { result ≡ 1 → HasToldFault (map S.text words.now) (F.held files.old) (F.held files.new) (O.contents out.old) (O.contents out.new) (E.contents err.old) (E.contents err.new) 1 }
    ensures starved { result ≡ 4 → HasToldWant (map S.text words.now) (F.held files.old) (F.held files.new) (O.contents out.old) (O.contents out.new) (E.contents err.old) (E.contents err.new) }
    ensures refused { result ≡ 2 → HasToldMisuse (map S.text words.now) (F.held files.old) (F.held files.new) (O.contents out.old) (O.contents out.new) (E.contents err.old) (E.contents err.new) }
    ensures misused { result ≡ 2 → (IsUnfit (map S.text words.now) ⊎ HasNamed (map S.text words.now) AreMisused) × (O.contents out.new ≡ O.contents out.old) }
    ensures unfit { ¬ IsFitting (map S.text words.now) → ¬ IsForHelp (map S.text words.now) → (result ≡ 2) ⊎ (result ≡ 4) }
    ensures spared { Spares (map S.text words.now) (F.held files.old) (F.held files.new) }
    ensures untouched { result ≡ 2 → F.held files.new ≡ F.held files.old }
{
    let fault = match settings(alloc, words) {
        Ok(wanted) => match carry_out(rt, alloc, wanted, files, out, err, progress) {
            Ok(Judgement::Allowed) => return 0,
            Ok(Judgement::NotAllowed) => return NOT_LEGAL,
            Err(fault) => fault,
        },
        Err(SettingsError::Usage(usage)) => return explain(&usage, out, err),
        Err(SettingsError::NoMemory) => Fault::OutOfMemory,
    };
    tell(&fault, err)
}

/// Help goes to standard output with status 0, a usage fault to standard error with status 2.
fn explain<O: Write, E: Write>(usage: &clap::Error, out: &mut O, err: &mut E) -> u8
    ensures status { (result ≤ 4) × (result ≢ 3) }
    ensures help { (result ≡ 2) ⊎ IsHelp (kind_of usage.now) }
    ensures silent { result ≡ 0 → E.contents err.new ≡ E.contents err.old }
    ensures lost { 0 < result → result ≢ 2 → IsLost (E.contents err.old) (E.contents err.new) result }
    ensures misused { result ≡ 2 → (¬ IsHelp (kind_of usage.now)) × (O.contents out.new ≡ O.contents out.old) }
{
    if usage.use_stderr() {
        let _ = write!(err, "{usage}");
        return 2;
    }
    match write!(out, "{usage}").and_then(|()| out.flush()) {
        Ok(()) => 0,
        Err(error) => tell_lost(error, err),
    }
}
