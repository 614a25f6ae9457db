//! The program `rvtl`: the command line over the system's files and streams.
#![tactic(auto)]

mod delivering;
mod exit_code;
mod memory;
mod streams;
mod words;

use crate::delivering::run_whole;
use crate::exit_code::code_of;
use crate::memory::most_taken;
use crate::streams::{Messages, Output};
use crate::words::told;
use command_files::{Remarked, SystemFiles, WithInput};
use notes::FileNote;
use progress_line::ProgressLine;
use std::cell::Cell;
use std::env;
use std::io::{self, BufWriter, ErrorKind, Input, IsTerminal, Write};
use std::process::ExitCode;
use std::rt::{Env, Files};
use std::sync::Wait;
use std::thread::{self, Builder, Threads};
use std::time::Clock;

/// How many bytes of stack the program has, whatever the system gives the process.
const STACK: usize = 8 << 20;

/// How many it has where these aren't to be had: more than twice what any command takes.
const SMALL_STACK: usize = 1 << 20;

/// The status where memory ended.
const OUT_OF_MEMORY: u8 = 4;

fn main(rt: HostRuntime) -> ExitCode {
    let rt = &rt;
    let started = thread::scope(
        thread::scope_env(),
        rt,
        |scope| -> io::Result<io::Result<u8>> {
            let own = Builder::new().stack_size(STACK);
            let program = match own.spawn_scoped(scope, move || run(rt, rt.stdout(), rt.stderr())) {
                Ok(program) => program,
                Err(_) => Builder::new()
                    .stack_size(SMALL_STACK)
                    .spawn_scoped(scope, move || run(rt, rt.stdout(), rt.stderr()))?,
            };
            Ok(program.join(rt))
        },
    );
    let Ok(ended) = started else {
        let _ = eprintln!(rt; "rvtl: out of memory");
        let _ = eprintln!(rt;
            "note: no thread with a stack of {} KiB was to be had",
            SMALL_STACK / 1024
        );
        return ExitCode::from(OUT_OF_MEMORY);
    };
    if let Err(error) = &ended {
        let message = match error.kind() {
            ErrorKind::OutOfMemory => "out of memory",
            _ => "a word of the command line is not UTF-8",
        };
        let _ = eprintln!(rt; "rvtl: {message}");
    }
    code_of(ended)
}

fn run<
    R: Clock + Env + Eprint + Files + Input + Threads + Wait + Sync + AllocGlobal,
    O: Write + Drop,
    E: Write + IsTerminal + Drop,
>(rt: &R, out: O, err: E) -> io::Result<u8> {
    let alloc = rt.alloc();
    let words = told(alloc, env::args(rt)?.collect(alloc)?)?;
    let progress = ProgressLine::start(rt, err.is_terminal()).ok();
    let lost = Cell::new(None);
    let mut out = BufWriter::new(alloc, Output::new(out, &lost))?;
    let mut err = Messages::new(err, &lost);
    let mut files = Remarked::new(WithInput::new(rt, SystemFiles::new(rt)));
    let status = run_whole(
        rt,
        words.as_slice(),
        &mut files,
        &mut out,
        &mut err,
        &progress,
    );
    if status == OUT_OF_MEMORY {
        // What was remarked before isn't why the command ended.
        tell_memory(rt, &mut err);
    } else {
        if let Some(error) = lost.get() {
            let _ = writeln!(err, "note: {}", FileNote(error));
        }
        if let Some(remark) = files.last() {
            let _ = writeln!(err, "note: {remark}");
        }
    }
    Ok(status)
}

/// Tells how much memory there was, as far as the system tells.
fn tell_memory<R: Files, E: Write>(rt: &R, err: &mut E) {
    if let Some(kib) = most_taken(rt) {
        let _ = writeln!(
            err,
            "note: {kib} KiB of memory were taken, and no more was to be had"
        );
    }
}
