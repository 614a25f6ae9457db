//! What the command line says.

use command_files::{Files, SystemFiles};
use command_line::run_program;
use progress_line::Silent;
use std::alloc::Global;
use std::io::{self, Write};
use std::sync::Wait;
use std::thread::Threads;

/// Runs the command line, which prints to `out` and tells to `err`; its status.
pub fn run<R: Threads + Wait + Sync + AllocGlobal, F: Files, W: Write>(
    rt: &R,
    words: &[&str],
    files: &mut F,
    out: &mut W,
    err: &mut Vec<u8>,
) -> u8 {
    run_program(rt, rt.alloc(), words, files, out, err, &Silent)
}

/// What the command line printed, and its status.
pub struct Said {
    pub status: u8,
    pub out: Vec<u8>,
    pub err: Vec<u8>,
}

// A call of its own: derived, it would stand field by field in each function that owns one.
impl Drop for Said {
    fn drop(self) {
        let Said {
            status: _,
            out: _,
            err: _,
        } = self;
    }
}

impl Said {
    pub fn nothing(alloc: Global) -> Said {
        Said {
            status: 0,
            out: Vec::new(alloc),
            err: Vec::new(alloc),
        }
    }

    /// Runs the command line, in place of what was said before.
    pub fn ask<R: Threads + Wait + Sync + AllocGlobal, F: Files>(
        &mut self,
        rt: &R,
        words: &[&str],
        files: &mut F,
    ) {
        let alloc = rt.alloc();
        self.out = Vec::new(alloc);
        self.err = Vec::new(alloc);
        self.status = run(rt, words, files, &mut self.out, &mut self.err);
    }

    /// Runs the command line over the system's files.
    pub fn ask_of_system<R: std::rt::Files + Threads + Wait + Sync + AllocGlobal>(
        &mut self,
        rt: &R,
        words: &[&str],
    ) {
        self.ask(rt, words, &mut SystemFiles::new(rt));
    }

    /// Prints what was printed, and then what was told.
    pub fn print<W: Write>(&self, out: &mut W) -> io::Result<()> {
        out.write_all(&self.out)?;
        out.write_all(&self.err)
    }
}
