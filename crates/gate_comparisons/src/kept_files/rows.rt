//! Plays kept scripts on kept images with the plain machine, with the machine that is built of proved parts
//! and with the program's command line, and compares the outcome of each event, the trace and the harts'
//! ends with the kept texts, which other implementations of the same rules have printed; those of cases
//! named by words are written by hand. A line of the file `cases` has a case's name, the kind of its image
//! and its memory model. Each case is played with the plain flat machine beside the machine, too, and each
//! wrong variant of the flat machine is refuted by a script.

use crate::kept_files::said::Said;
use crate::kept_files::texts::lines_with;
use anyhow::{Result, bail, ensure};
use gate_plain_comparisons::{Case, Counts, Differences, ImageKind, Played, refute_all, show};
use std::fs;
use std::io::{self, Write};
use std::rt::Files;
use std::str::from_utf8;
use std::sync::Wait;
use std::thread::Threads;

/// How the lines of a trace begin, by their kinds.
static KINDS: [&str; 6] = ["T ", "I ", "R ", "P ", "M ", "H "];

/// Asks the command line for a command that takes an image and a script.
fn ask<'a, R: Files + Threads + Wait + Sync + AllocGlobal>(
    rt: &R,
    command: &'a str,
    case: &'a Case,
    said: &mut Said,
) {
    let model = case.model_name();
    let image = case.image_path.as_str();
    let script = case.script_path.as_str();
    match case.kind {
        ImageKind::Raw => {
            let words = ["rvtl", command, "--raw", "--model", model, image, script];
            said.ask_of_system(rt, &words);
        }
        ImageKind::Elf => {
            let words = ["rvtl", command, "--model", model, image, script];
            said.ask_of_system(rt, &words);
        }
    }
}

/// What the command line said of a case that it replayed and isn't as kept.
fn printed_difference(said: &Said, case: &Case) -> Option<&'static str> {
    if said.status != 0 {
        return Some("status differs");
    }
    if said.out.as_slice() != case.trace.as_slice() {
        return Some("standard output differs");
    }
    if said.err.as_slice() != case.ends.as_slice() {
        return Some("standard error differs");
    }
    None
}

/// What the command line printed of a case, where it succeeded and told nothing.
fn printed<'a>(name: &str, said: &'a Said) -> Result<&'a str> {
    let told = from_utf8(&said.err)?;
    ensure!(said.status == 0 && told.is_empty(), "{name}: {told}");
    Ok(from_utf8(&said.out)?)
}

/// As many lines are printed of one kind as the kept trace has of another.
fn are_as_many(name: &str, printed: &str, kind: &str, trace: &str, wanted: &str) -> Result<()> {
    let (lines, kept) = (lines_with(printed, kind), lines_with(trace, wanted));
    ensure!(
        lines == kept,
        "{name}: {lines} lines {kind}for {kept} of the trace"
    );
    Ok(())
}

/// The command line has drawn a case, with an arrow for each message that the kept trace says was sent.
fn is_drawn(name: &str, case: &Case, said: &Said) -> Result<()> {
    let picture = printed(name, said)?;
    are_as_many(name, picture, "<polyline ", from_utf8(&case.trace)?, "M s ")
}

/// The command line has explained a case, with as many lines of each kind as the kept trace has.
fn is_explained(name: &str, case: &Case, said: &Said) -> Result<()> {
    let stream = printed(name, said)?;
    let trace = from_utf8(&case.trace)?;
    for kind in &KINDS {
        are_as_many(name, stream, kind, trace, kind)?;
    }
    Ok(())
}

/// Prints in what the machines and the command line differ from what is kept of a case; whether in nothing.
fn print<W: Write>(
    name: &str,
    machines: Differences,
    program: Option<&'static str>,
    out: &mut W,
) -> io::Result<bool> {
    let Differences { plain, coherent } = machines;
    writeln!(
        out,
        "{name}: plain {}, coherent {}, program {}",
        plain.unwrap_or("as kept"),
        coherent.unwrap_or("as kept"),
        program.unwrap_or("as kept")
    )?;
    Ok(plain.is_none() && coherent.is_none() && program.is_none())
}

/// What cases are played with.
#[derive(Drop)]
struct Stage {
    case: Case,
    played: Played,
    said: Said,
    counts: Counts,
}

impl Stage {
    /// Plays the case with each machine and with the command line, and says what of it isn't as kept; whether
    /// all is.
    fn play<R: Files + Threads + Wait + Sync + AllocGlobal, W: Write>(
        &mut self,
        rt: &R,
        name: &str,
        out: &mut W,
    ) -> Result<bool> {
        let machines = self.played.differences(rt.alloc(), &self.case)?;
        ask(rt, "replay", &self.case, &mut self.said);
        let program = printed_difference(&self.said, &self.case);
        Ok(print(name, machines, program, out)?)
    }

    /// The flat machine shows each event of the case, and the command line draws and explains it.
    fn show<R: Files + Threads + Wait + Sync + AllocGlobal>(
        &mut self,
        rt: &R,
        name: &str,
    ) -> Result<()> {
        show(rt.alloc(), name, &self.case, &mut self.counts)?;
        ask(rt, "chart", &self.case, &mut self.said);
        is_drawn(name, &self.case, &self.said)?;
        ask(rt, "explain", &self.case, &mut self.said);
        is_explained(name, &self.case, &self.said)
    }

    /// Plays the case of a line, and says what of it isn't as kept; whether all is.
    fn play_case<R: Files + Threads + Wait + Sync + AllocGlobal, W: Write>(
        &mut self,
        rt: &R,
        line: &str,
        out: &mut W,
    ) -> Result<bool> {
        let Some(name) = self.case.set(line) else {
            bail!("no case: {line}");
        };
        self.case.load(rt, name)?;
        self.case.load_texts(rt, name)?;
        let is_kept = self.play(rt, name, out)?;
        self.show(rt, name)?;
        Ok(is_kept)
    }

    /// Plays the cases of these lines; whether each is as kept.
    fn play_cases<R: Files + Threads + Wait + Sync + AllocGlobal, W: Write>(
        &mut self,
        rt: &R,
        cases: &str,
        out: &mut W,
    ) -> Result<bool> {
        let mut all_kept = true;
        for line in cases.lines() {
            all_kept = self.play_case(rt, line, out)? && all_kept;
        }
        Ok(all_kept)
    }

    /// Says what was found of all cases.
    fn conclude<W: Write>(&self, out: &mut W) -> io::Result<()> {
        writeln!(out, "each is drawn, with an arrow for each of its messages")?;
        writeln!(out, "each is explained, with the lines of its trace")?;
        writeln!(out, "flat: {}", self.counts)
    }

    /// Plays the cases of these lines, and refutes each wrong variant.
    fn play_all<R: Files + Threads + Wait + Sync + AllocGlobal, W: Write>(
        &mut self,
        rt: &R,
        cases: &str,
        out: &mut W,
    ) -> Result<()> {
        let all_kept = self.play_cases(rt, cases, out)?;
        self.conclude(out)?;
        refute_all(rt, out)?;
        ensure!(all_kept, "a case differs");
        Ok(())
    }
}

/// Plays each case, and prints what of it isn't as kept.
pub fn play_all<R: Files + Threads + Wait + Sync + AllocGlobal, W: Write>(
    rt: &R,
    out: &mut W,
) -> Result<()> {
    let cases = fs::read_to_string(rt, "replayed/cases")?;
    let mut stage = Stage {
        case: Case::blank(rt.alloc()),
        played: Played::nothing(rt.alloc()),
        said: Said::nothing(rt.alloc()),
        counts: Counts::nothing(),
    };
    stage.play_all(rt, cases.as_str(), out)
}
