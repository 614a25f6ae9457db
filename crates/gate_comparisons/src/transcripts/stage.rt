//! Where a transcript is played: its files, and what its last commands said.

use crate::kept_files::{Backed, Folder, Said, run, words_of};
use crate::transcripts::breaking::Breaking;
use crate::transcripts::line::{Line, add_text, halves, unescaped};
use crate::transcripts::lost_update::needs_each;
use crate::transcripts::stream::{Stream, exchanged};
use anyhow::{Result, bail, ensure};
use std::alloc::Global;
use std::fmt::Debug;
use std::mem::swap;
use std::rt::Files;
use std::str::from_utf8;
use std::sync::Wait;
use std::thread::Threads;

/// What of a command is told: how many bytes of its streams, how many files it wrote, and whether its status is.
#[derive(Clone, Copy)]
struct Told {
    out: usize,
    err: usize,
    writes: usize,
    has_status: bool,
}

impl Told {
    fn nothing() -> Told {
        Told {
            out: 0,
            err: 0,
            writes: 0,
            has_status: false,
        }
    }
}

/// The files, the last command and what is told of it, and what it and the one before said.
#[derive(Drop)]
pub struct Stage {
    alloc: Global,
    files: Folder,
    asked: String,
    told: Told,
    said: Said,
    before: Said,
    /// How many commands there were.
    pub commands: usize,
}

impl Stage {
    /// There was no command yet, which is told.
    pub fn new(alloc: Global) -> Stage {
        Stage {
            alloc,
            files: Folder::new(alloc),
            asked: String::new(alloc),
            told: Told {
                has_status: true,
                ..Told::nothing()
            },
            said: Said::nothing(alloc),
            before: Said::nothing(alloc),
            commands: 0,
        }
    }

    /// Plays a line.
    pub fn play<R: Files + Threads + Wait + Sync + AllocGlobal>(
        &mut self,
        rt: &R,
        line: &str,
    ) -> Result<()> {
        let Line { sign, mark, text } = Line::of(line);
        match sign {
            '$' => self.ask(rt, mark, text),
            '%' => self.interrupt(rt, mark, text),
            '/' => self.needs_each(rt, text),
            _ => self.note(sign, mark, text),
        }
    }

    /// Takes a line for which no command runs.
    fn note(&mut self, sign: char, mark: char, text: &str) -> Result<()> {
        match sign {
            '#' => Ok(()),
            '+' => self.files.begin(text, mark == '!'),
            '|' if mark == '<' => self.add_file(text),
            '|' => add_text(self.alloc, self.files.newest()?, mark, text),
            '~' => self.exchange(text),
            '<' => self.show(text),
            '@' => self.files.put(text, &self.said.out),
            _ => self.tell(sign, mark, text),
        }
    }

    /// Adds another file's bytes to the file that began last.
    fn add_file(&mut self, name: &str) -> Result<()> {
        let bytes = self.files.bytes(name)?.to_vec(self.alloc)?;
        self.files.newest()?.extend_from_slice(&bytes)?;
        Ok(())
    }

    fn exchange(&mut self, names: &str) -> Result<()> {
        let (name, other) = halves(names);
        let made = exchanged(self.alloc, self.files.bytes(other)?)?;
        self.files.put(name, made.as_bytes())
    }

    /// Runs a command.
    fn ask<R: Files + Threads + Wait + Sync + AllocGlobal>(
        &mut self,
        rt: &R,
        mark: char,
        text: &str,
    ) -> Result<()> {
        self.begin_command(mark, text)?;
        let words = words_of(self.alloc, &["rvtl"], &self.asked)?;
        let mut files = Backed {
            folder: &mut self.files,
            rt,
        };
        self.said.ask(rt, &words, &mut files);
        Ok(())
    }

    /// A command comes.
    fn begin_command(&mut self, mark: char, text: &str) -> Result<()> {
        self.go_on()?;
        self.commands = self.commands.saturating_add(1);
        self.asked = unescaped(self.alloc, text)?;
        self.files.begin_command(mark == '-');
        Ok(())
    }

    /// Has a file as if a command had printed it.
    fn show(&mut self, name: &str) -> Result<()> {
        self.go_on()?;
        self.files.begin_command(false);
        self.said = Said::nothing(self.alloc);
        self.said.out = self.files.bytes(name)?.to_vec(self.alloc)?;
        self.told.has_status = true;
        Ok(())
    }

    /// A further command comes, of which nothing is told.
    fn go_on(&mut self) -> Result<()> {
        self.conclude()?;
        swap(&mut self.said, &mut self.before);
        self.told = Told::nothing();
        Ok(())
    }

    /// Everything is told of the last command.
    pub fn conclude(&self) -> Result<()> {
        self.out().conclude()?;
        self.err().conclude()?;
        ensure!(self.told.has_status, "before, no status is told");
        let writes = self.files.writes;
        ensure!(
            writes == self.told.writes,
            "before, {writes} files were written"
        );
        Ok(())
    }

    fn out(&self) -> Stream<'_> {
        Stream {
            printed: &self.said.out,
            before: &self.before.out,
            told: self.told.out,
        }
    }

    fn err(&self) -> Stream<'_> {
        Stream {
            printed: &self.said.err,
            before: &self.before.err,
            told: self.told.err,
        }
    }

    /// The last command did what the line tells.
    fn tell(&mut self, sign: char, mark: char, text: &str) -> Result<()> {
        match sign {
            '>' => self.tell_out(mark, text),
            '!' => self.tell_err(mark, text),
            '=' => self.tell_status(text),
            ':' => self.tell_writes(text),
            '?' => self.tell_remark(text),
            _ => bail!("no such line"),
        }
    }

    fn tell_out(&mut self, mark: char, text: &str) -> Result<()> {
        self.told.out = self.out().tell(self.alloc, mark, text)?;
        Ok(())
    }

    fn tell_err(&mut self, mark: char, text: &str) -> Result<()> {
        self.told.err = self.err().tell(self.alloc, mark, text)?;
        Ok(())
    }

    fn tell_status(&mut self, text: &str) -> Result<()> {
        came(&self.said.status, &text.parse::<u8>()?)?;
        self.told.has_status = true;
        Ok(())
    }

    fn tell_writes(&mut self, text: &str) -> Result<()> {
        came(&self.files.writes, &text.parse::<usize>()?)?;
        self.told.writes = self.files.writes;
        Ok(())
    }

    fn tell_remark(&self, told: &str) -> Result<()> {
        let remark = match &self.files.remark {
            Some(remark) => remark.as_str(),
            None => "",
        };
        came(&remark, &told)
    }

    fn needs_each<R: Files + Threads + Wait + Sync + AllocGlobal>(
        &mut self,
        rt: &R,
        name: &str,
    ) -> Result<()> {
        let script = self.files.bytes(name)?.to_vec(self.alloc)?;
        needs_each(rt, &mut self.files, from_utf8(&script)?)
    }

    /// The last command ends as it should over a standard output that breaks.
    fn interrupt<R: Files + Threads + Wait + Sync + AllocGlobal>(
        &mut self,
        rt: &R,
        mark: char,
        text: &str,
    ) -> Result<()> {
        match mark {
            '*' => {
                for room in 0..self.said.out.len() {
                    self.break_at(rt, Some(room))?;
                }
                Ok(())
            }
            '-' => self.break_at(rt, Some(text.parse::<usize>()?)),
            '.' => self.break_at(rt, None),
            _ => bail!("no such break"),
        }
    }

    /// The bytes that it takes are the first ones, and the program ends there: no hart is told of.
    fn break_at<R: Files + Threads + Wait + Sync + AllocGlobal>(
        &mut self,
        rt: &R,
        room: Option<usize>,
    ) -> Result<()> {
        let mut said = Said::nothing(self.alloc);
        self.repeat(rt, room, &mut said)?;
        let first = self.said.out.get(..room.unwrap_or(self.said.out.len()));
        let are_first = first == Some(said.out.as_slice());
        let has_told = said.err.as_slice() == b"rvtl: cannot write\n".as_slice();
        ensure!(
            are_first && has_told && said.status == 1,
            "it ends otherwise where it takes {room:?} bytes: status {}",
            said.status
        );
        Ok(())
    }

    /// Runs the last command again, over a standard output that breaks.
    fn repeat<R: Files + Threads + Wait + Sync + AllocGlobal>(
        &mut self,
        rt: &R,
        room: Option<usize>,
        said: &mut Said,
    ) -> Result<()> {
        self.files.repeat_command();
        let words = words_of(self.alloc, &["rvtl"], &self.asked)?;
        let mut files = Backed {
            folder: &mut self.files,
            rt,
        };
        let mut out = Breaking::new(self.alloc, room);
        said.status = run(rt, &words, &mut files, &mut out, &mut said.err);
        said.out = out.taken;
        Ok(())
    }
}

/// What came is what is told.
fn came<T: PartialEq + Debug>(came: &T, told: &T) -> Result<()> {
    ensure!(came == told, "there came {came:?}");
    Ok(())
}
