//! Files that are kept in memory, and behind them the system's.

use anyhow::{Context, Result};
use command_files::{Files, SystemFiles};
use std::alloc::{AllocError, Global};
use std::fs;
use std::io::{self, ErrorKind, Read};
use std::rt::Files as System;

/// How the names of the files begin that commands write into a folder: it is there in memory alone.
const FOLDER: &str = "folder/";

/// A file in memory. The reading of one that is broken fails behind its bytes.
#[derive(Drop)]
struct Held {
    name: String,
    bytes: Vec<u8>,
    is_broken: bool,
}

impl Held {
    fn of(alloc: Global, name: &str, bytes: &[u8], is_broken: bool) -> Result<Held, AllocError> {
        let name = String::from_str(alloc, name)?;
        Ok(Held {
            name,
            bytes: bytes.to_vec(alloc)?,
            is_broken,
        })
    }
}

/// Files in memory, the newest of which counts where several have a name.
#[derive(Drop)]
pub struct Folder {
    alloc: Global,
    held: Vec<Held>,
    /// How many of them the last command found.
    found: usize,
    /// How often it wrote one.
    pub writes: usize,
    is_full: bool,
    /// Its last remark on a file.
    pub remark: Option<String>,
}

impl Folder {
    /// No file is in memory.
    pub fn new(alloc: Global) -> Folder {
        Folder {
            alloc,
            held: Vec::new(alloc),
            found: 0,
            writes: 0,
            is_full: false,
            remark: None,
        }
    }

    /// A file of these bytes.
    pub fn put(&mut self, name: &str, bytes: &[u8]) -> Result<()> {
        self.hold(name, bytes, false)?;
        Ok(())
    }

    /// A file that has no bytes yet.
    pub fn begin(&mut self, name: &str, is_broken: bool) -> Result<()> {
        self.hold(name, b"", is_broken)?;
        Ok(())
    }

    fn hold(&mut self, name: &str, bytes: &[u8], is_broken: bool) -> Result<(), AllocError> {
        let file = Held::of(self.alloc, name, bytes, is_broken)?;
        self.held.push(file)?;
        Ok(())
    }

    /// The bytes of the file that began last.
    pub fn newest(&mut self) -> Result<&mut Vec<u8>> {
        let file = self.held.last_mut().context("no file begins")?;
        Ok(&mut file.bytes)
    }

    /// The bytes of a file in memory.
    pub fn bytes(&self, name: &str) -> Result<&[u8]> {
        let file = self.find(name).context("no such file in memory")?;
        Ok(&file.bytes)
    }

    fn find(&self, name: &str) -> Option<&Held> {
        let mut found = None;
        for file in &self.held {
            if file.name.as_str() == name {
                found = Some(file);
            }
        }
        found
    }

    fn reader(&self, name: &str) -> Result<Option<Reader>, AllocError> {
        match self.find(name) {
            Some(file) => Ok(Some(Reader::of(file.bytes.clone()?, file.is_broken))),
            None => Ok(None),
        }
    }

    fn write(&mut self, name: &str, bytes: &[u8]) -> io::Result<()> {
        if self.is_full {
            return Err(io::Error::from(ErrorKind::StorageFull));
        }
        self.writes = self.writes.saturating_add(1);
        self.hold(name, bytes, false)?;
        Ok(())
    }

    /// A command comes. Where the files are full it can write none.
    pub fn begin_command(&mut self, is_full: bool) {
        self.found = self.held.len();
        self.writes = 0;
        self.is_full = is_full;
        self.remark = None;
    }

    /// The last command comes again: what it wrote is no more.
    pub fn repeat_command(&mut self) {
        self.held.truncate(self.found);
        self.writes = 0;
    }
}

/// The files of a folder, and the system's where it has none of the name. What is written stays in memory.
#[derive(Drop)]
pub struct Backed<'a, R> {
    pub folder: &'a mut Folder,
    pub rt: &'a R,
}

impl<R: System + AllocGlobal> Files for Backed<'_, R> {
    type Reader = Reader;

    fn open(&mut self, name: &str) -> io::Result<Reader> {
        match self.folder.reader(name)? {
            Some(reader) => Ok(reader),
            None => Ok(Reader::of(fs::read(self.rt, name)?, false)),
        }
    }

    fn are_same(&mut self, one: &str, other: &str) -> bool {
        one == other
    }

    fn write(&mut self, name: &str, bytes: &[u8]) -> io::Result<()> {
        self.folder.write(name, bytes)
    }

    fn check_writable(&mut self, name: &str) -> io::Result<()> {
        if name.starts_with(FOLDER) {
            return Ok(());
        }
        SystemFiles::new(self.rt).check_writable(name)
    }

    fn remark(&mut self, remark: String) {
        self.folder.remark = Some(remark);
    }
}

/// A file that is read, from a place on.
#[derive(Drop)]
pub struct Reader {
    bytes: Vec<u8>,
    place: usize,
    is_broken: bool,
}

impl Reader {
    fn of(bytes: Vec<u8>, is_broken: bool) -> Reader {
        Reader {
            bytes,
            place: 0,
            is_broken,
        }
    }
}

impl Read for Reader {
    fn read(&mut self, buf: &mut [u8]) -> io::Result<usize> {
        let mut rest = self.bytes.get(self.place..).unwrap_or(&[]);
        if rest.is_empty() && self.is_broken {
            return Err(io::Error::from(ErrorKind::Other));
        }
        let count = rest.read(buf)?;
        self.place = self.place.saturating_add(count);
        Ok(count)
    }
}
