//! The system's files.

use crate::files::Files;
use std::fs;
use std::io::{self, ErrorKind};
use std::os::unix::fs::MetadataExt;
use std::path::Path;
use std::rt::Files as System;

/// The path of what standard output goes into.
const OUTPUT: &str = "/dev/stdout";

/// The files of the system that the runtime stands for.
#[derive(Drop)]
pub struct SystemFiles<'r, R> {
    rt: &'r R,
}

impl<'r, R> SystemFiles<'r, R> {
    /// The files that the process sees, by their paths.
    pub fn new(rt: &'r R) -> SystemFiles<'r, R> {
        SystemFiles { rt }
    }
}

impl<R: System> SystemFiles<'_, R> {
    /// Fails where the folder is not there in which a file of this name would stand.
    fn check_folder(&self, name: &str) -> io::Result<()> {
        let Some(folder) = Path::new(name).parent() else {
            return Err(io::Error::from(ErrorKind::NotFound));
        };
        if folder.as_str().is_empty() || fs::metadata(self.rt, folder)?.is_dir() {
            Ok(())
        } else {
            Err(io::Error::from(ErrorKind::NotADirectory))
        }
    }
}

impl<R: System> Files for SystemFiles<'_, R> {
    type Reader = R::File;

    fn open(&mut self, name: &str) -> io::Result<R::File> {
        fs::open(self.rt, name)
    }

    fn are_same(&mut self, one: &str, other: &str) -> bool {
        if one == other {
            return true;
        }
        match (fs::metadata(self.rt, one), fs::metadata(self.rt, other)) {
            (Ok(one), Ok(other)) => one.dev() == other.dev() && one.ino() == other.ino(),
            _ => false,
        }
    }

    // Devices, pipes and terminals keep what others write.
    fn is_output(&mut self, name: &str) -> bool {
        match fs::metadata(self.rt, OUTPUT) {
            Ok(output) => output.is_file() && self.are_same(OUTPUT, name),
            Err(_) => false,
        }
    }

    fn write(&mut self, name: &str, bytes: &[u8]) -> io::Result<()> {
        fs::write(self.rt, name, bytes)
    }

    fn check_writable(&mut self, name: &str) -> io::Result<()> {
        match fs::metadata(self.rt, name) {
            Ok(found) if found.is_dir() => Err(io::Error::from(ErrorKind::IsADirectory)),
            Ok(_) => Ok(()),
            Err(error) if error.kind() == ErrorKind::NotFound => self.check_folder(name),
            Err(error) => Err(error),
        }
    }
}
