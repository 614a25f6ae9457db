//! Why the program ends with another status than 0.

ghost use Rattle.std.specs.Prelude.{◌≡◌, ◌↔◌, ◌⊎◌, ℕ};
ghost use Rattle.std.specs.IoError.{error_kind};
ghost use Rattle.command_files.specs.Status.{IsOutOfMemory, IsStreamFault, status_of};
ghost use Rattle.event_stream.specs.Lines.{script_line_of};
ghost use Rattle.command_files.specs.declared.fault.Fault.TheVariants.{OutOfMemory};

use elf_loader::LoadError;
use event_stream::StreamError;
use event_stream::coherent_machine::{ApplyError, ReplayError};
use machine_types::Outcome;
use notes::rvwmo_order::CheckError;
use std::alloc::AllocError;
use std::io::{self, ErrorKind};
use trace_text::{TextCode, TextError};

/// Why a word of memory can't be shown.
#[derive(Clone, Copy, Debug, PartialEq, Eq)]
pub enum Unshown {
    /// Random runs show none.
    Elsewhere,
    /// It is no number below 2^32, and the image has no such symbol.
    NoSymbol,
    /// No aligned word of memory lies at its address.
    NoWord,
}

/// What went wrong, with the file in which it did.
#[derive(Debug, Drop)]
pub enum Fault<'a> {
    CannotRead {
        file: &'a str,
    },
    CannotMake {
        file: &'a str,
    },
    CannotWrite,
    Image {
        file: &'a str,
        error: LoadError,
    },
    Text {
        file: &'a str,
        error: TextError,
    },
    Event {
        file: &'a str,
        line: usize,
        error: ApplyError,
    },
    NothingHappens {
        file: &'a str,
        line: usize,
        outcome: Outcome,
    },
    BytesAfterTrace {
        file: &'a str,
    },
    Check {
        file: &'a str,
        error: CheckError,
    },
    /// The words in which the trace of this file begins aren't the image's: the first that differs is at this address.
    OtherImage {
        file: &'a str,
        address: u32,
    },
    /// A picture would have more than 400 rows or bars, or more than 65,535 lines of text.
    TooManyRows {
        file: &'a str,
    },
    /// What was given as an address is no number below 2^32, in decimal or behind 0x in hexadecimal.
    BadAddress {
        word: &'a str,
    },
    /// What was given as a word of memory to show can't be shown.
    CannotShow {
        word: &'a str,
        cause: Unshown,
    },
    NoThread,
    /// The machine that the threads gave back is of another image or configuration.
    Mismatch,
    /// A thread picked an event that no machine has.
    BadEvent,
    /// No machine is of this size. A script can't name one.
    Configuration,
    OutOfMemory,
}

impl Fault<'_> {
    /// The program's exit status: 1 for files, streams, threads and what files hold, 2 for a
    /// configuration that no machine has, for a word that is no address and for words of memory that are to be
    /// shown where none can, 4 for want of memory.
    pub fn status(&self) -> u8
        ensures { result ≡ status_of self.now }
    {
        match self {
            Fault::CannotRead { .. }
            | Fault::CannotMake { .. }
            | Fault::CannotWrite
            | Fault::Image { .. }
            | Fault::Text { .. }
            | Fault::Event { .. }
            | Fault::NothingHappens { .. }
            | Fault::BytesAfterTrace { .. }
            | Fault::Check { .. }
            | Fault::OtherImage { .. }
            | Fault::TooManyRows { .. }
            | Fault::NoThread
            | Fault::Mismatch
            | Fault::BadEvent => 1,
            Fault::CannotShow { cause, .. } => match cause {
                Unshown::NoSymbol | Unshown::NoWord => 1,
                Unshown::Elsewhere => 2,
            },
            Fault::BadAddress { .. } => 2,
            Fault::Configuration => 2,
            Fault::OutOfMemory => 4,
        }
    }
}

impl<'a> Fault<'a> {
    /// A file could not be opened or read.
    pub fn reading(file: &'a str, error: io::Error) -> Fault<'a>
        ensures told { (result ≡ Fault.CannotRead file.entry) ⊎ (result ≡ Fault.OutOfMemory) }
        ensures memory { (result ≡ Fault.OutOfMemory) ↔ (error_kind error ≡ ErrorKind.OutOfMemory) }
    {
        match error.kind() {
            ErrorKind::OutOfMemory => Fault::OutOfMemory,
            _ => Fault::CannotRead { file },
        }
    }

    /// A file could not be made or written.
    pub fn making(file: &'a str, error: io::Error) -> Fault<'a>
        ensures told { (result ≡ Fault.CannotMake file.entry) ⊎ (result ≡ Fault.OutOfMemory) }
        ensures memory { (result ≡ Fault.OutOfMemory) ↔ (error_kind error ≡ ErrorKind.OutOfMemory) }
    {
        match error.kind() {
            ErrorKind::OutOfMemory => Fault::OutOfMemory,
            _ => Fault::CannotMake { file },
        }
    }

    /// Standard output took no more.
    pub fn writing(error: io::Error) -> Fault<'a>
        ensures told { (result ≡ Fault.CannotWrite) ⊎ (result ≡ Fault.OutOfMemory) }
        ensures memory { (result ≡ Fault.OutOfMemory) ↔ (error_kind error ≡ ErrorKind.OutOfMemory) }
    {
        match error.kind() {
            ErrorKind::OutOfMemory => Fault::OutOfMemory,
            _ => Fault::CannotWrite,
        }
    }

    /// The file is no text of its kind. Want of memory tells no file.
    pub fn text(file: &'a str, error: TextError) -> Fault<'a>
        ensures told { (result ≡ Fault.Text file.entry error) ⊎ (result ≡ Fault.OutOfMemory) }
        ensures memory { (result ≡ Fault.OutOfMemory) ↔ (error.code ≡ TextCode.NoMemory) }
    {
        match error.code {
            TextCode::NoMemory => Fault::OutOfMemory,
            _ => Fault::Text { file, error },
        }
    }

    /// The file is no image. Want of memory tells no file.
    pub fn image(file: &'a str, error: LoadError) -> Fault<'a>
        ensures told { (result ≡ Fault.Image file.entry error) ⊎ (result ≡ Fault.OutOfMemory) }
        ensures memory { (result ≡ Fault.OutOfMemory) ↔ (error ≡ LoadError.NoMemory) }
    {
        match error {
            LoadError::NoMemory => Fault::OutOfMemory,
            _ => Fault::Image { file, error },
        }
    }

    /// The file's trace isn't judged. Want of memory tells no file.
    pub fn check(file: &'a str, error: CheckError) -> Fault<'a>
        ensures told { (result ≡ Fault.Check file.entry error) ⊎ (result ≡ Fault.OutOfMemory) }
        ensures memory { (result ≡ Fault.OutOfMemory) ↔ (error ≡ CheckError.NoMemory) }
    {
        match error {
            CheckError::NoMemory => Fault::OutOfMemory,
            _ => Fault::Check { file, error },
        }
    }

    /// The script's first event stands on line 2.
    pub fn replay(script: &'a str, error: ReplayError) -> Fault<'a>
        ensures told { (result ≡ Fault.OutOfMemory) ⊎ ((index : ℕ) × (refusal : _)
            × (error ≡ ReplayError.Event index refusal) × (result ≡ Fault.Event script.entry (script_line_of index) refusal)) }
        ensures memory { (result ≡ Fault.OutOfMemory) ↔ IsOutOfMemory error }
    {
        match error {
            ReplayError::NoMemory | ReplayError::Event(_, ApplyError::NoMemory) => {
                Fault::OutOfMemory
            }
            ReplayError::Event(index, error) => Fault::Event {
                file: script,
                line: index.saturating_add(2),
                error,
            },
        }
    }
}

impl<'a> Fault<'a> {
    /// Why a stream is not whole. The script's first event stands on line 2.
    pub fn explaining(script: &'a str, error: StreamError) -> Fault<'a>
        ensures { IsStreamFault script.entry error result }
    {
        match error {
            StreamError::NoMemory | StreamError::Refused(_, ApplyError::NoMemory) => {
                Fault::OutOfMemory
            }
            StreamError::Refused(index, error) => Fault::Event {
                file: script,
                line: index.saturating_add(2),
                error,
            },
            StreamError::Idle(index, outcome) => Fault::NothingHappens {
                file: script,
                line: index.saturating_add(2),
                outcome,
            },
            StreamError::Writing(error) => Fault::writing(error),
        }
    }
}

impl From<AllocError> for Fault<'_> {
    ghost from_gives = { λ _ fault. fault ≡ OutOfMemory };

    fn from(_error: AllocError) -> Self {
        Fault::OutOfMemory
    }
}
