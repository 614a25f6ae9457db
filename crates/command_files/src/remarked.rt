//! Files with the remark that was made on one of them.

ghost use Rattle.std.specs.Prelude.{◌≡◌, ◌≢◌, ℕ, IfOk, List, OnOk};
ghost use Rattle.command_files.specs.Contents.{IsUnread, HoldsBytes};

use crate::fault::Fault;
use crate::files::Files;
use command_settings::MachineOptions;
use event_stream::coherent_machine::ApplyError;
use notes::{EventNote, OutsideNote, SizeNote};
use std::alloc::Global;
use std::fmt::Display;
use std::io;
use trace_text::Script;

/// Files, and the last remark that was made on one of them.
#[derive(Drop)]
pub struct Remarked<F: Files + Drop> {
    files: F,
    remark: Option<String>,
}

impl<F: Files + Drop> Remarked<F> {
    /// These files, on which no remark was made yet.
    pub fn new(files: F) -> Remarked<F> {
        Remarked {
            files,
            remark: None,
        }
    }

    /// The last remark.
    pub fn last(&self) -> Option<&str> {
        match &self.remark {
            Some(remark) => Some(remark.as_str()),
            None => None,
        }
    }
}

impl<F: Files + Drop> Files for Remarked<F> {
    type Reader = F::Reader;

    ghost held = { λ r. F.held r.files };

    ghost are_one = { F.are_one };

    fn open(&mut self, name: &str) -> io::Result<F::Reader> {
        self.files.open(name)
    }

    fn are_same(&mut self, one: &str, other: &str) -> bool {
        self.files.are_same(one, other)
    }

    fn is_output(&mut self, name: &str) -> bool {
        self.files.is_output(name)
    }

    fn write(&mut self, name: &str, bytes: &[u8]) -> io::Result<()> {
        self.files.write(name, bytes)
    }

    fn check_writable(&mut self, name: &str) -> io::Result<()> {
        self.files.check_writable(name)
    }

    fn remark(&mut self, remark: String) {
        self.remark = Some(remark);
    }
}

/// Remarks what is wrong with the event of a script that was refused, where no machine of the script has it.
pub fn remark_refused<F: Files>(alloc: Global, files: &mut F, script: &Script, fault: &Fault<'_>)
    ensures { F.held files.new ≡ F.held files.old }
{
    let Fault::Event {
        line,
        error: ApplyError::BadEvent,
        ..
    } = fault
    else {
        return;
    };
    // The first event stands on line 2.
    let index = line.saturating_sub(2);
    if let Some(event) = script.events.as_slice().get(index) {
        let event = *event;
        remark(alloc, files, EventNote { event, script });
    }
}

/// Remarks that no line of memory is at the address, where a machine of the script has none there.
pub fn remark_outside<F: Files>(alloc: Global, files: &mut F, address: Option<u32>, script: &Script)
    ensures { F.held files.new ≡ F.held files.old }
{
    let Some(address) = address else {
        return;
    };
    if let Some(outside) = OutsideNote::of(address, script) {
        remark(alloc, files, outside);
    }
}

/// No machine is of this size, and which number of it is out of limits is remarked.
pub fn out_of_limits<'a, F: Files>(
    alloc: Global,
    files: &mut F,
    machine: MachineOptions,
) -> Fault<'a>
    ensures told { result ≡ Fault.Configuration }
    ensures stays { F.held files.new ≡ F.held files.old }
{
    let MachineOptions {
        harts,
        memory,
        sets,
        ways,
        line,
        model: _,
    } = machine;
    remark(
        alloc,
        files,
        SizeNote {
            harts,
            memory,
            sets,
            ways,
            line,
        },
    );
    Fault::Configuration
}

/// Hands a remark on, where there is memory for its text.
pub fn remark<F: Files, D: Display + Drop>(alloc: Global, files: &mut F, remark: D)
    ensures { F.held files.new ≡ F.held files.old }
{
    if let Ok(text) = format!(in alloc; "{remark}") {
        files.remark(text);
    }
}
