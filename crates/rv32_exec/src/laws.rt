//! Laws of the instruction meaning, each the contract of a function that does nothing.
ghost use Rattle.rv32_exec.specs.Laws.{AddressIsReadAsNamed, DataIsReadAsNamed, MeaningIsReadAsNamed, OnlyNamedIsWritten, StopIsDecidedFirst};

/// An instruction reads only the registers that it is said to read: its address, its data and its whole
/// meaning are the same wherever these are.
pub fn reads_are_as_named()
    ensures address { AddressIsReadAsNamed }
    ensures data { DataIsReadAsNamed }
    ensures meaning { MeaningIsReadAsNamed }
{}

/// An instruction writes only the register that it is said to write.
pub fn writes_are_as_named()
    ensures { OnlyNamedIsWritten }
{}

/// Whether an instruction stops its hart, and why, is decided before anything is read.
pub fn stops_are_decided_first()
    ensures { StopIsDecidedFirst }
{}
