//! Which memory model a machine keeps.

/// RVWMO (RISC-V Unprivileged ISA 20191213, chapter 14), or the stronger Ztso (chapter 23).
#[derive(Clone, Copy, Debug, PartialEq, Eq)]
pub enum MemoryModel {
    Rvwmo,
    Ztso,
}
