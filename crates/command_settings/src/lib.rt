//! What the words of `rvtl`'s command line ask for: its usage, and how the words are read.
#![tactic(auto)]

mod commands;
mod help;
mod usage;
mod wanted;

pub use usage::settings;
pub use wanted::{
    Audit, Breaches, Chart, Check, Explain, Explore, Fences, MachineOptions, OtherOpcodes, Replay,
    Run, Settings, SettingsError, Show, Subject,
};
