//! Tests of the texts of instructions, traces, scripts and event streams, of the checker, of notes and of how far a command
//! is, apart from them, so that none of them is proved a second time for its tests.
#![tactic(auto)]

#[cfg(test)]
mod judging;
#[cfg(test)]
mod noted;
#[cfg(test)]
mod pieces;
#[cfg(test)]
mod progress;
#[cfg(test)]
mod same;
#[cfg(test)]
mod spelling;
#[cfg(test)]
mod states;
#[cfg(test)]
mod streams;
#[cfg(test)]
mod traces;
#[cfg(test)]
mod writers;
