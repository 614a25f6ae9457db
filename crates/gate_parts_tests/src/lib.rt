//! Tests of the machine's parts and of the board by which threads meet, of what instructions are and do, of programs' files
//! and their names, of harts that run by themselves and of what a trace keeps of them, apart from all that, so that none of
//! it is proved a second time for its tests.
#![tactic(auto)]

#[cfg(test)]
mod buffer;
#[cfg(test)]
mod cache;
#[cfg(test)]
mod channels;
#[cfg(test)]
mod combining;
#[cfg(test)]
mod decoding;
#[cfg(test)]
mod drawing;
#[cfg(test)]
mod executing;
#[cfg(test)]
mod loading;
#[cfg(test)]
mod memory;
#[cfg(test)]
mod messages;
#[cfg(test)]
mod names;
#[cfg(test)]
mod notes;
#[cfg(test)]
mod recording;
#[cfg(test)]
mod reserving;
#[cfg(test)]
mod running;
#[cfg(test)]
mod same;
