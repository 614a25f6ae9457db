//! Tests of the machine's batches, of its fabric under a lock and of the threads that run it, apart from them, so that
//! none of them is proved a second time for its tests.
#![tactic(auto)]

#[cfg(test)]
mod answers;
#[cfg(test)]
mod batches;
#[cfg(test)]
mod exchanging;
#[cfg(test)]
mod fabric;
#[cfg(test)]
mod images;
#[cfg(test)]
mod same;
#[cfg(test)]
mod threads;
