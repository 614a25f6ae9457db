//! Tests of schedules, of searches over states, and of what small programs come to on the flat machine, apart from them, so
//! that none of them is proved a second time for its tests.
#![tactic(auto)]

#[cfg(test)]
mod draining;
#[cfg(test)]
mod exploring;
#[cfg(test)]
mod programs;
#[cfg(test)]
mod realising;
#[cfg(test)]
mod same;
#[cfg(test)]
mod searching;
#[cfg(test)]
mod shortening;
