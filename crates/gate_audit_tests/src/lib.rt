//! Tests of audits of orderings, apart from the crate that makes them, so that it isn't proved a second time for its
//! tests.
#![tactic(auto)]

#[cfg(test)]
mod audits;
