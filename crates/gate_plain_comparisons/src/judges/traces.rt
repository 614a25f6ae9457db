//! Kept traces that stand in a file one behind another.

use anyhow::{Result, bail};
use std::alloc::Global;
use trace_recorder::Trace;
use trace_text::read_trace;

/// What of a file isn't read yet.
#[derive(Clone, Copy)]
pub struct Traces<'a> {
    pub rest: &'a [u8],
}

impl Traces<'_> {
    pub fn next(&mut self, alloc: Global) -> Result<Trace> {
        let Ok((trace, length)) = read_trace(alloc, self.rest) else {
            bail!("a trace can't be read");
        };
        self.rest = self.rest.get(length..).unwrap_or(&[]);
        Ok(trace)
    }
}
