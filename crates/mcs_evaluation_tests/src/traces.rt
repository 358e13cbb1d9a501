//! Traces, by their lines.

use mcs_proof_lines::{Lines, take_trace};
use mcs_trace::Trace;
use std::alloc::Global;
use std::test::Fail;

/// The trace that the lines spell.
pub(crate) fn trace_of(alloc: Global, lines: &str) -> Result<Trace, Fail> {
    let mut lines = Lines::new(lines.as_bytes());
    Ok(take_trace(alloc, &mut lines)?)
}
