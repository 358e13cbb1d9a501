//! Notes of a sink in memory.

use crate::pattern::pattern;
use mcs_base::Memory;
use mcs_ports::{MemorySink, Sink};
use std::alloc::Global;

/// Whether the first of these 300 bytes are kept, where 200 of them are noted, and then the rest
/// twice.
fn are_kept(alloc: Global, notes: &[u8]) -> Result<bool, Memory> {
    if notes.len() != 300 {
        return Ok(false);
    }
    let (front, back) = notes.split_at(200);
    let mut sink = MemorySink::new(alloc, Vec::new(alloc), 1, 0)?;
    sink.note(front);
    let is_front = sink.noted() == front;
    sink.note(back);
    sink.note(back);
    Ok(is_front && sink.noted() == notes.split_at(256).0 && sink.written().is_empty())
}

#[test]
fn the_first_256_bytes_of_notes_are_kept(rt: HostRuntime) -> Result<(), Memory> {
    let notes = pattern(rt.alloc(), 300)?;
    assert!(rt; are_kept(rt.alloc(), &notes) == Ok(true));
    Ok(())
}
