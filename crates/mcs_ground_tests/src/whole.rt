//! Whole reads and whole writes, over devices in memory.

use crate::pattern::pattern;
use mcs_base::Memory;
use mcs_ports::{MemoryShelf, MemorySink, ReadAnswer, Shelf, read_whole, write_whole};
use std::alloc::Global;

/// Whether the file of this name is read whole at this limit, and holds these bytes.
pub fn is_read<H: Shelf>(
    shelf: &mut H,
    alloc: Global,
    name: &str,
    limit: usize,
    want: &[u8],
) -> bool {
    match read_whole(alloc, shelf, name, limit) {
        Ok(bytes) => bytes.as_slice() == want,
        Err(_) => false,
    }
}

/// Whether the file of this name is not read at this limit, for this reason.
pub fn is_unread<H: Shelf>(
    shelf: &mut H,
    alloc: Global,
    name: &str,
    limit: usize,
    want: ReadAnswer,
) -> bool {
    match read_whole(alloc, shelf, name, limit) {
        Ok(_) => false,
        Err(answer) => answer == want,
    }
}

/// A shelf with one file `f` of this size, on which one call fails.
fn shelf_of(alloc: Global, size: usize, failing: u64) -> Result<MemoryShelf, Memory> {
    let mut files = Vec::new(alloc);
    files.push((String::from_str(alloc, "f")?, pattern(alloc, size)?))?;
    Ok(MemoryShelf::new(files, [failing].to_vec(alloc)?))
}

/// Whether a file of this size is read whole at this limit.
fn fits(alloc: Global, size: usize, limit: usize) -> Result<bool, Memory> {
    let bytes = pattern(alloc, size)?;
    let mut shelf = shelf_of(alloc, size, 0)?;
    Ok(is_read(&mut shelf, alloc, "f", limit, &bytes))
}

/// Whether a file with one byte more than the limit is too long.
fn is_too_long(alloc: Global, limit: usize) -> Result<bool, Memory> {
    let mut shelf = shelf_of(alloc, limit.saturating_add(1), 0)?;
    Ok(is_unread(&mut shelf, alloc, "f", limit, ReadAnswer::TooLong))
}

#[test]
fn whole_files_are_read_up_to_the_limit(rt: HostRuntime) {
    for (size, limit) in [
        (0, 0),
        (1, 1),
        (4095, 9000),
        (4096, 4096),
        (4097, 9000),
        (8192, 8192),
        (9000, 9000),
    ] {
        assert!(rt; fits(rt.alloc(), size, limit) == Ok(true));
    }
    for limit in [0, 1, 4095, 4096, 8192] {
        assert!(rt; is_too_long(rt.alloc(), limit) == Ok(true));
    }
}

/// Whether a file of 5000 bytes is not read where the call of this number fails.
fn is_faulty(alloc: Global, failing: u64) -> Result<bool, Memory> {
    let mut shelf = shelf_of(alloc, 5000, failing)?;
    Ok(is_unread(&mut shelf, alloc, "f", 5000, ReadAnswer::Fault))
}

/// Whether nothing is open where the open of a file fails.
fn is_closed(alloc: Global) -> Result<bool, Memory> {
    let mut shelf = shelf_of(alloc, 5000, 1)?;
    Ok(shelf.open("f").is_err() && shelf.read(&mut [0; 8]) == Ok(0))
}

/// Whether a file of 5000 bytes is read where no call but the fifth fails, and then one that is not
/// there is not.
fn is_read_in_four_calls(alloc: Global) -> Result<bool, Memory> {
    let bytes = pattern(alloc, 5000)?;
    let mut shelf = shelf_of(alloc, 5000, 5)?;
    Ok(
        is_read(&mut shelf, alloc, "f", 5000, &bytes)
            && is_unread(&mut shelf, alloc, "g", 5000, ReadAnswer::Fault),
    )
}

#[test]
fn a_failed_call_is_a_read_fault(rt: HostRuntime) {
    // The open, then reads of 4096, 904 and no bytes.
    for failing in 1..5 {
        assert!(rt; is_faulty(rt.alloc(), failing) == Ok(true));
    }
    let told = [is_closed(rt.alloc()), is_read_in_four_calls(rt.alloc())];
    assert!(rt; told == [Ok(true), Ok(true)]);
}

/// A sink that takes one byte in a write, and on which one write fails.
fn sink_of(alloc: Global, room: usize, failing: u64) -> Result<MemorySink, Memory> {
    MemorySink::new(alloc, [failing].to_vec(alloc)?, 1, room)
}

/// Whether a piece is not written whole in this room where this write fails, and this stands there
/// then.
fn fails_after(alloc: Global, room: usize, failing: u64, written: &str) -> Result<bool, Memory> {
    let mut sink = sink_of(alloc, room, failing)?;
    let failed = write_whole(&mut sink, b"abc").is_err();
    Ok(failed && sink.written() == written.as_bytes())
}

/// Whether a piece and then an empty one are written whole in the room of the piece, the fourth
/// write failing.
fn is_written(alloc: Global) -> Result<bool, Memory> {
    let mut sink = sink_of(alloc, 3, 4)?;
    let is_whole = write_whole(&mut sink, b"abc").is_ok();
    let is_empty = write_whole(&mut sink, b"").is_ok();
    Ok(is_whole && is_empty && sink.written() == b"abc".as_slice())
}

#[test]
fn a_piece_is_written_whole_or_to_a_failure(rt: HostRuntime) {
    for (failing, room, want) in [
        (1, 9, ""),
        (2, 9, "a"),
        (3, 9, "ab"),
        (0, 0, ""),
        (0, 2, "ab"),
    ] {
        assert!(rt; fails_after(rt.alloc(), room, failing, want) == Ok(true));
    }
    assert!(rt; is_written(rt.alloc()) == Ok(true));
}
