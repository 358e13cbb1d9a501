//! Files of the system.

use crate::pattern::pattern;
use crate::whole::{is_read, is_unread};
use mcs_base::Memory;
use mcs_ports::{FileShelf, ReadAnswer, Shelf};
use std::alloc::Global;
use std::fs;

/// Whether the shelf has a file `pattern` of these 5000 bytes and no file `missing`, and a
/// directory is no file.
fn are_files<H: Shelf>(shelf: &mut H, alloc: Global, bytes: &[u8]) -> bool {
    shelf.read(&mut [0; 8]) == Ok(0)
        && is_read(shelf, alloc, "pattern", 5000, bytes)
        && is_unread(shelf, alloc, "pattern", 4999, ReadAnswer::TooLong)
        && is_unread(shelf, alloc, "missing", 9, ReadAnswer::Fault)
        && is_unread(shelf, alloc, ".", 9, ReadAnswer::Fault)
}

#[test]
fn files_of_the_system_are_read(rt: HostRuntime) -> Result<(), Memory> {
    let bytes = pattern(rt.alloc(), 5000)?;
    let is_written = fs::write(&rt, "pattern", bytes.as_slice()).is_ok();
    let are_files = are_files(&mut FileShelf::new(&rt), rt.alloc(), &bytes);
    let is_removed = fs::remove_file(&rt, "pattern").is_ok();
    assert!(rt; is_written && are_files && is_removed);
    Ok(())
}
