//! Standard output and standard error.

use mcs_ports::{Failed, Gate, IdleGate, Sink, StdSink, write_whole};
use std::io::Cursor;

#[test]
fn standard_output_takes_a_piece(rt: HostRuntime) {
    let mut sink = StdSink::new(rt.stdout(), rt.stderr());
    assert!(rt; write_whole(&mut sink, b"a line\n").is_ok());
    sink.note(b"a note\n");
    IdleGate.before(3);
}

/// Whether, of devices over these, the output takes four bytes and then nothing more, which is
/// counted as a fault; a note goes to the other.
fn are_full_at_four(space: &mut [u8], line: &mut [u8]) -> bool {
    let mut full = StdSink::new(Cursor::new(space), Cursor::new(line));
    let taken = [full.write(b"abcdef"), full.write(b"ef"), full.write(b"")];
    let faults = full.faults();
    full.note(b"note, and more");
    taken == [Ok(4), Err(Failed), Ok(0)] && faults == 1
}

#[test]
fn full_devices_take_nothing(rt: HostRuntime) {
    let (mut space, mut line) = ([0; 4], [0; 4]);
    assert!(rt; are_full_at_four(&mut space, &mut line));
    assert!(rt; &space == b"abcd" && &line == b"note");
}
