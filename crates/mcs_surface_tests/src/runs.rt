//! Runs over devices in memory, which may break.

use mcs_base::{Memory, Text};
use mcs_ports::{Gate, IdleGate, MemoryShelf, MemorySink};
use mcs_top::{Trail, run};
use std::alloc::Global;
use std::sync::Wait;
use std::thread::Threads;

/// The words that ask for the equilibria of the file `f`.
pub const JOB: &str = "equilibria f";

/// A system that has two equilibria.
pub const SELF_SUPPORT: &str = "context c1 classical {} bridge r1: c1:a if c1:a.";

pub const SELF_SUPPORT_LISTING: &str =
    "mcs 1: 1 contexts, 1 rules, 1 variables\nequilibrium 1: {c1:a} applicable {r1}\nequilibrium 2: {} applicable {}\nconsistent\nend: 2 equilibria, need 2\n";

/// A system that has none.
pub const SELF_ATTACK: &str = "context c1 classical {} bridge r1: c1:a if not c1:a.";

/// A rule against its own context.
pub const SELF_DENIAL: &str = "context c1 program {}\nbridge r1: c1:a if not c1:a.\n";

/// The most bytes that are written.
const ROOM: usize = 32_768;

/// Which call of the shelf and which write of the sink fail, counted from 1, and how many bytes a
/// write takes.
#[derive(Clone, Copy)]
pub struct Devices {
    pub failing_call: u64,
    pub failing_write: u64,
    pub most: usize,
}

/// Devices that fail nowhere.
pub static SOUND: Devices = Devices {
    failing_call: 0,
    failing_write: 0,
    most: ROOM,
};

/// The bytes of the file `f`, which has the text of a system, and of the file `r`, a report.
pub type Files<'a> = (&'a [u8], &'a [u8]);

/// How a run ends: the status, what is written, and what is noted.
pub type End<'a> = (u8, &'a [u8], &'a str);

// Words, files and what is told are put together without a test for memory: a run that lacks a part
// of them ends otherwise than it should.

/// The words of the line, between two of which stands one space. An empty line has none.
pub fn words_of(alloc: Global, line: &str) -> Vec<String> {
    let mut words = Vec::new(alloc);
    if line.is_empty() {
        return words;
    }
    for word in line.split(' ') {
        let _pushed = words.push(String::from_str(alloc, word).unwrap_or(String::new(alloc)));
    }
    words
}

/// A file of this name.
fn file_of(alloc: Global, name: &str, bytes: &[u8]) -> (String, Vec<u8>) {
    (
        String::from_str(alloc, name).unwrap_or(String::new(alloc)),
        Vec::from_slice(alloc, bytes).unwrap_or(Vec::new(alloc)),
    )
}

/// A shelf with these files, on which one call fails.
pub fn shelf_of(alloc: Global, (text, report): Files<'_>, devices: &Devices) -> MemoryShelf {
    let mut files = Vec::new(alloc);
    let mut fails = Vec::new(alloc);
    let _text = files.push(file_of(alloc, "f", text));
    let _report = files.push(file_of(alloc, "r", report));
    let _call = fails.push(devices.failing_call);
    MemoryShelf::new(files, fails)
}

/// A sink with room for each listing.
pub fn sink_of(alloc: Global, devices: &Devices) -> Result<MemorySink, Memory> {
    let fails = vec![in alloc; devices.failing_write]?;
    MemorySink::new(alloc, fails, devices.most.max(1), ROOM)
}

/// What the words give over these files and devices, with a gate before each question: the status
/// by its number, and the trail.
pub fn run_with<G: Gate + Sync, R: Threads + Wait + Sync>(
    rt: &R,
    alloc: Global,
    words: &str,
    files: Files<'_>,
    devices: &Devices,
    sink: &mut MemorySink,
    gate: &G,
) -> (u8, Trail) {
    let words = words_of(alloc, words);
    let mut shelf = shelf_of(alloc, files, devices);
    let (status, trail) = run(rt, alloc, &words, &mut shelf, sink, gate);
    drop(words);
    drop(shelf);
    (status.number(), trail)
}

/// What the words give over these files and devices, with a gate before each question: the status
/// by its number.
pub fn status_with<G: Gate + Sync, R: Threads + Wait + Sync>(
    rt: &R,
    alloc: Global,
    words: &str,
    files: Files<'_>,
    devices: &Devices,
    sink: &mut MemorySink,
    gate: &G,
) -> u8 {
    let (status, trail) = run_with(rt, alloc, words, files, devices, sink, gate);
    drop(trail);
    status
}

/// Whether this is what was written and noted.
pub fn has_taken(sink: &MemorySink, written: &[u8], noted: &str) -> bool {
    (sink.written(), sink.noted()) == (written, noted.as_bytes())
}

/// Whether the words end so over these files and devices, with a gate before each question.
pub fn ends_with<G: Gate + Sync, R: Threads + Wait + Sync>(
    rt: &R,
    alloc: Global,
    words: &str,
    files: Files<'_>,
    devices: &Devices,
    gate: &G,
    (status, written, noted): End<'_>,
) -> bool {
    let Ok(mut sink) = sink_of(alloc, devices) else {
        return false;
    };
    let ended = status_with(rt, alloc, words, files, devices, &mut sink, gate);
    let is_right = (ended == status) & has_taken(&sink, written, noted);
    drop(sink);
    is_right
}

/// Whether the words end so over these files.
pub fn ends<R: Threads + Wait + Sync>(
    rt: &R,
    alloc: Global,
    words: &str,
    files: Files<'_>,
    end: End<'_>,
) -> bool {
    ends_with(rt, alloc, words, files, &SOUND, &IdleGate, end)
}

/// Tells how the words end over these files: the status, and after a space what is written and
/// noted.
pub fn tell<R: Threads + Wait + Sync>(
    rt: &R,
    alloc: Global,
    words: &str,
    files: Files<'_>,
    told: &mut Text,
) {
    let Ok(mut sink) = sink_of(alloc, &SOUND) else {
        return;
    };
    let status = status_with(rt, alloc, words, files, &SOUND, &mut sink, &IdleGate);
    let _status = told.push_number(status as u64);
    let _space = told.push(b" ");
    let _written = told.push(sink.written());
    let _noted = told.push(sink.noted());
    drop(sink);
}
