//! Runs of the whole program, from the words that a system gives.

use crate::runs::{
    End, SELF_SUPPORT, SELF_SUPPORT_LISTING, SOUND, has_taken, shelf_of, sink_of, words_of,
};
use mcs_ports::{IdleGate, MemorySink};
use mcs_top::run_program;
use std::alloc::Global;
use std::sync::Wait;
use std::thread::Threads;
use std::{env, io};

/// What the system gives: the words of a line, or an error in their place.
enum Given {
    Line(&'static str),
    Error(io::ErrorKind),
}

impl Given {
    /// It, as the program takes it.
    fn words(&self, alloc: Global) -> io::Result<env::Args> {
        match self {
            Given::Line(line) => Ok(words_of(alloc, line).into_iter()),
            Given::Error(kind) => Err(io::Error::from(*kind)),
        }
    }
}

/// The number with which the program ends on this, over a file `f`.
fn number_of<R: Threads + Wait + Sync>(
    rt: &R,
    alloc: Global,
    given: &Given,
    sink: &mut MemorySink,
) -> u8 {
    let mut shelf = shelf_of(alloc, (SELF_SUPPORT.as_bytes(), b""), &SOUND);
    let words = given.words(alloc);
    let number = run_program(rt, alloc, words, &mut shelf, sink, &IdleGate);
    drop(shelf);
    number
}

/// Whether the program ends so on this, over a file `f`.
fn is_run<R: Threads + Wait + Sync>(
    rt: &R,
    alloc: Global,
    given: &Given,
    (number, written, noted): End<'_>,
) -> bool {
    let Ok(mut sink) = sink_of(alloc, &SOUND) else {
        return false;
    };
    let ended = number_of(rt, alloc, given, &mut sink);
    let is_right = (ended == number) & has_taken(&sink, written, noted);
    drop(sink);
    is_right
}

/// What the system gives, and how the program ends: its number, what is written and what is noted.
type Row = (Given, u8, &'static str, &'static str);

/// Whether the program ends so in each row.
fn are_run<R: Threads + Wait + Sync>(rt: &R, alloc: Global, rows: &[Row]) -> bool {
    let mut are_right = true;
    for (given, number, written, noted) in rows {
        let end = (*number, written.as_bytes(), *noted);
        are_right = are_right && is_run(rt, alloc, given, end);
    }
    are_right
}

const USAGE: &str = "mcs: usage: mcs JOB FILE [REPORT] [--budget N] [--workers N] [--proof]\n";

static LINES: [Row; 5] = [
    (Given::Line("mcs equilibria f"), 0, SELF_SUPPORT_LISTING, ""),
    (Given::Line(""), 2, "", USAGE),
    (Given::Line("mcs"), 2, "", USAGE),
    (Given::Line("equilibria f"), 2, "", USAGE),
    (Given::Line("mcs mcs equilibria f"), 2, "", USAGE),
];

#[test]
fn the_name_of_the_program_is_left_out(rt: HostRuntime) {
    assert!(rt; are_run(&rt, rt.alloc(), &LINES));
}

static ERRORS: [Row; 2] = [
    (Given::Error(io::ErrorKind::InvalidData), 2, "", USAGE),
    (
        Given::Error(io::ErrorKind::OutOfMemory),
        7,
        "",
        "mcs: out of memory\n",
    ),
];

#[test]
fn words_that_do_not_come_are_no_job(rt: HostRuntime) {
    assert!(rt; are_run(&rt, rt.alloc(), &ERRORS));
}
