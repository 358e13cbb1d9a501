//! What a gate is told of the questions of a run.

use crate::runs::{Files, SOUND, sink_of, status_with};
use mcs_ports::Gate;
use std::alloc::Global;
use std::sync::Wait;
use std::sync::atomic::{AtomicU64, Ordering};
use std::thread::Threads;

/// A gate that counts the questions to the first context, to the second, and to any other.
#[derive(Drop)]
struct Counts {
    first: AtomicU64,
    second: AtomicU64,
    other: AtomicU64,
}

impl Counts {
    /// Whether these are the three counts.
    fn are(&self, (first, second, other): (u64, u64, u64)) -> bool {
        self.first.load(Ordering::SeqCst) == first
            && self.second.load(Ordering::SeqCst) == second
            && self.other.load(Ordering::SeqCst) == other
    }
}

impl Gate for Counts {
    fn before(&self, context: u32) {
        let count = match context {
            0 => &self.first,
            1 => &self.second,
            _ => &self.other,
        };
        count.fetch_add(1, Ordering::SeqCst);
    }
}

/// The first context has one question. The second has one of level 0, two more of level 1 and one
/// more of level 2.
pub(crate) const FORBIDDEN: &str = "context c1 program { a. } context c2 program { :- p. :- q. }
bridge r1: c2:p if c1:a. bridge r2: c2:q if not c1:b.";

/// Whether the words over the system end with this status, and these are the questions that the
/// gate was called before.
fn is_called<R: Threads + Wait + Sync>(
    rt: &R,
    alloc: Global,
    words: &str,
    status: u8,
    counted: (u64, u64, u64),
) -> bool {
    let Ok(mut sink) = sink_of(alloc, &SOUND) else {
        return false;
    };
    let gate = Counts {
        first: AtomicU64::new(0),
        second: AtomicU64::new(0),
        other: AtomicU64::new(0),
    };
    let files: Files<'_> = (FORBIDDEN.as_bytes(), b"");
    let ended = status_with(rt, alloc, words, files, &SOUND, &mut sink, &gate);
    drop(sink);
    ended == status && gate.are(counted)
}

/// Words, the status with which they end, and the questions. Where the budget does not suffice for
/// a context, nothing is asked of it at that level.
static CALLS: [(&str, u8, (u64, u64, u64)); 4] = [
    ("equilibria f", 0, (1, 1, 0)),
    ("solve f", 0, (1, 4, 0)),
    ("solve f --budget 1", 4, (1, 0, 0)),
    ("solve f --budget 4", 4, (1, 3, 0)),
];

#[test]
fn the_gate_is_called_once_before_each_question(rt: HostRuntime) {
    for (words, status, counted) in &CALLS {
        assert!(rt; is_called(&rt, rt.alloc(), words, *status, *counted));
    }
}
