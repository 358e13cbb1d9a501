//! Runs in which several threads ask the same context at once.

use crate::runs::{Files, SOUND, ends_with};
use crate::workers::are_same;
use mcs_ports::Gate;
use std::alloc::Global;
use std::sync::Wait;
use std::sync::atomic::{AtomicBool, AtomicU64, Ordering};
use std::thread::Threads;

/// A gate that keeps each caller for a question to the second context, until it sees two of them
/// inside.
#[derive(Drop)]
struct Crowd {
    inside: AtomicU64,
    seen: AtomicBool,
    /// For how many turns it keeps one at most.
    turns: u64,
}

impl Gate for Crowd {
    fn before(&self, context: u32) {
        if context != 1 {
            return;
        }
        self.inside.fetch_add(1, Ordering::SeqCst);
        for _ in 0..self.turns {
            if self.inside.load(Ordering::SeqCst) > 1 {
                self.seen.store(true, Ordering::SeqCst);
            }
            if self.seen.load(Ordering::SeqCst) {
                break;
            }
        }
        self.inside.fetch_sub(1, Ordering::SeqCst);
    }
}

/// Eight rules into the second context, of which the first is against it. It has a question for
/// each set of them: one of level 0, 8 more of level 1, 28 of level 2, 56 of level 3, 70 of level
/// 4, and so on.
const EIGHT: &str = "context c1 program { a. } context c2 program { :- p1. }
bridge r1: c2:p1 if c1:a. bridge r2: c2:p2 if c1:a. bridge r3: c2:p3 if c1:a. bridge r4: c2:p4 if c1:a.
bridge r5: c2:p5 if c1:a. bridge r6: c2:p6 if c1:a. bridge r7: c2:p7 if c1:a. bridge r8: c2:p8 if c1:a.";

const EIGHT_LISTING: &str =
    "mcs 1: 2 contexts, 8 rules, 1 variables\ninconsistent\ndiagnosis 1: {-r1} state {c1:a} active {r2, r3, r4, r5, r6, r7, r8}\nexplanation 1: {-r1 by 1}\nend: 0 equilibria, 1 diagnoses, 1 explanations, need 257\n";

/// Whether two have asked the second context at once; `None` if the listing is another.
fn is_crowded<R: Threads + Wait + Sync>(
    rt: &R,
    alloc: Global,
    words: &str,
    turns: u64,
) -> Option<bool> {
    let gate = Crowd {
        inside: AtomicU64::new(0),
        seen: AtomicBool::new(false),
        turns,
    };
    let files: Files<'_> = (EIGHT.as_bytes(), b"");
    let end = (0, EIGHT_LISTING.as_bytes(), "");
    let is_listed = ends_with(rt, alloc, words, files, &SOUND, &gate, end);
    is_listed.then_some(gate.seen.load(Ordering::SeqCst))
}

#[test]
fn a_worker_that_waits_helps_to_ask(rt: HostRuntime) {
    assert!(rt; is_crowded(&rt, rt.alloc(), "solve f --workers 2", 1_000_000) == Some(true));
}

#[test]
fn one_worker_asks_alone(rt: HostRuntime) {
    assert!(rt; is_crowded(&rt, rt.alloc(), "solve f --workers 1", 1000) == Some(false));
}

#[test]
fn questions_in_parts_have_the_same_answers(rt: HostRuntime) {
    let end = (0, EIGHT_LISTING.as_bytes(), "");
    assert!(rt; are_same(&rt, rt.alloc(), "solve f", EIGHT, end));
}
