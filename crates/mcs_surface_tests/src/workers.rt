//! Runs by several workers: what is printed, what their last round leaves to be seen, and that they
//! work at once.

use crate::budgets::{RUNS, TOLD};
use crate::gates::FORBIDDEN;
use crate::runs::{End, Files, JOB, SOUND, ends_with, run_with, sink_of, status_with};
use crate::tables::{Listed, Run};
use crate::{cheapest, equilibria, grounded, solutions};
use mcs_base::Memory;
use mcs_ports::{Gate, IdleGate};
use mcs_top::Trail;
use std::alloc::Global;
use std::sync::Wait;
use std::sync::atomic::{AtomicBool, AtomicU64, Ordering};
use std::thread::Threads;

/// A gate that goes round before each question, for a number of turns that a seed gives.
#[derive(Drop)]
struct Spins {
    seed: AtomicU64,
}

impl Gate for Spins {
    fn before(&self, _context: u32) {
        let drawn = self.seed.fetch_add(0x9e37_79b9_7f4a_7c15, Ordering::SeqCst) >> 56;
        for _ in 0..drawn {
            self.seed.load(Ordering::SeqCst);
        }
    }
}

/// Numbers of workers.
static WORKERS: [u32; 7] = [2, 3, 4, 5, 8, 63, 64];

/// Whether the words end so over this text, with so many workers.
fn is_same<R: Threads + Wait + Sync>(
    rt: &R,
    alloc: Global,
    words: &str,
    workers: u32,
    text: &str,
    end: End<'_>,
) -> Result<bool, Memory> {
    let words: String = format!(in alloc; "{words} --workers {workers}")?;
    let gate = Spins {
        seed: AtomicU64::new(workers as u64),
    };
    let files: Files<'_> = (text.as_bytes(), b"");
    let is_same = ends_with(rt, alloc, words.as_str(), files, &SOUND, &gate, end);
    drop(words);
    Ok(is_same)
}

/// Whether they end so with each number of workers.
pub(crate) fn are_same<R: Threads + Wait + Sync>(
    rt: &R,
    alloc: Global,
    words: &str,
    text: &str,
    end: End<'_>,
) -> bool {
    let mut are_same = true;
    for workers in &WORKERS {
        are_same = are_same && is_same(rt, alloc, words, *workers, text, end) == Ok(true);
    }
    are_same
}

/// Whether the words give each listing of its text with each number of workers.
fn all_same<R: Threads + Wait + Sync>(
    rt: &R,
    alloc: Global,
    words: &str,
    listings: &[Listed],
) -> bool {
    let mut are_right = true;
    for listed in listings {
        let end = (0, listed.listing.as_bytes(), "");
        are_right = are_right && are_same(rt, alloc, words, listed.text, end);
    }
    are_right
}

#[test]
fn listings_are_the_same_for_each_number_of_workers(rt: HostRuntime) {
    assert!(rt; all_same(&rt, rt.alloc(), JOB, &equilibria::LISTINGS));
}

#[test]
fn solutions_are_the_same_for_each_number_of_workers(rt: HostRuntime) {
    assert!(rt; all_same(&rt, rt.alloc(), "solve f", &solutions::LISTINGS));
}

/// Whether the run ends as it does with one worker.
fn is_run_same<R: Threads + Wait + Sync>(rt: &R, alloc: Global, run: &Run) -> bool {
    let end = (run.status, run.written.as_bytes(), run.noted);
    are_same(rt, alloc, run.words, run.text, end)
}

#[test]
fn budgets_are_the_same_for_each_number_of_workers(rt: HostRuntime) {
    for run in &RUNS {
        assert!(rt; is_run_same(&rt, rt.alloc(), run));
    }
}

#[test]
fn grounded_equilibria_are_the_same_for_each_number_of_workers(rt: HostRuntime) {
    for run in &grounded::RUNS {
        assert!(rt; is_run_same(&rt, rt.alloc(), run));
    }
}

#[test]
fn cheapest_diagnoses_are_the_same_for_each_number_of_workers(rt: HostRuntime) {
    for run in &cheapest::RUNS {
        assert!(rt; is_run_same(&rt, rt.alloc(), run));
    }
}

/// Whether the words, which read no file, end with each number of workers as they do with one.
fn are_words_same<R: Threads + Wait + Sync>(rt: &R, alloc: Global, words: &str) -> bool {
    let Ok(mut sink) = sink_of(alloc, &SOUND) else {
        return false;
    };
    let status = status_with(rt, alloc, words, (b"", b""), &SOUND, &mut sink, &IdleGate);
    let is_same = are_same(rt, alloc, words, "", (status, sink.written(), ""));
    drop(sink);
    is_same
}

/// Whether the counts of the generated system of this number are the same with each number of
/// workers as with one.
fn is_made_same<R: Threads + Wait + Sync>(
    rt: &R,
    alloc: Global,
    number: u64,
) -> Result<bool, Memory> {
    let words: String = format!(in alloc; "make {number}")?;
    let is_same = are_words_same(rt, alloc, words.as_str());
    drop(words);
    Ok(is_same)
}

#[test]
fn generated_systems_are_counted_the_same(rt: HostRuntime) {
    for number in 0..200 {
        assert!(rt; is_made_same(&rt, rt.alloc(), number) == Ok(true));
    }
}

/// Words over a text, and what the last round leaves to be seen: how many letters each inbox got,
/// and the total.
struct Traced {
    words: &'static str,
    text: &'static str,
    status: u8,
    got: &'static [u64],
    total: Option<u64>,
}

static TRACED: [Traced; 8] = [
    // The first context supplies the second, which has all the others of five questions.
    Traced {
        words: "solve f --workers 2",
        text: FORBIDDEN,
        status: 0,
        got: &[0, 1],
        total: Some(5),
    },
    // No more workers are used than there are contexts.
    Traced {
        words: "solve f --workers 64",
        text: FORBIDDEN,
        status: 0,
        got: &[0, 1],
        total: Some(5),
    },
    Traced {
        words: "solve f --workers 1",
        text: FORBIDDEN,
        status: 0,
        got: &[],
        total: None,
    },
    // Level 0 has one question to each context, level 1 one more to the second.
    Traced {
        words: "equilibria f --workers 2",
        text: TOLD,
        status: 0,
        got: &[0, 1],
        total: Some(2),
    },
    // The grounded equilibria ask for level 0 alone.
    Traced {
        words: "grounded f --workers 2",
        text: "context c1 program { a. }\ncontext c2 program {}\nbridge r1: c2:p if c1:a.\n",
        status: 0,
        got: &[0, 1],
        total: Some(2),
    },
    // The cheapest diagnosis has one mark, so the last level is 1.
    Traced {
        words: "cheapest f --workers 2",
        text: TOLD,
        status: 0,
        got: &[0, 1],
        total: Some(3),
    },
    Traced {
        words: "solve f --budget 3 --workers 2",
        text: TOLD,
        status: 0,
        got: &[0, 1],
        total: Some(3),
    },
    // One context uses one worker.
    Traced {
        words: "equilibria f --workers 2",
        text: "context c1 program { a. }",
        status: 0,
        got: &[],
        total: None,
    },
];

/// Whether each inbox got so many letters.
fn have_got(trail: &Trail, got: &[u64]) -> bool {
    for (wire, letters) in trail.wires.iter().zip(got) {
        if wire.got() != *letters {
            return false;
        }
    }
    trail.wires.len() == got.len()
}

/// The total of the word, if there is one.
fn total_of(trail: &Trail) -> Option<u64> {
    match &trail.word {
        Some(word) => Some(word.total()),
        None => None,
    }
}

/// What the words give over the text: the status by its number, and the trail.
fn trail_of<R: Threads + Wait + Sync>(
    rt: &R,
    alloc: Global,
    words: &str,
    text: &str,
) -> Result<(u8, Trail), Memory> {
    let mut sink = sink_of(alloc, &SOUND)?;
    let files: Files<'_> = (text.as_bytes(), b"");
    let given = run_with(rt, alloc, words, files, &SOUND, &mut sink, &IdleGate);
    drop(sink);
    Ok(given)
}

impl Traced {
    /// Whether this is to be seen.
    fn is_shown<R: Threads + Wait + Sync>(&self, rt: &R, alloc: Global) -> Result<bool, Memory> {
        let (status, trail) = trail_of(rt, alloc, self.words, self.text)?;
        let is_right = have_got(&trail, self.got) && total_of(&trail) == self.total;
        drop(trail);
        Ok(status == self.status && is_right)
    }
}

#[test]
fn the_last_round_is_shown(rt: HostRuntime) {
    for traced in &TRACED {
        assert!(rt; traced.is_shown(&rt, rt.alloc()) == Ok(true));
    }
}

/// Whether the total is shown that is above the budget: of level 1, which has one question more
/// than two.
fn is_spent_shown<R: Threads + Wait + Sync>(rt: &R, alloc: Global) -> Result<bool, Memory> {
    let (status, trail) = trail_of(rt, alloc, "solve f --budget 2 --workers 2", TOLD)?;
    let is_right = trail.wires.len() == 2 && total_of(&trail) == Some(3);
    drop(trail);
    Ok(status == 4 && is_right)
}

#[test]
fn a_spent_budget_is_shown(rt: HostRuntime) {
    assert!(rt; is_spent_shown(&rt, rt.alloc()) == Ok(true));
}

/// A gate that sets the flag of the context, and goes round until it sees that of the other one.
#[derive(Drop)]
struct Meeting {
    first: AtomicBool,
    second: AtomicBool,
    met: AtomicU64,
    /// For how many turns it goes round at most.
    turns: u64,
}

impl Gate for Meeting {
    fn before(&self, context: u32) {
        let (own, other) = match context {
            0 => (&self.first, &self.second),
            _ => (&self.second, &self.first),
        };
        own.store(true, Ordering::SeqCst);
        for _ in 0..self.turns {
            if other.load(Ordering::SeqCst) {
                self.met.fetch_add(1, Ordering::SeqCst);
                return;
            }
        }
    }
}

/// Two contexts, of which each is asked one question.
const TWO: &str = "context c1 program {} context c2 program {}";

const TWO_LISTING: &str =
    "mcs 1: 2 contexts, 0 rules, 0 variables\nequilibrium 1: {} applicable {}\nconsistent\nend: 1 equilibria, need 2\n";

/// How many of the two contexts met the other at the gate; `None` if the listing is not the one of
/// both.
fn met<R: Threads + Wait + Sync>(rt: &R, alloc: Global, words: &str, turns: u64) -> Option<u64> {
    let gate = Meeting {
        first: AtomicBool::new(false),
        second: AtomicBool::new(false),
        met: AtomicU64::new(0),
        turns,
    };
    let files: Files<'_> = (TWO.as_bytes(), b"");
    let end = (0, TWO_LISTING.as_bytes(), "");
    let is_listed = ends_with(rt, alloc, words, files, &SOUND, &gate, end);
    is_listed.then_some(gate.met.load(Ordering::SeqCst))
}

#[test]
fn two_workers_ask_at_once(rt: HostRuntime) {
    assert!(rt; met(&rt, rt.alloc(), "equilibria f --workers 2", 100_000_000) == Some(2));
}

#[test]
fn one_worker_asks_one_context_after_the_other(rt: HostRuntime) {
    // The second context sees the flag that the first has set.
    assert!(rt; met(&rt, rt.alloc(), "equilibria f --workers 1", 1000) == Some(1));
}
