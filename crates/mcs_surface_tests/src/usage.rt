//! Words of the command line, and the runs that they start.

use crate::runs::{End, SELF_SUPPORT, SELF_SUPPORT_LISTING, ends};
use std::alloc::Global;
use std::sync::Wait;
use std::thread::Threads;

/// Whether the words of each line end so over a file `f`.
fn all_end<R: Threads + Wait + Sync>(rt: &R, alloc: Global, lines: &str, end: End<'_>) -> bool {
    for words in lines.split('\n') {
        if !ends(rt, alloc, words, (SELF_SUPPORT.as_bytes(), b""), end) {
            return false;
        }
    }
    true
}

/// Words that ask for no job, at first none at all. Where a line ends or begins with a space, an
/// empty word stands.
const NO_JOBS: &str =
    "\nequilibria\nequilibria \nequilibria -\nsolve\nsolve f --proof --proof\ncheck f\nsolve f --workers 0\nsolve f --budget 5 --budget 5\nequilibria f f\nsolution f\nEquilibria f\nf equilibria\n f";

/// Words with options, and after two dashes.
const JOBS: &str =
    "equilibria f --budget 5 --workers=64\n--workers 007 equilibria f\n-- equilibria f\n--proof -- equilibria f";

#[test]
fn words_start_runs_or_are_told_to_be_no_job(rt: HostRuntime) {
    let usage = "mcs: usage: mcs JOB FILE [REPORT] [--budget N] [--workers N] [--proof]\n";
    let are_none = all_end(&rt, rt.alloc(), NO_JOBS, (2, b"", usage));
    let listed = (0, SELF_SUPPORT_LISTING.as_bytes(), "");
    assert!(rt; are_none && all_end(&rt, rt.alloc(), JOBS, listed));
}
