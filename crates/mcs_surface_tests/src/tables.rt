//! Tables of runs, and how each ends.

use crate::made::{Rows, text_of};
use crate::runs::{End, JOB, ends};
use std::alloc::Global;
use std::sync::Wait;
use std::thread::Threads;

/// Whether the equilibria of a file of these rows end so.
pub fn made_ends<R: Threads + Wait + Sync>(
    rt: &R,
    alloc: Global,
    rows: &[Rows],
    end: End<'_>,
) -> bool {
    let Ok(text) = text_of(alloc, rows) else {
        return false;
    };
    let is_right = ends(rt, alloc, JOB, (text.bytes(), b""), end);
    drop(text);
    is_right
}

/// Rows of a text, and how a run over it ends that asks for its equilibria.
pub struct Made {
    pub rows: &'static [Rows],
    pub status: u8,
    pub written: &'static str,
    pub noted: &'static str,
}

/// Whether each ends so.
pub fn all_made_end<R: Threads + Wait + Sync>(rt: &R, alloc: Global, all: &[Made]) -> bool {
    for made in all {
        let end = (made.status, made.written.as_bytes(), made.noted);
        if !made_ends(rt, alloc, made.rows, end) {
            return false;
        }
    }
    true
}

/// Words over a file `f` of this text, and how the run ends.
pub struct Run {
    pub words: &'static str,
    pub text: &'static str,
    pub status: u8,
    pub written: &'static str,
    pub noted: &'static str,
}

/// Whether each run ends so.
pub fn all_end<R: Threads + Wait + Sync>(rt: &R, alloc: Global, runs: &[Run]) -> bool {
    for run in runs {
        let end = (run.status, run.written.as_bytes(), run.noted);
        if !ends(rt, alloc, run.words, (run.text.as_bytes(), b""), end) {
            return false;
        }
    }
    true
}

/// The text of a system, and its whole listing.
pub struct Listed {
    pub text: &'static str,
    pub listing: &'static str,
}

/// Whether the words give each listing of its text, and nothing is noted.
pub fn all_given<R: Threads + Wait + Sync>(
    rt: &R,
    alloc: Global,
    words: &str,
    listings: &[Listed],
) -> bool {
    for listed in listings {
        let end = (0, listed.listing.as_bytes(), "");
        if !ends(rt, alloc, words, (listed.text.as_bytes(), b""), end) {
            return false;
        }
    }
    true
}
