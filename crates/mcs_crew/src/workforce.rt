//! How many threads are at work for a round.

use std::sync::atomic::{AtomicUsize, Ordering};

/// The workers of a round, and how many threads are at work for it. A thread that reads the number
/// knows nothing of it. It is only for the choice of which questions are asked by whom, and each
/// choice has the same answers.
#[derive(Drop)]
pub(crate) struct Workforce {
    workers: usize,
    busy: AtomicUsize,
}

impl Workforce {
    /// So many workers, of which so many have a group of nodes, and are at work. The others rest.
    pub fn new(workers: usize, groups: usize) -> Workforce {
        Workforce {
            workers,
            busy: AtomicUsize::new(groups),
        }
    }

    /// A worker rests: it waits for a letter, or has worked off its load.
    pub fn rest(&self) {
        self.busy.fetch_sub(1, Ordering::SeqCst);
    }

    /// A worker that has rested goes on.
    pub fn go_on(&self) {
        self.busy.fetch_add(1, Ordering::SeqCst);
    }

    /// Whether a worker rests that can help. It counts as busy until it rests again.
    pub fn lend(&self) -> bool {
        let lends = self.busy.fetch_add(1, Ordering::SeqCst) < self.workers;
        if !lends {
            self.rest();
        }
        lends
    }
}
