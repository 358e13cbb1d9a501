//! Devices that fail.

use crate::reports::{CONTRADICTION, TOLD, TOLD_LISTING, TOLD_REPORT};
use crate::runs::{Devices, End, ends_with};
use crate::wards::{WARDS, WARDS_LISTING};
use mcs_ports::IdleGate;
use std::alloc::Global;
use std::sync::Wait;
use std::thread::Threads;

/// The whole listing of a text without contexts.
pub const EMPTY_LISTING: &str =
    "mcs 1: 0 contexts, 0 rules, 0 variables\nequilibrium 1: {} applicable {}\nconsistent\ndiagnosis 1: {} state {} active {}\nend: 1 equilibria, 1 diagnoses, 0 explanations, need 0\n";

/// A rule that supports itself.
const SELF_SUPPORT: &str = "context c1 program {}\nbridge r1: c1:a if c1:a.\n";

const SELF_SUPPORT_EQUILIBRIA: &str =
    "mcs 1: 1 contexts, 1 rules, 1 variables\nequilibrium 1: {c1:a} applicable {r1}\nequilibrium 2: {} applicable {}\nconsistent\nend: 2 equilibria, need 2\n";

/// A rule against its own context.
const SELF_DENIAL: &str = "context c1 program {}\nbridge r1: c1:a if not c1:a.\n";

const SELF_DENIAL_LISTING: &str =
    "mcs 1: 1 contexts, 1 rules, 1 variables\ninconsistent\ndiagnosis 1: {-r1} state {} active {}\ndiagnosis 2: {+r1} state {c1:a} active {r1}\nexplanation 1: {-r1 by 1, +r1 by 2}\nend: 0 equilibria, 2 diagnoses, 1 explanations, need 2\n";

/// The whole listing of a context that contradicts itself, with its proof.
const CONTRADICTION_PROVED: &str =
    "mcs 1: 2 contexts, 1 rules, 1 variables\nequilibrium 1: {c1:q} applicable {r1}\nconsistent\ndiagnosis 1: {} state {c1:q} active {r1}\nend: 1 equilibria, 1 diagnoses, 0 explanations, need 2\nproof\nanswer c1 {}\nstate {c1:q}\nyes\nstep by 1 2 4\ndone\nanswer c2 {r1}\nstate {}\ndone\nend of proof\n";

const MADE: &str =
    "make 0: 2 contexts, 2 rules, 1 variables\nconsistent\nend: 2 equilibria, 1 diagnoses, 0 explanations, need 3\n";

const USAGE: &str = "mcs: usage: mcs JOB FILE [REPORT] [--budget N] [--workers N] [--proof]\n";

/// Words over two files: `f`, which begins with so many spaces before its text, and `r`, the report;
/// how many calls the run makes on the shelf, and how many writes, of at most so many bytes each;
/// and how it ends where no device fails.
#[derive(Clone, Copy)]
pub struct Job {
    pub words: &'static str,
    pub spaces: usize,
    pub text: &'static str,
    pub report: &'static str,
    pub calls: u64,
    pub writes: u64,
    pub most: usize,
    pub end: (u8, &'static str, &'static str),
}

/// Runs that list equilibria.
static EQUILIBRIA: [Job; 2] = [
    // A file of 5047 bytes is opened; 4096 bytes of it are read, then what is left, and then
    // nothing. One that is shorter is read at once, and an empty one has nothing to read.
    Job {
        words: "equilibria f",
        spaces: 5000,
        text: SELF_SUPPORT,
        report: "",
        calls: 4,
        writes: 5,
        most: 4096,
        end: (0, SELF_SUPPORT_EQUILIBRIA, ""),
    },
    Job {
        words: "equilibria f",
        spaces: 0,
        text: SELF_SUPPORT,
        report: "",
        calls: 3,
        writes: 5,
        most: 4096,
        end: (0, SELF_SUPPORT_EQUILIBRIA, ""),
    },
];

/// Runs that list everything.
static SOLUTIONS: [Job; 3] = [
    Job {
        words: "solve f",
        spaces: 0,
        text: SELF_DENIAL,
        report: "",
        calls: 3,
        writes: 6,
        most: 4096,
        end: (0, SELF_DENIAL_LISTING, ""),
    },
    Job {
        words: "solve f --proof",
        spaces: 0,
        text: CONTRADICTION,
        report: "",
        calls: 3,
        writes: 15,
        most: 4096,
        end: (0, CONTRADICTION_PROVED, ""),
    },
    // Each write is of one byte.
    Job {
        words: "solve f",
        spaces: 0,
        text: "",
        report: "",
        calls: 2,
        writes: 173,
        most: 1,
        end: (0, EMPTY_LISTING, ""),
    },
];

/// Runs that read a report.
static REPORTED: [Job; 2] = [
    Job {
        words: "check f r",
        spaces: 0,
        text: TOLD,
        report: TOLD_REPORT,
        calls: 6,
        writes: 1,
        most: 4096,
        end: (0, "valid\n", ""),
    },
    Job {
        words: "cheapest f r",
        spaces: 0,
        text: TOLD,
        report: TOLD_REPORT,
        calls: 6,
        writes: 4,
        most: 4096,
        end: (0, TOLD_LISTING, ""),
    },
];

/// Runs that read no file.
static FILELESS: [Job; 3] = [
    // What names no file opens none.
    Job {
        words: "make 0",
        spaces: 0,
        text: "",
        report: "",
        calls: 0,
        writes: 3,
        most: 4096,
        end: (0, MADE, ""),
    },
    Job {
        words: "make",
        spaces: 0,
        text: "",
        report: "",
        calls: 0,
        writes: 0,
        most: 4096,
        end: (2, "", USAGE),
    },
    // A file that is not there is told as one that can't be read.
    Job {
        words: "solve g",
        spaces: 0,
        text: "",
        report: "",
        calls: 0,
        writes: 0,
        most: 4096,
        end: (5, "", "mcs: read fault\n"),
    },
];

impl Job {
    /// The bytes of the file `f`.
    fn file(&self, alloc: Global) -> Vec<u8> {
        let mut bytes = vec![in alloc; b' '; self.spaces].unwrap_or(Vec::new(alloc));
        let _extended = bytes.extend_from_slice(self.text.as_bytes());
        bytes
    }

    /// Whether the run ends so where the call and the write with these numbers fail. There is none
    /// with the number 0.
    fn ends<R: Threads + Wait + Sync>(
        &self,
        rt: &R,
        alloc: Global,
        (call, write): (u64, u64),
        end: End<'_>,
    ) -> bool {
        let devices = Devices {
            failing_call: call,
            failing_write: write,
            most: self.most,
        };
        let text = self.file(alloc);
        let files = (text.as_slice(), self.report.as_bytes());
        let is_right = ends_with(rt, alloc, self.words, files, &devices, &IdleGate, end);
        drop(text);
        is_right
    }

    /// Whether the run ends as it should where the call and the write with these numbers do not
    /// come.
    pub fn is_done<R: Threads + Wait + Sync>(
        &self,
        rt: &R,
        alloc: Global,
        failing: (u64, u64),
    ) -> bool {
        let (status, written, noted) = self.end;
        self.ends(rt, alloc, failing, (status, written.as_bytes(), noted))
    }

    /// Whether each of the calls that fails is told.
    fn are_calls_told<R: Threads + Wait + Sync>(&self, rt: &R, alloc: Global) -> bool {
        let mut are_told = true;
        for call in 1..self.calls.saturating_add(1) {
            are_told &= self.ends(rt, alloc, (call, 0), (5, b"", "mcs: read fault\n"));
        }
        are_told
    }

    /// Whether each of the writes that fails is told, after what is written before it.
    fn are_writes_told<R: Threads + Wait + Sync>(&self, rt: &R, alloc: Global) -> bool {
        let written = self.end.1.as_bytes();
        let (mut write, mut begins, mut are_told) = (0_u64, true, true);
        for (place, byte) in written.iter().enumerate() {
            if begins {
                write = write.saturating_add(1);
                let before = written.get(..place).unwrap_or(b"");
                are_told &= self.ends(rt, alloc, (0, write), (6, before, "mcs: write fault\n"));
            }
            begins = self.most == 1 || *byte == b'\n';
        }
        are_told && write == self.writes
    }

    /// Whether all this is so, and nothing is told of a call or a write after the last.
    fn is_told<R: Threads + Wait + Sync>(&self, rt: &R, alloc: Global) -> bool {
        self.is_done(rt, alloc, (0, 0))
            & self.is_done(rt, alloc, (self.calls.saturating_add(1), 0))
            & self.is_done(rt, alloc, (0, self.writes.saturating_add(1)))
            & self.are_calls_told(rt, alloc)
            & self.are_writes_told(rt, alloc)
    }
}

/// Whether this is so of each job.
fn are_told<R: Threads + Wait + Sync>(rt: &R, alloc: Global, jobs: &[Job]) -> bool {
    let mut are_told = true;
    for job in jobs {
        are_told &= job.is_told(rt, alloc);
    }
    are_told
}

/// Whether it is so of all jobs.
fn all_told<R: Threads + Wait + Sync>(rt: &R, alloc: Global) -> bool {
    are_told(rt, alloc, &EQUILIBRIA)
        & are_told(rt, alloc, &SOLUTIONS)
        & are_told(rt, alloc, &REPORTED)
        & are_told(rt, alloc, &FILELESS)
}

#[test]
fn each_call_and_each_write_may_fail(rt: HostRuntime) {
    assert!(rt; all_told(&rt, rt.alloc()));
}

/// Whether it is so of a run that lists much.
fn is_large_told<R: Threads + Wait + Sync>(rt: &R, alloc: Global) -> bool {
    let job = Job {
        words: "solve f",
        spaces: 0,
        text: WARDS,
        report: "",
        calls: 3,
        writes: 21,
        most: 4096,
        end: (0, WARDS_LISTING, ""),
    };
    job.is_told(rt, alloc)
}

#[test]
fn each_write_of_a_large_listing_may_fail(rt: HostRuntime) {
    assert!(rt; is_large_told(&rt, rt.alloc()));
}
