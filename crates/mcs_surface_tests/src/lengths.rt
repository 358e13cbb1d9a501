//! Files at the greatest length.

use crate::devices::{EMPTY_LISTING, Job};

/// A file of so many spaces is taken.
static LONGEST: Job = Job {
    words: "solve f",
    spaces: 1_048_576,
    text: "",
    report: "",
    calls: 258,
    writes: 5,
    most: 4096,
    end: (0, EMPTY_LISTING, ""),
};

/// One of one more is refused.
static TOO_LONG: Job = Job {
    words: "solve f",
    spaces: 1_048_577,
    text: "",
    report: "",
    calls: 257,
    writes: 0,
    most: 4096,
    end: (3, "", "mcs: refused: file longer than 1048576\n"),
};

#[test]
fn files_are_taken_up_to_a_length(rt: HostRuntime) {
    assert!(rt; LONGEST.is_done(&rt, rt.alloc(), (0, 0)));
    assert!(rt; TOO_LONG.is_done(&rt, rt.alloc(), (0, 0)));
}
