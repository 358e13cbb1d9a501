//! Cheapest diagnoses: systems by their texts, and their listings, also by a report.

use crate::made::{Rows, text_of};
use crate::reports::{TOLD, TOLD_LISTING, TOLD_REPORT};
use crate::runs::{End, SELF_DENIAL, SELF_SUPPORT, ends};
use crate::tables::{Run, all_end};
use mcs_base::Memory;
use std::alloc::Global;
use std::sync::Wait;
use std::thread::Threads;

/// Of the diagnoses with the fewest marks one costs 5; one with two marks costs 2.
const DEAR: &str =
    "version 2.\ncontext c1 program { a. }\ncontext c2 program { :- p, not s. :- q, not s. }\nbridge r1: c2:p if c1:a.\nbridge r2: c2:q if not c1:b.\nbridge r3 weight 5: c2:s if c1:b.\n";

pub static RUNS: [Run; 12] = [
    // To remove the rule costs as much as to force it.
    Run {
        words: "cheapest f",
        text: "version 2.\ncontext c1 program {}\nbridge r1 weight 3: c1:a if not c1:a.\n",
        status: 0,
        written: "mcs 1: 1 contexts, 1 rules, 1 variables\ninconsistent\ncheapest 1: {-r1} cost 3 state {} active {}\ncheapest 2: {+r1} cost 3 state {c1:a} active {r1}\nend: 2 cheapest, cost 3, need 2\n",
        noted: "",
    },
    Run {
        words: "cheapest f",
        text: DEAR,
        status: 0,
        written: "mcs 1: 2 contexts, 3 rules, 2 variables\ninconsistent\ncheapest 1: {-r1, -r2} cost 2 state {c1:a} active {}\nend: 1 cheapest, cost 2, need 8\n",
        noted: "",
    },
    Run {
        words: "cheapest f --budget 7",
        text: DEAR,
        status: 4,
        written: "mcs 1: 2 contexts, 3 rules, 2 variables\ninconsistent\n",
        noted: "mcs: unfinished at level 2, budget 7\n",
    },
    Run {
        words: "cheapest f --budget 8 --proof",
        text: DEAR,
        status: 0,
        written: "mcs 1: 2 contexts, 3 rules, 2 variables\ninconsistent\ncheapest 1: {-r1, -r2} cost 2 state {c1:a} active {}\nend: 1 cheapest, cost 2, need 8\n",
        noted: "",
    },
    Run {
        words: "cheapest f --budget 1",
        text: SELF_DENIAL,
        status: 4,
        written: "mcs 1: 1 contexts, 1 rules, 1 variables\n",
        noted: "mcs: unfinished at level 0, budget 1\n",
    },
    // Where no rule says what it weighs each costs 1.
    Run {
        words: "cheapest f",
        text: TOLD,
        status: 0,
        written: TOLD_LISTING,
        noted: "",
    },
    // The second rule may not be forced.
    Run {
        words: "cheapest f",
        text: "version 2.\ncontext c1 program {}\ncontext c2 program {}\nbridge r1 weight 2: c1:a if not c1:a.\nbridge r2 closed weight 3: c2:b if not c2:b.\n",
        status: 0,
        written: "mcs 1: 2 contexts, 2 rules, 2 variables\ninconsistent\ncheapest 1: {-r1, -r2} cost 5 state {} active {}\ncheapest 2: {+r1, -r2} cost 5 state {c1:a} active {r1}\nend: 2 cheapest, cost 5, need 4\n",
        noted: "",
    },
    // A consistent system needs no repair.
    Run {
        words: "cheapest f",
        text: SELF_SUPPORT,
        status: 0,
        written: "mcs 1: 1 contexts, 1 rules, 1 variables\nconsistent\ncheapest 1: {} cost 0 state {c1:a} active {r1}\nend: 1 cheapest, cost 0, need 2\n",
        noted: "",
    },
    Run {
        words: "cheapest f",
        text: "",
        status: 0,
        written: "mcs 1: 0 contexts, 0 rules, 0 variables\nconsistent\ncheapest 1: {} cost 0 state {} active {}\nend: 1 cheapest, cost 0, need 0\n",
        noted: "",
    },
    // No diagnosis: the one rule of the conflict is kept and closed, or there is no rule.
    Run {
        words: "cheapest f",
        text: "version 2.\ncontext c1 program {}\nbridge r1 keep closed weight 7: c1:a if not c1:a.\n",
        status: 0,
        written: "mcs 1: 1 contexts, 1 rules, 1 variables\ninconsistent\nend: 0 cheapest, need 2\n",
        noted: "",
    },
    Run {
        words: "cheapest f",
        text: "context c1 program { a :- not a. }",
        status: 0,
        written: "mcs 1: 1 contexts, 0 rules, 0 variables\ninconsistent\nend: 0 cheapest, need 1\n",
        noted: "",
    },
    // The faults of the text come first.
    Run {
        words: "cheapest f --budget 1",
        text: "version 2.\ncontext c1 program {}\nbridge r1 weight 1000001: c1:a.\n",
        status: 3,
        written: "",
        noted: "mcs: refused: F5 at 50: weight 1000000\n",
    },
];

#[test]
fn cheapest_diagnoses_are_listed(rt: HostRuntime) {
    assert!(rt; all_end(&rt, rt.alloc(), &RUNS));
}

/// Contexts with two constraints each. A rule of the greatest weight puts the atom of each constraint
/// there.
static HEAVY: [Rows; 3] = [
    ("version 2.\ncontext c program {}\n", 0, 1),
    ("context d# program { :- p. :- q. }\n", 0, 32),
    (
        "bridge r# weight 1000000: d#:p if not c:x.\nbridge s# weight 1000000: d#:q if not c:x.\n",
        0,
        32,
    ),
];

/// All of these have to go. Each set of rules into a context is a question to it.
static HEAVY_LISTING: [Rows; 3] = [
    (
        "mcs 1: 33 contexts, 64 rules, 1 variables\ninconsistent\ncheapest 1: {-r0, -s0",
        0,
        1,
    ),
    (", -r#, -s#", 1, 32),
    (
        "} cost 64000000 state {} active {}\nend: 1 cheapest, cost 64000000, need 129\n",
        0,
        1,
    ),
];

/// Whether the cheapest diagnoses of a file of these rows are listed so.
fn are_listed<R: Threads + Wait + Sync>(
    rt: &R,
    alloc: Global,
    rows: &[Rows],
    listing: &[Rows],
) -> bool {
    let (Ok(text), Ok(due)) = (text_of(alloc, rows), text_of(alloc, listing)) else {
        return false;
    };
    let is_right = ends(
        rt,
        alloc,
        "cheapest f",
        (text.bytes(), b""),
        (0, due.bytes(), ""),
    );
    drop((text, due));
    is_right
}

#[test]
fn as_many_rules_as_there_may_be_weigh_as_much_as_they_may(rt: HostRuntime) {
    assert!(rt; are_listed(&rt, rt.alloc(), &HEAVY, &HEAVY_LISTING));
}

/// A context that is told two things that it forbids together, eighteen times. Each of the two can
/// be removed, and one costs less.
static MANY: [Rows; 3] = [
    ("version 2.\ncontext c program { a. }\n", 0, 1),
    ("context d# program { :- p, q. }\n", 0, 18),
    (
        "bridge r#: d#:p if c:a.\nbridge s# weight 2: d#:q if c:a.\n",
        0,
        18,
    ),
];

/// Of 262,144 minimal diagnoses one is cheapest.
static MANY_LISTING: [Rows; 5] = [
    (
        "mcs 1: 19 contexts, 36 rules, 1 variables\ninconsistent\ncheapest 1: {-r0",
        0,
        1,
    ),
    (", -r#", 1, 18),
    ("} cost 18 state {c:a} active {s0", 0, 1),
    (", s#", 1, 18),
    ("}\nend: 1 cheapest, cost 18, need 73\n", 0, 1),
];

#[test]
fn one_of_many_diagnoses_is_cheapest(rt: HostRuntime) {
    assert!(rt; are_listed(&rt, rt.alloc(), &MANY, &MANY_LISTING));
}

/// Whether the words end so over the system of `TOLD` and this report.
fn reported<R: Threads + Wait + Sync>(
    rt: &R,
    alloc: Global,
    words: &str,
    report: &[u8],
    end: End<'_>,
) -> bool {
    ends(rt, alloc, words, (TOLD.as_bytes(), report), end)
}

/// By a report the listing is the same, whatever the budget and the workers.
#[test]
fn the_answers_of_a_report_are_enough(rt: HostRuntime) {
    let end = (0, TOLD_LISTING.as_bytes(), "");
    let report = TOLD_REPORT.as_bytes();
    assert!(rt; reported(&rt, rt.alloc(), "cheapest f r", report, end));
    let words = "cheapest f r --budget 1 --workers 3 --proof";
    assert!(rt; reported(&rt, rt.alloc(), words, report, end));
}

/// Whether the report with other marks in its diagnosis is told to fail the test of its listing.
fn is_rejected<R: Threads + Wait + Sync>(
    rt: &R,
    alloc: Global,
    marks: &str,
) -> Result<bool, Memory> {
    let (front, rest) = TOLD_REPORT
        .split_once("{-r1} state")
        .unwrap_or((TOLD_REPORT, ""));
    let report: String = format!(in alloc; "{front}{marks} state{rest}")?;
    let end: End<'_> = (1, b"not valid: line 3: listing\n", "");
    let is_rejected = reported(rt, alloc, "cheapest f r", report.as_bytes(), end);
    drop(report);
    Ok(is_rejected)
}

/// A report that fails a test is told as by `check`: one whose listing has another diagnosis, and
/// one without lines.
#[test]
fn a_report_that_fails_a_test_gives_no_listing(rt: HostRuntime) {
    assert!(rt; is_rejected(&rt, rt.alloc(), "{+r1}") == Ok(true));
    let empty: End<'_> = (1, b"not valid: line 1: grammar\n", "");
    assert!(rt; reported(&rt, rt.alloc(), "cheapest f r", b"", empty));
}

/// The text is read first, and then the report.
#[test]
fn a_report_that_is_not_there_is_a_read_fault(rt: HostRuntime) {
    let unread: End<'_> = (5, b"", "mcs: read fault\n");
    assert!(rt;
        ends(
            &rt,
            rt.alloc(),
            "cheapest f x",
            (TOLD.as_bytes(), b""),
            unread
        )
    );
    let refused: End<'_> = (3, b"", "mcs: refused: F1 at 0\n");
    assert!(rt; ends(&rt, rt.alloc(), "cheapest f x", (b"}", b""), refused));
}
