//! Generated systems, in runs of `make`.

use crate::tables::{Run, all_end};

/// What is made, and what is printed for it.
static MADE: [Run; 3] = [
    // The number nought: a program that chooses, and a classical context that reads it.
    Run {
        words: "make 0",
        text: "",
        status: 0,
        written: "make 0: 2 contexts, 2 rules, 1 variables\nconsistent\nend: 2 equilibria, 1 diagnoses, 0 explanations, need 3\n",
        noted: "",
    },
    // As many contexts, and chains as long, as there are.
    Run {
        words: "make 1023",
        text: "",
        status: 0,
        written: "make 1023: 33 contexts, 64 rules, 32 variables\nconsistent\nend: 2 equilibria, 1 diagnoses, 0 explanations, need 65\n",
        noted: "",
    },
    // An inconsistent system; zeros before a number are not told.
    Run {
        words: "make 001055",
        text: "",
        status: 0,
        written: "make 1055: 33 contexts, 64 rules, 32 variables\ninconsistent\nend: 0 equilibria, 2 diagnoses, 1 explanations, need 129\n",
        noted: "",
    },
];

#[test]
fn systems_are_made(rt: HostRuntime) {
    assert!(rt; all_end(&rt, rt.alloc(), &MADE));
}
