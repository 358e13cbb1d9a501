//! Texts that are refused, and what is noted of them.

use crate::made::Rows;
use crate::runs::SELF_SUPPORT;
use crate::tables::{Made, Run, all_end, all_made_end};

static REFUSALS: [Run; 7] = [
    Run {
        words: "equilibria f",
        text: "context c1 program { a. }\nbridge r1: c1:b if c1:",
        status: 3,
        written: "",
        noted: "mcs: refused: F1 at 48\n",
    },
    Run {
        words: "equilibria f",
        text: "context c1 program { a. }\nbridge r1: c1:b if c9:a.",
        status: 3,
        written: "",
        noted: "mcs: refused: F2 at 45\n",
    },
    Run {
        words: "equilibria f",
        text: "context c1 program {}\ncontext c1 program {}",
        status: 3,
        written: "",
        noted: "mcs: refused: F3 at 30\n",
    },
    Run {
        words: "equilibria f",
        text: "context c1 program {}\nbridge r1: c1:~a.",
        status: 3,
        written: "",
        noted: "mcs: refused: F4 at 36\n",
    },
    Run {
        words: "equilibria f",
        text: "context c classical { aaaaaaaaaabbbbbbbbbbccccccccccddddddddddeeeeeeeeeeffffffffff12345. }",
        status: 3,
        written: "",
        noted: "mcs: refused: F5 at 22: name_bytes 64\n",
    },
    // The file is read before its report, which is not there.
    Run {
        words: "check f x",
        text: "context",
        status: 3,
        written: "",
        noted: "mcs: refused: F1 at 7\n",
    },
    Run {
        words: "check f x",
        text: SELF_SUPPORT,
        status: 5,
        written: "",
        noted: "mcs: read fault\n",
    },
];

#[test]
fn texts_are_refused_for_what_is_wrong_with_them(rt: HostRuntime) {
    assert!(rt; all_end(&rt, rt.alloc(), &REFUSALS));
}

/// A formula with 512 signs before its atom.
const LARGE: [Rows; 3] = [
    ("context c1 classical { ", 0, 1),
    ("~", 0, 512),
    ("p. }", 0, 1),
];

/// Thirteen rules into one context, numbered with two digits.
const MANY_RULES: [Rows; 3] = [
    ("context c1 program {}", 0, 1),
    ("\nbridge r0#: c1:a.", 1, 10),
    ("\nbridge r#: c1:a.", 10, 14),
];

/// Texts beyond a limit, and what is noted of them.
static BEYOND: [Made; 2] = [
    Made {
        rows: &LARGE,
        status: 3,
        written: "",
        noted: "mcs: refused: F5 at 535: formula_size 512\n",
    },
    Made {
        rows: &MANY_RULES,
        status: 3,
        written: "",
        noted: "mcs: refused: F5 at 250: rules_per_context 12\n",
    },
];

#[test]
fn texts_beyond_a_limit_are_refused(rt: HostRuntime) {
    assert!(rt; all_made_end(&rt, rt.alloc(), &BEYOND));
}
