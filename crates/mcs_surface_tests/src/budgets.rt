//! Runs within a budget of questions.

use crate::runs::{SELF_ATTACK, SELF_DENIAL};
use crate::tables::{Run, all_end};

/// Two contexts of which each is asked twice.
const CHOICE: &str =
    "context c1 program {} context c2 program {} bridge r1: c1:a if not c2:b. bridge r2: c2:b if not c1:a.";

/// A context that may not believe what a rule tells it.
pub(crate) const TOLD: &str =
    "context c1 program { a. }\ncontext c2 program { :- p. }\nbridge r1: c2:p if c1:a.\n";

/// A budget below the need leaves what is listed before its level.
pub(crate) static RUNS: [Run; 8] = [
    Run {
        words: "equilibria f --budget 1",
        text: SELF_ATTACK,
        status: 4,
        written: "mcs 1: 1 contexts, 1 rules, 1 variables\n",
        noted: "mcs: unfinished at level 0, budget 1\n",
    },
    Run {
        words: "equilibria f --budget 3",
        text: CHOICE,
        status: 4,
        written: "mcs 1: 2 contexts, 2 rules, 2 variables\n",
        noted: "mcs: unfinished at level 0, budget 3\n",
    },
    Run {
        words: "equilibria f --budget 4",
        text: CHOICE,
        status: 0,
        written: "mcs 1: 2 contexts, 2 rules, 2 variables\nequilibrium 1: {c1:a} applicable {r1}\nequilibrium 2: {c2:b} applicable {r2}\nconsistent\nend: 2 equilibria, need 4\n",
        noted: "",
    },
    Run {
        words: "solve f --budget 2",
        text: TOLD,
        status: 4,
        written: "mcs 1: 2 contexts, 1 rules, 1 variables\ninconsistent\n",
        noted: "mcs: unfinished at level 1, budget 2\n",
    },
    Run {
        words: "solve f --budget 3",
        text: TOLD,
        status: 0,
        written: "mcs 1: 2 contexts, 1 rules, 1 variables\ninconsistent\ndiagnosis 1: {-r1} state {c1:a} active {}\nexplanation 1: {-r1 by 1}\nend: 0 equilibria, 1 diagnoses, 1 explanations, need 3\n",
        noted: "",
    },
    Run {
        words: "solve f --budget 1",
        text: TOLD,
        status: 4,
        written: "mcs 1: 2 contexts, 1 rules, 1 variables\n",
        noted: "mcs: unfinished at level 0, budget 1\n",
    },
    Run {
        words: "solve f --budget 1",
        text: SELF_DENIAL,
        status: 4,
        written: "mcs 1: 1 contexts, 1 rules, 1 variables\n",
        noted: "mcs: unfinished at level 0, budget 1\n",
    },
    // A system that is made has a need, too.
    Run {
        words: "make 0 --budget 2",
        text: "",
        status: 4,
        written: "make 0: 2 contexts, 2 rules, 1 variables\n",
        noted: "mcs: unfinished at level 0, budget 2\n",
    },
];

#[test]
fn budgets_suffice_or_leave_what_is_before_their_level(rt: HostRuntime) {
    assert!(rt; all_end(&rt, rt.alloc(), &RUNS));
}
