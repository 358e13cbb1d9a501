//! Grounded equilibria: systems by their texts, and their listings.

use crate::runs::{SELF_ATTACK, SELF_SUPPORT};
use crate::tables::{Run, all_end};

pub static RUNS: [Run; 14] = [
    // A rule that supports itself.
    Run {
        words: "grounded f",
        text: "context c1 program {}\nbridge r1: c1:a if c1:a.\n",
        status: 0,
        written: "mcs 1: 1 contexts, 1 rules, 1 variables\ngrounded 1: {} applicable {}\nend: 1 grounded of 2 equilibria, need 2\n",
        noted: "",
    },
    Run {
        words: "grounded f --proof",
        text: SELF_SUPPORT,
        status: 0,
        written: "mcs 1: 1 contexts, 1 rules, 1 variables\ngrounded 1: {} applicable {}\nend: 1 grounded of 2 equilibria, need 2\n",
        noted: "",
    },
    // Each rule attacks the other.
    Run {
        words: "grounded f",
        text: "context c1 program {}\ncontext c2 program {}\nbridge r1: c1:a if not c2:b.\nbridge r2: c2:b if not c1:a.\n",
        status: 0,
        written: "mcs 1: 2 contexts, 2 rules, 2 variables\ngrounded 1: {c1:a} applicable {r1}\ngrounded 2: {c2:b} applicable {r2}\nend: 2 grounded of 2 equilibria, need 4\n",
        noted: "",
    },
    // Both equilibria are minimal.
    Run {
        words: "grounded f",
        text: "context c1 program {} bridge r1: c1:a if c1:a. bridge r2: c1:b if not c1:a.",
        status: 0,
        written: "mcs 1: 1 contexts, 2 rules, 1 variables\ngrounded 1: {} applicable {r2}\nend: 1 grounded of 2 equilibria, need 2\n",
        noted: "",
    },
    // Heads that contradict each other support themselves.
    Run {
        words: "grounded f",
        text: "context c1 classical {} bridge r1: c1:a if c1:x. bridge r2: c1:~a if c1:x.",
        status: 0,
        written: "mcs 1: 1 contexts, 2 rules, 1 variables\ngrounded 1: {} applicable {}\nend: 1 grounded of 2 equilibria, need 2\n",
        noted: "",
    },
    // Two answer sets show the same, and one of them is grounded.
    Run {
        words: "grounded f",
        text: "context c1 program { a :- not b. b :- not a. x :- a. x :- b, y. } bridge r1: c1:y if c1:x.",
        status: 0,
        written: "mcs 1: 1 contexts, 1 rules, 1 variables\ngrounded 1: {c1:x} applicable {r1}\ngrounded 2: {} applicable {}\nend: 2 grounded of 2 equilibria, need 2\n",
        noted: "",
    },
    // Two answer sets show the same, and neither is grounded, although one that had the atoms of
    // both would be.
    Run {
        words: "grounded f",
        text: "context c1 program { a :- not b. b :- not a. x :- a, b. x :- y. } bridge r1: c1:y if c1:x.",
        status: 0,
        written: "mcs 1: 1 contexts, 1 rules, 1 variables\ngrounded 1: {} applicable {}\nend: 1 grounded of 2 equilibria, need 2\n",
        noted: "",
    },
    // An inconsistent system.
    Run {
        words: "grounded f",
        text: SELF_ATTACK,
        status: 0,
        written: "mcs 1: 1 contexts, 1 rules, 1 variables\nend: 0 grounded of 0 equilibria, need 2\n",
        noted: "",
    },
    // Contexts that are not plain: a default theory, a constraint, a head that names one atom twice.
    Run {
        words: "grounded f",
        text: "context c1 default {\n  quaker. republican.\n  quaker : pacifist / pacifist.\n  republican : ~pacifist / ~pacifist.\n}\ncontext c2 program {}\nbridge r1: c2:vote if c1:pacifist.\n",
        status: 3,
        written: "",
        noted: "mcs: refused: not plain: c1\n",
    },
    Run {
        words: "grounded f",
        text: "context c1 program { :- a. }",
        status: 3,
        written: "",
        noted: "mcs: refused: not plain: c1\n",
    },
    Run {
        words: "grounded f",
        text: "context c1 classical {} context c2 program { a | a. } context c3 default {}",
        status: 3,
        written: "",
        noted: "mcs: refused: not plain: c2\n",
    },
    // The faults of the text come first.
    Run {
        words: "grounded f",
        text: "context c1 program { a | b. }\ncontext c1 program {}",
        status: 3,
        written: "",
        noted: "mcs: refused: F3 at 38\n",
    },
    // The budget.
    Run {
        words: "grounded f --budget 1",
        text: SELF_SUPPORT,
        status: 4,
        written: "mcs 1: 1 contexts, 1 rules, 1 variables\n",
        noted: "mcs: unfinished at level 0, budget 1\n",
    },
    // No context at all.
    Run {
        words: "grounded f",
        text: "",
        status: 0,
        written: "mcs 1: 0 contexts, 0 rules, 0 variables\ngrounded 1: {} applicable {}\nend: 1 grounded of 1 equilibria, need 0\n",
        noted: "",
    },
];

#[test]
fn grounded_equilibria_are_listed(rt: HostRuntime) {
    assert!(rt; all_end(&rt, rt.alloc(), &RUNS));
}
