//! The equilibria, diagnoses and explanations of systems by their texts, in runs of `solve`.

use crate::tables::{Listed, all_given};

/// The words that ask for the whole listing of the file `f`.
const SOLVE: &str = "solve f";

pub(crate) static LISTINGS: [Listed; 11] = [
    // A text without contexts.
    Listed {
        text: "",
        listing: "mcs 1: 0 contexts, 0 rules, 0 variables\nequilibrium 1: {} applicable {}\nconsistent\ndiagnosis 1: {} state {} active {}\nend: 1 equilibria, 1 diagnoses, 0 explanations, need 0\n",
    },
    // A context that nothing reads.
    Listed {
        text: "context c1 classical { p. p -> q. }",
        listing: "mcs 1: 1 contexts, 0 rules, 0 variables\nequilibrium 1: {} applicable {}\nconsistent\ndiagnosis 1: {} state {} active {}\nend: 1 equilibria, 1 diagnoses, 0 explanations, need 1\n",
    },
    // Each rule attacks the other.
    Listed {
        text: "context c1 program {}\ncontext c2 program {}\nbridge r1: c1:a if not c2:b.\nbridge r2: c2:b if not c1:a.\n",
        listing: "mcs 1: 2 contexts, 2 rules, 2 variables\nequilibrium 1: {c1:a} applicable {r1}\nequilibrium 2: {c2:b} applicable {r2}\nconsistent\ndiagnosis 1: {} state {c1:a} active {r1}\nend: 2 equilibria, 1 diagnoses, 0 explanations, need 4\n",
    },
    // A rule that supports itself.
    Listed {
        text: "context c1 program {}\nbridge r1: c1:a if c1:a.\n",
        listing: "mcs 1: 1 contexts, 1 rules, 1 variables\nequilibrium 1: {c1:a} applicable {r1}\nequilibrium 2: {} applicable {}\nconsistent\ndiagnosis 1: {} state {c1:a} active {r1}\nend: 2 equilibria, 1 diagnoses, 0 explanations, need 2\n",
    },
    // A rule against its own context: to remove it, or to force it, repairs.
    Listed {
        text: "context c1 program {}\nbridge r1: c1:a if not c1:a.\n",
        listing: "mcs 1: 1 contexts, 1 rules, 1 variables\ninconsistent\ndiagnosis 1: {-r1} state {} active {}\ndiagnosis 2: {+r1} state {c1:a} active {r1}\nexplanation 1: {-r1 by 1, +r1 by 2}\nend: 0 equilibria, 2 diagnoses, 1 explanations, need 2\n",
    },
    // Two of these: each repair of the one goes with each of the other.
    Listed {
        text: "context c1 program {}\ncontext c2 program {}\nbridge r1: c1:a if not c1:a.\nbridge r2: c2:b if not c2:b.\n",
        listing: "mcs 1: 2 contexts, 2 rules, 2 variables\ninconsistent\ndiagnosis 1: {-r1, -r2} state {} active {}\ndiagnosis 2: {-r1, +r2} state {c2:b} active {r2}\ndiagnosis 3: {+r1, -r2} state {c1:a} active {r1}\ndiagnosis 4: {+r1, +r2} state {c1:a, c2:b} active {r1, r2}\nexplanation 1: {-r1 by 1, +r1 by 3}\nexplanation 2: {-r2 by 1, +r2 by 2}\nend: 0 equilibria, 4 diagnoses, 2 explanations, need 4\n",
    },
    // A program without answer sets, which no rule goes into: the empty explanation alone.
    Listed {
        text: "context c1 program { a. :- a. }",
        listing: "mcs 1: 1 contexts, 0 rules, 0 variables\ninconsistent\nexplanation 1: {}\nend: 0 equilibria, 0 diagnoses, 1 explanations, need 1\n",
    },
    // An unsatisfiable classical context believes everything.
    Listed {
        text: "context c1 classical { p. ~p. }\ncontext c2 classical {}\nbridge r1: c2:x if c1:q.\n",
        listing: "mcs 1: 2 contexts, 1 rules, 1 variables\nequilibrium 1: {c1:q} applicable {r1}\nconsistent\ndiagnosis 1: {} state {c1:q} active {r1}\nend: 1 equilibria, 1 diagnoses, 0 explanations, need 2\n",
    },
    // Two extensions.
    Listed {
        text: "context c1 default {\n  quaker. republican.\n  quaker : pacifist / pacifist.\n  republican : ~pacifist / ~pacifist.\n}\ncontext c2 program {}\nbridge r1: c2:vote if c1:pacifist.\n",
        listing: "mcs 1: 2 contexts, 1 rules, 1 variables\nequilibrium 1: {c1:pacifist} applicable {r1}\nequilibrium 2: {} applicable {}\nconsistent\ndiagnosis 1: {} state {c1:pacifist} active {r1}\nend: 2 equilibria, 1 diagnoses, 0 explanations, need 3\n",
    },
    // One diagnosis of two marks, two explanations.
    Listed {
        text: "context c1 program { a. }\ncontext c2 program { :- p. :- q. }\nbridge r1: c2:p if c1:a.\nbridge r2: c2:q if not c1:b.\n",
        listing: "mcs 1: 2 contexts, 2 rules, 2 variables\ninconsistent\ndiagnosis 1: {-r1, -r2} state {c1:a} active {}\nexplanation 1: {-r1 by 1}\nexplanation 2: {-r2 by 1}\nend: 0 equilibria, 1 diagnoses, 2 explanations, need 5\n",
    },
    // A default theory without extensions.
    Listed {
        text: "context c1 default { true : p / ~p. }",
        listing: "mcs 1: 1 contexts, 0 rules, 0 variables\ninconsistent\nexplanation 1: {}\nend: 0 equilibria, 0 diagnoses, 1 explanations, need 1\n",
    },
];

#[test]
fn systems_are_solved(rt: HostRuntime) {
    assert!(rt; all_given(&rt, rt.alloc(), SOLVE, &LISTINGS));
}
