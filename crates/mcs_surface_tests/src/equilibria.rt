//! Systems by their texts, and their listings.

use crate::runs::{JOB, SELF_ATTACK, SELF_SUPPORT, SELF_SUPPORT_LISTING};
use crate::tables::{Listed, all_given};

pub(crate) static LISTINGS: [Listed; 9] = [
    // A context without a model believes everything.
    Listed {
        text: "context c1 classical { p. ~p. }\ncontext c2 classical {}\nbridge r1: c2:x if c1:q.\n",
        listing: "mcs 1: 2 contexts, 1 rules, 1 variables\nequilibrium 1: {c1:q} applicable {r1}\nconsistent\nend: 1 equilibria, need 2\n",
    },
    // So does one that a rule contradicts.
    Listed {
        text: "context c1 classical { ~p. } context c2 classical {} bridge r: c1:p. bridge s: c2:x if c1:q.",
        listing: "mcs 1: 2 contexts, 2 rules, 1 variables\nequilibrium 1: {c1:q} applicable {r, s}\nconsistent\nend: 1 equilibria, need 2\n",
    },
    Listed {
        text: SELF_SUPPORT,
        listing: SELF_SUPPORT_LISTING,
    },
    Listed {
        text: SELF_ATTACK,
        listing: "mcs 1: 1 contexts, 1 rules, 1 variables\ninconsistent\nend: 0 equilibria, need 2\n",
    },
    Listed {
        text: "",
        listing: "mcs 1: 0 contexts, 0 rules, 0 variables\nequilibrium 1: {} applicable {}\nconsistent\nend: 1 equilibria, need 0\n",
    },
    // A context that nothing reads.
    Listed {
        text: "context c1 classical { p. p -> q. }",
        listing: "mcs 1: 1 contexts, 0 rules, 0 variables\nequilibrium 1: {} applicable {}\nconsistent\nend: 1 equilibria, need 1\n",
    },
    // Two rules of which each attacks the other: the state with the first variable comes first.
    Listed {
        text: "context b classical {} context a classical {} bridge s: a:p if not b:q. bridge r: b:q if not a:p.",
        listing: "mcs 1: 2 contexts, 2 rules, 2 variables\nequilibrium 1: {b:q} applicable {r}\nequilibrium 2: {a:p} applicable {s}\nconsistent\nend: 2 equilibria, need 4\n",
    },
    // Formulas, and a belief that is one.
    Listed {
        text: "context c1 classical { p. p -> q. } bridge r: c1:s if c1:(p & q), not c1:~p.",
        listing: "mcs 1: 1 contexts, 1 rules, 2 variables\nequilibrium 1: {c1:(p & q)} applicable {r}\nconsistent\nend: 1 equilibria, need 2\n",
    },
    // What is fixed is believed together, in the order of the contexts.
    Listed {
        text: "context b classical { q. } context a classical { p. } bridge r: a:x if a:p, b:q. bridge s: b:y.",
        listing: "mcs 1: 2 contexts, 2 rules, 2 variables\nequilibrium 1: {b:q, a:p} applicable {r, s}\nconsistent\nend: 1 equilibria, need 3\n",
    },
];

#[test]
fn equilibria_are_listed(rt: HostRuntime) {
    assert!(rt; all_given(&rt, rt.alloc(), JOB, &LISTINGS));
}
