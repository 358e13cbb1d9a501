//! Default theories and programs by their texts, and their listings.

use crate::runs::JOB;
use crate::tables::{Listed, all_given};

static LISTINGS: [Listed; 20] = [
    // Two extensions.
    Listed {
        text: "context c1 default {\n  quaker. republican.\n  quaker : pacifist / pacifist.\n  republican : ~pacifist / ~pacifist.\n}\ncontext c2 classical {}\nbridge r1: c2:vote if c1:pacifist.\n",
        listing: "mcs 1: 2 contexts, 1 rules, 1 variables\nequilibrium 1: {c1:pacifist} applicable {r1}\nequilibrium 2: {} applicable {}\nconsistent\nend: 2 equilibria, need 3\n",
    },
    // A default against its own consequent: none.
    Listed {
        text: "context c1 default { true : p / ~p. }",
        listing: "mcs 1: 1 contexts, 0 rules, 0 variables\ninconsistent\nend: 0 equilibria, need 1\n",
    },
    // Extensions are grounded.
    Listed {
        text: "context c1 default { p : p / p. } context c2 classical {} bridge r1: c2:x if c1:p.",
        listing: "mcs 1: 2 contexts, 1 rules, 1 variables\nequilibrium 1: {} applicable {}\nconsistent\nend: 1 equilibria, need 2\n",
    },
    // Each rule attacks the other.
    Listed {
        text: "context c1 program {}\ncontext c2 program {}\nbridge r1: c1:a if not c2:b.\nbridge r2: c2:b if not c1:a.\n",
        listing: "mcs 1: 2 contexts, 2 rules, 2 variables\nequilibrium 1: {c1:a} applicable {r1}\nequilibrium 2: {c2:b} applicable {r2}\nconsistent\nend: 2 equilibria, need 4\n",
    },
    // A rule against its own context.
    Listed {
        text: "context c1 program {}\nbridge r1: c1:a if not c1:a.\n",
        listing: "mcs 1: 1 contexts, 1 rules, 1 variables\ninconsistent\nend: 0 equilibria, need 2\n",
    },
    // A rule that supports itself.
    Listed {
        text: "context c1 program {}\nbridge r1: c1:a if c1:a.\n",
        listing: "mcs 1: 1 contexts, 1 rules, 1 variables\nequilibrium 1: {c1:a} applicable {r1}\nequilibrium 2: {} applicable {}\nconsistent\nend: 2 equilibria, need 2\n",
    },
    // A constraint against a fact.
    Listed {
        text: "context c1 program { a. :- a. }",
        listing: "mcs 1: 1 contexts, 0 rules, 0 variables\ninconsistent\nend: 0 equilibria, need 1\n",
    },
    // An extension decides what a program is told.
    Listed {
        text: "context c1 default {\n  quaker. republican.\n  quaker : pacifist / pacifist.\n  republican : ~pacifist / ~pacifist.\n}\ncontext c2 program {}\nbridge r1: c2:vote if c1:pacifist.\n",
        listing: "mcs 1: 2 contexts, 1 rules, 1 variables\nequilibrium 1: {c1:pacifist} applicable {r1}\nequilibrium 2: {} applicable {}\nconsistent\nend: 2 equilibria, need 3\n",
    },
    // What two atoms have each other for is minimal.
    Listed {
        text: "context c1 program { a | b. a :- b. b :- a. }\ncontext c2 program {}\nbridge r1: c2:x if c1:a, c1:b.\n",
        listing: "mcs 1: 2 contexts, 1 rules, 2 variables\nequilibrium 1: {c1:a, c1:b} applicable {r1}\nconsistent\nend: 1 equilibria, need 2\n",
    },
    // A disjunction chooses.
    Listed {
        text: "context c1 program { a | b. }\ncontext c2 program {}\nbridge r1: c2:x if c1:a, c1:b.\n",
        listing: "mcs 1: 2 contexts, 1 rules, 2 variables\nequilibrium 1: {c1:a} applicable {}\nequilibrium 2: {c1:b} applicable {}\nconsistent\nend: 2 equilibria, need 2\n",
    },
    // From facts that contradict each other everything follows.
    Listed {
        text: "context d default { p. ~p. true : q / r. } context e program {} bridge s: e:x if d:z.",
        listing: "mcs 1: 2 contexts, 1 rules, 1 variables\nequilibrium 1: {d:z} applicable {s}\nconsistent\nend: 1 equilibria, need 2\n",
    },
    // A justification that a head takes away.
    Listed {
        text: "context d default { true : ok & ~sick / work. } context e program { sick. } bridge t: d:sick if e:sick. bridge u: e:free if not d:work.",
        listing: "mcs 1: 2 contexts, 2 rules, 2 variables\nequilibrium 1: {e:sick} applicable {t, u}\nconsistent\nend: 1 equilibria, need 4\n",
    },
    // A prerequisite that a head gives, which is a formula, and a belief that is one.
    Listed {
        text: "context d default { p | q : ok / r. } context e program { a. } bridge t: d:(p & s) if e:a. bridge u: e:b if d:(r & s).",
        listing: "mcs 1: 2 contexts, 2 rules, 2 variables\nequilibrium 1: {d:(r & s), e:a} applicable {t, u}\nconsistent\nend: 1 equilibria, need 4\n",
    },
    // A loop through two negations has two answer sets.
    Listed {
        text: "context c program { a :- not b. b :- not a. } context e classical {} bridge t: e:x if c:a.",
        listing: "mcs 1: 2 contexts, 1 rules, 1 variables\nequilibrium 1: {c:a} applicable {t}\nequilibrium 2: {} applicable {}\nconsistent\nend: 2 equilibria, need 3\n",
    },
    // One through its own negation has none.
    Listed {
        text: "context c program { a :- not a, not b. } context e classical {} bridge t: e:x if c:a. bridge u: c:b if e:y.",
        listing: "mcs 1: 2 contexts, 2 rules, 2 variables\ninconsistent\nend: 0 equilibria, need 3\n",
    },
    // A constraint takes out one of two.
    Listed {
        text: "context c program { a | b. :- a. } context e classical {} bridge t: e:x if c:b, not c:a.",
        listing: "mcs 1: 2 contexts, 1 rules, 2 variables\nequilibrium 1: {c:b} applicable {t}\nconsistent\nend: 1 equilibria, need 2\n",
    },
    // A context that supplies nothing leaves no question.
    Listed {
        text: "context c program { a. :- a. } context e classical {} bridge t: e:x if c:a. bridge u: e:y if not c:a.",
        listing: "mcs 1: 2 contexts, 2 rules, 1 variables\ninconsistent\nend: 0 equilibria, need 1\n",
    },
    // A head that is a fact already.
    Listed {
        text: "context c program { a. b :- a. } context e classical { x. } bridge t: c:a if e:x. bridge u: e:y if c:b.",
        listing: "mcs 1: 2 contexts, 2 rules, 2 variables\nequilibrium 1: {c:b, e:x} applicable {t, u}\nconsistent\nend: 1 equilibria, need 3\n",
    },
    // Constraints alone, which a head meets or not.
    Listed {
        text: "context c program { :- not a. :- b. } context e classical {} bridge t: c:a if e:x. bridge u: e:x if c:a. bridge v: e:y if c:b.",
        listing: "mcs 1: 2 contexts, 3 rules, 3 variables\nequilibrium 1: {c:a, e:x} applicable {t, u}\nconsistent\nend: 1 equilibria, need 3\n",
    },
    // A disjunction of twelve, seen through one of them.
    Listed {
        text: "context c program { a0 | a1 | a2 | a3 | a4 | a5 | a6 | a7 | a8 | a9 | a10 | a11. } context e classical {} bridge t: e:x if c:a0.",
        listing: "mcs 1: 2 contexts, 1 rules, 1 variables\nequilibrium 1: {c:a0} applicable {t}\nequilibrium 2: {} applicable {}\nconsistent\nend: 2 equilibria, need 3\n",
    },
];

#[test]
fn contexts_of_each_kind_are_evaluated(rt: HostRuntime) {
    assert!(rt; all_given(&rt, rt.alloc(), JOB, &LISTINGS));
}
