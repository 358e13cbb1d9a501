//! Edit sessions: systems by their texts, scripts of edits, and what is listed.

use crate::runs::ends;
use std::alloc::Global;
use std::sync::Wait;
use std::thread::Threads;

/// A context that believes `a`, and one that nobody may tell `p`.
const TEXT: &str = "context c1 program { a. }\ncontext c2 program { :- p. }\n";

/// Words over the file `f`, which has the text above, and `r`, which has a script; and how the run
/// ends.
struct Edited {
    words: &'static str,
    script: &'static str,
    status: u8,
    written: &'static str,
    noted: &'static str,
}

/// Whether each run ends so.
fn all_end<R: Threads + Wait + Sync>(rt: &R, alloc: Global, runs: &[Edited]) -> bool {
    for run in runs {
        let files = (TEXT.as_bytes(), run.script.as_bytes());
        let end = (run.status, run.written.as_bytes(), run.noted);
        if !ends(rt, alloc, run.words, files, end) {
            return false;
        }
    }
    true
}

/// A rule is added and dropped.
static ADDED: [Edited; 2] = [
    Edited {
        words: "session f r",
        script: "list.\nadd bridge r1: c2:p if c1:a.\nlist.\ndrop r1.\nlist.\n",
        status: 0,
        written: "list 1: 0 rules\nmcs 1: 2 contexts, 0 rules, 0 variables\nequilibrium 1: {} applicable {}\nconsistent\ndiagnosis 1: {} state {} active {}\nend: 1 equilibria, 1 diagnoses, 0 explanations, need 2\nanswers: 2 new, 0 kept\nlist 2: 1 rules\nmcs 1: 2 contexts, 1 rules, 1 variables\ninconsistent\ndiagnosis 1: {-r1} state {c1:a} active {}\nexplanation 1: {-r1 by 1}\nend: 0 equilibria, 1 diagnoses, 1 explanations, need 3\nanswers: 2 new, 1 kept\nlist 3: 0 rules\nmcs 1: 2 contexts, 0 rules, 0 variables\nequilibrium 1: {} applicable {}\nconsistent\ndiagnosis 1: {} state {} active {}\nend: 1 equilibria, 1 diagnoses, 0 explanations, need 2\nanswers: 0 new, 2 kept\nend of session: 3 lists, 4 answers\n",
        noted: "",
    },
    // The budget bounds each listing by itself; kept answers count.
    Edited {
        words: "session f r --budget 2",
        script: "list.\nadd bridge r1: c2:p if c1:a.\nlist.\ndrop r1.\nlist.\n",
        status: 4,
        written: "list 1: 0 rules\nmcs 1: 2 contexts, 0 rules, 0 variables\nequilibrium 1: {} applicable {}\nconsistent\ndiagnosis 1: {} state {} active {}\nend: 1 equilibria, 1 diagnoses, 0 explanations, need 2\nanswers: 2 new, 0 kept\nlist 2: 1 rules\nmcs 1: 2 contexts, 1 rules, 1 variables\ninconsistent\n",
        noted: "mcs: unfinished at level 1, budget 2\n",
    },
];

#[test]
fn a_rule_is_added_and_dropped(rt: HostRuntime) {
    assert!(rt; all_end(&rt, rt.alloc(), &ADDED));
}

/// Two rules have one head, so that sets of one rule each have one key. One of them has the name
/// `list`, is dropped, and added again.
static TWINS: [Edited; 1] = [Edited {
    words: "session f r --proof --workers 3",
    script: "add bridge list: c2:p if c1:a.\nlist.\nadd bridge r2: c2:p if c1:a.\nlist.\ndrop list.\nlist.\nadd bridge list: c2:p if c1:a.\nlist.\n",
    status: 0,
    written: "list 1: 1 rules\nmcs 1: 2 contexts, 1 rules, 1 variables\ninconsistent\ndiagnosis 1: {-list} state {c1:a} active {}\nexplanation 1: {-list by 1}\nend: 0 equilibria, 1 diagnoses, 1 explanations, need 3\nanswers: 3 new, 0 kept\nlist 2: 2 rules\nmcs 1: 2 contexts, 2 rules, 1 variables\ninconsistent\ndiagnosis 1: {-list, -r2} state {c1:a} active {}\nexplanation 1: {-list by 1}\nexplanation 2: {-r2 by 1}\nend: 0 equilibria, 1 diagnoses, 2 explanations, need 5\nanswers: 1 new, 3 kept\nlist 3: 1 rules\nmcs 1: 2 contexts, 1 rules, 1 variables\ninconsistent\ndiagnosis 1: {-r2} state {c1:a} active {}\nexplanation 1: {-r2 by 1}\nend: 0 equilibria, 1 diagnoses, 1 explanations, need 3\nanswers: 0 new, 3 kept\nlist 4: 2 rules\nmcs 1: 2 contexts, 2 rules, 1 variables\ninconsistent\ndiagnosis 1: {-r2, -list} state {c1:a} active {}\nexplanation 1: {-r2 by 1}\nexplanation 2: {-list by 1}\nend: 0 equilibria, 1 diagnoses, 2 explanations, need 5\nanswers: 0 new, 4 kept\nend of session: 4 lists, 4 answers\n",
    noted: "",
}];

#[test]
fn rules_with_one_head_have_one_key(rt: HostRuntime) {
    assert!(rt; all_end(&rt, rt.alloc(), &TWINS));
}

/// A listing after no edit asks nothing; the empty script lists nothing.
static FEW: [Edited; 4] = [
    Edited {
        words: "session f r",
        script: "",
        status: 0,
        written: "end of session: 0 lists, 0 answers\n",
        noted: "",
    },
    Edited {
        words: "session f r --budget 1",
        script: "list. list.",
        status: 4,
        written: "list 1: 0 rules\nmcs 1: 2 contexts, 0 rules, 0 variables\n",
        noted: "mcs: unfinished at level 0, budget 1\n",
    },
    Edited {
        words: "session f",
        script: "",
        status: 2,
        written: "",
        noted: "mcs: usage: mcs JOB FILE [REPORT] [--budget N] [--workers N] [--proof]\n",
    },
    Edited {
        words: "session f s",
        script: "",
        status: 5,
        written: "",
        noted: "mcs: read fault\n",
    },
];

/// The whole script is read and tested before anything is written. The first edit with a fault
/// decides.
static REFUSED: [Edited; 4] = [
    Edited {
        words: "session f r",
        script: "list.\ndrop r9.\nadd bridge\n",
        status: 3,
        written: "",
        noted: "mcs: refused: script F6 at 6\n",
    },
    Edited {
        words: "session f r",
        script: "add bridge r1: c2:p if c1:a.\nadd bridge r1: c2:p.\n",
        status: 3,
        written: "",
        noted: "mcs: refused: script F3 at 29\n",
    },
    Edited {
        words: "session f r",
        script: "add bridge r1 weight 1000001: c2:p.",
        status: 3,
        written: "",
        noted: "mcs: refused: script F5 at 21: weight 1000000\n",
    },
    Edited {
        words: "session f r",
        script: "list",
        status: 3,
        written: "",
        noted: "mcs: refused: script F1 at 4\n",
    },
];

#[test]
fn scripts_are_read_before_anything_is_listed(rt: HostRuntime) {
    assert!(rt; all_end(&rt, rt.alloc(), &FEW));
    assert!(rt; all_end(&rt, rt.alloc(), &REFUSED));
}

#[test]
fn the_text_is_refused_before_its_script(rt: HostRuntime) {
    let end = (3, b"".as_slice(), "mcs: refused: F1 at 0\n");
    assert!(rt;
        ends(
            &rt,
            rt.alloc(),
            "session f r",
            (b"contex", b"drop r9."),
            end
        )
    );
}
