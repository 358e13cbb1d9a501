//! Reports and what is found of them, in runs of `check` and of `solve` with its proof.

use crate::runs::{SOUND, ends, sink_of, status_with, tell};
use mcs_base::Text;
use mcs_ports::IdleGate;
use std::alloc::Global;
use std::sync::Wait;
use std::thread::Threads;

/// Lines of a report, from the first number up to the second, counted from 1; and what is put in
/// their place, before the first of them where there are none.
type Change = (usize, usize, &'static str);

/// The length of the first lines of the text.
fn length_of(text: &str, lines: usize) -> usize {
    let mut length = 0_usize;
    for line in text.split('\n').take(lines) {
        length = length.saturating_add(line.len()).saturating_add(1);
    }
    length
}

/// The text of a system and a report on it. So many lines of the report have the listing, up to its
/// end, and so many there are in all.
struct Case {
    system: &'static str,
    report: &'static str,
    listing: usize,
    lines: usize,
}

impl Case {
    /// The report with this change.
    fn changed(&self, alloc: Global, (first, last, with): Change) -> Vec<u8> {
        let report = self.report.as_bytes();
        let before = report.get(..length_of(self.report, first.saturating_sub(1)));
        let after = report.get(length_of(self.report, last)..);
        [before.unwrap_or(b""), with.as_bytes(), after.unwrap_or(b"")]
            .concat(alloc)
            .unwrap_or(Vec::new(alloc))
    }

    /// Tells what is found of the report with this change.
    fn tell<R: Threads + Wait + Sync>(
        &self,
        rt: &R,
        alloc: Global,
        change: Change,
        told: &mut Text,
    ) {
        let report = self.changed(alloc, change);
        tell(
            rt,
            alloc,
            "check f r",
            (self.system.as_bytes(), &report),
            told,
        );
        drop(report);
    }

    /// Tells what is found of the report where another line stands in the place of each in turn,
    /// from the first number up to before the second.
    fn tell_lines<R: Threads + Wait + Sync>(
        &self,
        rt: &R,
        alloc: Global,
        (first, end): (usize, usize),
        told: &mut Text,
    ) {
        for line in first..end {
            self.tell(rt, alloc, (line, line, "no line\n"), told);
        }
    }

    /// Whether this is found of the report with each of the changes, and where another line stands
    /// in the place of each but the one that ends the listing.
    fn is_found<R: Threads + Wait + Sync>(
        &self,
        rt: &R,
        alloc: Global,
        changes: &[Change],
        found: &str,
    ) -> bool {
        let mut told = Text::new(alloc);
        for change in changes {
            self.tell(rt, alloc, *change, &mut told);
        }
        self.tell_lines(rt, alloc, (1, self.listing), &mut told);
        let after = (self.listing.saturating_add(1), self.lines.saturating_add(1));
        self.tell_lines(rt, alloc, after, &mut told);
        let is_found = told.bytes() == found.as_bytes();
        drop(told);
        is_found
    }
}

/// A context that contradicts itself believes what a rule reads.
pub const CONTRADICTION: &str =
    "context c1 classical { p. ~p. }\ncontext c2 classical {}\nbridge r1: c2:x if c1:q.\n";

const CONTRADICTION_REPORT: &str =
    "mcs 1: 2 contexts, 1 rules, 1 variables\nequilibrium 1: {c1:q} applicable {r1}\nconsistent\ndiagnosis 1: {} state {c1:q} active {r1}\nend: 1 equilibria, 1 diagnoses, 0 explanations, need 2\nproof\nanswer c1 {}\nstate {c1:q}\nyes\nstep by 4 2 1\ndone\nanswer c2 {r1}\nstate {}\ndone\nend of proof\n";

static CONTRADICTORY: Case = Case {
    system: CONTRADICTION,
    report: CONTRADICTION_REPORT,
    listing: 5,
    lines: 15,
};

/// A trace that names no clause; and an answer more, of a set of rules that does not apply.
static CONTRADICTION_CHANGES: [Change; 3] = [
    (1, 0, ""),
    (10, 10, "step by 4 2 5\n"),
    (12, 11, "answer c2 {}\nstate {}\ndone\n"),
];

const CONTRADICTION_FOUND: &str = "0 valid
1 not valid: line 7: certificate
0 valid
1 not valid: line 1: listing
1 not valid: line 2: listing
1 not valid: line 3: listing
1 not valid: line 4: listing
1 not valid: line 6: grammar
1 not valid: line 7: grammar
1 not valid: line 8: grammar
1 not valid: line 9: grammar
1 not valid: line 10: grammar
1 not valid: line 11: grammar
1 not valid: line 12: grammar
1 not valid: line 13: grammar
1 not valid: line 14: grammar
1 not valid: line 15: grammar
";

/// A context that may not believe what a rule tells it.
pub const TOLD: &str =
    "context c1 program { a. }\ncontext c2 program { :- p. }\nbridge r1: c2:p if c1:a.\n";

pub const TOLD_REPORT: &str =
    "mcs 1: 2 contexts, 1 rules, 1 variables\ninconsistent\ndiagnosis 1: {-r1} state {c1:a} active {}\nexplanation 1: {-r1 by 1}\nend: 0 equilibria, 1 diagnoses, 1 explanations, need 3\nproof\nanswer c1 {}\nstate {c1:a}\nmodel {a}\nstep by 8 6 4 1 5\nnone\nstep by 8 6 4 1 5\ndone\nanswer c2 {}\nstate {}\nmodel {}\nstep by 12 10 9\nnone\nstep by 9 7 6\ndone\nanswer c2 {r1}\nnone\nstep by 10 9 6 4 1 5\ndone\nend of proof\n";

/// The rule of `TOLD` is removed.
pub const TOLD_LISTING: &str =
    "mcs 1: 2 contexts, 1 rules, 1 variables\ninconsistent\ncheapest 1: {-r1} cost 1 state {c1:a} active {}\nend: 1 cheapest, cost 1, need 3\n";

static TELLING: Case = Case {
    system: TOLD,
    report: TOLD_REPORT,
    listing: 5,
    lines: 25,
};

/// Lines of that report, and what is put in their place.
static TOLD_CHANGES: [Change; 22] = [
    (1, 0, ""),
    // What is found first: in the listing, in an answer's certificate, of an answer that is needed,
    // in the grammar.
    (4, 4, ""),
    (3, 3, "diagnosis 1: {+r1} state {c1:a} active {}\n"),
    (
        5,
        5,
        "end: 0 equilibria, 1 diagnoses, 1 explanations, need 4\n",
    ),
    // A trace without its end, or a state that its trace does not show.
    (10, 10, "step by 8 6 4 1\n"),
    (12, 12, "step by 8 6 4 1\n"),
    (8, 8, "state {}\n"),
    // The last answer is left out.
    (21, 24, ""),
    // The whole, the proof or the last line is left out; or the last line feed, or a line follows.
    (1, 25, ""),
    (6, 25, ""),
    (25, 25, ""),
    (25, 25, "end of proof"),
    (25, 25, "end of proof\n\n"),
    (25, 25, "end of proof\nx\n"),
    // The listing ends with its first line.
    (1, 1, "end: x\n"),
    // A state that another context has, a state twice.
    (15, 15, "state {c1:a}\n"),
    (8, 8, "state {c1:a}\nstate {c1:a}\n"),
    // A set of rules stands after its next one: alone, or with its answer.
    (14, 14, "answer c2 {r1}\n"),
    (
        14,
        24,
        "answer c2 {r1}\nnone\nstep by 10 9 6 4 1 5\ndone\nanswer c2 {}\nstate {}\nmodel {}\nstep by 12 10 9\nnone\nstep by 9 7 6\ndone\n",
    ),
    // A zero before a number, or a number that is too large.
    (10, 10, "step by 08 6 4 1 5\n"),
    (23, 23, "step by 10 9 6 4 01 5\n"),
    (10, 10, "step by 9223372036854775808\n"),
];

const TOLD_FOUND: &str = "0 valid
1 not valid: line 4: listing
1 not valid: line 3: listing
1 not valid: line 5: listing
1 not valid: line 7: certificate
1 not valid: line 7: certificate
1 not valid: line 7: certificate
1 not valid: line 21: missing
1 not valid: line 1: grammar
1 not valid: line 6: grammar
1 not valid: line 25: grammar
1 not valid: line 25: grammar
1 not valid: line 26: grammar
1 not valid: line 26: grammar
1 not valid: line 2: grammar
1 not valid: line 15: grammar
1 not valid: line 9: grammar
1 not valid: line 21: grammar
1 not valid: line 18: grammar
1 not valid: line 10: grammar
1 not valid: line 23: grammar
1 not valid: line 10: grammar
1 not valid: line 1: listing
1 not valid: line 2: listing
1 not valid: line 3: listing
1 not valid: line 4: listing
1 not valid: line 6: grammar
1 not valid: line 7: grammar
1 not valid: line 8: grammar
1 not valid: line 9: grammar
1 not valid: line 10: grammar
1 not valid: line 11: grammar
1 not valid: line 12: grammar
1 not valid: line 13: grammar
1 not valid: line 14: grammar
1 not valid: line 15: grammar
1 not valid: line 16: grammar
1 not valid: line 17: grammar
1 not valid: line 18: grammar
1 not valid: line 19: grammar
1 not valid: line 20: grammar
1 not valid: line 21: grammar
1 not valid: line 22: grammar
1 not valid: line 23: grammar
1 not valid: line 24: grammar
1 not valid: line 25: grammar
";

/// A default theory without extensions: the one default applies where it is left out, and is
/// blocked where it is taken.
const THEORY: &str = "context c1 default { true : p / ~p. }";

const THEORY_REPORT: &str =
    "mcs 1: 1 contexts, 0 rules, 0 variables\ninconsistent\nexplanation 1: {}\nend: 0 equilibria, 0 diagnoses, 1 explanations, need 1\nproof\nanswer c1 {}\nset {}\napplied 1\nyes\nstep by 4 2 1\nno {p}\nset {1}\nblocked 1 1\nyes\nstep by 8 6 5 1 3\ndone\nend of proof\n";

static DEFAULT: Case = Case {
    system: THEORY,
    report: THEORY_REPORT,
    listing: 4,
    lines: 17,
};

/// An empty set of atoms, another trace, a set of defaults that is left out, or claimed to be
/// ungrounded.
static THEORY_CHANGES: [Change; 6] = [
    (1, 0, ""),
    (11, 11, "no {}\n"),
    (15, 15, "step by 8 6 5 1 4\n"),
    (12, 15, ""),
    (13, 15, "ungrounded {}\nno {}\n"),
    (8, 8, "applied 2\n"),
];

const THEORY_FOUND: &str = "0 valid
1 not valid: line 6: certificate
1 not valid: line 6: certificate
1 not valid: line 12: grammar
1 not valid: line 6: certificate
1 not valid: line 8: grammar
1 not valid: line 1: listing
1 not valid: line 2: listing
1 not valid: line 3: listing
1 not valid: line 5: grammar
1 not valid: line 6: grammar
1 not valid: line 7: grammar
1 not valid: line 8: grammar
1 not valid: line 9: grammar
1 not valid: line 10: grammar
1 not valid: line 11: grammar
1 not valid: line 12: grammar
1 not valid: line 13: grammar
1 not valid: line 14: grammar
1 not valid: line 15: grammar
1 not valid: line 16: grammar
1 not valid: line 17: grammar
";

#[test]
fn what_is_found_of_a_contradiction(rt: HostRuntime) {
    let (changes, found) = (&CONTRADICTION_CHANGES, CONTRADICTION_FOUND);
    assert!(rt; CONTRADICTORY.is_found(&rt, rt.alloc(), changes, found));
}

#[test]
fn the_first_test_that_fails_is_told(rt: HostRuntime) {
    assert!(rt; TELLING.is_found(&rt, rt.alloc(), &TOLD_CHANGES, TOLD_FOUND));
}

#[test]
fn what_is_found_of_a_theory(rt: HostRuntime) {
    assert!(rt; DEFAULT.is_found(&rt, rt.alloc(), &THEORY_CHANGES, THEORY_FOUND));
}

/// Whether what `solve` writes of the text with its proof is found valid.
fn is_proved<R: Threads + Wait + Sync>(rt: &R, alloc: Global, text: &str, words: &str) -> bool {
    let Ok(mut sink) = sink_of(alloc, &SOUND) else {
        return false;
    };
    let text = text.as_bytes();
    let status = status_with(rt, alloc, words, (text, b""), &SOUND, &mut sink, &IdleGate);
    let is_valid = ends(
        rt,
        alloc,
        "check f r",
        (text, sink.written()),
        (0, b"valid\n", ""),
    );
    let is_proved = (status == 0) & sink.noted().is_empty() & is_valid;
    drop(sink);
    is_proved
}

/// Systems of all kinds, consistent and not: choices, a set of defaults of each verdict, an
/// unsatisfiable context.
static SYSTEMS: [&str; 7] = [
    "",
    CONTRADICTION,
    TOLD,
    THEORY,
    "context c1 program { a | b. a :- b. b :- a. }\ncontext c2 program {}\nbridge r1: c2:x if c1:a, c1:b.\n",
    "context c1 default {\n  quaker. republican.\n  quaker : pacifist / pacifist.\n  republican : ~pacifist / ~pacifist.\n}\ncontext c2 program {}\nbridge r1: c2:vote if c1:pacifist.\n",
    "context c1 program {}\ncontext c2 program {}\nbridge r1: c1:a if not c1:a.\nbridge r2: c2:b if not c2:b.\n",
];

/// Whether this is so of each with one worker and with two.
fn are_proved<R: Threads + Wait + Sync>(rt: &R, alloc: Global, texts: &[&str]) -> bool {
    let mut are_proved = true;
    for text in texts {
        are_proved &= is_proved(rt, alloc, text, "solve f --proof --workers 1");
        are_proved &= is_proved(rt, alloc, text, "solve f --proof --workers 2");
    }
    are_proved
}

#[test]
fn what_is_solved_with_its_proof_is_valid(rt: HostRuntime) {
    assert!(rt; are_proved(&rt, rt.alloc(), &SYSTEMS));
}
