//! The system of a text, and its canonical text.

use crate::build_faults::{
    are_twins_found, are_weights_judged, is_lowest_of_faulty_told, keep_limits,
};
use crate::contents::{are_repairs_told, is_three};
use crate::copies::is_copied;
use crate::faults::EACH_CONSTRUCT;
use crate::same::is_only;
use mcs_base::{Memory, Text};
use mcs_language::{
    read_system, spelled_texts_have_no_fault, texts_are_unambiguous, texts_have_one_fault,
    write_system,
};
use mcs_system::{Bridge, System};
use std::alloc::Global;
use std::sync::Arc;

/// The system that the text spells, if there is memory for it.
pub(crate) fn system_of(alloc: Global, text: &[u8]) -> Option<Arc<System>> {
    match read_system(alloc, text) {
        Ok(system) => Arc::new(alloc, system).ok(),
        Err(_) => None,
    }
}

/// What a test claims of a system.
#[derive(Drop)]
pub(crate) enum Claim {
    /// Twins of its second context are found.
    TwinsAreFound,
    /// The heads of its rules keep the limits.
    LimitsAreKept,
    /// The lowest fault is told of it with rules that have faults.
    LowestIsTold,
    /// Each weight of its first rule is judged.
    WeightsAreJudged,
    /// It has three contexts, and tells of them.
    IsThree,
    /// It tells what repairs may change.
    RepairsAreTold,
    /// Copies of its contexts and rules make one with this text.
    IsCopied(&'static [u8]),
    /// It has one rule.
    HasOneRule,
    /// This is its canonical text.
    IsWritten(&'static str),
    /// Its rules have these marks.
    IsMarked(&'static [(bool, bool, u32)]),
    /// It is that of the text at this place, and of no other.
    IsOnly(usize),
}

impl Claim {
    /// Whether it is so of the system.
    fn is_so(&self, alloc: Global, system: &System) -> bool {
        match self {
            Claim::TwinsAreFound => are_twins_found(alloc, system.contexts()),
            Claim::LimitsAreKept => keep_limits(alloc, system.bridges()),
            Claim::LowestIsTold => is_lowest_of_faulty_told(alloc, system),
            Claim::WeightsAreJudged => are_weights_judged(alloc, system),
            Claim::IsThree => is_three(system),
            Claim::RepairsAreTold => are_repairs_told(alloc, system) == Ok(true),
            Claim::IsCopied(text) => is_copied(alloc, system, text) == Ok(true),
            Claim::HasOneRule => has_one_rule(system),
            Claim::IsWritten(want) => is_written(alloc, system, want.as_bytes()) == Ok(true),
            Claim::IsMarked(marks) => is_marked(system.bridges(), marks),
            Claim::IsOnly(place) => is_only(alloc, system, *place),
        }
    }
}

/// Whether the text spells a system of which it is so.
pub(crate) fn holds(alloc: Global, text: &[u8], claim: &Claim) -> bool {
    let Some(system) = system_of(alloc, text) else {
        return false;
    };
    let is_so = claim.is_so(alloc, &system);
    drop(system);
    is_so
}

/// Whether this is the canonical text of the system.
pub(crate) fn is_written(alloc: Global, system: &System, want: &[u8]) -> Result<bool, Memory> {
    let mut text = Text::new(alloc);
    let written = write_system(system, &mut text);
    let is_right = text.bytes() == want;
    drop(text);
    written?;
    Ok(is_right)
}

/// A text, and the canonical one of its system, which is its own.
struct Canonical {
    text: &'static str,
    want: &'static str,
}

static CANONICAL: [Canonical; 8] = [
    Canonical { text: "", want: "" },
    Canonical {
        text: "context c1 classical{a&b->c.}",
        want: "context c1 classical {\n  (a & b) -> c.\n}\n",
    },
    Canonical {
        text: "context c classical{a->b->c. a<->b->c. (a|b)|c. ~(a<->b). ((true)).}",
        want: "context c classical {\n  a -> (b -> c).\n  a <-> (b -> c).\n  (a | b) | c.\n  ~(a <-> b).\n  true.\n}\n",
    },
    Canonical {
        text: "context d default{p:q,r&s/t.}",
        want: "context d default {\n  p : q, r & s / t.\n}\n",
    },
    Canonical {
        text: "context e program{a|b:-not c,d. :-a. :-. b:-.}",
        want: "context e program {\n  a | b :- d, not c.\n  :- a.\n  :-.\n  b.\n}\n",
    },
    Canonical {
        text: "context c classical{}bridge r:c:p if not c:(a|b),c:~q.",
        want: "context c classical {\n}\nbridge r: c:p if c:~q, not c:(a | b).\n",
    },
    // A weight of 1 is not written, nor is the version if nothing needs it.
    Canonical {
        text: "version 2.context c program{}bridge r weight 1:c:a.",
        want: "context c program {\n}\nbridge r: c:a.\n",
    },
    Canonical {
        text: "version 2. context c program{} bridge r weight 1: c:a. bridge s keep weight 30: c:b if not c:a. bridge t closed:c:a. bridge u keep closed:c:a.",
        want: "version 2.\ncontext c program {\n}\nbridge r: c:a.\nbridge s keep weight 30: c:b if not c:a.\nbridge t closed: c:a.\nbridge u keep closed: c:a.\n",
    },
];

#[test]
fn texts_are_written_in_one_way(rt: HostRuntime) {
    for row in &CANONICAL {
        let is_written = Claim::IsWritten(row.want);
        assert!(rt; holds(rt.alloc(), row.text.as_bytes(), &is_written));
        assert!(rt; holds(rt.alloc(), row.want.as_bytes(), &is_written));
    }
}

/// Whether the rule reads one belief that has to hold, and one of the third context that must not.
fn reads_one_of_each(bridge: &Bridge) -> bool {
    bridge.pos.len() == 1
        && match bridge.neg.as_slice() {
            [read] => read.context == 2,
            _ => false,
        }
}

/// Whether there are three contexts, two variables, and one rule that reads one of each.
fn has_one_rule(system: &System) -> bool {
    system.contexts().len() == 3
        && system.variables().len() == 2
        && match system.bridges() {
            [bridge] => reads_one_of_each(bridge),
            _ => false,
        }
}

/// Whether the rules are kept, are closed and weigh as this says.
fn is_marked(rules: &[Bridge], marks: &[(bool, bool, u32)]) -> bool {
    let mut are_so = rules.len() == marks.len();
    for (rule, mark) in rules.iter().zip(marks) {
        are_so &= (rule.keep, rule.closed, rule.weight) == *mark;
    }
    are_so
}

/// A text with rules of all kinds of marks, and what they say.
const MARKED: &[u8] =
    b"version 2. context c program {} bridge k keep: c:a. bridge l closed: c:a. bridge m weight 1000000: c:a.
bridge n keep closed weight 2: c:a. bridge o: c:a. bridge p keep weight 10: c:a. bridge q closed weight 1: c:a.";

static MARKS: [(bool, bool, u32); 7] = [
    (true, false, 1),
    (false, true, 1),
    (false, false, 1_000_000),
    (true, true, 2),
    (false, false, 1),
    (true, false, 10),
    (false, true, 1),
];

#[test]
fn marks_of_rules_are_read(rt: HostRuntime) {
    assert!(rt; holds(rt.alloc(), MARKED, &Claim::IsMarked(&MARKS)));
}

#[test]
fn texts_spell_one_system_each(rt: HostRuntime) {
    texts_are_unambiguous();
    texts_have_one_fault();
    spelled_texts_have_no_fault();
    assert!(rt; holds(rt.alloc(), EACH_CONSTRUCT.as_bytes(), &Claim::HasOneRule));
}
