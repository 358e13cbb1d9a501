//! The orders in which contexts are asked, and what each is told and guesses.

use crate::contexts::system_of;
use mcs_base::Vars;
use mcs_import::Plan;
use std::alloc::Global;

/// A plan for the system that a text spells.
pub(crate) fn plan_of(alloc: Global, text: &str) -> Option<Plan> {
    let system = system_of(alloc, text.as_bytes())?;
    Plan::of(alloc, system).ok()
}

/// Whether the plan is this one.
fn is_planned(plan: &Plan, wanted: &Order) -> bool {
    (wanted.context as usize) < plan.system().contexts().len()
        && plan.order() == wanted.order
        && plan.supplied(wanted.context) == wanted.supplied
        && plan.guessed(wanted.context) == Vars::numbered(wanted.guessed)
}

/// It imports a context of a higher number.
const LATER: &str = "context n0 classical {} context n1 classical {} bridge r0: n0:true if n1:x.";

/// It imports itself.
pub(crate) const ITSELF: &str = "context n0 classical {} bridge r0: n0:true if n0:x.";

/// The middle one imports one before it, itself, and one after it that imports it.
const MIDDLE: &str = "context n0 classical {} context n1 classical {} context n2 classical {}
bridge r0: n1:true if n0:x. bridge r1: n1:true if n2:x.
bridge r2: n2:true if n1:x. bridge r3: n1:true if n1:x.";

/// Two rings, the first of which imports the second.
const TWO_RINGS: &str = "context n0 classical {} context n1 classical {} context n2 classical {}
context n3 classical {} context n4 classical {} context n5 classical {}
bridge r0: n0:true if n1:x. bridge r1: n1:true if n2:x. bridge r2: n2:true if n0:x.
bridge r3: n3:true if n4:x. bridge r4: n4:true if n5:x. bridge r5: n5:true if n3:x.
bridge r6: n0:true if n3:x.";

/// `p` is told if `a` is believed, and `q` if `b` is not, which the second context forbids both.
pub(crate) const FORBIDDEN: &str = "context c1 program { a. } context c2 program { :- p. :- q. }
bridge r1: c2:p if c1:a. bridge r2: c2:q if not c1:b.";

/// A text, the order of its contexts, and for one of them what supplies it and what it guesses, as
/// bits of a number.
struct Order {
    text: &'static str,
    order: &'static [u32],
    context: u32,
    supplied: &'static [u32],
    guessed: u64,
}

static ORDERS: [Order; 5] = [
    Order {
        text: LATER,
        order: &[1, 0],
        context: 0,
        supplied: &[1],
        guessed: 0b0,
    },
    Order {
        text: ITSELF,
        order: &[0],
        context: 0,
        supplied: &[],
        guessed: 0b1,
    },
    Order {
        text: MIDDLE,
        order: &[0, 1, 2],
        context: 1,
        supplied: &[0],
        guessed: 0b110,
    },
    Order {
        text: TWO_RINGS,
        order: &[3, 4, 5, 0, 1, 2],
        context: 0,
        supplied: &[3],
        guessed: 0b10,
    },
    Order {
        text: FORBIDDEN,
        order: &[0, 1],
        context: 1,
        supplied: &[0],
        guessed: 0b0,
    },
];

/// Whether the plan for the text is this one.
fn is_ordered(alloc: Global, wanted: &Order) -> bool {
    let Some(plan) = plan_of(alloc, wanted.text) else {
        return false;
    };
    let is_right = is_planned(&plan, wanted);
    drop(plan);
    is_right
}

#[test]
fn orders_contexts(rt: HostRuntime) {
    for wanted in &ORDERS {
        assert!(rt; is_ordered(rt.alloc(), wanted));
    }
}

/// Whether the plan is the same as that for the system that a text spells.
fn is_of(alloc: Global, plan: &Plan, text: &str) -> Option<bool> {
    let other = plan_of(alloc, text)?;
    let same = plan.is(&other);
    drop(other);
    Some(same)
}

const KINDS: &str = "context c1 classical { a & b. } context c2 default { p. q : r / s. }
context c3 program { x :- y, not z. } bridge r1: c1:a if c2:p, not c3:x.";

/// The same with other blanks.
const SPACED: &str = "context c1 classical {a&b.}\ncontext c2 default {p. q:r/s.}
context c3 program {x:-y,not z.}\nbridge r1: c1:a if c2:p, not c3:x.";

/// Texts, and whether their plan is that of the first.
static TEXTS: [(&str, bool); 4] = [
    (SPACED, true),
    // Another rule of the program.
    (
        "context c1 classical { a & b. } context c2 default { p. q : r / s. }
context c3 program { x :- y, not y. } bridge r1: c1:a if c2:p, not c3:x.",
        false,
    ),
    // Another read of the bridge rule.
    (
        "context c1 classical { a & b. } context c2 default { p. q : r / s. }
context c3 program { x :- y, not z. } bridge r1: c1:a if c2:p, not c3:y.",
        false,
    ),
    // No bridge rule.
    (
        "context c1 classical { a & b. } context c2 default { p. q : r / s. }
context c3 program { x :- y, not z. }",
        false,
    ),
];

/// Whether the plan is the same as those for the texts that are said to have it, and as no other.
fn are_told_apart(alloc: Global, plan: &Plan) -> bool {
    let mut are_right = true;
    for (text, same) in &TEXTS {
        are_right &= is_of(alloc, plan, text) == Some(*same);
    }
    are_right
}

/// The same of the plan for the first text.
fn are_kinds_told_apart(alloc: Global) -> bool {
    let Some(plan) = plan_of(alloc, KINDS) else {
        return false;
    };
    let are_right = are_told_apart(alloc, &plan);
    drop(plan);
    are_right
}

#[test]
fn plans_of_one_system_are_the_same(rt: HostRuntime) {
    assert!(rt; are_kinds_told_apart(rt.alloc()));
}
