//! The cheapest diagnoses of systems whose rules have weights, by an evaluation: chosen among all
//! minimal ones, and told alone.

use crate::evaluators::evaluator_of;
use crate::meshes::marks_of;
use crate::systems::{SELF_ATTACK, system_of};
use mcs_base::Memory;
use mcs_cheapest::{Cheapest, cheapest_are_listed, list_cheapest, list_least};
use mcs_costs::{
    cheapest_are_minimal, costs_grow, stop_level_is_a_quotient, worked_costs, worked_stop_levels,
};
use mcs_diagnosis::{Diagnosis, Levels};
use mcs_ports::IdleGate;
use mcs_states::Halt;
use mcs_system::System;
use std::alloc::Global;
use std::sync::Arc;
use std::test::Fail;

/// More questions than any of these systems has.
const ENOUGH: u64 = 100;

/// A rule against its own context, of weight 3.
const DEAR: &str = "version 2. context c1 program {} bridge r1 weight 3: c1:a if not c1:a.";

/// The second context is told by two rules what it forbids, unless the third one is forced, which
/// costs more than to remove the two.
const TWO_OR_ONE: &str = "version 2. context c1 program { a. }
context c2 program { :- p, not s. :- q, not s. } bridge r1: c2:p if c1:a.
bridge r2: c2:q if not c1:b. bridge r3 weight 5: c2:s if c1:b.";

/// The same, where to force the third rule costs as much as to remove the two.
const TIED: &str = "version 2. context c1 program { a. }
context c2 program { :- p, not s. :- q, not s. } bridge r1: c2:p if c1:a.
bridge r2: c2:q if not c1:b. bridge r3 weight 2: c2:s if c1:b.";

/// Two contexts, each of which is told by two rules what it forbids together.
const TWICE: &str = "context c1 program { a. } context c2 program { :- p, q. }
context c3 program { :- p, q. } bridge r1: c2:p if c1:a. bridge r2: c2:q if c1:a.
bridge r3: c3:p if c1:a. bridge r4: c3:q if c1:a.";

/// The rule of the conflict weighs twice as much as the others, which have nothing to do with it.
const LIGHT: &str = "version 2. context c1 program {} context c2 program {}
bridge r1 weight 2: c1:a if not c1:a. bridge r2: c2:p if c1:b. bridge r3: c2:q if c1:b.
bridge r4: c2:s if c1:b.";

/// A consistent system.
const CONSISTENT: &str = "context c1 program { a. } bridge r1: c1:b if c1:a.";

/// A rule against its own context that may be neither removed nor forced.
const BARRED: &str = "version 2. context c1 program {} bridge r1 keep closed: c1:a if not c1:a.";

/// An inconsistent system without rules.
const PARADOX: &str = "context c1 program { :- not a. }";

/// A system by its text, and what a search for its cheapest diagnoses finds.
struct Searched {
    text: &'static str,
    /// The marks of each of them, in order: rule `r` has mark `2r` where it is removed, and
    /// `2r + 1` where it is forced.
    found: &'static [&'static [u32]],
    cost: Option<u64>,
    need: u64,
}

const SEARCHED: [Searched; 9] = [
    Searched {
        text: SELF_ATTACK,
        found: &[&[0], &[1]],
        cost: Some(1),
        need: 2,
    },
    Searched {
        text: DEAR,
        found: &[&[0], &[1]],
        cost: Some(3),
        need: 2,
    },
    Searched {
        text: TWO_OR_ONE,
        found: &[&[0, 2]],
        cost: Some(2),
        need: 8,
    },
    Searched {
        text: TIED,
        found: &[&[5], &[0, 2]],
        cost: Some(2),
        need: 8,
    },
    Searched {
        text: TWICE,
        found: &[&[0, 4], &[0, 6], &[2, 4], &[2, 6]],
        cost: Some(2),
        need: 9,
    },
    Searched {
        text: LIGHT,
        found: &[&[0], &[1]],
        cost: Some(2),
        need: 9,
    },
    Searched {
        text: CONSISTENT,
        found: &[&[]],
        cost: Some(0),
        need: 2,
    },
    Searched {
        text: BARRED,
        found: &[],
        cost: None,
        need: 2,
    },
    Searched {
        text: PARADOX,
        found: &[],
        cost: None,
        need: 1,
    },
];

/// Whether the diagnoses have these marks, in this order.
fn have_marks(found: &[Diagnosis], wanted: &[&[u32]]) -> bool {
    if found.len() != wanted.len() {
        return false;
    }
    for (diagnosis, marks) in found.iter().zip(wanted) {
        if diagnosis.pair.marks() != marks_of(marks) {
            return false;
        }
    }
    true
}

/// Whether a search of the system has found what it should.
fn is_found(searched: &Result<Cheapest, Halt>, row: &Searched) -> bool {
    match searched {
        Ok(cheapest) => {
            cheapest.cost == row.cost
                && cheapest.need == row.need
                && have_marks(&cheapest.found, row.found)
        }
        Err(_) => false,
    }
}

/// What the search of the system finds that chooses among all minimal diagnoses.
fn chosen(alloc: Global, system: &Arc<System>, budget: u64) -> Result<Cheapest, Halt> {
    let evaluator = evaluator_of(alloc, system, budget, &IdleGate)?;
    let mut levels = Levels::new(evaluator, system.clone()?);
    let searched = list_cheapest(alloc, &mut levels, system);
    drop(levels.into_evaluator());
    searched
}

/// What the search finds that is told the cheapest diagnoses alone.
fn told(alloc: Global, system: &Arc<System>, budget: u64) -> Result<Cheapest, Halt> {
    let mut evaluator = evaluator_of(alloc, system, budget, &IdleGate)?;
    let searched = list_least(alloc, &mut evaluator, system);
    drop(evaluator);
    searched
}

/// Whether both searches of the system find what they should.
fn finds(alloc: Global, system: &Arc<System>, row: &Searched) -> bool {
    let chosen = chosen(alloc, system, ENOUGH);
    let is_right = is_found(&chosen, row);
    drop(chosen);
    let told = told(alloc, system, ENOUGH);
    let are_right = is_right && is_found(&told, row);
    drop(told);
    are_right
}

#[test]
fn cheapest_diagnoses_are_listed(rt: HostRuntime) -> Result<(), Fail> {
    let mut are_right = true;
    for row in &SEARCHED {
        let system = system_of(rt.alloc(), row.text)?;
        are_right &= finds(rt.alloc(), &system, row);
        drop(system);
    }
    assert!(rt; are_right);
    Ok(())
}

/// The level at which a search went over the budget, if it did.
fn spent_at(searched: Result<Cheapest, Halt>) -> Option<u32> {
    match searched {
        Err(Halt::Spent { level, .. }) => Some(level),
        Err(_) => None,
        Ok(cheapest) => {
            drop(cheapest);
            None
        }
    }
}

/// Whether both searches of the system go over the budget at this level, or at none.
fn are_spent_at(alloc: Global, system: &Arc<System>, budget: u64, level: Option<u32>) -> bool {
    spent_at(chosen(alloc, system, budget)) == level
        && spent_at(told(alloc, system, budget)) == level
}

#[test]
fn a_budget_is_spent_at_its_level(rt: HostRuntime) -> Result<(), Fail> {
    let system = system_of(rt.alloc(), TWO_OR_ONE)?;
    assert!(rt; are_spent_at(rt.alloc(), &system, 7, Some(2)));
    assert!(rt; are_spent_at(rt.alloc(), &system, 8, None));
    Ok(())
}

#[test]
fn laws_of_costs_are_called(_rt: HostRuntime) {
    costs_grow();
    cheapest_are_minimal();
    stop_level_is_a_quotient();
    worked_costs();
    worked_stop_levels();
    cheapest_are_listed();
}
