//! One default theory that is asked with one set of assumptions after the other.

ghost use Rattle.std.specs.Prelude.{◌≡◌, ◌≤◌, ◌<◌, false, length, map};
ghost use Rattle.std.specs.List.{AllByRecursion};
ghost use Rattle.mcs_system.specs.Faults.{has_twins};
ghost use Rattle.mcs_system.specs.Seen.{formula_of, item_of};
ghost use Rattle.mcs_cnf.specs.ClauseLists.{AreOver};
ghost use Rattle.mcs_classical.specs.declared.assumptions.Assumption as declared;
ghost use Rattle.mcs_evidence.specs.Defaults.{AreOverItems, defaults_of};

use crate::numbered::are_numbered;
use crate::systems::{first_knowledge, system_of};
use crate::theories::{beliefs_of, theory_in};
use mcs_asked::Asked;
use mcs_base::{Active, Memory};
use mcs_classical::{Assumption, Given};
use mcs_cnf::{are_different, are_over};
use mcs_default::TheoryBase;
use mcs_system::{Formula, Name, System, TheoryItem};
use std::alloc::Global;
use std::test::Fail;

/// The beliefs `p` and `q`, and then what is assumed: `a` gives both, `b` gives `~p`, and each of
/// these two keeps out the other one.
const SWITCHED: &str = "context c1 default { a : p / p. p : q / q. b : ~p / ~p. }
context c2 classical { p. q. a. b. ~a. }";

/// Sets of assumptions in the order in which the theory is asked with them, and with each the
/// numbers of the views.
const TURNS: &[(u64, &[u64])] = &[
    (0, &[0]),
    (1, &[3]),
    (2, &[0]),
    (3, &[3, 0]),
    (4, &[0]),
    (5, &[3]),
    (6, &[0]),
    (7, &[3]),
    (3, &[3, 0]),
    (0, &[0]),
];

/// Whether one theory, asked in turn, has these views.
fn are_found_in_turn(
    alloc: Global,
    items: &[TheoryItem],
    assumptions: &[Assumption<'_>],
    beliefs: &[&Formula],
    atoms: &[Name],
    turns: &[(u64, &[u64])],
) -> Result<bool, Memory>
    requires over { AreOverItems atoms.now (map item_of items.now) }
    requires numbers { AllByRecursion (λ (a : declared.Assumption). a.number < 64) assumptions.now }
    requires assumptions { AreOver atoms.now (map
        (λ (a : declared.Assumption). formula_of a.formula.now) assumptions.now) }
    requires beliefs { AreOver atoms.now (map (λ b. formula_of b.now) beliefs.now) }
    requires different { has_twins atoms.now ≡ false }
    requires few { length atoms.now ≤ 64 }
    requires few_beliefs { length beliefs.now ≤ 64 }
    requires few_defaults { length (defaults_of (map item_of items.now)) ≤ 10 }
{
    let asked = Asked { atoms, beliefs };
    let given = Given {
        asked: &asked,
        assumptions,
    };
    let mut base = TheoryBase::new(alloc, items, atoms)?;
    let mut are_right = true;
    for (number, wanted) in turns {
        let set = Active::numbered(*number);
        are_right &= match base.list_extensions(alloc, items, &given, set) {
            Ok(found) => are_numbered(&found, wanted),
            Err(_) => false,
        };
    }
    drop(base);
    Ok(are_right)
}

/// Whether the first context, asked in turn for the first two formulas of the second one with some
/// of the others, has these views.
fn has_views_in_turn(
    alloc: Global,
    system: &System,
    turns: &[(u64, &[u64])],
) -> Result<bool, Memory> {
    if system.contexts().is_empty() {
        return Ok(false);
    }
    let (knowledge, atoms) = first_knowledge(system);
    let formulas = beliefs_of(system);
    let Some(items) = theory_in(knowledge, atoms) else {
        return Ok(false);
    };
    let [first, second, one, other, contrary] = formulas else {
        return Ok(false);
    };
    if !are_different(atoms) || !are_over(atoms, formulas) {
        return Ok(false);
    }
    let assumptions = [
        Assumption {
            number: 0,
            formula: one,
        },
        Assumption {
            number: 1,
            formula: other,
        },
        Assumption {
            number: 2,
            formula: contrary,
        },
    ];
    are_found_in_turn(alloc, items, &assumptions, &[first, second], atoms, turns)
}

#[test]
fn what_is_found_with_assumptions_serves_for_others(rt: HostRuntime) -> Result<(), Fail> {
    let system = system_of(rt.alloc(), SWITCHED)?;
    let is_right = has_views_in_turn(rt.alloc(), &system, TURNS);
    drop(system);
    assert!(rt; is_right == Ok(true));
    Ok(())
}
