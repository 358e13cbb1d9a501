//! Formulas that are assumed beside others, each given by a number.

ghost use Rattle.std.specs.Prelude.{◌≡◌, ◌<◌, map, IfOk, IsTrue};
ghost use Rattle.std.specs.List.{AllByRecursion};
ghost use Rattle.mcs_sets.specs.Sets.{has};
ghost use Rattle.mcs_system.specs.Seen.{formula_of};
ghost use Rattle.mcs_classical.specs.Assumptions.{assumed, AreHeads, DoHold, HoldsAt};
ghost use Rattle.mcs_classical.specs.Given.{given_names};
ghost use Rattle.mcs_classical.specs.declared.assumptions.Assumption as declared;

use crate::given::Given;
use mcs_base::{Active, Memory, Vars};
use mcs_system::{Formula, System, holds_at};
use std::alloc::Global;

/// A formula that may be assumed, with its number. Several may have one number.
#[derive(Clone, Copy)]
pub struct Assumption<'a> {
    pub number: u32,
    pub formula: &'a Formula,
}

/// The heads of all rules that go into the context, in the order of the rules. Each has the number
/// of its rule, so the assumptions of a set of rules are the heads of these.
pub fn assumptions_into(
    alloc: Global,
    system: &System,
    context: u32,
) -> Result<Vec<Assumption<'_>>, Memory>
    ensures { IfOk result (λ heads. AreHeads system.now context heads.items) }
{
    let mut heads = Vec::new(alloc);
    for (number, rule) in system.bridges().iter().enumerate() {
        if rule.target == context {
            heads.push(Assumption {
                number: number as u32,
                formula: &rule.head,
            })?;
        }
    }
    Ok(heads)
}

/// The formulas of the assumptions whose numbers are in the set, in the order of the assumptions.
pub fn assumed<'a>(
    alloc: Global,
    assumptions: &[Assumption<'a>],
    set: Active,
) -> Result<Vec<&'a Formula>, Memory>
    requires { AllByRecursion (λ (a : declared.Assumption). a.number < 64) assumptions.now }
    ensures { IfOk result (λ formulas. map (λ f. formula_of f.now) formulas.items
        ≡ assumed set assumptions.now) }
{
    let mut formulas = Vec::new(alloc);
    for assumption in assumptions {
        if set.has(assumption.number) {
            formulas.push(assumption.formula)?;
        }
    }
    Ok(formulas)
}

/// The numbers of which all assumptions hold if exactly the atoms at the places in `values` are
/// true. From these assumptions, and formulas that hold under this assignment, nothing follows that
/// does not hold under it.
pub fn holding(given: &Given<'_>, values: Vars) -> Active
    ensures each { AllByRecursion (λ (a : declared.Assumption). IsTrue (has result a.number)
        → HoldsAt (given_names given.now) values a) given.now.assumptions.now }
    ensures all { AllByRecursion (λ (a : declared.Assumption).
        DoHold (given_names given.now) values a.number given.now.assumptions.now
        → IsTrue (has result a.number)) given.now.assumptions.now }
{
    let assumptions = given.assumptions;
    let mut held = Active::empty();
    let mut failed = Active::empty();
    for assumption in assumptions {
        if holds_at(given.asked.atoms, values, assumption.formula) {
            held = held.with(assumption.number);
        } else {
            failed = failed.with(assumption.number);
        }
    }
    held.minus(failed)
}
