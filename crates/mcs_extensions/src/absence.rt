//! Checks that defaults are unsupported or blocked.

ghost use Rattle.std.specs.Prelude.{◌≡◌, ◌≤◌, ◌<◌, ◌↔◌, List, length, map, IsTrue, IfOk};
ghost use Rattle.std.specs.Prelude.{MatchOption, None, Some};
ghost use Rattle.std.specs.List.{AllByRecursion};
ghost use Rattle.mcs_sets.specs.Sets.{minus, members};
ghost use Rattle.mcs_system.specs.Plain as plain;
ghost use Rattle.mcs_system.specs.Seen.{default_of, formula_of};
ghost use Rattle.mcs_cnf.specs.ClauseLists.{clause_list, IsOver};
ghost use Rattle.mcs_cnf.specs.Entailments.{entailment_of};
ghost use Rattle.mcs_evidence.specs.Defaults.{absence_of, IsAbsent, IsEntailmentShown};
ghost use Rattle.mcs_extensions.specs.Checks.{at_number, AreAbsent};
ghost use Rattle.mcs_asked.specs.Questions.{theory_names, theory_items, theory_defaults};
ghost use Rattle.mcs_evidence.specs.Theories.{all_of};

use crate::order::numbered_default;
use crate::theory::negated;
use mcs_asked::AskedTheory;
use mcs_base::{Memory, Vars};
use mcs_entailment::{denies, shows};
use mcs_system::{Default, Formula, Name};
use mcs_trace::{Cnf, Entail, Outside};
use std::alloc::Global;

/// The formula with this number, counted from 1.
fn numbered_formula(formulas: &[Formula], number: u32) -> Option<&Formula>
    ensures { MatchOption result (at_number (map formula_of formulas.now) number ≡ None)
        (λ f. at_number (map formula_of formulas.now) number ≡ Some (formula_of f.now)) }
{
    if number == 0 || (number - 1) as usize >= formulas.len() {
        return None;
    }
    Some(&formulas[(number - 1) as usize])
}

/// Whether it is shown that the negation of the formula follows from the formulas whose clauses are
/// `known`.
fn shows_negation(
    alloc: Global,
    known: &mut Cnf,
    formula: &Formula,
    atoms: &[Name],
    entail: &Entail,
) -> Result<bool, Memory>
    requires over { IsOver atoms.now (formula_of formula.now) }
    requires room { length atoms.now ≤ known.old.vars }
    ensures kept { known.new ≡ known.old }
    ensures exact { IfOk result (λ yes. (fs : List plain.Formula)
        → known.old ≡ clause_list atoms.now fs
        → IsTrue yes ↔ IsEntailmentShown atoms.now fs (plain.Not (formula_of formula.now))
        (entailment_of entail.now)) }
{
    let goal = negated(alloc, formula)?;
    let shown = shows(alloc, known, &goal, atoms, entail);
    drop(goal);
    shown
}

/// Whether it is shown that the negation of the justification with this number follows.
fn is_blocked(
    alloc: Global,
    known: &mut Cnf,
    default: &Default,
    atoms: &[Name],
    just: u32,
    entail: &Entail,
) -> Result<bool, Memory>
    requires over { AllByRecursion (IsOver atoms.now) (default_of default.now).justs }
    requires room { length atoms.now ≤ known.old.vars }
    ensures kept { known.new ≡ known.old }
    ensures exact { IfOk result (λ yes. (fs : List plain.Formula)
        → known.old ≡ clause_list atoms.now fs
        → IsTrue yes ↔ ((f : plain.Formula) × (at_number (default_of default.now).justs just
        ≡ Some f) × IsEntailmentShown atoms.now fs (plain.Not f) (entailment_of entail.now))) }
{
    let Some(formula) = numbered_formula(&default.justs, just) else {
        return Ok(false);
    };
    shows_negation(alloc, known, formula, atoms, entail)
}

/// Whether it is shown that the default with this number is unsupported or blocked. `known` has the
/// clauses of the premises.
pub(crate) fn is_absent(
    alloc: Global,
    known: &mut Cnf,
    theory: &AskedTheory<'_>,
    premises: &[&Formula],
    number: u32,
    absence: &Outside,
) -> Result<bool, Memory>
    requires { known.old
        ≡ clause_list (theory_names theory.now) (map (λ f. formula_of f.now) premises.now) }
    ensures kept { known.new ≡ known.old }
    ensures exact { IfOk result (λ yes. IsTrue yes
        ↔ IsAbsent (theory_names theory.now) (theory_items theory.now)
        (map (λ f. formula_of f.now) premises.now) number (absence_of absence.now)) }
{
    let Some(default) = numbered_default(theory.defaults, number) else {
        return Ok(false);
    };
    match absence {
        Outside::Unsupported(told, entail) => {
            if *told != number {
                return Ok(false);
            }
            Ok(denies(theory.asked, premises, &default.pre, entail, &None))
        }
        Outside::Blocked(told, just, entail) => {
            if *told != number {
                return Ok(false);
            }
            is_blocked(alloc, known, default, theory.asked.atoms, *just, entail)
        }
    }
}

/// The indices of the defaults outside the set, ascending.
fn places_outside(alloc: Global, defaults: &[&Default], set: Vars) -> Result<Vec<u32>, Memory>
    requires few { length defaults.now ≤ 64 }
    ensures places { IfOk result (λ places. places.items
        ≡ members (minus (all_of (map (λ d. default_of d.now) defaults.now)) set)) }
    ensures below { IfOk result (λ places. AllByRecursion (λ k. k < 64) places.items) }
{
    let mut places = Vec::new(alloc);
    for index in 0..defaults.len() {
        if !set.has(index as u32) {
            places.push(index as u32)?;
        }
    }
    Ok(places)
}

/// Whether it is shown, for each of the defaults at these places in order, that it is unsupported
/// or blocked. `known` has the clauses of the premises.
fn are_absent_at(
    alloc: Global,
    known: &mut Cnf,
    theory: &AskedTheory<'_>,
    premises: &[&Formula],
    places: &[u32],
    absences: &[Outside],
) -> Result<bool, Memory>
    requires made { known.old
        ≡ clause_list (theory_names theory.now) (map (λ f. formula_of f.now) premises.now) }
    requires below { AllByRecursion (λ k. k < 64) places.now }
    ensures kept { known.new ≡ known.old }
    ensures exact { IfOk result (λ yes. IsTrue yes
        ↔ AreAbsent (theory_names theory.now) (theory_items theory.now)
        (map (λ f. formula_of f.now) premises.now) places.now (map absence_of absences.now)) }
{
    if places.len() != absences.len() {
        return Ok(false);
    }
    for (index, place) in places.iter().enumerate() {
        let number = *place + 1;
        let absent = is_absent(alloc, known, theory, premises, number, &absences[index])?;
        if !absent {
            return Ok(false);
        }
    }
    Ok(true)
}

/// Whether it is shown, for each default outside the set in ascending order, that it is unsupported
/// or blocked. `known` has the clauses of the premises.
pub(crate) fn are_absent(
    alloc: Global,
    known: &mut Cnf,
    theory: &AskedTheory<'_>,
    premises: &[&Formula],
    set: Vars,
    absences: &[Outside],
) -> Result<bool, Memory>
    requires { known.old
        ≡ clause_list (theory_names theory.now) (map (λ f. formula_of f.now) premises.now) }
    ensures kept { known.new ≡ known.old }
    ensures exact { IfOk result (λ yes. IsTrue yes
        ↔ AreAbsent (theory_names theory.now) (theory_items theory.now)
        (map (λ f. formula_of f.now) premises.now)
        (members (minus (all_of (theory_defaults theory.now)) set)) (map absence_of absences.now)) }
{
    let places = places_outside(alloc, theory.defaults, set)?;
    are_absent_at(alloc, known, theory, premises, &places, absences)
}
