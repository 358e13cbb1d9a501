//! Checks that formulas follow from others, or that they do not: a trace is checked, and under an
//! assignment the formulas are evaluated.

ghost use Rattle.std.specs.Prelude.{◌≡◌, ℕ, ◌≤◌, ◌↔◌, List, length, map, IsTrue, IfOk, IfSome};
ghost use Rattle.std.specs.Prelude.{MatchOption};
ghost use Rattle.mcs_sets.specs.Sets.{has};
ghost use Rattle.mcs_system.specs.Logic.{holds_all, true_names};
ghost use Rattle.mcs_system.specs.Plain as plain;
ghost use Rattle.mcs_system.specs.Seen.{formula_of};
ghost use Rattle.mcs_trace.specs.Traces.{inferences_of};
ghost use Rattle.mcs_cnf.specs.ClauseLists.{clause_list, IsOver};
ghost use Rattle.mcs_cnf.specs.Classical.{HasYes, AreShown};
ghost use Rattle.mcs_cnf.specs.Entailments.{Yes, entailment_of, says_yes, IsAcceptedEntailment};
ghost use Rattle.mcs_cnf.specs.Entailments.{IsModelAt, IsRefuted};
ghost use Rattle.mcs_evidence.specs.Defaults.{IsEntailmentShown, IsDenied, AreDenied};
ghost use Rattle.mcs_evidence.specs.Programs.{IsInRange};
ghost use Rattle.mcs_asked.specs.Questions.{asked_beliefs};

use mcs_asked::Asked;
use mcs_base::{Memory, Vars};
use mcs_cnf::{model_shown, push_negation};
use mcs_system::{Formula, Name, holds_at};
use mcs_trace::{Cnf, Entail, Trace, check};
use std::alloc::Global;

/// Whether each of the places is that of an atom.
pub fn is_in_range(atoms: &[Name], places: u64) -> bool
    ensures { IsTrue result ↔ IsInRange atoms.now places }
{
    atoms.len() >= 64 || places < 1 << atoms.len()
}

/// Whether the trace refutes the formulas whose clauses are `known`, together with the negated
/// goal. The clauses of the goal are added for the test and removed again.
fn is_refuted_by(
    alloc: Global,
    known: &mut Cnf,
    goal: &Formula,
    atoms: &[Name],
    trace: &Trace,
) -> Result<bool, Memory>
    requires goal { IsOver atoms.now (formula_of goal.now) }
    requires room { length atoms.now ≤ known.old.vars }
    ensures kept { known.new ≡ known.old }
    ensures exact { IfOk result (λ yes. (fs : List plain.Formula)
        → known.old ≡ clause_list atoms.now fs
        → IsTrue yes ↔ IsAcceptedEntailment atoms.now fs (formula_of goal.now)
        (Yes (inferences_of trace.now))) }
{
    let vars = known.vars();
    let count = known.clauses().len();
    push_negation(alloc, known, atoms, goal)?;
    let right = check(alloc, known, trace);
    known.cut(vars, count);
    right
}

/// Whether the formulas hold if exactly the atoms at these places are true.
fn hold_at(atoms: &[Name], values: Vars, formulas: &[&Formula]) -> bool
    requires few { length atoms.now ≤ 64 }
    ensures { result
        ≡ holds_all (true_names 0 atoms.now values) (map (λ f. formula_of f.now) formulas.now) }
{
    formulas.iter().all(|f| holds_at(atoms, values, f))
}

/// Whether the places are those of atoms, and the formulas hold if exactly these are true. `model`
/// may be such a set that was found before.
fn is_model_at(asked: &Asked<'_>, premises: &[&Formula], places: u64, model: &Option<Vars>) -> bool
    requires known { IfSome model.now (IsModelAt asked.now.atoms.now
        (map (λ f. formula_of f.now) premises.now)) }
    ensures { IsTrue result
        ↔ IsModelAt asked.now.atoms.now (map (λ f. formula_of f.now) premises.now) places }
{
    let values = Vars::numbered(places);
    if *model == Some(values) {
        return true;
    }
    if !is_in_range(asked.atoms, places) {
        return false;
    }
    hold_at(asked.atoms, values, premises)
}

/// Whether the formulas hold and the goal does not, if exactly the atoms at these places are true.
fn is_refuted_at(
    asked: &Asked<'_>,
    premises: &[&Formula],
    goal: &Formula,
    places: u64,
    model: &Option<Vars>,
) -> bool
    requires known { IfSome model.now (IsModelAt asked.now.atoms.now
        (map (λ f. formula_of f.now) premises.now)) }
    ensures { IsTrue result ↔ IsRefuted asked.now.atoms.now
        (map (λ f. formula_of f.now) premises.now) (formula_of goal.now) places }
{
    if !is_model_at(asked, premises, places, model) {
        return false;
    }
    !holds_at(asked.atoms, Vars::numbered(places), goal)
}

/// Whether it is shown that the goal follows from the formulas whose clauses are `known`.
pub fn shows(
    alloc: Global,
    known: &mut Cnf,
    goal: &Formula,
    atoms: &[Name],
    entail: &Entail,
) -> Result<bool, Memory>
    requires goal { IsOver atoms.now (formula_of goal.now) }
    requires room { length atoms.now ≤ known.old.vars }
    ensures kept { known.new ≡ known.old }
    ensures exact { IfOk result (λ yes. (fs : List plain.Formula)
        → known.old ≡ clause_list atoms.now fs
        → IsTrue yes
        ↔ IsEntailmentShown atoms.now fs (formula_of goal.now) (entailment_of entail.now)) }
{
    match entail {
        Entail::Yes(trace) => is_refuted_by(alloc, known, goal, atoms, trace),
        Entail::No(_) => Ok(false),
    }
}

/// Whether it is shown that the goal does not follow from the formulas. `model` may be a known
/// model of these.
pub fn denies(
    asked: &Asked<'_>,
    premises: &[&Formula],
    goal: &Formula,
    entail: &Entail,
    model: &Option<Vars>,
) -> bool
    requires known { IfSome model.now (IsModelAt asked.now.atoms.now
        (map (λ f. formula_of f.now) premises.now)) }
    ensures { IsTrue result ↔ IsDenied asked.now.atoms.now
        (map (λ f. formula_of f.now) premises.now) (formula_of goal.now)
        (entailment_of entail.now) }
{
    match entail {
        Entail::Yes(_) => false,
        Entail::No(places) => is_refuted_at(asked, premises, goal, *places, model),
    }
}

/// Whether it is shown, for each of the goals in order, that it does not follow.
pub fn deny(
    asked: &Asked<'_>,
    premises: &[&Formula],
    goals: &[&Formula],
    entails: &[Entail],
) -> bool
    ensures { IsTrue result ↔ AreDenied asked.now.atoms.now
        (map (λ f. formula_of f.now) premises.now) (map (λ f. formula_of f.now) goals.now)
        (map entailment_of entails.now) }
{
    if goals.len() != entails.len() {
        return false;
    }
    let mut model = None;
    for (index, goal) in goals.iter().enumerate() {
        let entail = &entails[index];
        if !denies(asked, premises, goal, entail, &model) {
            return false;
        }
        model = model_shown(model, entail);
    }
    true
}

/// Whether the entailment is a `yes`.
fn says_yes(entail: &Entail) -> bool
    ensures { result ≡ says_yes (entailment_of entail.now) }
{
    match entail {
        Entail::Yes(_) => true,
        Entail::No(_) => false,
    }
}

/// The places of the entailments that are a `yes`.
fn places_with_yes(entails: &[Entail]) -> Vars
    requires few { length entails.now ≤ 64 }
    ensures { (b : ℕ) → IsTrue (has result b) ↔ HasYes (map entailment_of entails.now) b }
{
    let mut places = Vars::empty();
    for (index, entail) in entails.iter().enumerate() {
        if says_yes(entail) {
            places = places.with(index as u32);
        }
    }
    places
}

/// The places of the beliefs that follow from the formulas, whose clauses are `known`, if it is
/// shown of each belief that it does or that it does not.
pub fn shown_places(
    alloc: Global,
    known: &mut Cnf,
    asked: &Asked<'_>,
    premises: &[&Formula],
    entails: &[Entail],
) -> Result<Option<Vars>, Memory>
    requires made { known.old
        ≡ clause_list asked.now.atoms.now (map (λ f. formula_of f.now) premises.now) }
    ensures kept { known.new ≡ known.old }
    ensures exact { IfOk result (λ view. MatchOption view
        ((places : ℕ) → ¬ AreShown asked.now.atoms.now (map (λ f. formula_of f.now) premises.now)
        (asked_beliefs asked.now) places (map entailment_of entails.now))
        (λ places. AreShown asked.now.atoms.now (map (λ f. formula_of f.now) premises.now)
        (asked_beliefs asked.now) places (map entailment_of entails.now))) }
{
    let beliefs = asked.beliefs;
    if entails.len() != beliefs.len() {
        return Ok(None);
    }
    let mut model = None;
    for (index, belief) in beliefs.iter().enumerate() {
        let entail = &entails[index];
        if !denies(asked, premises, belief, entail, &model)
            && !shows(alloc, known, belief, asked.atoms, entail)?
        {
            return Ok(None);
        }
        model = model_shown(model, entail);
    }
    Ok(Some(places_with_yes(entails)))
}
