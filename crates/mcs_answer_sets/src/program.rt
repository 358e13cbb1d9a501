//! Certificates of programs.

ghost use Rattle.std.specs.Prelude.{◌≡◌, ℕ, ◌≤◌, ◌++◌, ◌↔◌, List, length, map, IsTrue, IfOk};
ghost use Rattle.std.specs.Prelude.{MatchOption};
ghost use Rattle.std.specs.List.{AllByRecursion, filter_map, list_all, list_any};
ghost use Rattle.mcs_sets.specs.Orders.{StateBefore};
ghost use Rattle.mcs_base.specs.Listings.{IsAscending};
ghost use Rattle.mcs_system.specs.Faults.{is_atom};
ghost use Rattle.mcs_system.specs.Logic.{is_in, fact_of, holds, holds_all, true_names, Atoms};
ghost use Rattle.mcs_system.specs.Seen.{formula_of, rule_of};
ghost use Rattle.mcs_system.specs.Views.{Shows};
ghost use Rattle.mcs_trace.specs.Traces.{inferences_of};
ghost use Rattle.mcs_cnf.specs.ClauseLists.{AreOver};
ghost use Rattle.mcs_evidence.specs.Programs.{rule_formula, rest_formulas, model_shown_of};
ghost use Rattle.mcs_evidence.specs.Programs.{program_shown_of, AreOverRules, IsInRange};
ghost use Rattle.mcs_evidence.specs.Programs.{IsModelShown, IsRefutation, IsAcceptedProgram};
ghost use Rattle.mcs_asked.specs.Questions.{asked_beliefs, program_rules, program_beliefs};
ghost use Rattle.mcs_answer_sets.specs.Models.{AreModelsShown};

use mcs_asked::{Asked, AskedProgram};
use mcs_base::{Memory, Vars, state_before};
use mcs_entailment::is_in_range;
use mcs_evidence::{rest_clauses, smaller_clauses};
use mcs_system::{Formula, Name, ProgRule, names_of, with_heads};
use mcs_trace::{AnswerSetCert, ProgramCert, Trace, check};
use std::alloc::Global;

/// Whether the name is that of an atom at one of the places.
fn is_true_at(atoms: &[Name], places: Vars, name: &Name) -> bool
    requires few { length atoms.now ≤ 64 }
    ensures { result ≡ is_in name.now (true_names 0 atoms.now places) }
{
    for (k, atom) in atoms.iter().enumerate() {
        if places.has(k as u32) && name.is(atom) {
            return true;
        }
    }
    false
}

/// Whether each of the names is that of an atom at one of the places.
fn all_true(atoms: &[Name], places: Vars, names: &[Name]) -> bool
    requires few { length atoms.now ≤ 64 }
    ensures { result ≡ list_all (λ n. is_in n (true_names 0 atoms.now places)) names.now }
{
    names.iter().all(|name| is_true_at(atoms, places, name))
}

/// Whether one of the names is that of an atom at one of the places.
fn some_true(atoms: &[Name], places: Vars, names: &[Name]) -> bool
    requires few { length atoms.now ≤ 64 }
    ensures { result ≡ list_any (λ n. is_in n (true_names 0 atoms.now places)) names.now }
{
    names.iter().any(|name| is_true_at(atoms, places, name))
}

/// Whether the rule holds if exactly the atoms at these places are true.
fn rule_holds(atoms: &[Name], places: Vars, rule: &ProgRule) -> bool
    requires few { length atoms.now ≤ 64 }
    ensures { result ≡ holds (true_names 0 atoms.now places) (rule_formula (rule_of rule.now)) }
{
    if !all_true(atoms, places, &rule.pos) {
        return true;
    }
    if some_true(atoms, places, &rule.neg) {
        return true;
    }
    some_true(atoms, places, &rule.head)
}

/// Whether each of the rules holds if exactly the atoms at these places are true. There are at most
/// 64 atoms.
pub fn rules_hold(atoms: &[Name], places: Vars, rules: &[ProgRule]) -> bool
    requires few { length atoms.now ≤ 64 }
    ensures { result
        ≡ holds_all (true_names 0 atoms.now places) (map rule_formula (map rule_of rules.now)) }
{
    rules.iter().all(|rule| rule_holds(atoms, places, rule))
}

/// The indices of the beliefs that are true if exactly the atoms at these places are.
pub fn view_of(program: &AskedProgram<'_>, places: Vars) -> Vars
    ensures { Shows (Atoms (true_names 0 program.now.atoms.now places))
        (program_beliefs program.now) result }
{
    let beliefs = program.beliefs;
    let mut view = Vars::empty();
    for (k, belief) in beliefs.iter().enumerate() {
        if is_true_at(program.atoms, places, belief) {
            view = view.with(k as u32);
        }
    }
    view
}

/// Whether it is shown that the atoms of the model are an answer set.
fn is_model_shown(
    alloc: Global,
    program: &AskedProgram<'_>,
    shown: &AnswerSetCert,
) -> Result<bool, Memory>
    ensures { IfOk result (λ yes. IsTrue yes ↔ IsModelShown program.now.atoms.now
        (program_rules program.now) (model_shown_of shown.now)) }
{
    let model = Vars::numbered(shown.model);
    if !is_in_range(program.atoms, shown.model) {
        return Ok(false);
    }
    if !rules_hold(program.atoms, model, program.rules) {
        return Ok(false);
    }
    let smaller = smaller_clauses(alloc, program.atoms, program.rules, model)?;
    check(alloc, &smaller, &shown.minimal)
}

/// The views of the models, in their order, if each is shown to be an answer set.
fn model_views(
    alloc: Global,
    program: &AskedProgram<'_>,
    models: &[AnswerSetCert],
) -> Result<Option<Vec<Vars>>, Memory>
    ensures { IfOk result (λ shown. MatchOption shown
        ((views : List ℕ) → ¬ AreModelsShown program.now.atoms.now (program_rules program.now)
        (program_beliefs program.now) views (map model_shown_of models.now))
        (λ views. AreModelsShown program.now.atoms.now (program_rules program.now)
        (program_beliefs program.now) views.items (map model_shown_of models.now))) }
{
    let mut views = Vec::new(alloc);
    for shown in models {
        let fine = is_model_shown(alloc, program, shown)?;
        if !fine {
            return Ok(None);
        }
        views.push(view_of(program, Vars::numbered(shown.model)))?;
    }
    Ok(Some(views))
}

/// Whether the states are strictly ascending, in the order of states.
pub fn are_ascending(states: &[Vars]) -> bool
    ensures { IsTrue result ↔ IsAscending StateBefore states.now }
{
    for index in 1..states.len() {
        if !state_before(states[index - 1], states[index]) {
            return false;
        }
    }
    true
}

/// The sets with these numbers, if each is a set of places of atoms.
fn sets_of(alloc: Global, atoms: &[Name], numbers: &[u64]) -> Result<Option<Vec<Vars>>, Memory>
    ensures { IfOk result (λ sets. MatchOption sets
        (¬ AllByRecursion (IsInRange atoms.now) numbers.now)
        (λ sets. (sets.items ≡ numbers.now) × AllByRecursion (IsInRange atoms.now) numbers.now)) }
{
    let mut sets = Vec::new(alloc);
    for number in numbers {
        if !is_in_range(atoms, *number) {
            return Ok(None);
        }
        sets.push(Vars::numbered(*number))?;
    }
    Ok(Some(sets))
}

/// Whether the trace shows that no model is left: each has one of these views, or one of the
/// smaller sets undoes it.
fn is_rest_refuted(
    alloc: Global,
    program: &AskedProgram<'_>,
    smaller: &[Vars],
    views: &[Vars],
    trace: &Trace,
) -> Result<bool, Memory>
    ensures { IfOk result (λ yes. IsTrue yes
        ↔ IsRefutation program.now.atoms.now (rest_formulas program.now.atoms.now
        (program_rules program.now) (program_beliefs program.now) smaller.now views.now)
        (inferences_of trace.now)) }
{
    let rest = rest_clauses(
        alloc,
        program.atoms,
        program.rules,
        program.beliefs,
        smaller,
        views,
    )?;
    check(alloc, &rest, trace)
}

/// The views that the certificate shows for the rules, if it is accepted.
fn views_of_rules(
    alloc: Global,
    program: &AskedProgram<'_>,
    cert: &ProgramCert,
) -> Result<Option<Vec<Vars>>, Memory>
    ensures { IfOk result (λ shown. MatchOption shown
        ((views : List ℕ) → ¬ IsAcceptedProgram program.now.atoms.now (program_rules program.now)
        (program_beliefs program.now) views (program_shown_of cert.now))
        (λ views. IsAcceptedProgram program.now.atoms.now (program_rules program.now)
        (program_beliefs program.now) views.items (program_shown_of cert.now))) }
{
    let sets = sets_of(alloc, program.atoms, &cert.smaller)?;
    let Some(smaller) = sets else {
        return Ok(None);
    };
    let shown = model_views(alloc, program, &cert.models)?;
    let Some(views) = shown else {
        return Ok(None);
    };
    if !are_ascending(&views) {
        return Ok(None);
    }
    let refuted = is_rest_refuted(alloc, program, &smaller, &views, &cert.none)?;
    if !refuted {
        return Ok(None);
    }
    Ok(Some(views))
}

/// The views that the certificate shows for the program with the heads, if it is accepted. The
/// beliefs have to be atoms. A head that is not an atom adds no fact.
pub fn program_views(
    alloc: Global,
    rules: &[ProgRule],
    heads: &[&Formula],
    asked: &Asked<'_>,
    cert: &ProgramCert,
) -> Result<Option<Vec<Vars>>, Memory>
    requires rules { AreOverRules asked.now.atoms.now (map rule_of rules.now) }
    requires heads { AreOver asked.now.atoms.now (map (λ f. formula_of f.now) heads.now) }
    requires belief_atoms { AllByRecursion (λ f. IsTrue (is_atom (formula_of f.now)))
        asked.now.beliefs.now }
    ensures { IfOk result (λ shown. MatchOption shown
        ((views : List ℕ) → ¬ IsAcceptedProgram asked.now.atoms.now
        (map rule_of rules.now ++ filter_map fact_of (map (λ f. formula_of f.now) heads.now))
        (asked_beliefs asked.now) views (program_shown_of cert.now))
        (λ views. IsAcceptedProgram asked.now.atoms.now
        (map rule_of rules.now ++ filter_map fact_of (map (λ f. formula_of f.now) heads.now))
        (asked_beliefs asked.now) views.items (program_shown_of cert.now))) }
{
    let names = names_of(alloc, asked.beliefs)?;
    let all = with_heads(alloc, rules, heads)?;
    let program = AskedProgram {
        atoms: asked.atoms,
        rules: &all,
        beliefs: &names,
    };
    let shown = views_of_rules(alloc, &program, cert);
    drop(all);
    shown
}
