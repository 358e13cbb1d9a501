//! Certificates of programs, judged as they are read: model by model, and the steps of each trace
//! one at a time.

ghost use Rattle.std.specs.Prelude.{◌≡◌, ◌≤◌, ◌++◌, ◌↔◌, List, length, map, IsTrue, IfOk};
ghost use Rattle.std.specs.List.{AllByRecursion, filter_map};
ghost use Rattle.mcs_system.specs.Faults.{is_atom};
ghost use Rattle.mcs_system.specs.Logic.{fact_of};
ghost use Rattle.mcs_system.specs.Seen.{formula_of, rule_of};
ghost use Rattle.mcs_trace.specs.Traces.{Inference};
ghost use Rattle.mcs_cnf.specs.ClauseLists.{AreOver};
ghost use Rattle.mcs_evidence.specs.Programs.{AreOverRules, IsInRange, IsModelShown};
ghost use Rattle.mcs_evidence.specs.Programs.{IsAcceptedModel, IsAcceptedProgram};
ghost use Rattle.mcs_answer_sets.specs.Models.{AreModelsShown};
ghost use Rattle.mcs_proof_lines.specs.Walks.{trace_at, many_at};
ghost use Rattle.mcs_proof_lines.specs.Programs.{model_at, smaller_at, rest_at, program_at};
ghost use Rattle.mcs_steps.specs.Judging.{Judges, PassesBy};
ghost use Rattle.mcs_judging.specs.Judging.{Tells, AreViewsOf};
ghost use Rattle.mcs_asked.specs.Questions.{asked_beliefs, program_rules, program_beliefs};
ghost use Rattle.mcs_judging.specs.Programs.{IsViewOf, Refutes, MayBeShown, Completes};

use crate::named::Named;
use mcs_answer_sets::{are_ascending, rules_hold, view_of};
use mcs_asked::AskedProgram;
use mcs_base::{Memory, Text, Vars};
use mcs_entailment::is_in_range;
use mcs_evidence::{rest_clauses, smaller_clauses};
use mcs_proof_lines::{Lines, ReportFault, expect, next_atoms, take_atoms};
use mcs_steps::{judge_trace, pass_trace};
use mcs_system::{Formula, Name, ProgRule, names_of, with_heads};
use mcs_trace::Cnf;
use std::alloc::Global;

/// Reads a trace, as `take_trace` does, and returns whether it is accepted as refuting the clauses.
/// Without clauses it is not.
fn judge_refutation(
    alloc: Global,
    clauses: &Option<Cnf>,
    lines: &mut Lines<'_>,
) -> Result<bool, ReportFault>
    ensures { Judges (Refutes clauses.now) result lines.new (trace_at lines.old) }
{
    match clauses {
        Some(known) => judge_trace(alloc, known, lines),
        None => match pass_trace(lines) {
            Ok(()) => Ok(false),
            Err(fault) => Err(fault),
        },
    }
}

/// The clauses that the trace of a model has to refute. There are none if the places are not a
/// model of the rules.
fn smaller_models(
    alloc: Global,
    program: &AskedProgram<'_>,
    model: u64,
) -> Result<Option<Cnf>, Memory>
    ensures { IfOk result (λ clauses. (minimal : List Inference)
        → IsModelShown program.now.atoms.now (program_rules program.now)
        (record { model = model; minimal = minimal }) ↔ Refutes clauses minimal) }
{
    if !is_in_range(program.atoms, model) {
        return Ok(None);
    }
    let places = Vars::numbered(model);
    if !rules_hold(program.atoms, places, program.rules) {
        return Ok(None);
    }
    let clauses = smaller_clauses(alloc, program.atoms, program.rules, places)?;
    Ok(Some(clauses))
}

/// Reads the trace of a model, and returns whether the model is shown to be an answer set.
fn judge_minimal(
    alloc: Global,
    program: &AskedProgram<'_>,
    model: u64,
    lines: &mut Lines<'_>,
) -> Result<bool, ReportFault>
    ensures { Judges (λ minimal. IsModelShown program.now.atoms.now (program_rules program.now)
        (record { model = model; minimal = minimal }))
        result lines.new (trace_at lines.old) }
{
    let clauses = smaller_models(alloc, program, model)?;
    let judged = judge_refutation(alloc, &clauses, lines);
    drop(clauses);
    judged
}

/// Reads a model with its trace, and returns its view if it is shown to be an answer set.
#[tactic(auto, unfolding(mcs_proof_lines::specs::Programs::model_at))]
fn judge_model(
    alloc: Global,
    program: &AskedProgram<'_>,
    texts: &[Text],
    lines: &mut Lines<'_>,
) -> Result<Option<Vars>, ReportFault>
    requires { length texts.now ≤ 64 }
    ensures { Tells (IsViewOf (IsAcceptedModel program.now.atoms.now (program_rules program.now)
        (program_beliefs program.now)))
        result lines.new (model_at texts.now lines.old) }
{
    let model = take_atoms(b"model ", texts, lines)?;
    let is_shown = judge_minimal(alloc, program, model, lines)?;
    if !is_shown {
        return Ok(None);
    }
    let places = Vars::numbered(model);
    Ok(Some(view_of(program, places)))
}

/// Reads a model with its trace, and keeps nothing of it.
#[tactic(auto, unfolding(mcs_proof_lines::specs::Programs::model_at))]
fn pass_model(texts: &[Text], lines: &mut Lines<'_>) -> Result<(), ReportFault>
    requires { length texts.now ≤ 64 }
    ensures { PassesBy result lines.new (model_at texts.now lines.old) }
{
    take_atoms(b"model ", texts, lines)?;
    pass_trace(lines)
}

/// Reads `count` models with their traces, and keeps nothing of them.
fn pass_models(texts: &[Text], count: usize, lines: &mut Lines<'_>) -> Result<(), ReportFault>
    requires { length texts.now ≤ 64 }
    ensures { PassesBy result lines.new (many_at (model_at texts.now) count lines.old) }
{
    let mut left = count;
    while left > 0 {
        pass_model(texts, lines)?;
        left -= 1;
    }
    Ok(())
}

/// Reads `count` models with their traces, and returns their views if each is shown to be an answer
/// set. Models after one that is not are passed.
fn judge_models(
    alloc: Global,
    program: &AskedProgram<'_>,
    texts: &[Text],
    count: usize,
    lines: &mut Lines<'_>,
) -> Result<Option<Vec<Vars>>, ReportFault>
    requires { length texts.now ≤ 64 }
    ensures { Tells (AreViewsOf (AreModelsShown program.now.atoms.now (program_rules program.now)
        (program_beliefs program.now)))
        result lines.new (many_at (model_at texts.now) count lines.old) }
{
    let mut views = Vec::new(alloc);
    let mut left = count;
    while left > 0 {
        let shown = judge_model(alloc, program, texts, lines)?;
        let Some(view) = shown else {
            pass_models(texts, left - 1, lines)?;
            return Ok(None);
        };
        views.push(view)?;
        left -= 1;
    }
    Ok(Some(views))
}

/// Takes smaller sets, as long as the next line is one.
#[tactic(auto, unfolding(mcs_proof_lines::specs::Programs::smaller_at))]
fn take_smaller(alloc: Global, texts: &[Text], lines: &mut Lines<'_>) -> Result<Vec<Vars>, Memory>
    requires { length texts.now ≤ 64 }
    ensures { IfOk result (λ sets. smaller_at texts.now lines.old ≡ (sets.items, lines.new)) }
{
    let mut sets = Vec::new(alloc);
    while let Some(set) = next_atoms(b"smaller ", texts, lines) {
        sets.push(Vars::numbered(set))?;
        lines.advance();
    }
    Ok(sets)
}

/// Whether each of the sets is a set of places of atoms.
fn are_in_range(atoms: &[Name], sets: &[Vars]) -> bool
    ensures { IsTrue result ↔ AllByRecursion (IsInRange atoms.now) sets.now }
{
    for set in sets {
        if !is_in_range(atoms, set.number()) {
            return false;
        }
    }
    true
}

/// Whether the views ascend, and each of the smaller sets is a set of places of atoms.
fn may_be_shown(atoms: &[Name], views: &[Vars], smaller: &[Vars]) -> bool
    ensures { IsTrue result ↔ MayBeShown atoms.now smaller.now views.now }
{
    if !are_ascending(views) {
        return false;
    }
    are_in_range(atoms, smaller)
}

/// The clauses that the last trace has to refute: no other model is left. There are none if the
/// certificate is not accepted, whatever the trace is. `shown` are the views of the models, if each
/// was shown to be an answer set.
fn other_models(
    alloc: Global,
    program: &AskedProgram<'_>,
    shown: &Option<Vec<Vars>>,
    smaller: &[Vars],
) -> Result<Option<Cnf>, Memory>
    ensures { IfOk result (λ clauses. (rest : List Inference)
        → Completes program.now smaller.now shown.now rest ↔ Refutes clauses rest) }
{
    let Some(views) = shown else {
        return Ok(None);
    };
    if !may_be_shown(program.atoms, views, smaller) {
        return Ok(None);
    }
    let clauses = rest_clauses(
        alloc,
        program.atoms,
        program.rules,
        program.beliefs,
        smaller,
        views,
    )?;
    Ok(Some(clauses))
}

/// Reads the line `none` and the last trace, and returns whether they complete a certificate that
/// is accepted.
fn judge_rest(
    alloc: Global,
    program: &AskedProgram<'_>,
    shown: &Option<Vec<Vars>>,
    smaller: &[Vars],
    lines: &mut Lines<'_>,
) -> Result<bool, ReportFault>
    ensures { Judges (Completes program.now smaller.now shown.now) result lines.new
        (rest_at lines.old) }
{
    expect(lines, b"none")?;
    let clauses = other_models(alloc, program, shown, smaller)?;
    let judged = judge_refutation(alloc, &clauses, lines);
    drop(clauses);
    judged
}

/// Reads a certificate with `count` models, and returns the views that it shows, if it is accepted.
fn judge_asked(
    alloc: Global,
    program: &AskedProgram<'_>,
    texts: &[Text],
    count: usize,
    lines: &mut Lines<'_>,
) -> Result<Option<Vec<Vars>>, ReportFault>
    requires { length texts.now ≤ 64 }
    ensures { Tells (AreViewsOf (IsAcceptedProgram program.now.atoms.now
        (program_rules program.now) (program_beliefs program.now)))
        result lines.new (program_at texts.now count lines.old) }
{
    let shown = judge_models(alloc, program, texts, count, lines)?;
    let smaller = take_smaller(alloc, texts, lines)?;
    let is_accepted = judge_rest(alloc, program, &shown, &smaller, lines)?;
    if !is_accepted {
        return Ok(None);
    }
    Ok(shown)
}

/// Reads a certificate of a program, as `take_program` does for `count` models, and returns the
/// views that it shows for the program with the heads, if it is accepted. The beliefs have to be
/// atoms. A head that is not an atom adds no fact.
///
/// Of a model its view is kept, of a smaller set its number, and of a trace the clauses of its
/// steps as long as it is read. A certificate that is not accepted is read to its end all the same:
/// `Grammar` is returned for the first line that is out of place. `Memory` may be returned in place
/// of a result.
pub fn judge_program(
    alloc: Global,
    rules: &[ProgRule],
    heads: &[&Formula],
    named: &Named<'_>,
    count: usize,
    lines: &mut Lines<'_>,
) -> Result<Option<Vec<Vars>>, ReportFault>
    requires rules { AreOverRules named.now.asked.now.atoms.now (map rule_of rules.now) }
    requires heads { AreOver named.now.asked.now.atoms.now (map (λ f. formula_of f.now) heads.now) }
    requires belief_atoms { AllByRecursion (λ f. IsTrue (is_atom (formula_of f.now)))
        named.now.asked.now.beliefs.now }
    ensures { Tells (AreViewsOf (IsAcceptedProgram named.now.asked.now.atoms.now
        (map rule_of rules.now ++ filter_map fact_of (map (λ f. formula_of f.now) heads.now))
        (asked_beliefs named.now.asked.now))) result lines.new
        (program_at named.now.texts.now count lines.old) }
{
    let names = names_of(alloc, named.asked.beliefs)?;
    let all = with_heads(alloc, rules, heads)?;
    let program = AskedProgram {
        atoms: named.asked.atoms,
        rules: &all,
        beliefs: &names,
    };
    let judged = judge_asked(alloc, &program, named.texts, count, lines);
    drop(all);
    judged
}
