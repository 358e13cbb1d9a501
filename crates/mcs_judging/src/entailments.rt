//! Entailments, judged one at a time as they are read.

ghost use Rattle.std.specs.Prelude.{◌≡◌, ◌≤◌, ◌<◌, ◌↔◌, List, length, map, IsTrue, IfSome};
ghost use Rattle.mcs_system.specs.Plain as plain;
ghost use Rattle.mcs_system.specs.Seen.{formula_of};
ghost use Rattle.mcs_asked.specs.Questions.{asked_beliefs};
ghost use Rattle.mcs_cnf.specs.ClauseLists.{clause_list, IsOver};
ghost use Rattle.mcs_cnf.specs.Entailments.{Yes, IsAcceptedEntailment, IsModelAt};
ghost use Rattle.mcs_evidence.specs.Defaults.{IsEntailmentShown, IsDenied, AreDenied};
ghost use Rattle.mcs_proof_lines.specs.Walks.{trace_at, yes_at, no_at, entailment_at, many_at};
ghost use Rattle.mcs_steps.specs.Judging.{Judges};
ghost use Rattle.mcs_judging.specs.Judging.{Tells, ArePlacesShown, IsToldOn};

use crate::named::Named;
use mcs_base::Vars;
use mcs_cnf::{model_shown, push_negation};
use mcs_entailment::denies;
use mcs_proof_lines::{Lines, ReportFault, expect, is_next, take_no};
use mcs_steps::judge_trace;
use mcs_system::{Formula, Name};
use mcs_trace::Cnf;
use std::alloc::Global;

/// What is told of entailments that were read: whether each is accepted, the places of those that
/// are a `yes`, and a model of the formulas that they are about, if one was shown.
#[derive(Clone, Copy)]
struct Told {
    are_right: bool,
    places: Vars,
    model: Option<Vars>,
}

/// What an entailment that is read is about: whether the goal, which has this index, below 64,
/// follows from the formulas.
#[derive(Clone, Copy)]
struct Claim<'p, 'g> {
    premises: &'p [&'p Formula],
    goal: &'g Formula,
    index: u32,
    ghost low: { index < 64 },
}

/// Whether both are true.
pub(crate) fn both(first: bool, second: bool) -> bool
    ensures { IsTrue result ↔ (IsTrue first × IsTrue second) }
{
    first && second
}

/// Reads a trace, and returns whether it refutes the formulas whose clauses are `known`, together
/// with the negated goal. The clauses of the goal are added for the test and removed again.
fn judge_refutation(
    alloc: Global,
    known: &mut Cnf,
    goal: &Formula,
    atoms: &[Name],
    lines: &mut Lines<'_>,
) -> Result<bool, ReportFault>
    requires goal { IsOver atoms.now (formula_of goal.now) }
    requires room { length atoms.now ≤ known.old.vars }
    ensures kept { known.new ≡ known.old }
    ensures exact { (fs : List plain.Formula) → known.old ≡ clause_list atoms.now fs
        → Judges (λ steps. IsAcceptedEntailment atoms.now fs (formula_of goal.now) (Yes steps))
        result lines.new (trace_at lines.old) }
{
    let vars = known.vars();
    let count = known.clauses().len();
    push_negation(alloc, known, atoms, goal)?;
    let right = judge_trace(alloc, known, lines);
    known.cut(vars, count);
    right
}

/// Reads a certificate that a formula follows, as `take_yes` does, and returns whether it shows
/// that the goal follows from the formulas whose clauses are `known`.
#[tactic(auto, unfolding(mcs_proof_lines::specs::Walks::yes_at))]
pub(crate) fn judge_yes(
    alloc: Global,
    known: &mut Cnf,
    goal: &Formula,
    atoms: &[Name],
    lines: &mut Lines<'_>,
) -> Result<bool, ReportFault>
    requires goal { IsOver atoms.now (formula_of goal.now) }
    requires room { length atoms.now ≤ known.old.vars }
    ensures kept { known.new ≡ known.old }
    ensures exact { (fs : List plain.Formula) → known.old ≡ clause_list atoms.now fs
        → Judges (IsEntailmentShown atoms.now fs (formula_of goal.now)) result lines.new
        (yes_at lines.old) }
{
    expect(lines, b"yes")?;
    judge_refutation(alloc, known, goal, atoms, lines)
}

/// Reads a certificate that a formula does not follow, as `take_no` does, and returns whether it
/// shows that the goal does not follow from the formulas. `model` may be a known model of these; if
/// the certificate shows one, it is that.
pub(crate) fn judge_no(
    named: &Named<'_>,
    premises: &[&Formula],
    goal: &Formula,
    model: &mut Option<Vars>,
    lines: &mut Lines<'_>,
) -> Result<bool, ReportFault>
    requires known { IfSome model.old (IsModelAt named.now.asked.now.atoms.now
        (map (λ f. formula_of f.now) premises.now)) }
    ensures known { IfSome model.new (IsModelAt named.now.asked.now.atoms.now
        (map (λ f. formula_of f.now) premises.now)) }
    ensures exact { Judges (IsDenied named.now.asked.now.atoms.now
        (map (λ f. formula_of f.now) premises.now) (formula_of goal.now)) result lines.new
        (no_at named.now.texts.now lines.old) }
{
    let entail = take_no(named.texts, lines)?;
    let before = *model;
    if !denies(named.asked, premises, goal, &entail, &before) {
        return Ok(false);
    }
    let next = model_shown(before, &entail);
    *model = next;
    Ok(true)
}

/// Reads a certificate for each of the goals, in order, and returns whether they show that none of
/// them follows from the formulas.
pub(crate) fn judge_all_no(
    named: &Named<'_>,
    premises: &[&Formula],
    goals: &[&Formula],
    lines: &mut Lines<'_>,
) -> Result<bool, ReportFault>
    ensures { Judges (AreDenied named.now.asked.now.atoms.now
        (map (λ f. formula_of f.now) premises.now)
        (map (λ f. formula_of f.now) goals.now)) result lines.new
        (many_at (no_at named.now.texts.now) (length goals.now) lines.old) }
{
    let mut are_right = true;
    let mut model = None;
    for formula in goals {
        match judge_no(named, premises, formula, &mut model, lines) {
            Ok(is_right) => are_right = both(are_right, is_right),
            Err(fault) => return Err(fault),
        }
    }
    Ok(are_right)
}

/// What is told after one entailment more. `known` has the clauses of the formulas that it is
/// about.
fn judge_next(
    alloc: Global,
    known: &mut Cnf,
    named: &Named<'_>,
    claim: &Claim<'_, '_>,
    told: Told,
    lines: &mut Lines<'_>,
) -> Result<Told, ReportFault>
    requires model { IfSome told.model (IsModelAt named.now.asked.now.atoms.now
        (map (λ f. formula_of f.now) claim.now.premises.now)) }
    requires goal { IsOver named.now.asked.now.atoms.now (formula_of claim.now.goal.now) }
    requires made { known.old ≡ clause_list named.now.asked.now.atoms.now
        (map (λ f. formula_of f.now) claim.now.premises.now) }
    ensures kept { known.new ≡ known.old }
    ensures exact { Tells (IsToldOn named.now.asked.now.atoms.now
        (map (λ f. formula_of f.now) claim.now.premises.now)
        (formula_of claim.now.goal.now) claim.now.index told) result lines.new
        (entailment_at named.now.texts.now lines.old) }
{
    if is_next(lines, b"yes") {
        let shown = judge_yes(alloc, known, claim.goal, named.asked.atoms, lines)?;
        return Ok(Told {
            are_right: both(told.are_right, shown),
            places: told.places.with(claim.index),
            model: told.model,
        });
    }
    let mut model = told.model;
    let denied = judge_no(named, claim.premises, claim.goal, &mut model, lines)?;
    Ok(Told {
        are_right: both(told.are_right, denied),
        places: told.places,
        model,
    })
}

/// Reads a certificate for each of the beliefs, in order, that it follows from the formulas or that
/// it does not. Returns the places of the beliefs that follow, if each of the certificates is
/// accepted.
pub(crate) fn judge_places(
    alloc: Global,
    known: &mut Cnf,
    named: &Named<'_>,
    premises: &[&Formula],
    lines: &mut Lines<'_>,
) -> Result<Option<Vars>, ReportFault>
    requires made { known.old
        ≡ clause_list named.now.asked.now.atoms.now (map (λ f. formula_of f.now) premises.now) }
    ensures kept { known.new ≡ known.old }
    ensures exact { Tells (ArePlacesShown named.now.asked.now.atoms.now
        (map (λ f. formula_of f.now) premises.now)
        (asked_beliefs named.now.asked.now)) result lines.new
        (many_at (entailment_at named.now.texts.now)
        (length named.now.asked.now.beliefs.now) lines.old) }
{
    let beliefs = named.asked.beliefs;
    let mut told = Told {
        are_right: true,
        places: Vars::empty(),
        model: None,
    };
    for (index, belief) in beliefs.iter().enumerate() {
        let claim = Claim {
            premises: &*premises,
            goal: belief,
            index: index as u32,
        };
        match judge_next(alloc, known, named, &claim, told, lines) {
            Ok(next) => told = next,
            Err(fault) => return Err(fault),
        }
    }
    if !told.are_right {
        return Ok(None);
    }
    Ok(Some(told.places))
}
