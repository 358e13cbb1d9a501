//! Checks of the verdicts on the sets of the defaults of a theory.

ghost use Rattle.std.specs.Prelude.{◌≡◌, ℕ, ◌↔◌, map, IsTrue, IfOk, OnOk, MatchOption};
ghost use Rattle.mcs_system.specs.Seen.{default_of, formula_of};
ghost use Rattle.mcs_cnf.specs.ClauseLists.{clause_list};
ghost use Rattle.mcs_cnf.specs.Entailments.{entailment_of};
ghost use Rattle.mcs_evidence.specs.Defaults.{absence_of, verdict_of, facts_of, negated_justs};
ghost use Rattle.mcs_evidence.specs.Defaults.{AreDenied, FailsToApply, HasApplied, IsUngrounded};
ghost use Rattle.mcs_asked.specs.Questions.{theory_names, theory_items, theory_beliefs};
ghost use Rattle.mcs_extensions.specs.Checks.{IsComplete, AreGenerated, IsVerdictJudged};
ghost use Rattle.mcs_extensions.specs.Checks.{IsOrderShown, number_in, judged_by, judged_as};

use crate::absence::{are_absent, is_absent};
use crate::order::{are_grounded, are_numbers, is_member, numbered_default};
use crate::theory::{chosen, generated, negations, prerequisites, push_added};
use mcs_asked::{Asked, AskedTheory};
use mcs_base::{Memory, Vars};
use mcs_entailment::{deny, lend, shown_places, shows};
use mcs_system::{Default, Formula};
use mcs_trace::{Cnf, Entail, Outside, SetCert};
use std::alloc::Global;

/// The result of checking a verdict on a set of defaults.
#[derive(Clone, Copy)]
pub enum Judged {
    /// The verdict is not accepted.
    Refused,
    /// The verdict is accepted, and the set generates no extension.
    Passed,
    /// The verdict is accepted, and the set generates an extension with this view.
    Shows(Vars),
}

/// What is told of a default that is outside a set and applies.
#[derive(Clone, Copy)]
struct Applying<'c> {
    number: u32,
    pre: &'c Entail,
    justs: &'c [Entail],
}

/// What is told of a set that generates an extension, beside the order of its defaults.
#[derive(Clone, Copy)]
struct Completion<'c> {
    justs: &'c [Entail],
    outside: &'c [Outside],
    outputs: &'c [Entail],
}

/// The result for a verdict that the set generates no extension.
pub fn judged_by(accepted: bool) -> Judged
    ensures { result ≡ judged_by accepted }
{
    if accepted {
        Judged::Passed
    } else {
        Judged::Refused
    }
}

/// The result for a verdict that the set generates an extension. The view is the one that is shown;
/// if there is none, the verdict is not accepted.
pub fn judged_as(view: Option<Vars>) -> Judged
    ensures { result ≡ judged_as view }
{
    match view {
        None => Judged::Refused,
        Some(view) => Judged::Shows(view),
    }
}

/// Whether it is shown, for each of the goals in order, that it does not follow.
fn deny_each(
    alloc: Global,
    asked: &Asked<'_>,
    premises: &[&Formula],
    goals: &[Formula],
    entails: &[Entail],
) -> Result<bool, Memory>
    ensures { IfOk result (λ yes. IsTrue yes
        ↔ AreDenied asked.now.atoms.now (map (λ f. formula_of f.now) premises.now)
        (map formula_of goals.now) (map entailment_of entails.now)) }
{
    let lent = lend(alloc, goals)?;
    Ok(deny(asked, premises, &lent, entails))
}

/// Whether it is shown, for each negated justification of the defaults in order, that it does not
/// follow.
fn allow(
    alloc: Global,
    asked: &Asked<'_>,
    premises: &[&Formula],
    defaults: &[&Default],
    entails: &[Entail],
) -> Result<bool, Memory>
    ensures { IfOk result (λ yes. IsTrue yes
        ↔ AreDenied asked.now.atoms.now (map (λ f. formula_of f.now) premises.now)
        (negated_justs (map (λ d. default_of d.now) defaults.now))
        (map entailment_of entails.now)) }
{
    let goals = negations(alloc, defaults)?;
    let denied = deny_each(alloc, asked, premises, &goals, entails);
    drop(goals);
    denied
}

/// The number of the default that does not apply.
fn number_of(absence: &Outside) -> u32
    ensures { result ≡ number_in (absence_of absence.now) }
{
    match absence {
        Outside::Unsupported(number, _) => *number,
        Outside::Blocked(number, _, _) => *number,
    }
}

/// Whether it is shown that a default of the set does not apply. `premises` are what the set
/// generates, and `known` has their clauses.
fn has_failed(
    alloc: Global,
    known: &mut Cnf,
    theory: &AskedTheory<'_>,
    premises: &[&Formula],
    set: Vars,
    absence: &Outside,
) -> Result<bool, Memory>
    requires { AreGenerated (theory_names theory.now) (theory_items theory.now) set known.old
        (map (λ f. formula_of f.now) premises.now) }
    ensures kept { known.new ≡ known.old }
    ensures exact { IfOk result (λ yes. IsTrue yes
        ↔ FailsToApply (theory_names theory.now) (theory_items theory.now) set
        (absence_of absence.now)) }
{
    let number = number_of(absence);
    if !is_member(set, number) {
        return Ok(false);
    }
    is_absent(alloc, known, theory, premises, number, absence)
}

/// Whether it is shown that the default with this number is outside the set and applies.
fn has_applied(
    alloc: Global,
    known: &mut Cnf,
    theory: &AskedTheory<'_>,
    premises: &[&Formula],
    set: Vars,
    told: &Applying<'_>,
) -> Result<bool, Memory>
    requires { AreGenerated (theory_names theory.now) (theory_items theory.now) set known.old
        (map (λ f. formula_of f.now) premises.now) }
    ensures kept { known.new ≡ known.old }
    ensures exact { IfOk result (λ yes. IsTrue yes
        ↔ HasApplied (theory_names theory.now) (theory_items theory.now) set told.now.number
        (entailment_of told.now.pre.now) (map entailment_of told.now.justs.now)) }
{
    if is_member(set, told.number) {
        return Ok(false);
    }
    let Some(default) = numbered_default(theory.defaults, told.number) else {
        return Ok(false);
    };
    let shown = shows(alloc, known, &default.pre, theory.asked.atoms, told.pre)?;
    if !shown {
        return Ok(false);
    }
    allow(alloc, theory.asked, premises, &[default], told.justs)
}

/// Whether it is shown that the defaults of a proper subset of the set support none of the others
/// of the set.
fn is_ungrounded(
    alloc: Global,
    theory: &AskedTheory<'_>,
    set: Vars,
    closed: u32,
    pres: &[Entail],
) -> Result<bool, Memory>
    ensures { IfOk result (λ yes. IsTrue yes ↔ IsUngrounded (theory_names theory.now)
        (theory_items theory.now) set closed (map entailment_of pres.now)) }
{
    let part = Vars::numbered(u64::from(closed));
    if !part.within(set) {
        return Ok(false);
    }
    if part == set {
        return Ok(false);
    }
    let premises = generated(alloc, theory, part)?;
    let others = chosen(alloc, theory.defaults, set.minus(part))?;
    let goals = prerequisites(alloc, &others)?;
    Ok(deny(theory.asked, &premises, &goals, pres))
}

/// The view of the extension that the set generates, if all that is told of it is shown. `premises`
/// are what the set generates, and `known` has their clauses.
fn complete_view(
    alloc: Global,
    known: &mut Cnf,
    theory: &AskedTheory<'_>,
    premises: &[&Formula],
    set: Vars,
    told: &Completion<'_>,
) -> Result<Option<Vars>, Memory>
    requires { known.old
        ≡ clause_list (theory_names theory.now) (map (λ f. formula_of f.now) premises.now) }
    ensures kept { known.new ≡ known.old }
    ensures exact { IfOk result (λ view. MatchOption view
        ((places : ℕ) → ¬ IsComplete (theory_names theory.now) (theory_items theory.now)
        (map (λ f. formula_of f.now) premises.now) (theory_beliefs theory.now) set
        (map entailment_of told.now.justs.now) (map absence_of told.now.outside.now)
        (map entailment_of told.now.outputs.now) places)
        (λ places. IsComplete (theory_names theory.now) (theory_items theory.now)
        (map (λ f. formula_of f.now) premises.now) (theory_beliefs theory.now) set
        (map entailment_of told.now.justs.now) (map absence_of told.now.outside.now)
        (map entailment_of told.now.outputs.now) places)) }
{
    let inside = chosen(alloc, theory.defaults, set)?;
    let allowed = allow(alloc, theory.asked, premises, &inside, told.justs)?;
    if !allowed {
        return Ok(None);
    }
    let absent = are_absent(alloc, known, theory, premises, set, told.outside)?;
    if !absent {
        return Ok(None);
    }
    shown_places(alloc, known, theory.asked, premises, told.outputs)
}

/// Checks a verdict on the set, apart from the order of its defaults. `premises` are what the set
/// generates, and `known` has their clauses.
fn judge_from(
    alloc: Global,
    known: &mut Cnf,
    theory: &AskedTheory<'_>,
    premises: &[&Formula],
    set: Vars,
    verdict: &SetCert,
) -> Result<Judged, Memory>
    requires { AreGenerated (theory_names theory.now) (theory_items theory.now) set known.old
        (map (λ f. formula_of f.now) premises.now) }
    ensures kept { known.new ≡ known.old }
    ensures exact { IfOk result (λ judged. IsOrderShown (theory_names theory.now)
        (theory_items theory.now) set (verdict_of verdict.now)
        → IsVerdictJudged (theory_names theory.now) (theory_items theory.now)
        (theory_beliefs theory.now) set (verdict_of verdict.now) judged) }
{
    match verdict {
        SetCert::Fails(absence) => {
            let failed = has_failed(alloc, known, theory, premises, set, absence)?;
            Ok(judged_by(failed))
        }
        SetCert::Applied { number, pre, justs } => {
            let told = Applying {
                number: *number,
                pre,
                justs,
            };
            let applied = has_applied(alloc, known, theory, premises, set, &told)?;
            Ok(judged_by(applied))
        }
        SetCert::Ungrounded { closed: _, pres: _ } => Ok(Judged::Refused),
        SetCert::Extension {
            order: _,
            pres: _,
            justs,
            outside,
            outputs,
        } => {
            let told = Completion {
                justs,
                outside,
                outputs,
            };
            let view = complete_view(alloc, known, theory, premises, set, &told)?;
            Ok(judged_as(view))
        }
    }
}

/// The same, but `known` has the clauses of the facts. Those of the consequents are added for the
/// test and removed again.
fn judge_generated(
    alloc: Global,
    known: &mut Cnf,
    theory: &AskedTheory<'_>,
    set: Vars,
    verdict: &SetCert,
) -> Result<Judged, Memory>
    requires { known.old
        ≡ clause_list (theory_names theory.now) (facts_of (theory_items theory.now)) }
    ensures kept { OnOk result (known.new ≡ known.old) }
    ensures exact { IfOk result (λ judged. IsOrderShown (theory_names theory.now)
        (theory_items theory.now) set (verdict_of verdict.now)
        → IsVerdictJudged (theory_names theory.now) (theory_items theory.now)
        (theory_beliefs theory.now) set (verdict_of verdict.now) judged) }
{
    let premises = generated(alloc, theory, set)?;
    let vars = known.vars();
    let count = known.clauses().len();
    push_added(alloc, known, theory, set)?;
    let judged = judge_from(alloc, known, theory, &premises, set, verdict)?;
    known.cut(vars, count);
    Ok(judged)
}

/// For a verdict that the set generates an extension: whether the order in which its defaults apply
/// is accepted. Verdicts that a default fails or applies have no order and pass. A verdict that the
/// set is ungrounded does not pass; it is checked in another way. `known` has the clauses of the
/// facts.
fn is_ready(
    alloc: Global,
    known: &mut Cnf,
    theory: &AskedTheory<'_>,
    set: Vars,
    verdict: &SetCert,
) -> Result<bool, Memory>
    requires { known.old
        ≡ clause_list (theory_names theory.now) (facts_of (theory_items theory.now)) }
    ensures kept { OnOk result (known.new ≡ known.old) }
    ensures exact { IfOk result (λ yes. IsTrue yes
        ↔ IsOrderShown (theory_names theory.now) (theory_items theory.now) set
        (verdict_of verdict.now)) }
{
    match verdict {
        SetCert::Fails(_) => Ok(true),
        SetCert::Applied {
            number: _,
            pre: _,
            justs: _,
        } => Ok(true),
        SetCert::Ungrounded { closed: _, pres: _ } => Ok(false),
        SetCert::Extension {
            order,
            pres,
            justs: _,
            outside: _,
            outputs: _,
        } => {
            if !are_numbers(set, order) {
                return Ok(false);
            }
            are_grounded(alloc, known, theory, order, pres)
        }
    }
}

/// Checks the verdict on the set. `known` has the clauses of the facts.
pub(crate) fn judge(
    alloc: Global,
    known: &mut Cnf,
    theory: &AskedTheory<'_>,
    set: Vars,
    verdict: &SetCert,
) -> Result<Judged, Memory>
    requires { known.old
        ≡ clause_list (theory_names theory.now) (facts_of (theory_items theory.now)) }
    ensures kept { OnOk result (known.new ≡ known.old) }
    ensures exact { IfOk result (λ judged. IsVerdictJudged (theory_names theory.now)
        (theory_items theory.now) (theory_beliefs theory.now) set (verdict_of verdict.now) judged) }
{
    if let SetCert::Ungrounded { closed, pres } = verdict {
        let ungrounded = is_ungrounded(alloc, theory, set, *closed, pres)?;
        return Ok(judged_by(ungrounded));
    }
    let ready = is_ready(alloc, known, theory, set, verdict)?;
    if !ready {
        return Ok(Judged::Refused);
    }
    judge_generated(alloc, known, theory, set, verdict)
}
