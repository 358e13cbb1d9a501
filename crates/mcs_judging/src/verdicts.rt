//! Certificates of default theories: the verdicts on sets of defaults, judged one at a time as they
//! are read.

ghost use Rattle.std.specs.Prelude.{◌≡◌, ◌≤◌, ◌<◌, ◌^◌, ◌++◌, ◌↔◌, ℕ, length, map, IsTrue, IfOk};
ghost use Rattle.std.specs.Prelude.{OnOk};
ghost use Rattle.mcs_sets.specs.Sets.{Within};
ghost use Rattle.mcs_system.specs.Plain.{Fact};
ghost use Rattle.mcs_system.specs.Plain as plain;
ghost use Rattle.mcs_system.specs.Seen.{default_of, formula_of, item_of};
ghost use Rattle.mcs_asked.specs.Questions.{asked_beliefs, theory_names, theory_items};
ghost use Rattle.mcs_asked.specs.Questions.{theory_beliefs};
ghost use Rattle.mcs_cnf.specs.ClauseLists.{clause_list, AreOver};
ghost use Rattle.mcs_evidence.specs.Defaults.{AreOverItems, AreDenied, IsAcceptedDefault};
ghost use Rattle.mcs_evidence.specs.Defaults.{defaults_of, facts_of, generated, negated_justs};
ghost use Rattle.mcs_extensions.specs.Checks.{IsNumberIn};
ghost use Rattle.mcs_proof_lines.specs.Walks.{IsNumberOf, many_at, no_at};
ghost use Rattle.mcs_proof_lines.specs.Verdicts.{terms_of, extension_at, applied_at, ungrounded_at};
ghost use Rattle.mcs_proof_lines.specs.Verdicts.{or_absence, verdict_at, names_set, set_at};
ghost use Rattle.mcs_proof_lines.specs.Verdicts.{verdicts_at};
ghost use Rattle.mcs_steps.specs.Judging.{Judges};
ghost use Rattle.mcs_judging.specs.Judging.{Tells, AreViewsOf};
ghost use Rattle.mcs_judging.specs.Theories.{numbers_in, AreNumbers, complete_at, TellsCompletion};
ghost use Rattle.mcs_judging.specs.Theories.{shown_if, TellsVerdict, IsNoted};

use crate::absences::{judge_absence, judge_absences};
use crate::entailments::{judge_all_no, judge_places, judge_yes};
use crate::named::Named;
use crate::order::{judge_grounded, next_order};
use crate::theory::{TheoryLines, default_numbered};
use mcs_asked::{Asked, AskedTheory};
use mcs_base::{Memory, Vars, list_states};
use mcs_entailment::{clauses_of, lend};
use mcs_evidence::defaults_of;
use mcs_extensions::{
    Judged, chosen, facts_with, generated, is_member, judged_as, judged_by, negations,
    prerequisites, push_added,
};
use mcs_proof_lines::{
    Lines, ReportFault, Theory, names_set, next_applied, next_defaults, out_of_place,
};
use mcs_system::{Default, Formula, TheoryItem};
use mcs_trace::Cnf;
use std::alloc::Global;

/// Reads a certificate for each of the goals, and returns whether they show that none of them
/// follows from the formulas.
fn judge_denials(
    alloc: Global,
    reading: &TheoryLines<'_>,
    premises: &[&Formula],
    goals: &[Formula],
    lines: &mut Lines<'_>,
) -> Result<bool, ReportFault>
    ensures { Judges (AreDenied (theory_names reading.now.theory.now)
        (map (λ f. formula_of f.now) premises.now) (map formula_of goals.now)) result lines.new
        (many_at (no_at reading.now.terms.now.atoms.now) (length goals.now) lines.old) }
{
    let lent = lend(alloc, goals)?;
    let named = Named {
        asked: reading.theory.asked,
        texts: reading.terms.atoms,
    };
    judge_all_no(&named, premises, &lent, lines)
}

/// Reads a certificate for each justification of the defaults, in order, and returns whether they
/// show that the negation of none of them follows from the formulas.
fn judge_justs(
    alloc: Global,
    reading: &TheoryLines<'_>,
    premises: &[&Formula],
    defaults: &[&Default],
    lines: &mut Lines<'_>,
) -> Result<bool, ReportFault>
    ensures { Judges (AreDenied (theory_names reading.now.theory.now)
        (map (λ f. formula_of f.now) premises.now)
        (negated_justs (map (λ d. default_of d.now) defaults.now))) result lines.new
        (many_at (no_at reading.now.terms.now.atoms.now)
        (length (negated_justs (map (λ d. default_of d.now) defaults.now))) lines.old) }
{
    let goals = negations(alloc, defaults)?;
    let denied = judge_denials(alloc, reading, premises, &goals, lines);
    drop(goals);
    denied
}

/// The view, if the rest is shown too.
fn shown_if(is_shown: bool, view: Option<Vars>) -> Option<Vars>
    ensures { result ≡ shown_if is_shown view }
{
    if is_shown { view } else { None }
}

/// Reads what is to be shown of a set that generates an extension after the order of its defaults.
/// Returns the view of the extension, if all is shown. `premises` are what the set generates, and
/// `known` has their clauses.
#[tactic(auto, unfolding(crate::specs::Theories::complete_at))]
fn judge_completion(
    alloc: Global,
    known: &mut Cnf,
    reading: &TheoryLines<'_>,
    premises: &[&Formula],
    set: Vars,
    lines: &mut Lines<'_>,
) -> Result<Option<Vars>, ReportFault>
    requires inside { set < 2 ^ length reading.now.terms.now.justs.now }
    requires made { known.old ≡ clause_list (theory_names reading.now.theory.now)
        (map (λ f. formula_of f.now) premises.now) }
    ensures kept { known.new ≡ known.old }
    ensures exact { Tells (TellsCompletion (theory_names reading.now.theory.now)
        (theory_items reading.now.theory.now) (map (λ f. formula_of f.now) premises.now)
        (theory_beliefs reading.now.theory.now) set)
        result lines.new (complete_at (terms_of reading.now.terms.now) set lines.old) }
{
    let inside = chosen(alloc, reading.theory.defaults, set)?;
    let allowed = judge_justs(alloc, reading, premises, &inside, lines)?;
    let others = reading.terms.places().minus(set).members();
    let absent = judge_absences(alloc, known, reading, premises, others, lines)?;
    let named = Named {
        asked: reading.theory.asked,
        texts: reading.terms.atoms,
    };
    let view = judge_places(alloc, known, &named, premises, lines)?;
    Ok(shown_if(allowed, shown_if(absent, view)))
}

/// Judges the rest of a verdict that the set generates an extension, with its defaults in the order
/// of the numbers that the bytes spell. `known` has the clauses of the facts.
#[tactic(auto, unfolding(mcs_proof_lines::specs::Verdicts::extension_at))]
fn judge_extension(
    alloc: Global,
    known: &mut Cnf,
    reading: &TheoryLines<'_>,
    set: Vars,
    numbers: &[u8],
    lines: &mut Lines<'_>,
) -> Result<Judged, ReportFault>
    requires inside { set < 2 ^ length reading.now.terms.now.justs.now }
    requires numbers { AreNumbers numbers.now }
    requires made { known.old ≡ clause_list (theory_names reading.now.theory.now)
        (facts_of (theory_items reading.now.theory.now)) }
    ensures kept { OnOk result (known.new ≡ known.old) }
    ensures exact { Tells (TellsVerdict (theory_names reading.now.theory.now)
        (theory_items reading.now.theory.now) (theory_beliefs reading.now.theory.now) set)
        result lines.new (extension_at (terms_of reading.now.terms.now) set
        (numbers_in numbers.now) lines.old) }
{
    let grounded = judge_grounded(alloc, known, reading, set, numbers, lines)?;
    let premises = generated(alloc, reading.theory, set)?;
    let vars = known.vars();
    let count = known.clauses().len();
    push_added(alloc, known, reading.theory, set)?;
    let view = judge_completion(alloc, known, reading, &premises, set, lines)?;
    known.cut(vars, count);
    Ok(judged_as(shown_if(grounded, view)))
}

/// Whether a default that is outside the set applies: its prerequisite is shown, and its
/// justifications are allowed.
fn applies(inside: bool, shown: bool, allowed: bool) -> bool
    ensures { IsTrue result ↔ ((¬ IsTrue inside) × IsTrue shown × IsTrue allowed) }
{
    !inside && shown && allowed
}

/// Reads what is to be shown of a default that is outside the set and applies. `known` has the
/// clauses of what the set generates.
#[tactic(auto, unfolding(mcs_proof_lines::specs::Verdicts::applied_at))]
fn judge_applying(
    alloc: Global,
    known: &mut Cnf,
    reading: &TheoryLines<'_>,
    set: Vars,
    number: u32,
    lines: &mut Lines<'_>,
) -> Result<Judged, ReportFault>
    requires number { IsNumberOf reading.now.terms.now.justs.now number }
    requires made { known.old ≡ clause_list (theory_names reading.now.theory.now)
        (generated (theory_items reading.now.theory.now) set) }
    ensures kept { known.new ≡ known.old }
    ensures exact { Tells (TellsVerdict (theory_names reading.now.theory.now)
        (theory_items reading.now.theory.now) (theory_beliefs reading.now.theory.now) set)
        result lines.new (applied_at (terms_of reading.now.terms.now) number lines.old) }
{
    let premises = generated(alloc, reading.theory, set)?;
    let default = default_numbered(reading, number);
    let shown = judge_yes(
        alloc,
        known,
        &default.pre,
        reading.theory.asked.atoms,
        lines,
    )?;
    let allowed = judge_justs(alloc, reading, &premises, &[default], lines)?;
    Ok(judged_by(applies(is_member(set, number), shown, allowed)))
}

/// Judges the rest of a verdict that the default with this number is outside the set and applies.
/// `known` has the clauses of the facts.
fn judge_applied(
    alloc: Global,
    known: &mut Cnf,
    reading: &TheoryLines<'_>,
    set: Vars,
    number: u32,
    lines: &mut Lines<'_>,
) -> Result<Judged, ReportFault>
    requires number { IsNumberOf reading.now.terms.now.justs.now number }
    requires made { known.old ≡ clause_list (theory_names reading.now.theory.now)
        (facts_of (theory_items reading.now.theory.now)) }
    ensures kept { OnOk result (known.new ≡ known.old) }
    ensures exact { Tells (TellsVerdict (theory_names reading.now.theory.now)
        (theory_items reading.now.theory.now) (theory_beliefs reading.now.theory.now) set)
        result lines.new (applied_at (terms_of reading.now.terms.now) number lines.old) }
{
    let vars = known.vars();
    let count = known.clauses().len();
    push_added(alloc, known, reading.theory, set)?;
    let judged = judge_applying(alloc, known, reading, set, number, lines)?;
    known.cut(vars, count);
    Ok(judged)
}

/// Whether the default that is told is one of the set.
fn is_inside(set: Vars, told: Option<u32>) -> bool
    ensures { IsTrue result ↔ ((n : ℕ) × (told ≡ Some n) × IsNumberIn set n) }
{
    match told {
        Some(number) => is_member(set, number),
        None => false,
    }
}

/// Judges a verdict that a default of the set does not apply. `known` has the clauses of the facts.
fn judge_fails(
    alloc: Global,
    known: &mut Cnf,
    reading: &TheoryLines<'_>,
    set: Vars,
    lines: &mut Lines<'_>,
) -> Result<Judged, ReportFault>
    requires made { known.old ≡ clause_list (theory_names reading.now.theory.now)
        (facts_of (theory_items reading.now.theory.now)) }
    ensures kept { OnOk result (known.new ≡ known.old) }
    ensures exact { Tells (TellsVerdict (theory_names reading.now.theory.now)
        (theory_items reading.now.theory.now) (theory_beliefs reading.now.theory.now) set)
        result lines.new (or_absence (terms_of reading.now.terms.now) lines.old) }
{
    let premises = generated(alloc, reading.theory, set)?;
    let vars = known.vars();
    let count = known.clauses().len();
    push_added(alloc, known, reading.theory, set)?;
    let told = judge_absence(alloc, known, reading, &premises, None, lines)?;
    known.cut(vars, count);
    Ok(judged_by(is_inside(set, told)))
}

/// Whether the part is a proper one of the set, and none of the others is supported.
fn is_stuck(part: Vars, set: Vars, none_supported: bool) -> bool
    ensures { IsTrue result ↔ (Within part set × (¬ (part ≡ set)) × IsTrue none_supported) }
{
    part.within(set) && part != set && none_supported
}

/// Judges the rest of a verdict that the defaults of a part support none of the other defaults of
/// the set.
#[tactic(auto, unfolding(mcs_proof_lines::specs::Verdicts::ungrounded_at))]
fn judge_ungrounded(
    alloc: Global,
    reading: &TheoryLines<'_>,
    set: Vars,
    part: Vars,
    lines: &mut Lines<'_>,
) -> Result<Judged, ReportFault>
    requires inside { set < 2 ^ length reading.now.terms.now.justs.now }
    ensures { Tells (TellsVerdict (theory_names reading.now.theory.now)
        (theory_items reading.now.theory.now) (theory_beliefs reading.now.theory.now) set)
        result lines.new (ungrounded_at (terms_of reading.now.terms.now) set part lines.old) }
{
    let premises = generated(alloc, reading.theory, part)?;
    let others = chosen(alloc, reading.theory.defaults, set.minus(part))?;
    let goals = prerequisites(alloc, &others)?;
    let named = Named {
        asked: reading.theory.asked,
        texts: reading.terms.atoms,
    };
    let denied = judge_all_no(&named, &premises, &goals, lines)?;
    Ok(judged_by(is_stuck(part, set, denied)))
}

/// Judges the verdict on the set. `known` has the clauses of the facts.
#[tactic(auto, unfolding(mcs_proof_lines::specs::Verdicts::verdict_at))]
fn judge_verdict(
    alloc: Global,
    known: &mut Cnf,
    reading: &TheoryLines<'_>,
    set: Vars,
    lines: &mut Lines<'_>,
) -> Result<Judged, ReportFault>
    requires inside { set < 2 ^ length reading.now.terms.now.justs.now }
    requires made { known.old ≡ clause_list (theory_names reading.now.theory.now)
        (facts_of (theory_items reading.now.theory.now)) }
    ensures kept { OnOk result (known.new ≡ known.old) }
    ensures exact { Tells (TellsVerdict (theory_names reading.now.theory.now)
        (theory_items reading.now.theory.now) (theory_beliefs reading.now.theory.now) set)
        result lines.new (verdict_at (terms_of reading.now.terms.now) set lines.old) }
{
    if let Some(number) = next_applied(reading.terms, lines) {
        lines.advance();
        return judge_applied(alloc, known, reading, set, number, lines);
    }
    if let Some(part) = next_defaults(b"ungrounded ", reading.terms, lines) {
        lines.advance();
        return judge_ungrounded(alloc, reading, set, part, lines);
    }
    if let Some(numbers) = next_order(reading, lines) {
        lines.advance();
        return judge_extension(alloc, known, reading, set, numbers, lines);
    }
    judge_fails(alloc, known, reading, set, lines)
}

/// Reads the line of the set, and judges the verdict on it. `known` has the clauses of the facts.
#[tactic(auto, unfolding(mcs_proof_lines::specs::Verdicts::set_at))]
fn judge_set(
    alloc: Global,
    known: &mut Cnf,
    reading: &TheoryLines<'_>,
    set: Vars,
    lines: &mut Lines<'_>,
) -> Result<Judged, ReportFault>
    requires inside { set < 2 ^ length reading.now.terms.now.justs.now }
    requires made { known.old ≡ clause_list (theory_names reading.now.theory.now)
        (facts_of (theory_items reading.now.theory.now)) }
    ensures kept { OnOk result (known.new ≡ known.old) }
    ensures exact { Tells (TellsVerdict (theory_names reading.now.theory.now)
        (theory_items reading.now.theory.now) (theory_beliefs reading.now.theory.now) set)
        result lines.new (set_at (terms_of reading.now.terms.now) set lines.old) }
{
    if !names_set(reading.terms, set, lines) {
        return Err(out_of_place(lines));
    }
    lines.advance();
    judge_verdict(alloc, known, reading, set, lines)
}

/// Appends the view that a verdict shows, if it shows one. Returns whether all verdicts are
/// accepted, this one and those before it.
fn note(judged: Judged, are_right: bool, views: &mut Vec<Vars>) -> Result<bool, Memory>
    ensures { IfOk result (λ yes. IsNoted judged are_right views.old.items yes views.new.items) }
{
    match judged {
        Judged::Refused => Ok(false),
        Judged::Passed => Ok(are_right),
        Judged::Shows(view) => {
            views.push(view)?;
            Ok(are_right)
        }
    }
}

/// Reads the verdicts on all sets of defaults. Returns the views that they show, if each verdict is
/// accepted. `known` has the clauses of the facts.
#[tactic(auto, unfolding(mcs_proof_lines::specs::Verdicts::verdicts_at))]
fn judge_sets(
    alloc: Global,
    known: &mut Cnf,
    reading: &TheoryLines<'_>,
    lines: &mut Lines<'_>,
) -> Result<Option<Vec<Vars>>, ReportFault>
    requires made { known.old ≡ clause_list (theory_names reading.now.theory.now)
        (facts_of (theory_items reading.now.theory.now)) }
    ensures { Tells (AreViewsOf (IsAcceptedDefault (theory_names reading.now.theory.now)
        (theory_items reading.now.theory.now) (theory_beliefs reading.now.theory.now)))
        result lines.new (verdicts_at (terms_of reading.now.terms.now) lines.old) }
{
    let mut views = Vec::new(alloc);
    let mut are_right = true;
    let mut left = reading.terms.places().number() + 1;
    let mut set: u64 = 0;
    while left > 0 {
        match judge_set(alloc, known, reading, Vars::numbered(set), lines) {
            Ok(judged) => are_right = note(judged, are_right, &mut views)?,
            Err(fault) => return Err(fault),
        }
        set += 1;
        left -= 1;
    }
    if !are_right {
        return Ok(None);
    }
    list_states(&mut views);
    Ok(Some(views))
}

/// Reads the certificate of a default theory, as `take_verdicts` does, and returns the views that
/// it shows for the theory with the heads as facts, if it is accepted. `terms` says what the lines
/// may name: the names of the atoms, the numbers of the defaults, of each default how many
/// justifications it has, and how many beliefs there are.
///
/// The verdicts are judged one at a time as they are read, and each of their lines at once. What is
/// not accepted is read to its end all the same.
pub fn judge_verdicts(
    alloc: Global,
    items: &[TheoryItem],
    heads: &[&Formula],
    asked: &Asked<'_>,
    terms: &Theory<'_>,
    lines: &mut Lines<'_>,
) -> Result<Option<Vec<Vars>>, ReportFault>
    requires few_texts { length terms.now.atoms.now ≤ 64 }
    requires few_numbers { length terms.now.numbers.now ≤ 64 }
    requires few_defaults { length (defaults_of (map item_of items.now)) ≤ 10 }
    requires justs { terms.now.justs.now
        ≡ map (λ (d : plain.Default). length d.justs) (defaults_of (map item_of items.now)) }
    requires told_beliefs { terms.now.beliefs ≡ length asked.now.beliefs.now }
    requires items { AreOverItems asked.now.atoms.now (map item_of items.now) }
    requires heads { AreOver asked.now.atoms.now (map (λ f. formula_of f.now) heads.now) }
    ensures { Tells (AreViewsOf (IsAcceptedDefault asked.now.atoms.now
        (map item_of items.now ++ map Fact (map (λ f. formula_of f.now) heads.now))
        (asked_beliefs asked.now))) result lines.new
        (verdicts_at (terms_of terms.now) lines.old) }
{
    let defaults = defaults_of(alloc, items)?;
    let facts = facts_with(alloc, items, heads)?;
    let mut known = clauses_of(alloc, asked, &facts)?;
    drop(facts);
    let own = Asked {
        atoms: asked.atoms,
        beliefs: asked.beliefs,
    };
    let question = AskedTheory {
        asked: &own,
        items,
        heads,
        defaults: &defaults,
    };
    let reading = TheoryLines {
        theory: &question,
        terms,
    };
    judge_sets(alloc, &mut known, &reading, lines)
}
