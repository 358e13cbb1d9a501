//! Certificates that defaults do not apply, judged as they are read.

ghost use Rattle.std.specs.Prelude.{◌≡◌, ◌≤◌, ◌<◌, ◌↔◌, List, length, map, IsTrue, IfSome, None};
ghost use Rattle.std.specs.Prelude.{Some};
ghost use Rattle.std.specs.List.{AllByRecursion, AllZip};
ghost use Rattle.mcs_system.specs.Plain as plain;
ghost use Rattle.mcs_system.specs.Seen.{formula_of};
ghost use Rattle.mcs_cnf.specs.ClauseLists.{clause_list, IsOver};
ghost use Rattle.mcs_asked.specs.Questions.{theory_names, theory_items};
ghost use Rattle.mcs_evidence.specs.Defaults.{Unsupported, Blocked, IsEntailmentShown};
ghost use Rattle.mcs_extensions.specs.Checks.{AreAbsent};
ghost use Rattle.mcs_proof_lines.specs.Walks.{IsNumberOf, IsJustOf, absence_at, absence_of_place};
ghost use Rattle.mcs_proof_lines.specs.Walks.{each_at, yes_at, no_at};
ghost use Rattle.mcs_steps.specs.Judging.{Judges};
ghost use Rattle.mcs_judging.specs.Judging.{Tells};
ghost use Rattle.mcs_judging.specs.Theories.{TellsAbsence, told_if};

use crate::entailments::{both, judge_no, judge_yes};
use crate::named::Named;
use crate::theory::{TheoryLines, default_numbered};
use mcs_base::Members;
use mcs_extensions::negated;
use mcs_proof_lines::{Lines, ReportFault, next_blocked, next_unsupported, out_of_place};
use mcs_system::{Formula, Name};
use mcs_trace::Cnf;
use std::alloc::Global;

/// The number, if what is said of it is shown.
fn told_if(shown: bool, number: u32) -> Option<u32>
    ensures { result ≡ told_if shown number }
{
    if shown { Some(number) } else { None }
}

/// Whether this number is told.
fn is_told(told: Option<u32>, number: u32) -> bool
    ensures { IsTrue result ↔ (told ≡ Some number) }
{
    match told {
        Some(other) => other == number,
        None => false,
    }
}

/// Reads a certificate that the prerequisite of the default with this number does not follow.
/// Returns the number, if it shows that it does not follow from the formulas.
fn judge_unsupported(
    reading: &TheoryLines<'_>,
    premises: &[&Formula],
    number: u32,
    lines: &mut Lines<'_>,
) -> Result<Option<u32>, ReportFault>
    requires number { IsNumberOf reading.now.terms.now.justs.now number }
    ensures { Tells (λ told e. TellsAbsence (theory_names reading.now.theory.now)
        (theory_items reading.now.theory.now) (map (λ f. formula_of f.now) premises.now) told
        (Unsupported number e)) result lines.new (no_at reading.now.terms.now.atoms.now lines.old) }
{
    let default = default_numbered(reading, number);
    let named = Named {
        asked: reading.theory.asked,
        texts: reading.terms.atoms,
    };
    let mut model = None;
    let denied = judge_no(&named, premises, &default.pre, &mut model, lines)?;
    Ok(told_if(denied, number))
}

/// Reads a certificate that the negation of the formula follows, and returns whether it shows that
/// it follows from the formulas whose clauses are `known`.
fn judge_negation(
    alloc: Global,
    known: &mut Cnf,
    formula: &Formula,
    atoms: &[Name],
    lines: &mut Lines<'_>,
) -> Result<bool, ReportFault>
    requires over { IsOver atoms.now (formula_of formula.now) }
    requires room { length atoms.now ≤ known.old.vars }
    ensures kept { known.new ≡ known.old }
    ensures exact { (fs : List plain.Formula) → known.old ≡ clause_list atoms.now fs
        → Judges (IsEntailmentShown atoms.now fs (plain.Not (formula_of formula.now))) result
        lines.new (yes_at lines.old) }
{
    let goal = negated(alloc, formula)?;
    let shown = judge_yes(alloc, known, &goal, atoms, lines);
    drop(goal);
    shown
}

/// Reads a certificate that the negation of a justification of the default with this number
/// follows. Returns the number of the default, if it shows that it follows from the formulas whose
/// clauses are `known`.
fn judge_blocked(
    alloc: Global,
    known: &mut Cnf,
    reading: &TheoryLines<'_>,
    number: u32,
    just: u32,
    lines: &mut Lines<'_>,
) -> Result<Option<u32>, ReportFault>
    requires within { IsJustOf reading.now.terms.now.justs.now (number, just) }
    requires room { length (theory_names reading.now.theory.now) ≤ known.old.vars }
    ensures kept { known.new ≡ known.old }
    ensures exact { (fs : List plain.Formula)
        → known.old ≡ clause_list (theory_names reading.now.theory.now) fs
        → Tells (λ told e. TellsAbsence (theory_names reading.now.theory.now)
        (theory_items reading.now.theory.now) fs told (Blocked number just e)) result lines.new
        (yes_at lines.old) }
{
    let default = default_numbered(reading, number);
    let formula = &default.justs[(just - 1) as usize];
    let shown = judge_negation(alloc, known, formula, reading.theory.asked.atoms, lines)?;
    Ok(told_if(shown, number))
}

/// Reads a certificate that a default is unsupported or blocked, as `take_absence` does; if `only`
/// is given, that this one is. Returns the number of the default, if it shows that the default does
/// not apply to the formulas, whose clauses are `known`.
#[tactic(auto, unfolding(mcs_proof_lines::specs::Walks::absence_at))]
pub(crate) fn judge_absence(
    alloc: Global,
    known: &mut Cnf,
    reading: &TheoryLines<'_>,
    premises: &[&Formula],
    only: Option<u32>,
    lines: &mut Lines<'_>,
) -> Result<Option<u32>, ReportFault>
    requires made { known.old ≡ clause_list (theory_names reading.now.theory.now)
        (map (λ f. formula_of f.now) premises.now) }
    ensures kept { known.new ≡ known.old }
    ensures exact { Tells (TellsAbsence (theory_names reading.now.theory.now)
        (theory_items reading.now.theory.now) (map
        (λ f. formula_of f.now) premises.now)) result lines.new
        (absence_at reading.now.terms.now.atoms.now reading.now.terms.now.justs.now only
        lines.old) }
{
    if let Some(number) = next_unsupported(reading.terms.justs, only, lines) {
        lines.advance();
        return judge_unsupported(reading, premises, number, lines);
    }
    let Some((number, just)) = next_blocked(reading.terms.justs, only, lines) else {
        return Err(out_of_place(lines));
    };
    lines.advance();
    judge_blocked(alloc, known, reading, number, just, lines)
}

/// Reads, for each default at these places, a certificate that it is unsupported or blocked, as
/// `take_absences` does. Returns whether they show that none of these defaults applies to the
/// formulas, whose clauses are `known`.
pub(crate) fn judge_absences(
    alloc: Global,
    known: &mut Cnf,
    reading: &TheoryLines<'_>,
    premises: &[&Formula],
    places: Members,
    lines: &mut Lines<'_>,
) -> Result<bool, ReportFault>
    requires made { known.old ≡ clause_list (theory_names reading.now.theory.now)
        (map (λ f. formula_of f.now) premises.now) }
    requires places { AllByRecursion (λ k. k < 64) places }
    ensures kept { known.new ≡ known.old }
    ensures exact { Judges (AreAbsent (theory_names reading.now.theory.now)
        (theory_items reading.now.theory.now) (map
        (λ f. formula_of f.now) premises.now) places) result lines.new
        (each_at (absence_of_place reading.now.terms.now.atoms.now reading.now.terms.now.justs.now)
        places lines.old) }
{
    let mut are_right = true;
    for place in places {
        let number = place + 1;
        match judge_absence(alloc, known, reading, premises, Some(number), lines) {
            Ok(told) => are_right = both(are_right, is_told(told, number)),
            Err(fault) => return Err(fault),
        }
    }
    Ok(are_right)
}
