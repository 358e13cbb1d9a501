//! The order in which the defaults of a set apply, judged as its certificates are read.

ghost use Rattle.std.specs.Prelude.{◌≡◌, ◌≤◌, ◌<◌, ◌^◌, ◌↔◌, ◌∷◌, [], List, length, map, IsTrue};
ghost use Rattle.std.specs.Prelude.{OnOk, None, false, MatchOption};
ghost use Rattle.std.specs.List.{AllByRecursion};
ghost use Rattle.std.specs.Option.{option_map_or};
ghost use Rattle.mcs_system.specs.Plain as plain;
ghost use Rattle.mcs_system.specs.Seen.{default_of};
ghost use Rattle.mcs_cnf.specs.ClauseLists.{clause_list, with_formulas};
ghost use Rattle.mcs_asked.specs.Questions.{theory_names, theory_items};
ghost use Rattle.mcs_cnf.specs.Growing.{HasMoreFormulas};
ghost use Rattle.mcs_evidence.specs.Defaults.{facts_of, AreGrounded, IsEntailmentShown};
ghost use Rattle.mcs_evidence.specs.Theories.{IsOverDefault};
ghost use Rattle.mcs_extensions.specs.Checks.{IsNumberIn, AreNumbersOf};
ghost use Rattle.mcs_spelling.specs.Words.{numbers_of};
ghost use Rattle.mcs_proof_lines.specs.Walks.{IsNumberOf, line_at, many_at, yes_at};
ghost use Rattle.mcs_proof_lines.specs.Verdicts.{order_of};
ghost use Rattle.mcs_steps.specs.Judging.{Judges, PassesBy};
ghost use Rattle.mcs_judging.specs.Theories.{numbers_in, AreNumbers, IsOrderIn, all_within};

use crate::entailments::{both, judge_yes};
use crate::theory::{TheoryLines, default_numbered};
use mcs_base::Vars;
use mcs_cnf::push_formula;
use mcs_extensions::is_member;
use mcs_proof_lines::{Lines, ReportFault, expect};
use mcs_spelling::strip;
use mcs_steps::{first_number, pass_trace};
use mcs_system::{Default, Name};
use mcs_trace::Cnf;
use std::alloc::Global;

/// Whether the bytes spell numbers, with a space between them, none of which is above `most`.
fn are_within(most: u32, bytes: &[u8]) -> bool
    ensures { result ≡ option_map_or (all_within most) (numbers_of bytes.now) false }
{
    let mut left = bytes;
    while let Some((number, rest)) = first_number(left) {
        if number > u64::from(most) {
            return false;
        }
        if rest.is_empty() {
            return true;
        }
        left = &rest[1..];
    }
    false
}

/// What follows the word in the line, if the line is the order of an extension: numbers with a
/// space before each, none of which is above `most`.
#[tactic(auto, unfolding(mcs_proof_lines::specs::Verdicts::order_of))]
fn read_order(most: u32, line: &[u8]) -> Option<&[u8]>
    ensures { MatchOption result (order_of most line.now ≡ None)
        (λ bytes. IsOrderIn (order_of most line.now) bytes.now) }
{
    let rest = strip(line, b"extension")?;
    if rest.is_empty() {
        return Some(rest);
    }
    let numbers = strip(rest, b" ")?;
    if are_within(most, numbers) {
        Some(rest)
    } else {
        None
    }
}

/// The bytes of the order in the next line, if it has one.
pub(crate) fn next_order<'b>(reading: &TheoryLines<'_>, lines: &Lines<'b>) -> Option<&'b [u8]>
    ensures { MatchOption result (line_at (order_of (length reading.now.terms.now.justs.now))
        lines.now ≡ None)
        (λ bytes. IsOrderIn (line_at (order_of (length reading.now.terms.now.justs.now)) lines.now)
        bytes.now) }
{
    read_order(reading.terms.justs.len() as u32, lines.current()?)
}

/// Whether the number, counted from 1, is that of a member of the set.
fn is_numbered(set: Vars, number: u64) -> bool
    ensures exact { IsTrue result ↔ IsNumberIn set number }
    ensures low { IsTrue result → number ≤ 64 }
{
    // The contract of `count` ensures that the members are below 64.
    let _ = set.count();
    if number > 64 {
        return false;
    }
    is_member(set, number as u32)
}

/// Whether the bytes spell the numbers of the members of the set, each once, in any order.
fn are_numbers_of(set: Vars, numbers: &[u8]) -> bool
    requires { AreNumbers numbers.now }
    ensures { IsTrue result ↔ AreNumbersOf set (numbers_in numbers.now) }
{
    let mut left = numbers;
    let mut rest = set;
    while !left.is_empty() {
        let Some((number, after)) = first_number(&left[1..]) else {
            return false;
        };
        if !is_numbered(rest, number) {
            return false;
        }
        rest = rest.without((number - 1) as u32);
        left = after;
    }
    rest == Vars::empty()
}

/// Reads a certificate that a formula follows, and keeps nothing of it.
#[tactic(auto, unfolding(mcs_proof_lines::specs::Walks::yes_at))]
fn pass_yes(lines: &mut Lines<'_>) -> Result<(), ReportFault>
    ensures { PassesBy result lines.new (yes_at lines.old) }
{
    expect(lines, b"yes")?;
    pass_trace(lines)
}

/// Reads such a certificate for each of the numbers that the bytes spell, and keeps nothing of
/// them.
fn pass_all_yes(numbers: &[u8], lines: &mut Lines<'_>) -> Result<(), ReportFault>
    requires { AreNumbers numbers.now }
    ensures { PassesBy result lines.new (many_at yes_at
        (length (numbers_in numbers.now)) lines.old) }
{
    let mut left = numbers;
    while !left.is_empty() {
        let Some((_, rest)) = first_number(&left[1..]) else {
            return Ok(());
        };
        match pass_yes(lines) {
            Ok(()) => left = rest,
            Err(fault) => return Err(fault),
        }
    }
    Ok(())
}

/// Reads a certificate that the prerequisite of the default follows, and returns whether it shows
/// that it follows from the formulas whose clauses are `known`. The clauses of the consequent are
/// added to these.
fn judge_prerequisite(
    alloc: Global,
    known: &mut Cnf,
    default: &Default,
    atoms: &[Name],
    lines: &mut Lines<'_>,
) -> Result<bool, ReportFault>
    requires over { IsOverDefault atoms.now (default_of default.now) }
    requires room { length atoms.now ≤ known.old.vars }
    ensures pushed { OnOk result (known.new
        ≡ with_formulas atoms.now known.old ((default_of default.now).conclusion ∷ [])) }
    ensures exact { (fs : List plain.Formula) → known.old ≡ clause_list atoms.now fs
        → Judges (IsEntailmentShown atoms.now fs (default_of default.now).pre) result lines.new
        (yes_at lines.old) }
{
    let shown = judge_yes(alloc, known, &default.pre, atoms, lines)?;
    push_formula(alloc, known, atoms, &default.conclusion)?;
    Ok(shown)
}

/// Reads a certificate for each of the defaults whose numbers the bytes spell. Returns whether they
/// show that the prerequisites follow one after the other, each by means of the consequents before
/// it. The clauses of the consequents are added to `known`, which has those of the facts.
fn judge_order(
    alloc: Global,
    known: &mut Cnf,
    reading: &TheoryLines<'_>,
    numbers: &[u8],
    lines: &mut Lines<'_>,
) -> Result<bool, ReportFault>
    requires numbers { AreNumbers numbers.now }
    requires within { AllByRecursion (IsNumberOf reading.now.terms.now.justs.now)
        (numbers_in numbers.now) }
    requires made { known.old ≡ clause_list (theory_names reading.now.theory.now)
        (facts_of (theory_items reading.now.theory.now)) }
    ensures grown { OnOk result (HasMoreFormulas (theory_names reading.now.theory.now) known.old
        known.new) }
    ensures exact { Judges (AreGrounded (theory_names reading.now.theory.now)
        (theory_items reading.now.theory.now) (facts_of (theory_items reading.now.theory.now))
        (numbers_in numbers.now)) result lines.new
        (many_at yes_at (length (numbers_in numbers.now)) lines.old) }
{
    let mut left = numbers;
    let mut are_right = true;
    while !left.is_empty() {
        let Some((number, rest)) = first_number(&left[1..]) else {
            return Ok(false);
        };
        let default = default_numbered(reading, number as u32);
        match judge_prerequisite(alloc, known, default, reading.theory.asked.atoms, lines) {
            Ok(shown) => are_right = both(are_right, shown),
            Err(fault) => return Err(fault),
        }
        left = rest;
    }
    Ok(are_right)
}

/// Reads a certificate for each of the numbers that the bytes spell. Returns whether they show that
/// the defaults of the set apply in this order: whether the numbers are theirs, each once, and each
/// prerequisite follows by means of the consequents before it. `known` has the clauses of the
/// facts.
pub(crate) fn judge_grounded(
    alloc: Global,
    known: &mut Cnf,
    reading: &TheoryLines<'_>,
    set: Vars,
    numbers: &[u8],
    lines: &mut Lines<'_>,
) -> Result<bool, ReportFault>
    requires inside { set < 2 ^ length reading.now.terms.now.justs.now }
    requires numbers { AreNumbers numbers.now }
    requires made { known.old ≡ clause_list (theory_names reading.now.theory.now)
        (facts_of (theory_items reading.now.theory.now)) }
    ensures kept { OnOk result (known.new ≡ known.old) }
    ensures exact { Judges (λ pres. AreNumbersOf set (numbers_in numbers.now)
        × AreGrounded (theory_names reading.now.theory.now) (theory_items reading.now.theory.now)
        (facts_of (theory_items reading.now.theory.now)) (numbers_in numbers.now) pres)
        result lines.new (many_at yes_at (length (numbers_in numbers.now)) lines.old) }
{
    if !are_numbers_of(set, numbers) {
        pass_all_yes(numbers, lines)?;
        return Ok(false);
    }
    let vars = known.vars();
    let count = known.clauses().len();
    let grounded = judge_order(alloc, known, reading, numbers, lines)?;
    known.cut(vars, count);
    Ok(grounded)
}
