//! Reading verdicts on sets of defaults.

ghost use Rattle.std.specs.Prelude.{◌≡◌, ◌≤◌, ◌<◌, ◌^◌, [], length, map, codes, IfOk, IfSome};
ghost use Rattle.std.specs.Option.{option_map};
ghost use Rattle.mcs_evidence.specs.Defaults.{verdict_of};
ghost use Rattle.mcs_proof_lines.specs.Walks.{Gives, IsNumberOf, line_at, number_after};
ghost use Rattle.mcs_proof_lines.specs.Verdicts.{within_from, order_of, terms_of, defaults_of_line};
ghost use Rattle.mcs_proof_lines.specs.Verdicts.{extension_at, applied_at, ungrounded_at};
ghost use Rattle.mcs_proof_lines.specs.Verdicts.{verdict_at, names_set, set_at, verdicts_at};

use crate::absences::{number_after, take_absence, take_absences};
use crate::evidence::{out_of_place, take_all_no, take_all_yes, take_entailments, take_yes};
use crate::fault::ReportFault;
use crate::lines::Lines;
use crate::theory::Theory;
use mcs_base::{Memory, Vars};
use mcs_spelling::{read_numbers, read_set, strip};
use mcs_trace::SetCert;
use std::alloc::Global;

/// The set of defaults after the word in the line.
#[tactic(auto, unfolding(crate::specs::Verdicts::defaults_of_line))]
fn read_defaults(word: &[u8], theory: &Theory<'_>, line: &[u8]) -> Option<Vars>
    requires defaults { length theory.now.justs.now ≤ 10 }
    requires numbers { length theory.now.numbers.now ≤ 64 }
    ensures value { result ≡ defaults_of_line word.now (terms_of theory.now) line.now }
    ensures small { IfSome result (λ s. s < 2 ^ 32) }
{
    let set = read_set(theory.numbers, theory.places(), strip(line, word)?)?;
    if set.number() < 4_294_967_296 {
        Some(set)
    } else {
        None
    }
}

/// The set of defaults after the word in the next line.
pub fn next_defaults(word: &[u8], theory: &Theory<'_>, lines: &Lines<'_>) -> Option<Vars>
    requires defaults { length theory.now.justs.now ≤ 10 }
    requires numbers { length theory.now.numbers.now ≤ 64 }
    ensures value { result ≡ line_at (defaults_of_line word.now (terms_of theory.now)) lines.now }
    ensures small { IfSome result (λ s. s < 2 ^ 32) }
{
    read_defaults(word, theory, lines.current()?)
}

/// The numbers, if none of them is above `most`.
fn within(alloc: Global, most: u32, numbers: &[u64]) -> Result<Option<Vec<u32>>, Memory>
    ensures { IfOk result (λ o. option_map (λ v. v.items) o ≡ within_from most [] numbers.now) }
{
    let mut order = Vec::new(alloc);
    for number in numbers {
        if *number > u64::from(most) {
            return Ok(None);
        }
        order.push(*number as u32)?;
    }
    Ok(Some(order))
}

/// The order of defaults in the line. There are `most` defaults.
#[tactic(auto, unfolding(crate::specs::Verdicts::order_of))]
fn read_order(alloc: Global, most: u32, line: &[u8]) -> Result<Option<Vec<u32>>, Memory>
    ensures { IfOk result (λ o. option_map (λ v. v.items) o ≡ order_of most line.now) }
{
    let Some(rest) = strip(line, b"extension") else {
        return Ok(None);
    };
    if rest.is_empty() {
        return Ok(Some(Vec::new(alloc)));
    }
    let Some(spelled) = strip(rest, b" ") else {
        return Ok(None);
    };
    match read_numbers(alloc, spelled)? {
        Some(numbers) => within(alloc, most, &numbers),
        None => Ok(None),
    }
}

/// The order of defaults in the next line, if it has one.
fn next_order(
    alloc: Global,
    theory: &Theory<'_>,
    lines: &Lines<'_>,
) -> Result<Option<Vec<u32>>, Memory>
    requires { length theory.now.justs.now ≤ 10 }
    ensures { IfOk result (λ o. option_map (λ v. v.items) o
        ≡ line_at (order_of (length theory.now.justs.now)) lines.now) }
{
    match lines.current() {
        Some(line) => read_order(alloc, theory.justs.len() as u32, line),
        None => Ok(None),
    }
}

/// Takes the rest of a verdict that the set generates an extension, with its defaults in this
/// order.
#[tactic(auto, unfolding(crate::specs::Verdicts::extension_at))]
fn take_extension(
    alloc: Global,
    theory: &Theory<'_>,
    set: Vars,
    order: Vec<u32>,
    lines: &mut Lines<'_>,
) -> Result<SetCert, ReportFault>
    requires atoms { length theory.now.atoms.now ≤ 64 }
    requires defaults { length theory.now.justs.now ≤ 10 }
    ensures { Gives verdict_of result lines.new (extension_at
        (terms_of theory.now) set order.items lines.old) }
{
    let Some(count) = theory.count_justs(set.members()) else {
        return Err(ReportFault::Memory);
    };
    let pres = take_all_yes(alloc, order.len(), lines)?;
    let justs = take_all_no(alloc, theory.atoms, count, lines)?;
    let others = theory.places().minus(set).members();
    let outside = take_absences(alloc, theory.atoms, theory.justs, others, lines)?;
    let outputs = take_entailments(alloc, theory.atoms, theory.beliefs, lines)?;
    Ok(SetCert::Extension {
        order,
        pres,
        justs,
        outside,
        outputs,
    })
}

/// Takes the rest of a verdict that the default with this number is outside the set and applies.
#[tactic(auto, unfolding(crate::specs::Verdicts::applied_at))]
fn take_applied(
    alloc: Global,
    theory: &Theory<'_>,
    number: u32,
    lines: &mut Lines<'_>,
) -> Result<SetCert, ReportFault>
    requires atoms { length theory.now.atoms.now ≤ 64 }
    requires some { 0 < number }
    ensures { Gives verdict_of result lines.new (applied_at
        (terms_of theory.now) number lines.old) }
{
    let pre = take_yes(alloc, lines)?;
    match take_all_no(alloc, theory.atoms, theory.just_count(number - 1), lines) {
        Ok(justs) => Ok(SetCert::Applied { number, pre, justs }),
        Err(fault) => {
            drop(pre);
            Err(fault)
        }
    }
}

/// Takes the rest of a verdict that a subset supports none of the other defaults of the set.
#[tactic(auto, unfolding(crate::specs::Verdicts::ungrounded_at))]
fn take_ungrounded(
    alloc: Global,
    theory: &Theory<'_>,
    set: Vars,
    closed: Vars,
    lines: &mut Lines<'_>,
) -> Result<SetCert, ReportFault>
    requires atoms { length theory.now.atoms.now ≤ 64 }
    requires closed { closed < 2 ^ 32 }
    ensures { Gives verdict_of result lines.new (ungrounded_at
        (terms_of theory.now) set closed lines.old) }
{
    let count = set.minus(closed).count() as usize;
    let pres = take_all_no(alloc, theory.atoms, count, lines)?;
    Ok(SetCert::Ungrounded {
        closed: closed.number() as u32,
        pres,
    })
}

/// The number of the default that the next line names as one that applies, counted from 1.
pub fn next_applied(theory: &Theory<'_>, lines: &Lines<'_>) -> Option<u32>
    requires { length theory.now.justs.now ≤ 10 }
    ensures value { result
        ≡ line_at (number_after (codes "applied ") (length theory.now.justs.now)) lines.now }
    ensures within { IfSome result (IsNumberOf theory.now.justs.now) }
{
    number_after(b"applied ", theory.justs.len() as u32, lines.current()?)
}

/// Takes the verdict on the set.
#[tactic(auto, unfolding(crate::specs::Verdicts::verdict_at))]
fn take_verdict(
    alloc: Global,
    theory: &Theory<'_>,
    set: Vars,
    lines: &mut Lines<'_>,
) -> Result<SetCert, ReportFault>
    requires atoms { length theory.now.atoms.now ≤ 64 }
    requires defaults { length theory.now.justs.now ≤ 10 }
    requires numbers { length theory.now.numbers.now ≤ 64 }
    ensures { Gives verdict_of result lines.new (verdict_at (terms_of theory.now) set lines.old) }
{
    if let Some(number) = next_applied(theory, lines) {
        lines.advance();
        return take_applied(alloc, theory, number, lines);
    }
    if let Some(closed) = next_defaults(b"ungrounded ", theory, lines) {
        lines.advance();
        return take_ungrounded(alloc, theory, set, closed, lines);
    }
    if let Some(order) = next_order(alloc, theory, lines)? {
        lines.advance();
        return take_extension(alloc, theory, set, order, lines);
    }
    match take_absence(alloc, theory.atoms, theory.justs, None, lines) {
        Ok(outside) => Ok(SetCert::Fails(outside)),
        Err(fault) => Err(fault),
    }
}

/// Whether the next line names the set.
pub fn names_set(theory: &Theory<'_>, set: Vars, lines: &Lines<'_>) -> bool
    requires defaults { length theory.now.justs.now ≤ 10 }
    requires numbers { length theory.now.numbers.now ≤ 64 }
    ensures { result ≡ names_set (terms_of theory.now) set lines.now }
{
    match next_defaults(b"set ", theory, lines) {
        Some(named) => set == named,
        None => false,
    }
}

/// Takes the line of the set, and the verdict on it.
#[tactic(auto, unfolding(crate::specs::Verdicts::set_at))]
fn take_set(
    alloc: Global,
    theory: &Theory<'_>,
    set: Vars,
    lines: &mut Lines<'_>,
) -> Result<SetCert, ReportFault>
    requires atoms { length theory.now.atoms.now ≤ 64 }
    requires defaults { length theory.now.justs.now ≤ 10 }
    requires numbers { length theory.now.numbers.now ≤ 64 }
    ensures { Gives verdict_of result lines.new (set_at (terms_of theory.now) set lines.old) }
{
    if !names_set(theory, set, lines) {
        return Err(out_of_place(lines));
    }
    lines.advance();
    take_verdict(alloc, theory, set, lines)
}

/// Takes the verdicts on all sets of defaults.
#[tactic(auto, unfolding(crate::specs::Verdicts::verdicts_at))]
pub fn take_verdicts(
    alloc: Global,
    theory: &Theory<'_>,
    lines: &mut Lines<'_>,
) -> Result<Vec<SetCert>, ReportFault>
    requires atoms { length theory.now.atoms.now ≤ 64 }
    requires defaults { length theory.now.justs.now ≤ 10 }
    requires numbers { length theory.now.numbers.now ≤ 64 }
    ensures { Gives (λ v. map verdict_of v.items) result lines.new
        (verdicts_at (terms_of theory.now) lines.old) }
{
    let mut sets = Vec::new(alloc);
    let mut left = theory.places().number() + 1;
    let mut set: u64 = 0;
    while left > 0 {
        match take_set(alloc, theory, Vars::numbered(set), lines) {
            Ok(verdict) => sets.push(verdict)?,
            Err(fault) => return Err(fault),
        }
        set += 1;
        left -= 1;
    }
    Ok(sets)
}
