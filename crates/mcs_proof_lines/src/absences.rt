//! Reading certificates that defaults do not apply.

ghost use Rattle.std.specs.Prelude.{◌≡◌, ◌≤◌, ◌<◌, length, map, IfSome};
ghost use Rattle.std.specs.List.{AllByRecursion};
ghost use Rattle.mcs_evidence.specs.Defaults.{absence_of};
ghost use Rattle.mcs_proof_lines.specs.Walks.{Gives, IsNumberOf, IsJustOf, may_be_named, may_block};
ghost use Rattle.mcs_proof_lines.specs.Walks.{is_just, number_after, unsupported_of, blocked_of};
ghost use Rattle.mcs_proof_lines.specs.Walks.{absence_at, absence_of_place, each_at, line_at};

use crate::evidence::{out_of_place, take_no, take_yes};
use crate::fault::ReportFault;
use crate::lines::Lines;
use mcs_base::{Members, Text};
use mcs_spelling::{find, read_number, strip};
use mcs_trace::Outside;
use std::alloc::Global;

/// The number after the word in the line, if it is at most `most`.
#[tactic(auto, unfolding(crate::specs::Walks::number_after))]
pub fn number_after(word: &[u8], most: u32, line: &[u8]) -> Option<u32>
    ensures value { result ≡ number_after word.now most line.now }
    ensures within { IfSome result (λ n. (0 < n) × (n ≤ most)) }
{
    let number = read_number(strip(line, word)?)?;
    if number <= u64::from(most) {
        Some(number as u32)
    } else {
        None
    }
}

/// Whether the default may be named: only `only` may be, if it is given.
fn may_be(only: Option<u32>, number: u32) -> bool
    ensures { result ≡ may_be_named only number }
{
    match only {
        Some(one) => number == one,
        None => true,
    }
}

/// The default that the line names as unsupported.
#[tactic(auto, unfolding(crate::specs::Walks::unsupported_of))]
fn read_unsupported(justs: &[usize], only: Option<u32>, line: &[u8]) -> Option<u32>
    requires { length justs.now ≤ 10 }
    ensures value { result ≡ unsupported_of justs.now only line.now }
    ensures within { IfSome result (IsNumberOf justs.now) }
{
    let number = number_after(b"unsupported ", justs.len() as u32, line)?;
    if may_be(only, number) {
        Some(number)
    } else {
        None
    }
}

/// Whether the default has a justification with this number.
fn is_just(justs: &[usize], number: u64, just: u64) -> bool
    requires { 0 < number }
    ensures { result ≡ is_just justs.now number just }
{
    match justs.get((number - 1) as usize) {
        Some(count) => just <= *count as u64 && just < 4_294_967_296,
        None => false,
    }
}

/// The default and its justification, if they may be named.
fn may_block(justs: &[usize], only: Option<u32>, number: u64, just: u64) -> Option<(u32, u32)>
    requires few { length justs.now ≤ 10 }
    requires some { 0 < number }
    requires some_just { 0 < just }
    ensures value { result ≡ may_block justs.now only number just }
    ensures within { IfSome result (IsJustOf justs.now) }
{
    if is_just(justs, number, just) && may_be(only, number as u32) {
        Some((number as u32, just as u32))
    } else {
        None
    }
}

/// The default that the line names as blocked, with its justification.
#[tactic(auto, unfolding(crate::specs::Walks::blocked_of))]
fn read_blocked(justs: &[usize], only: Option<u32>, line: &[u8]) -> Option<(u32, u32)>
    requires { length justs.now ≤ 10 }
    ensures value { result ≡ blocked_of justs.now only line.now }
    ensures within { IfSome result (IsJustOf justs.now) }
{
    let rest = strip(line, b"blocked ")?;
    let space = find(rest, b' ')?;
    let number = read_number(&rest[..space])?;
    let just = read_number(&rest[space + 1..])?;
    may_block(justs, only, number, just)
}

/// The number of the default that the next line names as unsupported, counted from 1. `justs` are
/// the numbers of justifications of each default; if `only` is given, no other default may be
/// named.
pub fn next_unsupported(justs: &[usize], only: Option<u32>, lines: &Lines<'_>) -> Option<u32>
    requires { length justs.now ≤ 10 }
    ensures value { result ≡ line_at (unsupported_of justs.now only) lines.now }
    ensures within { IfSome result (IsNumberOf justs.now) }
{
    read_unsupported(justs, only, lines.current()?)
}

/// The number of the default that the next line names as blocked, and that of its justification,
/// both counted from 1. `justs` are the numbers of justifications of each default; if `only` is
/// given, no other default may be named.
pub fn next_blocked(justs: &[usize], only: Option<u32>, lines: &Lines<'_>) -> Option<(u32, u32)>
    requires { length justs.now ≤ 10 }
    ensures value { result ≡ line_at (blocked_of justs.now only) lines.now }
    ensures within { IfSome result (IsJustOf justs.now) }
{
    read_blocked(justs, only, lines.current()?)
}

/// Takes a certificate that a default is unsupported or blocked; if `only` is given, that this one
/// is. `atoms` are the names of the atoms, and `justs` the number of justifications of each
/// default.
#[tactic(auto, unfolding(crate::specs::Walks::absence_at))]
pub fn take_absence(
    alloc: Global,
    atoms: &[Text],
    justs: &[usize],
    only: Option<u32>,
    lines: &mut Lines<'_>,
) -> Result<Outside, ReportFault>
    requires atoms { length atoms.now ≤ 64 }
    requires defaults { length justs.now ≤ 10 }
    ensures { Gives absence_of result lines.new (absence_at atoms.now justs.now only lines.old) }
{
    if let Some(number) = next_unsupported(justs, only, lines) {
        lines.advance();
        return match take_no(atoms, lines) {
            Ok(entail) => Ok(Outside::Unsupported(number, entail)),
            Err(fault) => Err(fault),
        };
    }
    let Some((number, just)) = next_blocked(justs, only, lines) else {
        return Err(out_of_place(lines));
    };
    lines.advance();
    match take_yes(alloc, lines) {
        Ok(entail) => Ok(Outside::Blocked(number, just, entail)),
        Err(fault) => Err(fault),
    }
}

/// Takes, for each default at these places, a certificate that it is unsupported or blocked.
pub fn take_absences(
    alloc: Global,
    atoms: &[Text],
    justs: &[usize],
    places: Members,
    lines: &mut Lines<'_>,
) -> Result<Vec<Outside>, ReportFault>
    requires atoms { length atoms.now ≤ 64 }
    requires defaults { length justs.now ≤ 10 }
    requires places { AllByRecursion (λ k. k < 64) places }
    ensures { Gives (λ v. map absence_of v.items) result lines.new
        (each_at (absence_of_place atoms.now justs.now) places lines.old) }
{
    let mut outside = Vec::new(alloc);
    for place in places {
        match take_absence(alloc, atoms, justs, Some(place + 1), lines) {
            Ok(one) => outside.push(one)?,
            Err(fault) => return Err(fault),
        }
    }
    Ok(outside)
}
