//! Reading traces and entailments.

ghost use Rattle.std.specs.Prelude.{◌≡◌, ◌≤◌, length, map, IfOk, ◌+◌};
ghost use Rattle.std.specs.Option.{option_map};
ghost use Rattle.mcs_trace.specs.Traces.{inference_of, inferences_of};
ghost use Rattle.mcs_spelling.specs.Words.{step_of};
ghost use Rattle.mcs_cnf.specs.Entailments.{entailment_of};
ghost use Rattle.mcs_proof_lines.specs.declared.fault.ReportFault.TheVariants as faults;
ghost use Rattle.mcs_proof_lines.specs.Walks.{atoms_of_line, Gives, Passes, is_next, expect_at};
ghost use Rattle.mcs_proof_lines.specs.Walks.{line_at, steps_at, trace_at, yes_at, atoms_at, no_at};
ghost use Rattle.mcs_proof_lines.specs.Walks.{entailment_at, many_at};

use crate::fault::ReportFault;
use crate::lines::Lines;
use mcs_base::{Memory, Text, Vars};
use mcs_spelling::{read_set, read_step, strip};
use mcs_trace::{Entail, Step, Trace};
use std::alloc::Global;

/// The fault that the next line is out of place.
pub fn out_of_place(lines: &Lines<'_>) -> ReportFault
    ensures { result ≡ faults.Grammar (lines.now.taken + 1) }
{
    ReportFault::Grammar {
        line: lines.number(),
    }
}

/// Whether the next line is this one.
pub fn is_next(lines: &Lines<'_>, line: &[u8]) -> bool
    ensures { result ≡ is_next line.now lines.now }
{
    match lines.current() {
        Some(current) => current == line,
        None => false,
    }
}

/// Takes the next line, which has to be this one.
#[tactic(auto, unfolding(crate::specs::Walks::expect_at))]
pub fn expect(lines: &mut Lines<'_>, line: &[u8]) -> Result<(), ReportFault>
    ensures { Passes result lines.new (expect_at line.now lines.old) }
{
    if !is_next(lines, line) {
        return Err(out_of_place(lines));
    }
    lines.advance();
    Ok(())
}

/// The step in the next line, if it is one.
fn next_step(alloc: Global, lines: &Lines<'_>) -> Result<Option<Step>, Memory>
    ensures { IfOk result (λ o. option_map inference_of o ≡ line_at step_of lines.now) }
{
    match lines.current() {
        Some(line) => read_step(alloc, line),
        None => Ok(None),
    }
}

/// Takes steps, as long as the next line is one.
#[tactic(auto, unfolding(crate::specs::Walks::steps_at))]
fn take_steps(alloc: Global, lines: &mut Lines<'_>) -> Result<Vec<Step>, Memory>
    ensures { IfOk result (λ v. steps_at lines.old ≡ (map inference_of v.items, lines.new)) }
{
    let mut steps = Vec::new(alloc);
    while let Some(step) = next_step(alloc, lines)? {
        steps.push(step)?;
        lines.advance();
    }
    Ok(steps)
}

/// Takes a trace, which has at least one step.
#[tactic(auto, unfolding(crate::specs::Walks::trace_at))]
pub fn take_trace(alloc: Global, lines: &mut Lines<'_>) -> Result<Trace, ReportFault>
    ensures { Gives inferences_of result lines.new (trace_at lines.old) }
{
    let steps = take_steps(alloc, lines)?;
    if steps.is_empty() {
        return Err(out_of_place(lines));
    }
    Ok(Trace { steps })
}

/// Takes a certificate that a formula follows.
#[tactic(auto, unfolding(crate::specs::Walks::yes_at))]
pub fn take_yes(alloc: Global, lines: &mut Lines<'_>) -> Result<Entail, ReportFault>
    ensures { Gives entailment_of result lines.new (yes_at lines.old) }
{
    expect(lines, b"yes")?;
    match take_trace(alloc, lines) {
        Ok(trace) => Ok(Entail::Yes(trace)),
        Err(fault) => Err(fault),
    }
}

/// The set of atoms after the word in the next line. `atoms` are the names of the atoms.
pub fn next_atoms(word: &[u8], atoms: &[Text], lines: &Lines<'_>) -> Option<u64>
    requires { length atoms.now ≤ 64 }
    ensures { result ≡ line_at (atoms_of_line word.now atoms.now) lines.now }
{
    let line = lines.current()?;
    let set = read_set(atoms, Vars::numbered(u64::MAX), strip(line, word)?)?;
    Some(set.number())
}

/// Takes the line with the word and a set of atoms.
#[tactic(auto, unfolding(crate::specs::Walks::atoms_at))]
pub fn take_atoms(word: &[u8], atoms: &[Text], lines: &mut Lines<'_>) -> Result<u64, ReportFault>
    requires { length atoms.now ≤ 64 }
    ensures { Gives (λ n. n) result lines.new (atoms_at word.now atoms.now lines.old) }
{
    match next_atoms(word, atoms, lines) {
        Some(set) => {
            lines.advance();
            Ok(set)
        }
        None => Err(out_of_place(lines)),
    }
}

/// Takes a certificate that a formula does not follow.
#[tactic(auto, unfolding(crate::specs::Walks::no_at))]
pub fn take_no(atoms: &[Text], lines: &mut Lines<'_>) -> Result<Entail, ReportFault>
    requires { length atoms.now ≤ 64 }
    ensures { Gives entailment_of result lines.new (no_at atoms.now lines.old) }
{
    Ok(Entail::No(take_atoms(b"no ", atoms, lines)?))
}

/// Takes a certificate that a formula follows or that it does not.
#[tactic(auto, unfolding(crate::specs::Walks::entailment_at))]
pub fn take_entailment(
    alloc: Global,
    atoms: &[Text],
    lines: &mut Lines<'_>,
) -> Result<Entail, ReportFault>
    requires { length atoms.now ≤ 64 }
    ensures { Gives entailment_of result lines.new (entailment_at atoms.now lines.old) }
{
    if is_next(lines, b"yes") {
        take_yes(alloc, lines)
    } else {
        take_no(atoms, lines)
    }
}

/// Takes `count` certificates that a formula follows.
pub fn take_all_yes(
    alloc: Global,
    count: usize,
    lines: &mut Lines<'_>,
) -> Result<Vec<Entail>, ReportFault>
    ensures { Gives (λ v. map entailment_of v.items) result lines.new
        (many_at yes_at count lines.old) }
{
    let mut entails = Vec::new(alloc);
    let mut left = count;
    while left > 0 {
        match take_yes(alloc, lines) {
            Ok(entail) => entails.push(entail)?,
            Err(fault) => return Err(fault),
        }
        left -= 1;
    }
    Ok(entails)
}

/// Takes `count` certificates that a formula does not follow.
pub fn take_all_no(
    alloc: Global,
    atoms: &[Text],
    count: usize,
    lines: &mut Lines<'_>,
) -> Result<Vec<Entail>, ReportFault>
    requires { length atoms.now ≤ 64 }
    ensures { Gives (λ v. map entailment_of v.items) result lines.new
        (many_at (no_at atoms.now) count lines.old) }
{
    let mut entails = Vec::new(alloc);
    let mut left = count;
    while left > 0 {
        match take_no(atoms, lines) {
            Ok(entail) => entails.push(entail)?,
            Err(fault) => return Err(fault),
        }
        left -= 1;
    }
    Ok(entails)
}

/// Takes `count` certificates that a formula follows or that it does not.
pub fn take_entailments(
    alloc: Global,
    atoms: &[Text],
    count: usize,
    lines: &mut Lines<'_>,
) -> Result<Vec<Entail>, ReportFault>
    requires { length atoms.now ≤ 64 }
    ensures { Gives (λ v. map entailment_of v.items) result lines.new
        (many_at (entailment_at atoms.now) count lines.old) }
{
    let mut entails = Vec::new(alloc);
    let mut left = count;
    while left > 0 {
        match take_entailment(alloc, atoms, lines) {
            Ok(entail) => entails.push(entail)?,
            Err(fault) => return Err(fault),
        }
        left -= 1;
    }
    Ok(entails)
}
