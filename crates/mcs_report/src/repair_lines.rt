//! The lines of diagnoses and explanations. Each call appends one line with its line feed. Without
//! memory the text stays as it was.

ghost use Rattle.std.specs.Prelude.{◌≡◌, ◌<◌, ◌*◌, ◌++◌, map, length, codes, OnOk, OnErr, decimal};
ghost use Rattle.std.specs.List.{AllByRecursion};
ghost use Rattle.mcs_sets.specs.Sets.{Within};
ghost use Rattle.mcs_system.specs.Repairs.{all_marks};
ghost use Rattle.mcs_transversal.specs.Transversals.{IsCritical};
ghost use Rattle.mcs_text.specs.Separated.{braced};
ghost use Rattle.mcs_report.specs.Repairs.{mark_text, reasons_text, diagnosis_line, shown_text};
ghost use Rattle.mcs_report.specs.Repairs.{explanation_line, end_line, IsOfSystem};

use crate::members::{Member, push_set};
use mcs_base::{Marks, Members, Memory, Text};
use mcs_diagnosis::Diagnosis;
use mcs_system::System;
use mcs_text::push_separator;
use mcs_transversal::first_critical_edges;

/// Appends the mark with this number: `-NAME` if the rule with this name is removed, `+NAME` if it
/// is forced.
#[tactic(auto, using(mcs_system::proofs::SeenLemmas::loops))]
fn push_mark(text: &mut Text, system: &System, mark: u32) -> Result<(), Memory>
    requires { mark < 2 * length system.now.bridges }
    ensures { OnOk result (text.new ≡ text.old ++ mark_text system.now mark) }
{
    text.push(if mark % 2 == 0 { b"-" } else { b"+" })?;
    text.push(system.bridges()[(mark / 2) as usize].name.bytes())
}

/// Appends marks in braces to a text of its own.
pub(crate) fn push_marks(text: &mut Text, system: &System, marks: Members) -> Result<(), Memory>
    requires { AllByRecursion (λ k. k < 2 * length system.now.bridges) marks }
    ensures { OnOk result (text.new ≡ text.old ++ braced (map (mark_text system.now) marks)) }
{
    text.push(b"{")?;
    let mut is_first = true;
    for mark in marks {
        push_separator(text, is_first, b", ")?;
        push_mark(text, system, mark)?;
        is_first = false;
    }
    text.push(b"}")
}

/// Appends a mark with the number of an edge.
fn push_reason(text: &mut Text, system: &System, mark: u32, number: u64) -> Result<(), Memory>
    requires { mark < 2 * length system.now.bridges }
    ensures { OnOk result (text.new
        ≡ text.old ++ (mark_text system.now mark ++ (codes " by " ++ decimal number))) }
{
    push_mark(text, system, mark)?;
    text.push(b" by ")?;
    text.push_number(number)
}

/// Appends the marks of an explanation in braces to a text of its own. Each has the number of the
/// first edge, counted from 1, that the set meets in it alone.
fn push_reasons(text: &mut Text, system: &System, edges: &[Marks], t: Marks) -> Result<(), Memory>
    requires of_rules { Within t (all_marks system.now) }
    requires critical { IsCritical edges.now t }
    ensures { OnOk result (text.new ≡ text.old ++ reasons_text system.now edges.now t) }
{
    let firsts = first_critical_edges(edges, t);
    text.push(b"{")?;
    let mut is_first = true;
    for mark in t.members() {
        push_separator(text, is_first, b", ")?;
        let first = firsts[mark as usize].unwrap();
        push_reason(text, system, mark, first as u64 + 1)?;
        is_first = false;
    }
    text.push(b"}")
}

/// Appends the end of a line that shows a diagnosis: its state, and the rules that are active in it.
pub(crate) fn push_shown(
    text: &mut Text,
    system: &System,
    diagnosis: &Diagnosis,
) -> Result<(), Memory>
    requires { IsOfSystem system.now diagnosis.now }
    ensures { OnOk result (text.new ≡ text.old ++ shown_text system.now diagnosis.now) }
{
    text.push(b" state ")?;
    push_set(text, system, Member::Variable, diagnosis.state.members())?;
    text.push(b" active ")?;
    push_set(text, system, Member::Rule, diagnosis.active.members())?;
    text.push(b"\n")
}

/// Appends the line of the diagnosis with this number: its marks, the first state of the changed
/// system, and the rules that are active in it. All of these have to be of the system.
#[tactic(auto, unfolding(crate::specs::Repairs::diagnosis_line))]
pub fn diagnosis_line(
    system: &System,
    number: u64,
    diagnosis: &Diagnosis,
    out: &mut Text,
) -> Result<(), Memory>
    requires { IsOfSystem system.now diagnosis.now }
    ensures ok { OnOk result (out.new ≡ out.old ++ diagnosis_line system.now number diagnosis.now) }
    ensures err { OnErr result (out.new ≡ out.old) }
{
    let mut line = out.empty_like();
    line.push(b"diagnosis ")?;
    line.push_number(number)?;
    line.push(b": ")?;
    push_marks(&mut line, system, diagnosis.pair.marks().members())?;
    push_shown(&mut line, system, diagnosis)?;
    out.push(line.bytes())
}

/// Appends the line of the explanation with this number: its marks, each with the number of the
/// first diagnosis of the listing, counted from 1, that the explanation meets in this mark alone.
/// Such a diagnosis has to exist for each mark; `first_critical_edges` finds it. The marks have to
/// be of rules of the system.
#[tactic(auto, unfolding(crate::specs::Repairs::explanation_line))]
pub fn explanation_line(
    system: &System,
    number: u64,
    edges: &[Marks],
    t: Marks,
    out: &mut Text,
) -> Result<(), Memory>
    requires of_rules { Within t (all_marks system.now) }
    requires critical { IsCritical edges.now t }
    ensures ok { OnOk result (out.new ≡ out.old ++ explanation_line system.now number edges.now t) }
    ensures err { OnErr result (out.new ≡ out.old) }
{
    let mut line = out.empty_like();
    line.push(b"explanation ")?;
    line.push_number(number)?;
    line.push(b": ")?;
    push_reasons(&mut line, system, edges, t)?;
    line.push(b"\n")?;
    out.push(line.bytes())
}

/// Appends a number, and then `after`.
pub(crate) fn push_count(text: &mut Text, number: u64, after: &[u8]) -> Result<(), Memory>
    ensures { OnOk result (text.new ≡ text.old ++ (decimal number ++ after.now)) }
{
    text.push_number(number)?;
    text.push(after)
}

/// Appends the end line of a whole listing: how many equilibria, minimal diagnoses and minimal
/// explanations there are, and the least number of questions with which they are found.
#[tactic(auto, unfolding(crate::specs::Repairs::end_line))]
pub fn end_line(
    equilibria: u64,
    diagnoses: u64,
    explanations: u64,
    need: u64,
    out: &mut Text,
) -> Result<(), Memory>
    ensures ok { OnOk result (out.new
        ≡ out.old ++ end_line equilibria diagnoses explanations need) }
    ensures err { OnErr result (out.new ≡ out.old) }
{
    let mut line = out.empty_like();
    line.push(b"end: ")?;
    push_count(&mut line, equilibria, b" equilibria, ")?;
    push_count(&mut line, diagnoses, b" diagnoses, ")?;
    push_count(&mut line, explanations, b" explanations, need ")?;
    push_count(&mut line, need, b"\n")?;
    out.push(line.bytes())
}
