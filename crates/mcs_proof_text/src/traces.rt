//! The lines of traces and of entailments.

ghost use Rattle.std.specs.Prelude.{◌≡◌, ◌++◌, map, OnOk};
ghost use Rattle.mcs_trace.specs.Traces.{inference_of, inferences_of};
ghost use Rattle.mcs_cnf.specs.Entailments.{entailment_of};
ghost use Rattle.mcs_proof_text.specs.Lines.{YesLine, NoLine, StepLine, line_with_feed};
ghost use Rattle.mcs_proof_text.specs.Lines.{written_lines};
ghost use Rattle.mcs_proof_text.specs.Answers.{trace_lines, entailment_lines, all_entailment_lines};

use mcs_base::{Memory, Text};
use mcs_spelling::{push_atoms, push_step};
use mcs_system::Name;
use mcs_trace::{Entail, Step, Trace};

/// Appends the line of a resolution step.
#[tactic(auto, unfolding(crate::specs::Lines::line_text))]
fn push_step_line(text: &mut Text, names: &[Name], step: &Step) -> Result<(), Memory>
    ensures { OnOk result (text.new
        ≡ text.old ++ line_with_feed names.now (StepLine (inference_of step.now))) }
{
    push_step(text, step)?;
    text.push(b"\n")
}

/// Appends the lines of a trace to a text of its own.
pub(crate) fn push_trace(text: &mut Text, names: &[Name], trace: &Trace) -> Result<(), Memory>
    ensures { OnOk result (text.new
        ≡ text.old ++ written_lines names.now (trace_lines (inferences_of trace.now))) }
{
    for step in &trace.steps {
        push_step_line(text, names, step)?;
    }
    Ok(())
}

/// Appends the line of an assignment that makes a formula false, given by its true atoms.
#[tactic(auto, unfolding(crate::specs::Lines::line_text))]
fn push_no(text: &mut Text, names: &[Name], atoms: u64) -> Result<(), Memory>
    ensures { OnOk result (text.new ≡ text.old ++ line_with_feed names.now (NoLine atoms)) }
{
    text.push(b"no ")?;
    push_atoms(text, names, atoms)?;
    text.push(b"\n")
}

/// Appends the line `yes`, which precedes a trace.
#[tactic(auto, unfolding(crate::specs::Lines::line_text))]
fn push_yes(text: &mut Text, names: &[Name]) -> Result<(), Memory>
    ensures { OnOk result (text.new ≡ text.old ++ line_with_feed names.now YesLine) }
{
    text.push(b"yes\n")
}

/// Appends the lines of an entailment to a text of its own.
pub(crate) fn push_entailment(
    text: &mut Text,
    names: &[Name],
    entail: &Entail,
) -> Result<(), Memory>
    ensures { OnOk result (text.new
        ≡ text.old ++ written_lines names.now (entailment_lines (entailment_of entail.now))) }
{
    match entail {
        Entail::Yes(trace) => {
            push_yes(text, names)?;
            push_trace(text, names, trace)
        }
        Entail::No(atoms) => push_no(text, names, *atoms),
    }
}

/// Appends the lines of entailments, one after the other, to a text of its own.
pub(crate) fn push_entailments(
    text: &mut Text,
    names: &[Name],
    entails: &[Entail],
) -> Result<(), Memory>
    ensures { OnOk result (text.new ≡ text.old ++ written_lines names.now
        (all_entailment_lines (map entailment_of entails.now))) }
{
    for entail in entails {
        push_entailment(text, names, entail)?;
    }
    Ok(())
}
