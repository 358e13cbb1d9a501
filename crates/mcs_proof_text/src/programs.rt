//! The lines of certificates of programs.

ghost use Rattle.std.specs.Prelude.{◌≡◌, ◌++◌, map, OnOk};
ghost use Rattle.std.specs.List.{flat_map};
ghost use Rattle.mcs_evidence.specs.Programs.{model_shown_of, program_shown_of};
ghost use Rattle.mcs_proof_text.specs.Lines.{ModelLine, SmallerLine, NoneLine, line_with_feed};
ghost use Rattle.mcs_proof_text.specs.Lines.{written_lines};
ghost use Rattle.mcs_proof_text.specs.Answers.{model_lines, program_lines};

use crate::traces::push_trace;
use mcs_base::{Memory, Text};
use mcs_spelling::push_atoms;
use mcs_system::Name;
use mcs_trace::{AnswerSetCert, ProgramCert};

/// Appends the line of a model.
#[tactic(auto, unfolding(crate::specs::Lines::line_text))]
fn push_model_line(text: &mut Text, names: &[Name], atoms: u64) -> Result<(), Memory>
    ensures { OnOk result (text.new ≡ text.old ++ line_with_feed names.now (ModelLine atoms)) }
{
    text.push(b"model ")?;
    push_atoms(text, names, atoms)?;
    text.push(b"\n")
}

/// Appends the line of a smaller set, by which a model is no answer set.
#[tactic(auto, unfolding(crate::specs::Lines::line_text))]
fn push_smaller_line(text: &mut Text, names: &[Name], atoms: u64) -> Result<(), Memory>
    ensures { OnOk result (text.new ≡ text.old ++ line_with_feed names.now (SmallerLine atoms)) }
{
    text.push(b"smaller ")?;
    push_atoms(text, names, atoms)?;
    text.push(b"\n")
}

/// Appends the line `none`, which precedes the last trace.
#[tactic(auto, unfolding(crate::specs::Lines::line_text))]
fn push_none(text: &mut Text, names: &[Name]) -> Result<(), Memory>
    ensures { OnOk result (text.new ≡ text.old ++ line_with_feed names.now NoneLine) }
{
    text.push(b"none\n")
}

/// Appends the lines of models, each with its trace.
fn push_models(text: &mut Text, names: &[Name], models: &[AnswerSetCert]) -> Result<(), Memory>
    ensures { OnOk result (text.new ≡ text.old ++ written_lines names.now
        (flat_map model_lines (map model_shown_of models.now))) }
{
    for shown in models {
        push_model_line(text, names, shown.model)?;
        push_trace(text, names, &shown.minimal)?;
    }
    Ok(())
}

/// Appends a line for each of the smaller sets.
fn push_smaller(text: &mut Text, names: &[Name], smaller: &[u64]) -> Result<(), Memory>
    ensures { OnOk result (text.new
        ≡ text.old ++ written_lines names.now (map SmallerLine smaller.now)) }
{
    for atoms in smaller {
        push_smaller_line(text, names, *atoms)?;
    }
    Ok(())
}

/// Appends the lines of a certificate of a program to a text of its own.
pub(crate) fn push_program(
    text: &mut Text,
    names: &[Name],
    cert: &ProgramCert,
) -> Result<(), Memory>
    ensures { OnOk result (text.new
        ≡ text.old ++ written_lines names.now (program_lines (program_shown_of cert.now))) }
{
    push_models(text, names, &cert.models)?;
    push_smaller(text, names, &cert.smaller)?;
    push_none(text, names)?;
    push_trace(text, names, &cert.none)
}
