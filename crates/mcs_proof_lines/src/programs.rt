//! Reading certificates of programs.

ghost use Rattle.std.specs.Prelude.{◌≡◌, ◌≤◌, length, map, IfOk};
ghost use Rattle.mcs_trace.specs.Traces.{inferences_of};
ghost use Rattle.mcs_evidence.specs.Programs.{model_shown_of, program_shown_of};
ghost use Rattle.mcs_proof_lines.specs.Walks.{Gives, many_at};
ghost use Rattle.mcs_proof_lines.specs.Programs.{model_at, rest_at, smaller_at, program_at};

use crate::evidence::{expect, next_atoms, take_atoms, take_trace};
use crate::fault::ReportFault;
use crate::lines::Lines;
use mcs_base::{Memory, Text};
use mcs_trace::{AnswerSetCert, ProgramCert, Trace};
use std::alloc::Global;

/// Takes a model with its trace.
#[tactic(auto, unfolding(crate::specs::Programs::model_at))]
fn take_model(
    alloc: Global,
    atoms: &[Text],
    lines: &mut Lines<'_>,
) -> Result<AnswerSetCert, ReportFault>
    requires { length atoms.now ≤ 64 }
    ensures { Gives model_shown_of result lines.new (model_at atoms.now lines.old) }
{
    let model = take_atoms(b"model ", atoms, lines)?;
    match take_trace(alloc, lines) {
        Ok(minimal) => Ok(AnswerSetCert { model, minimal }),
        Err(fault) => Err(fault),
    }
}

/// Takes `count` models with their traces.
fn take_models(
    alloc: Global,
    atoms: &[Text],
    count: usize,
    lines: &mut Lines<'_>,
) -> Result<Vec<AnswerSetCert>, ReportFault>
    requires { length atoms.now ≤ 64 }
    ensures { Gives (λ v. map model_shown_of v.items) result lines.new
        (many_at (model_at atoms.now) count lines.old) }
{
    let mut models = Vec::new(alloc);
    let mut left = count;
    while left > 0 {
        match take_model(alloc, atoms, lines) {
            Ok(model) => models.push(model)?,
            Err(fault) => return Err(fault),
        }
        left -= 1;
    }
    Ok(models)
}

/// Takes smaller sets, as long as the next line is one.
#[tactic(auto, unfolding(crate::specs::Programs::smaller_at))]
fn take_all_smaller(
    alloc: Global,
    atoms: &[Text],
    lines: &mut Lines<'_>,
) -> Result<Vec<u64>, Memory>
    requires { length atoms.now ≤ 64 }
    ensures { IfOk result (λ v. smaller_at atoms.now lines.old ≡ (v.items, lines.new)) }
{
    let mut smaller = Vec::new(alloc);
    while let Some(set) = next_atoms(b"smaller ", atoms, lines) {
        smaller.push(set)?;
        lines.advance();
    }
    Ok(smaller)
}

/// Takes the line `none`, and the trace that refutes all other models.
fn take_none(alloc: Global, lines: &mut Lines<'_>) -> Result<Trace, ReportFault>
    ensures { Gives inferences_of result lines.new (rest_at lines.old) }
{
    expect(lines, b"none")?;
    take_trace(alloc, lines)
}

/// Takes a certificate of a program with `count` states.
#[tactic(auto, unfolding(crate::specs::Programs::program_at))]
pub fn take_program(
    alloc: Global,
    atoms: &[Text],
    count: usize,
    lines: &mut Lines<'_>,
) -> Result<ProgramCert, ReportFault>
    requires { length atoms.now ≤ 64 }
    ensures { Gives program_shown_of result lines.new (program_at atoms.now count lines.old) }
{
    let models = take_models(alloc, atoms, count, lines)?;
    let smaller = take_all_smaller(alloc, atoms, lines)?;
    match take_none(alloc, lines) {
        Ok(none) => Ok(ProgramCert {
            models,
            smaller,
            none,
        }),
        Err(fault) => {
            drop((models, smaller));
            Err(fault)
        }
    }
}
