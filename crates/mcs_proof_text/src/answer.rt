//! The lines of an answer.

ghost use Rattle.std.specs.Prelude.{◌≡◌, ◌<◌, ◌++◌, length, map, slice_get, OnOk, OnErr};
ghost use Rattle.std.specs.List.{AllByRecursion};
ghost use Rattle.mcs_sets.specs.Sets.{Within};
ghost use Rattle.mcs_system.specs.Systems.{all_rules, all_variables};
ghost use Rattle.mcs_system.specs.Texts.{name_of_context};
ghost use Rattle.mcs_asking.specs.Certificates.{plain_of};
ghost use Rattle.mcs_proof_text.specs.Lines.{question_text, output_text, with_feed, text_of_lines};
ghost use Rattle.mcs_proof_text.specs.Lines.{written_lines};
ghost use Rattle.mcs_proof_text.specs.Answers.{certificate_lines, answer_lines};

use crate::defaults::push_verdicts;
use crate::programs::push_program;
use crate::traces::push_entailments;
use mcs_asking::AnswerCert;
use mcs_base::{Active, Memory, Text, Vars};
use mcs_report::{Member, push_set};
use mcs_system::{Name, System};

/// Appends the name of the context.
fn push_context(text: &mut Text, system: &System, context: u32) -> Result<(), Memory>
    requires { context < length system.now.contexts }
    ensures { OnOk result (text.new
        ≡ text.old ++ name_of_context (slice_get system.now.contexts context)) }
{
    text.push(system.contexts()[context as usize].name.bytes())
}

/// Appends the line of the question.
#[tactic(auto, unfolding(crate::specs::Lines::question_text))]
fn push_question(
    text: &mut Text,
    system: &System,
    context: u32,
    active: Active,
) -> Result<(), Memory>
    requires context { context < length system.now.contexts }
    requires rules { Within active (all_rules system.now) }
    ensures { OnOk result (text.new
        ≡ text.old ++ with_feed (question_text system.now context active)) }
{
    text.push(b"answer ")?;
    push_context(text, system, context)?;
    text.push(b" ")?;
    push_set(text, system, Member::Rule, active.members())?;
    text.push(b"\n")
}

/// Appends the line of a state that is output.
#[tactic(auto, unfolding(crate::specs::Lines::output_text))]
fn push_output(text: &mut Text, system: &System, state: Vars) -> Result<(), Memory>
    requires { Within state (all_variables system.now) }
    ensures { OnOk result (text.new ≡ text.old ++ with_feed (output_text system.now state)) }
{
    text.push(b"state ")?;
    push_set(text, system, Member::Variable, state.members())?;
    text.push(b"\n")
}

/// Appends the lines of the states that are output.
fn push_outputs(text: &mut Text, system: &System, outputs: &[Vars]) -> Result<(), Memory>
    requires { AllByRecursion (λ σ. Within σ (all_variables system.now)) outputs.now }
    ensures { OnOk result (text.new
        ≡ text.old ++ text_of_lines (map (output_text system.now) outputs.now)) }
{
    for state in outputs {
        push_output(text, system, *state)?;
    }
    Ok(())
}

/// Appends the lines of a certificate.
fn push_certificate(text: &mut Text, names: &[Name], cert: &AnswerCert) -> Result<(), Memory>
    ensures { OnOk result (text.new
        ≡ text.old ++ written_lines names.now (certificate_lines (plain_of cert.now))) }
{
    match cert {
        AnswerCert::Classical(cert) => push_entailments(text, names, &cert.entails),
        AnswerCert::Default(cert) => push_verdicts(text, names, &cert.sets),
        AnswerCert::Program(cert) => push_program(text, names, cert),
    }
}

/// Appends the lines of an answer to a text of its own.
fn push_answer(
    text: &mut Text,
    system: &System,
    context: u32,
    active: Active,
    outputs: &[Vars],
    cert: &AnswerCert,
) -> Result<(), Memory>
    requires context { context < length system.now.contexts }
    requires rules { Within active (all_rules system.now) }
    requires outputs { AllByRecursion (λ σ. Within σ (all_variables system.now)) outputs.now }
    ensures { OnOk result (text.new ≡ text.old
        ++ text_of_lines (answer_lines system.now
        (record {
          context = context;
          active = active;
          outputs = outputs.now;
          cert = plain_of cert.now;
        }))) }
{
    push_question(text, system, context, active)?;
    push_outputs(text, system, outputs)?;
    push_certificate(text, system.atoms_of(context), cert)?;
    text.push(b"done\n")
}

/// Appends the lines of an answer: the question, the states that are output, the certificate by its
/// kind, and the line `done`. The question has to be a context of the system and a set of its
/// rules, and each state a set of its variables. Without memory the text stays as it was.
pub fn answer_lines(
    system: &System,
    context: u32,
    active: Active,
    outputs: &[Vars],
    cert: &AnswerCert,
    out: &mut Text,
) -> Result<(), Memory>
    requires context { context < length system.now.contexts }
    requires rules { Within active (all_rules system.now) }
    requires outputs { AllByRecursion (λ σ. Within σ (all_variables system.now)) outputs.now }
    ensures ok { OnOk result (out.new ≡ out.old
        ++ text_of_lines (answer_lines system.now
        (record {
          context = context;
          active = active;
          outputs = outputs.now;
          cert = plain_of cert.now;
        }))) }
    ensures err { OnErr result (out.new ≡ out.old) }
{
    let mut text = out.empty_like();
    push_answer(&mut text, system, context, active, outputs, cert)?;
    out.push(text.bytes())
}
