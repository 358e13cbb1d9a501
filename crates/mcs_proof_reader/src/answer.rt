//! The answers of a report, read one at a time.

ghost use Rattle.std.specs.Prelude.{◌≡◌, ◌≤◌, ◌<◌, ◌∷◌, [], map, length, slice_get, IfOk};
ghost use Rattle.mcs_system.specs.Seen.{item_of, kb_of};
ghost use Rattle.mcs_evidence.specs.Defaults.{defaults_of, verdicts_of};
ghost use Rattle.mcs_asking.specs.Certificates.{plain_of};
ghost use Rattle.mcs_asking.specs.Kinds.{part_count};
ghost use Rattle.mcs_proof_lines.specs.Verdicts.{verdicts_at};
ghost use Rattle.mcs_proof_text.specs.Kinds.{terms_with};
ghost use Rattle.mcs_proof_lines.specs.Walks.{Gives};
ghost use Rattle.mcs_proof_reader.specs.Answers.{certificate_of, outputs_at, state_at};
ghost use Rattle.mcs_proof_reader.specs.Answers.{shown_at, shown_of};
ghost use Rattle.mcs_proof_reader.specs.Keeping.{IsWholeAnswer, TakesAndKeeps};
ghost use Rattle.mcs_proof_reader.specs.Readers.{shown_of_code, AreTexts};

use crate::question::{next_state, take_states};
use crate::texts::{Texts, just_counts, name_texts};
use mcs_asking::AnswerCert;
use mcs_base::{Active, Memory, Text, Vars};
use mcs_proof_lines::{
    Lines, ReportFault, Theory, out_of_place, take_entailments, take_program, take_verdicts,
};
use mcs_system::{Kb, System, TheoryItem};
use mcs_trace::{ClassicalCert, DefaultCert};
use std::alloc::Global;

/// An answer of a report: the number of its first line (counted from 1), the question, the states
/// that are output, and the certificate.
pub struct ReportAnswer {
    pub line: u64,
    pub context: u32,
    pub active: Active,
    pub outputs: Vec<Vars>,
    pub cert: AnswerCert,
}

impl Drop for ReportAnswer {
    fn drop(self) {
        let ReportAnswer {
            line: _,
            context: _,
            active: _,
            outputs: _,
            cert: _,
        } = self;
    }
}

/// The states that are output, and the certificate.
#[derive(Drop)]
struct Shown {
    outputs: Vec<Vars>,
    cert: AnswerCert,
}

/// The list of this one state.
fn only(alloc: Global, state: Vars) -> Result<Vec<Vars>, Memory>
    ensures { IfOk result (λ states. states.items ≡ state ∷ []) }
{
    let mut states = Vec::new(alloc);
    states.push(state)?;
    Ok(states)
}

/// Takes the state of a classical context. The texts are those of the system.
pub fn take_state(
    system: &System,
    texts: &Texts,
    context: u32,
    lines: &mut Lines<'_>,
) -> Result<Vars, ReportFault>
    requires context { context < length system.now.contexts }
    requires texts { AreTexts system.now texts.now }
    ensures { Gives (λ s. s) result lines.new (state_at system.now context lines.old) }
{
    match next_state(system, texts, system.vars_of(context), None, lines) {
        Some(state) => {
            lines.advance();
            Ok(state)
        }
        None => Err(out_of_place(lines)),
    }
}

/// Takes the states that an answer of a context with this knowledge base puts out: one if it is
/// classical. The texts are those of the system.
pub fn take_outputs(
    alloc: Global,
    system: &System,
    texts: &Texts,
    context: u32,
    kb: &Kb,
    lines: &mut Lines<'_>,
) -> Result<Vec<Vars>, ReportFault>
    requires context { context < length system.now.contexts }
    requires texts { AreTexts system.now texts.now }
    ensures { Gives (λ outputs. outputs.items) result lines.new
        (outputs_at system.now context (kb_of kb.now) lines.old) }
{
    let Kb::Classical(_) = kb else {
        let allowed = system.vars_of(context);
        return Ok(take_states(alloc, system, texts, allowed, lines)?);
    };
    let state = take_state(system, texts, context, lines)?;
    Ok(only(alloc, state)?)
}

/// Takes the certificate of a default theory, where there are so many beliefs.
fn take_sets(
    alloc: Global,
    names: &[Text],
    numbers: &[Text],
    items: &[TheoryItem],
    beliefs: usize,
    lines: &mut Lines<'_>,
) -> Result<DefaultCert, ReportFault>
    requires atoms { length names.now ≤ 64 }
    requires numbers { length numbers.now ≤ 64 }
    requires few { length (defaults_of (map item_of items.now)) ≤ 10 }
    ensures { Gives verdicts_of result lines.new
        (verdicts_at (terms_with names.now numbers.now (map item_of items.now) beliefs)
        lines.old) }
{
    let justs = just_counts(alloc, items)?;
    let theory = Theory {
        atoms: names,
        numbers,
        justs: &justs,
        beliefs,
    };
    let sets = take_verdicts(alloc, &theory, lines)?;
    Ok(DefaultCert { sets })
}

/// Takes the certificate of an answer with so many outputs, by the kind of the context.
fn take_certificate(
    alloc: Global,
    system: &System,
    texts: &Texts,
    context: u32,
    kb: &Kb,
    count: usize,
    lines: &mut Lines<'_>,
) -> Result<AnswerCert, ReportFault>
    requires context { context < length system.now.contexts }
    requires texts { AreTexts system.now texts.now }
    requires few { part_count (kb_of kb.now) ≤ 10 }
    ensures { Gives plain_of result lines.new
        (certificate_of system.now context (kb_of kb.now) count lines.old) }
{
    let atoms = name_texts(alloc, system.atoms_of(context))?;
    let beliefs = system.vars_of(context).count() as usize;
    match kb {
        Kb::Classical(_) => {
            let entails = take_entailments(alloc, &atoms, beliefs, lines)?;
            Ok(AnswerCert::Classical(ClassicalCert { entails }))
        }
        Kb::DefaultTheory(items) => {
            let cert = take_sets(alloc, &atoms, &texts.numbers, items, beliefs, lines)?;
            Ok(AnswerCert::Default(cert))
        }
        Kb::Program(_) => {
            let cert = take_program(alloc, &atoms, count, lines)?;
            Ok(AnswerCert::Program(cert))
        }
    }
}

/// Takes the states and the certificate of the context.
fn take_shown(
    alloc: Global,
    system: &System,
    texts: &Texts,
    context: u32,
    kb: &Kb,
    lines: &mut Lines<'_>,
) -> Result<Shown, ReportFault>
    requires context { context < length system.now.contexts }
    requires texts { AreTexts system.now texts.now }
    requires few { part_count (kb_of kb.now) ≤ 10 }
    ensures { Gives shown_of_code result lines.new
        (shown_at system.now context (kb_of kb.now) lines.old) }
{
    let outputs = take_outputs(alloc, system, texts, context, kb, lines)?;
    match take_certificate(alloc, system, texts, context, kb, outputs.len(), lines) {
        Ok(cert) => Ok(Shown { outputs, cert }),
        Err(fault) => Err(fault),
    }
}

/// Takes the states and the certificate of the answer to this question, a context of the system and
/// rules. `line` is the number of its first line. The texts are those of the system.
pub fn take_answer(
    alloc: Global,
    system: &System,
    texts: &Texts,
    question: (u32, Active),
    line: u64,
    lines: &mut Lines<'_>,
) -> Result<ReportAnswer, ReportFault>
    requires texts { AreTexts system.now texts.now }
    requires context { question.0 < length system.now.contexts }
    ensures { TakesAndKeeps (λ m. IsWholeAnswer) system.now question line result lines.new
        (shown_of system.now question.0 (slice_get system.now.contexts question.0) lines.old) }
{
    let context = question.0;
    let kb = &system.contexts()[context as usize].kb;
    let Shown { outputs, cert } = take_shown(alloc, system, texts, context, kb, lines)?;
    Ok(ReportAnswer {
        line,
        context,
        active: question.1,
        outputs,
        cert,
    })
}
