//! The answers of a report, judged while they are read.

ghost use Rattle.std.specs.Prelude.{◌≡◌, ◌≤◌, ◌<◌, ◌++◌, length, map, IsTrue};
ghost use Rattle.std.specs.Prelude.{MatchOption, slice_get};
ghost use Rattle.std.specs.List.{AllByRecursion};
ghost use Rattle.mcs_system.specs.Plain.{DefaultTheory, Fact};
ghost use Rattle.mcs_system.specs.Seen.{formula_of, item_of, kb_of};
ghost use Rattle.mcs_evidence.specs.Defaults.{IsAcceptedDefault};
ghost use Rattle.mcs_asked.specs.Questions.{asked_beliefs};
ghost use Rattle.mcs_asking.specs.Certificates.{IsAccepted};
ghost use Rattle.mcs_certificate.specs.Questions.{AreViewsShown};
ghost use Rattle.mcs_proof_lines.specs.Verdicts.{verdicts_at};
ghost use Rattle.mcs_proof_reader.specs.Answers.{certificate_of};
ghost use Rattle.mcs_proof_text.specs.Kinds.{terms_with, certificate_at};
ghost use Rattle.mcs_proof_reader.specs.Readers.{AreTexts};
ghost use Rattle.mcs_steps.specs.Judging.{Judges};
ghost use Rattle.mcs_judging.specs.Judging.{Tells, AreViewsOf};
ghost use Rattle.mcs_check.specs.Judging.{HasKb, IsFirstWrong};

use mcs_asked::Asked;
use mcs_asking::{beliefs_of, heads_into};
use mcs_base::{Active, Text, Vars};
use mcs_certificate::{Question, are_parts};
use mcs_judging::{Named, judge_classical, judge_program, judge_verdicts};
use mcs_proof_lines::{Lines, ReportFault, Theory};
use mcs_proof_reader::{Keep, Texts, just_counts, name_texts, take_outputs};
use mcs_system::{Kb, System, TheoryItem};
use std::alloc::Global;

/// An answer of a report, without its certificate: the number of its first line (counted from 1),
/// the question, the states that are output, and whether the certificate was accepted.
#[derive(Drop)]
pub(crate) struct Judged {
    pub line: u64,
    pub context: u32,
    pub active: Active,
    pub outputs: Vec<Vars>,
    pub is_right: bool,
}

/// Reads the certificate of a default theory with these items, verdict by verdict, and returns the
/// views that it shows of the question, if it is accepted. The names are those of its atoms in the
/// lines, and the numbers those of defaults.
fn judge_extensions(
    alloc: Global,
    question: &Question<'_>,
    items: &[TheoryItem],
    names: &[Text],
    numbers: &[Text],
    lines: &mut Lines<'_>,
) -> Result<Option<Vec<Vars>>, ReportFault>
    requires items { kb_of question.now.kb.now ≡ DefaultTheory (map item_of items.now) }
    requires names { names.now ≡ question.now.asked.now.atoms.now }
    requires numbers { length numbers.now ≤ 64 }
    ensures { Tells (AreViewsOf (IsAcceptedDefault question.now.asked.now.atoms.now
        (map item_of items.now ++ map Fact (map (λ f. formula_of f.now) question.now.heads.now))
        (asked_beliefs question.now.asked.now))) result lines.new
        (verdicts_at (terms_with question.now.asked.now.atoms.now numbers.now
        (map item_of items.now) (length question.now.asked.now.beliefs.now)) lines.old) }
{
    let justs = just_counts(alloc, items)?;
    let terms = Theory {
        atoms: names,
        numbers,
        justs: &justs,
        beliefs: question.asked.beliefs.len(),
    };
    judge_verdicts(alloc, items, question.heads, question.asked, &terms, lines)
}

/// Reads the certificate of an answer with so many outputs, by the kind of the knowledge base:
/// entailment by entailment, verdict by verdict or model by model. Returns the views that it shows
/// of the question, if it is accepted. The numbers are those of defaults in the lines.
fn judge_answer(
    alloc: Global,
    question: &Question<'_>,
    numbers: &[Text],
    count: usize,
    lines: &mut Lines<'_>,
) -> Result<Option<Vec<Vars>>, ReportFault>
    requires { length numbers.now ≤ 64 }
    ensures { Tells (AreViewsOf (AreViewsShown question.now)) result lines.new
        (certificate_at question.now.asked.now.atoms.now numbers.now
        (length question.now.asked.now.beliefs.now) (kb_of question.now.kb.now) count lines.old) }
{
    let names = name_texts(alloc, question.asked.atoms)?;
    let asked = Asked {
        atoms: question.asked.atoms,
        beliefs: question.asked.beliefs,
    };
    let named = Named {
        asked: &asked,
        texts: &names,
    };
    let heads = question.heads;
    match question.kb {
        Kb::Classical(formulas) => judge_classical(alloc, formulas, heads, &named, lines),
        Kb::DefaultTheory(items) => {
            judge_extensions(alloc, question, items, &names, numbers, lines)
        }
        Kb::Program(rules) => judge_program(alloc, rules, heads, &named, count, lines),
    }
}

/// Reads the certificate of an answer of a context with this knowledge base, and returns whether it
/// shows that the context accepts exactly these outputs with the heads of the rules.
fn is_shown(
    alloc: Global,
    system: &System,
    texts: &Texts,
    question: (u32, Active),
    kb: &Kb,
    outputs: &[Vars],
    lines: &mut Lines<'_>,
) -> Result<bool, ReportFault>
    requires texts { AreTexts system.now texts.now }
    requires context { question.0 < length system.now.contexts }
    requires kb { HasKb system.now question.0 (kb_of kb.now) }
    ensures { Judges (IsAccepted system.now question.0 question.1 outputs.now) result lines.new
        (certificate_of system.now question.0 (kb_of kb.now) (length outputs.now) lines.old) }
{
    let (context, active) = question;
    let heads = heads_into(alloc, system, context, active)?;
    let beliefs = beliefs_of(alloc, system, context)?;
    let asked = Asked {
        atoms: system.atoms_of(context),
        beliefs: &beliefs,
    };
    let told = Question {
        asked: &asked,
        kb,
        heads: &heads,
    };
    let shown = judge_answer(alloc, &told, texts.numbers(), outputs.len(), lines)?;
    let Some(views) = shown else {
        return Ok(false);
    };
    Ok(are_parts(alloc, system, context, &views, outputs)?)
}

/// Judges each answer while it is read. Of a classical context nothing of the certificate is held
/// but the clauses of one trace; of a program the views and the smaller sets are held as well, and
/// of a default theory the views.
pub(crate) struct Judge;

impl Keep for Judge {
    ghost use Rattle.mcs_check.specs.Judging.{IsAnswerJudged};

    type Kept = Judged;

    ghost Keeps = { IsAnswerJudged };

    fn take(
        &self,
        alloc: Global,
        system: &System,
        texts: &Texts,
        question: (u32, Active),
        line: u64,
        lines: &mut Lines<'_>,
    ) -> Result<Judged, ReportFault> {
        let context = question.0;
        let asked = (question.0, question.1);
        let kb = &system.contexts()[context as usize].kb;
        let outputs = take_outputs(alloc, system, texts, context, kb, lines)?;
        match is_shown(alloc, system, texts, asked, kb, &outputs, lines) {
            Ok(is_right) => Ok(Judged {
                line,
                context,
                active: question.1,
                outputs,
                is_right,
            }),
            Err(fault) => {
                drop(outputs);
                Err(fault)
            }
        }
    }
}

/// The number of the first line of the first answer that is not right, if there is one.
pub(crate) fn first_wrong(answers: &[Judged]) -> Option<u64>
    ensures { MatchOption result
        (AllByRecursion (λ a. IsTrue a.is_right) answers.now)
        (IsFirstWrong answers.now) }
{
    for answer in answers {
        if !answer.is_right {
            return Some(answer.line);
        }
    }
    None
}
