//! The answers that the solvers keep.

ghost use Rattle.std.specs.List.{AllByRecursion, AllZip};
ghost use Rattle.std.specs.Prelude.{IfOk};
ghost use Rattle.mcs_proof_writer.specs.Gathered.{answer_of_shown, answers_of, IsKeptIn};
ghost use Rattle.mcs_proof_writer.specs.Gathered.{KeepsCertificate, IsAnswerIn, IsAnswerOf};

use crate::asking::Question;
use mcs_asking::AnswerCert;
use mcs_base::{Memory, Vars};
use mcs_solver::LocalSolver;
use std::alloc::Global;

/// An answer that a solver keeps, with its certificate.
#[derive(Clone, Copy)]
pub(crate) struct Shown<'s> {
    pub(crate) question: &'s Question,
    pub(crate) outputs: &'s [Vars],
    pub(crate) cert: &'s AnswerCert,
}

/// The answer that the solver keeps for the question.
fn kept_for<'s>(solver: &'s LocalSolver, question: &'s Question) -> Shown<'s>
    requires { IsKeptIn solver.now question.now }
    ensures { IsAnswerIn solver.now.system question.now (answer_of_shown result) }
{
    match solver.certificate(question.active) {
        Some((outputs, cert)) => Shown {
            question,
            outputs,
            cert,
        },
        None => unreachable!(),
    }
}

/// The answers that the solvers keep for the questions, in their order.
pub(crate) fn gathered<'s>(
    alloc: Global,
    solvers: &'s [LocalSolver],
    questions: &'s [Question],
) -> Result<Vec<Shown<'s>>, Memory>
    requires { AllByRecursion (KeepsCertificate solvers.now) questions.now }
    ensures { IfOk result (λ shown. AllZip (IsAnswerOf solvers.now) questions.now
        (answers_of shown.items)) }
{
    let mut answers = Vec::new(alloc);
    for question in questions {
        let solver = &solvers[question.context as usize];
        answers.push(kept_for(solver, question))?;
    }
    Ok(answers)
}
