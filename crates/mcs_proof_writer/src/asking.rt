//! The questions that the solvers were asked, by context and then by rule set.

ghost use Rattle.std.specs.Prelude.{◌≡◌, ◌<◌, ◌++◌, map, length, IfOk, OnOk};
ghost use Rattle.mcs_base.specs.Listings.{IsAmong, IsListing};
ghost use Rattle.mcs_proof_writer.specs.Gathered.{question_with, AddsAsked, AreOfFirst};

use mcs_base::{Active, Memory, list_rule_sets};
use mcs_solver::LocalSolver;
use mcs_system::System;
use std::alloc::Global;

/// A question: a context and a set of rules into it.
#[derive(Clone, Copy)]
pub(crate) struct Question {
    pub(crate) context: u32,
    pub(crate) active: Active,
}

/// The sets of rules with which the solver was asked, ascending.
fn asked(alloc: Global, solver: &LocalSolver) -> Result<Vec<Active>, Memory>
    ensures { IfOk result (λ sets. IsListing (λ x. IsAmong x solver.now.journal)
        (λ a b. a < b) sets.items) }
{
    let mut sets = solver.journal().to_vec(alloc)?;
    list_rule_sets(&mut sets);
    Ok(sets)
}

/// Appends the questions to the context with these sets.
fn push_questions(
    questions: &mut Vec<Question>,
    context: u32,
    sets: &[Active],
) -> Result<(), Memory>
    ensures { OnOk result (questions.new.items
        ≡ questions.old.items ++ map (question_with context) sets.now) }
{
    for active in sets {
        questions.push(Question {
            context,
            active: *active,
        })?;
    }
    Ok(())
}

/// Appends the questions that the solver of the context was asked, ascending.
fn push_asked(
    alloc: Global,
    questions: &mut Vec<Question>,
    solver: &LocalSolver,
    context: u32,
) -> Result<(), Memory>
    ensures { OnOk result (AddsAsked context solver.now questions.old.items questions.new.items) }
{
    let sets = asked(alloc, solver)?;
    push_questions(questions, context, &sets)
}

/// All questions that the solvers were asked. There is one solver for each context of the system.
pub(crate) fn all_questions(
    alloc: Global,
    system: &System,
    solvers: &[LocalSolver],
) -> Result<Vec<Question>, Memory>
    requires { length solvers.now ≡ length system.now.contexts }
    ensures { IfOk result (λ questions. AreOfFirst solvers.now
        (length system.now.contexts) questions.items) }
{
    let mut questions = Vec::new(alloc);
    for context in 0..system.contexts().len() as u32 {
        push_asked(alloc, &mut questions, &solvers[context as usize], context)?;
    }
    Ok(questions)
}
