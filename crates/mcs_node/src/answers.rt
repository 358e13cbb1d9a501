//! The answers of a context: what was asked before is not asked again.

ghost use Rattle.std.specs.Prelude.{◌≡◌, ◌<◌, ◌⊎◌, ◌++◌, ℕ, IfOk, IsOk, IsErrOf, OnOk, IfErr, []};
ghost use Rattle.std.specs.Prelude.{map, drop, false, true};
ghost use Rattle.std.specs.List.{AllByRecursion};
ghost use Rattle.mcs_sets.specs.Sets.{Within};
ghost use Rattle.mcs_base.specs.Listings.{IsListing};
ghost use Rattle.mcs_system.specs.Imports.{rules_into};
ghost use Rattle.mcs_system.specs.Levels.{IsQuestionAt};
ghost use Rattle.mcs_system.specs.Plain.{System};
ghost use Rattle.mcs_states.specs.declared.halt.Halt.TheVariants as halts;
ghost use Rattle.mcs_rows.specs.Answers.{answered_of};
ghost use Rattle.mcs_states.specs.Oracles.{with_journal};
ghost use Rattle.mcs_node.specs.Known.{AreRight, HasAsked, HasAskingCause, IsAmongAsked, IsKnown};
ghost use Rattle.mcs_node.specs.Known.{IsTaken, first_is, knowledge_of, new_of, questions_in};

use crate::asking::{Asked, Asker};
use crate::known::Known;
use mcs_base::{Active, Memory};
use mcs_rows::{Answer, supplies};
use mcs_states::{Halt, Oracle};
use std::alloc::Global;
use std::collections::VecDeque;

/// Whether the answer at the place is there, and is to this question.
fn is_answered(before: &[Answer], at: usize, question: Active) -> bool
    ensures { result ≡ first_is question (drop at (questions_in (map answered_of before.now))) }
{
    match before.get(at) {
        Some(answer) => answer.active == question,
        None => false,
    }
}

/// Of the questions those that were not answered before, in their order. Both ascend.
pub(crate) fn new_questions(
    alloc: Global,
    asked: &[Active],
    before: &[Answer],
) -> Result<Vec<Active>, Memory>
    ensures { IfOk result (λ new. new.items
        ≡ new_of (questions_in (map answered_of before.now)) asked.now) }
{
    let mut new = Vec::new(alloc);
    let mut at = 0;
    for question in asked {
        if is_answered(before, at, *question) {
            at += 1;
        } else {
            new.push(*question)?;
        }
    }
    Ok(new)
}

/// Takes the answer to the question: the first of those that were given before, if that is to it,
/// else the first of the new ones.
fn next_answer(
    question: Active,
    before: &mut VecDeque<Answer>,
    new: &mut VecDeque<Answer>,
) -> Answer
    requires { first_is question (questions_in (map answered_of before.old.items)) ≡ false
        → first_is question (questions_in (map answered_of new.old.items)) ≡ true }
    ensures to { result.active ≡ question }
    ensures taken { IsTaken question (answered_of result) (map answered_of before.old.items)
        (map answered_of before.new.items) (map answered_of new.old.items)
        (map answered_of new.new.items) }
{
    let answer = match before.front() {
        Some(answer) if answer.active == question => before.pop_front(),
        _ => new.pop_front(),
    };
    match answer {
        Some(answer) => answer,
        None => unreachable!(),
    }
}

/// The answers to the questions, in their order: those that were given before, and those to the new
/// questions.
fn merged(
    alloc: Global,
    asked: &[Active],
    before: Vec<Answer>,
    new: Vec<Answer>,
) -> Result<Vec<Answer>, Memory>
    requires { questions_in (map answered_of new.items)
        ≡ new_of (questions_in (map answered_of before.items)) asked.now }
    ensures questions { IfOk result (λ all. questions_in (map answered_of all.items) ≡ asked.now) }
    ensures right { IfOk result (λ all. (m : System) (i : ℕ)
        → AreRight m i (map answered_of before.items)
        → AreRight m i (map answered_of new.items) → AreRight m i (map answered_of all.items)) }
{
    let mut before = VecDeque::from(before);
    let mut new = VecDeque::from(new);
    let mut all = Vec::new(alloc);
    for question in asked {
        all.push(next_answer(*question, &mut before, &mut new))?;
    }
    Ok(all)
}

/// What is known with the answers to the new questions.
fn known_with(
    alloc: Global,
    asked: &[Active],
    known: Known,
    answers: Result<Vec<Answer>, Halt>,
) -> Result<Known, Halt>
    requires { IfOk answers (λ new. questions_in (map answered_of new.items)
        ≡ new_of (questions_in (knowledge_of known).answers) asked.now) }
    ensures questions { IfOk result (λ all. questions_in (knowledge_of all).answers ≡ asked.now) }
    ensures known { IfOk result (λ all. (m : System) (level i : ℕ)
        → AreRight m i (knowledge_of known).answers
        → IfOk answers (λ new. AreRight m i (map answered_of new.items))
        → IsListing (IsQuestionAt m level i) (λ a b. a < b) asked.now
        → IsKnown m level i (knowledge_of all)) }
    ensures asked { OnOk result (IsOk answers) }
    ensures cause { IfErr result (λ halt. (halt ≡ halts.Memory) ⊎ IsErrOf answers halt) }
{
    let answers = merged(alloc, asked, known.answers, answers?)?;
    let supplies = supplies(alloc, &answers)?;
    Ok(Known { answers, supplies })
}

/// An oracle that was asked what was not asked before, with what is known then, or why it is not.
#[derive(Drop)]
pub(crate) struct FoundOut<O: Oracle> {
    pub oracle: O,
    pub known: Result<Known, Halt>,
}

/// Asks the oracle of the context those of the questions that were not answered before; then it is
/// known what the context may supply at each level of which these are all questions. The oracle
/// comes back in every case.
pub(crate) fn find_out<A: Asker>(
    alloc: Global,
    context: u32,
    asker: &A,
    oracle: A::Of,
    asked: &[Active],
    known: Known,
) -> FoundOut<A::Of>
    requires asks { A.asks asker.now }
    requires context { (A.Of.stands oracle).context ≡ context }
    requires rules { AllByRecursion (λ x. Within x
        (rules_into (A.Of.stands oracle).system context)) asked.now }
    requires before { HasAsked (A.Of.stands oracle).system context (A.Of.stands oracle)
        (knowledge_of known).answers }
    requires right { AreRight (A.Of.stands oracle).system context (knowledge_of known).answers }
    requires among { IsAmongAsked (questions_in (knowledge_of known).answers) asked.now }
    ensures questions { IfOk result.known (λ all. questions_in (knowledge_of all).answers
        ≡ asked.now) }
    ensures known { IfOk result.known (λ all. (level : ℕ)
        → IsListing (IsQuestionAt (A.Of.stands oracle).system level context)
        (λ a b. a < b) asked.now
        → IsKnown (A.Of.stands oracle).system level context (knowledge_of all)) }
    ensures now { IfOk result.known (λ all. HasAsked (A.Of.stands oracle).system context
        (A.Of.stands result.oracle) (knowledge_of all).answers) }
    ensures journal { IfOk result.known (λ _. A.Of.stands result.oracle
        ≡ with_journal ((A.Of.stands oracle).journal
        ++ new_of (questions_in (knowledge_of known).answers) asked.now) (A.Of.stands oracle)) }
    ensures cause { IfErr result.known (HasAskingCause context (A.Of.stands oracle)
        (new_of (questions_in (knowledge_of known).answers) asked.now)) }
    ensures rest { with_journal [] (A.Of.stands result.oracle)
        ≡ with_journal [] (A.Of.stands oracle) }
{
    let new = match new_questions(alloc, asked, &known.answers) {
        Ok(new) => new,
        Err(Memory) => {
            return FoundOut {
                oracle,
                known: Err(Halt::Memory),
            };
        }
    };
    let Asked { oracle, answers } = asker.ask_all(alloc, context, oracle, &new);
    FoundOut {
        oracle,
        known: known_with(alloc, asked, known, answers),
    }
}
