//! The questions of a granted node, asked by several oracles at once.

ghost use Rattle.std.specs.Prelude.{◌≡◌, ◌++◌, ◌<◌, ◌≤◌, ℕ, List, [], Ok, length};
ghost use Rattle.std.specs.Prelude.{IfErr, IfOk, OnOk};
ghost use Rattle.std.specs.Thread.{IsSend, IsSync};
ghost use Rattle.mcs_states.specs.Oracles.{OracleState, with_journal};
ghost use Rattle.mcs_crew.specs.Parts.{AreJoined, IsAsked, IsErrand, IsHaltOfEither};

use crate::workforce::Workforce;
use mcs_base::Active;
use mcs_node::{Asked, Asker, InTurn};
use mcs_ports::Gate;
use mcs_rows::Answer;
use mcs_states::{Fork, Halt, Oracle};
use std::alloc::Global;
use std::thread::{Threads, join};

/// With so many questions another worker can help.
const WORTH_HELP: usize = 32;

/// So many questions are asked between two looks for workers that rest.
const AT_ONCE: usize = 16;

/// Asks the oracle of the context the questions, with the help of workers that rest. The answers
/// are in order, and the oracle takes over what its forks were asked: so it is as if the questions
/// were asked in turn, whoever helps. The gate is called before each question.
///
/// If oracles halt, the halt is that of the first part that has one, or `Memory`.
#[cycle(help)]
pub(crate) fn ask_with_help<O: Fork + Send, G: Gate + Sync, R: Threads + Sync>(
    rt: &R,
    alloc: Global,
    gate: &G,
    workforce: &Workforce,
    context: u32,
    oracle: O,
    questions: &[Active],
) -> Asked<O>
    requires { IsErrand context (O.stands oracle) questions.now }
    ensures { IsAsked context (O.stands oracle) (O.stands result.oracle) questions.now
        result.answers }
{
    let (asked, left) = ask_alone(alloc, gate, workforce, context, oracle, questions);
    let Asked { oracle, answers } = asked;
    match answers {
        Ok(answers) => {
            let more = if left.len() < WORTH_HELP {
                ask_in_turn(alloc, gate, context, oracle, left)
            } else {
                ask_in_halves(rt, alloc, gate, workforce, context, oracle, left)
            };
            with_more(answers, more)
        }
        Err(halt) => Asked {
            oracle,
            answers: Err(halt),
        },
    }
}

/// Asks the oracle the questions, a few at a time, until there is a worker to help with those that
/// are left, or they are too few, or the oracle halts. Returns what was asked, and what is left.
/// The worker counts as busy then.
fn ask_alone<'q, O: Oracle, G: Gate>(
    alloc: Global,
    gate: &G,
    workforce: &Workforce,
    context: u32,
    oracle: O,
    questions: &'q [Active],
) -> (Asked<O>, &'q [Active])
    requires { IsErrand context (O.stands oracle) questions.now }
    ensures { (front : List ℕ) × (front ++ result.1.now ≡ questions.now)
        × IsAsked context (O.stands oracle) (O.stands result.0.oracle) front result.0.answers }
{
    let mut asked = Asked {
        oracle,
        answers: Ok(Vec::new(alloc)),
    };
    let mut left = questions;
    while left.len() >= WORTH_HELP && asked.answers.is_ok() && !workforce.lend() {
        let (now, later) = left.split_at(AT_ONCE);
        asked = ask_more(alloc, gate, context, asked, now);
        left = later;
    }
    (asked, left)
}

/// Asks the oracle these questions too, unless it halted.
fn ask_more<O: Oracle, G: Gate>(
    alloc: Global,
    gate: &G,
    context: u32,
    asked: Asked<O>,
    questions: &[Active],
) -> Asked<O>
    requires { IsErrand context (O.stands asked.oracle) questions.now }
    ensures { (before : OracleState) (front : List ℕ)
        → IsAsked context before (O.stands asked.oracle) front asked.answers
        → IsAsked context before (O.stands result.oracle) (front ++ questions.now) result.answers }
{
    let Asked { oracle, answers } = asked;
    match answers {
        Ok(answers) => {
            let more = ask_in_turn(alloc, gate, context, oracle, questions);
            with_more(answers, more)
        }
        Err(halt) => Asked {
            oracle,
            answers: Err(halt),
        },
    }
}

/// Asks the oracle of the context the first half of the questions, and a fork of it the second, at
/// the same time, each with the help of workers that rest. Where there is no fork, for want of
/// memory, the questions are asked in turn. A worker has to be lent for the fork.
#[cycle(help)]
fn ask_in_halves<O: Fork + Send, G: Gate + Sync, R: Threads + Sync>(
    rt: &R,
    alloc: Global,
    gate: &G,
    workforce: &Workforce,
    context: u32,
    oracle: O,
    questions: &[Active],
) -> Asked<O>
    requires errand { IsErrand context (O.stands oracle) questions.now }
    requires two { 2 ≤ length questions.now }
    ensures { IsAsked context (O.stands oracle) (O.stands result.oracle) questions.now
        result.answers }
{
    let mut oracle = oracle;
    let Ok(other) = oracle.fork(alloc) else {
        workforce.rest();
        return ask_in_turn(alloc, gate, context, oracle, questions);
    };
    let (front, back) = halves(questions);
    let (there, here) = join(
        rt,
        move || -> Asked<O>
            requires { IsSync R.row × IsSync G.row × IsSend O.row
                × IsErrand context (O.stands other) back.now }
            ensures { IsAsked context (O.stands other)
                (O.stands result.oracle) back.entry.now result.answers }
        {
            let asked = ask_with_help(rt, alloc, gate, workforce, context, other, back);
            workforce.rest();
            asked
        },
        move || -> Asked<O>
            requires { IsErrand context (O.stands oracle) front.now }
            ensures { IsAsked context (O.stands oracle)
                (O.stands result.oracle) front.entry.now result.answers }
        {
            let asked = ask_with_help(rt, alloc, gate, workforce, context, oracle, front);
            workforce.rest();
            asked
        },
    );
    workforce.go_on();
    join_asked(alloc, here, there)
}

/// Asks the oracle of the context one question after the other.
fn ask_in_turn<O: Oracle, G: Gate>(
    alloc: Global,
    gate: &G,
    context: u32,
    oracle: O,
    questions: &[Active],
) -> Asked<O>
    requires { IsErrand context (O.stands oracle) questions.now }
    ensures { IsAsked context (O.stands oracle) (O.stands result.oracle) questions.now
        result.answers }
{
    InTurn::new(gate).ask_all(alloc, context, oracle, questions)
}

/// The first half of the questions, and the second.
fn halves(questions: &[Active]) -> (&[Active], &[Active])
    requires two { 2 ≤ length questions.now }
    ensures whole { result.0.now ++ result.1.now ≡ questions.now }
    ensures front { length result.0.now < length questions.now }
    ensures back { length result.1.now < length questions.now }
{
    questions.split_at(questions.len() / 2)
}

/// What was answered first, and what an oracle was asked then, as all that it was asked.
fn with_more<O: Oracle>(answers: Vec<Answer>, more: Asked<O>) -> Asked<O>
    ensures { (context : ℕ) (before then : OracleState) (front back : List ℕ)
        → IsAsked context before then front (Ok answers)
        → IsAsked context then (O.stands more.oracle) back more.answers
        → IsAsked context before (O.stands result.oracle) (front ++ back) result.answers }
{
    let Asked {
        oracle,
        answers: later,
    } = more;
    let answers = answers_with(answers, later);
    Asked { oracle, answers }
}

/// All answers, or the halt.
fn answers_with(answers: Vec<Answer>, more: Result<Vec<Answer>, Halt>) -> Result<Vec<Answer>, Halt>
    ensures answers { IfOk result (AreJoined (Ok answers) more) }
    ensures halt { IfErr result (IsHaltOfEither (Ok answers) more) }
{
    let mut all = answers;
    let mut more = more?;
    all.append(&mut more)?;
    Ok(all)
}

/// What an oracle and its fork were asked, as what the oracle was asked alone, in turn.
fn join_asked<O: Fork>(alloc: Global, first: Asked<O>, second: Asked<O>) -> Asked<O>
    requires { with_journal [] (O.stands second.oracle) ≡ with_journal [] (O.stands first.oracle) }
    ensures { (context : ℕ) (before fork : OracleState) (front back : List ℕ)
        → fork ≡ with_journal [] before
        → IsAsked context before (O.stands first.oracle) front first.answers
        → IsAsked context fork (O.stands second.oracle) back second.answers
        → IsAsked context before (O.stands result.oracle) (front ++ back) result.answers }
{
    let Asked {
        mut oracle,
        answers: front,
    } = first;
    let Asked {
        oracle: fork,
        answers: back,
    } = second;
    let answers = join_answers(alloc, &mut oracle, fork, front, back);
    Asked { oracle, answers }
}

/// The answers of both, or the halt of the first that has one. The oracle takes over what its fork
/// was asked.
fn join_answers<O: Fork>(
    alloc: Global,
    oracle: &mut O,
    fork: O,
    front: Result<Vec<Answer>, Halt>,
    back: Result<Vec<Answer>, Halt>,
) -> Result<Vec<Answer>, Halt>
    requires { with_journal [] (O.stands fork) ≡ with_journal [] (O.stands oracle.old) }
    ensures answers { IfOk result (AreJoined front back) }
    ensures halt { IfErr result (IsHaltOfEither front back) }
    ensures journal { OnOk result (O.stands oracle.new
        ≡ with_journal ((O.stands oracle.old).journal ++ (O.stands fork).journal)
        (O.stands oracle.old)) }
    ensures rest { with_journal [] (O.stands oracle.new) ≡ with_journal [] (O.stands oracle.old) }
{
    oracle.absorb(alloc, fork)?;
    answers_with(front?, back)
}
