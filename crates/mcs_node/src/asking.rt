//! Who asks the questions to a context.

ghost use Rattle.std.specs.Prelude.{◌≡◌, ◌∷◌, IfErr, IfOk, OnOk, [], map};
ghost use Rattle.std.specs.List.{AllByRecursion};
ghost use Rattle.mcs_sets.specs.Sets.{Within};
ghost use Rattle.mcs_system.specs.Imports.{rules_into};
ghost use Rattle.mcs_states.specs.Oracles.{with_journal};
ghost use Rattle.mcs_rows.specs.Answers.{answered_of};
ghost use Rattle.mcs_node.specs.Known.{HasAskedAll, HasAskingCause, halt_from_stop};

use mcs_base::Active;
use mcs_ports::Gate;
use mcs_rows::Answer;
use mcs_states::{Halt, Oracle, OracleStop};
use std::alloc::Global;
use std::marker::PhantomData;

/// An oracle that was asked, with its answers, or why there are none.
#[derive(Drop)]
pub struct Asked<O: Oracle> {
    pub oracle: O,
    pub answers: Result<Vec<Answer>, Halt>,
}

/// Asks the questions to a context.
pub trait Asker {
    type Of: Oracle;

    /// That it can ask, and asks as is said of `ask_all`.
    ghost asks: { Self → Type 0 };

    /// Asks the oracle of the context each of the questions, which are sets of the rules into it,
    /// and gives it back with the answers, in the order of the questions; then its journal has
    /// grown by the questions, in this order. Stops with `Missing` only at a question that the
    /// oracle lacks, and with want of memory; never with `Spent`. Of the oracle nothing but its
    /// journal ever changes.
    fn ask_all(
        &self,
        alloc: Global,
        context: u32,
        oracle: Self::Of,
        questions: &[Active],
    ) -> Asked<Self::Of>
        requires asks { asks self.now }
        requires context { (Self.Of.stands oracle).context ≡ context }
        requires rules { AllByRecursion (λ x. Within x
            (rules_into (Self.Of.stands oracle).system context)) questions.now }
        ensures answers { IfOk result.answers (λ answers.
            HasAskedAll (Self.Of.stands oracle) (Self.Of.stands result.oracle) questions.now
            (map answered_of answers.items)) }
        ensures cause { IfErr result.answers (HasAskingCause context
            (Self.Of.stands oracle) questions.now) }
        ensures rest { with_journal [] (Self.Of.stands result.oracle)
            ≡ with_journal [] (Self.Of.stands oracle) };
}

/// Asks one question after the other, and calls the gate before each.
#[derive(Drop)]
pub struct InTurn<'a, O, G> {
    gate: &'a G,
    of: PhantomData<O>,
}

impl<'a, O, G> InTurn<'a, O, G> {
    /// Asks in turn, through the gate.
    pub fn new(gate: &'a G) -> InTurn<'a, O, G>
        ensures { result.gate.now ≡ gate.now }
    {
        InTurn {
            gate,
            of: PhantomData,
        }
    }
}

impl<'a, O: Oracle, G: Gate> Asker for InTurn<'a, O, G> {
    type Of = O;

    ghost asks = { λ _. Unit {0} };

    fn ask_all(&self, alloc: Global, context: u32, oracle: O, questions: &[Active]) -> Asked<O> {
        let mut oracle = oracle;
        let answers = ask_each(alloc, context, &mut oracle, questions, self.gate);
        Asked { oracle, answers }
    }
}

/// Asks the oracle of the context each of the questions, and calls the gate before each.
fn ask_each<O: Oracle, G: Gate>(
    alloc: Global,
    context: u32,
    oracle: &mut O,
    questions: &[Active],
    gate: &G,
) -> Result<Vec<Answer>, Halt>
    requires context { (O.stands oracle.old).context ≡ context }
    requires rules { AllByRecursion (λ x. Within x
        (rules_into (O.stands oracle.old).system context)) questions.now }
    ensures answers { IfOk result (λ answers. HasAskedAll (O.stands oracle.old)
        (O.stands oracle.new) questions.now (map answered_of answers.items)) }
    ensures cause { IfErr result (HasAskingCause context (O.stands oracle.old) questions.now) }
    ensures rest { with_journal [] (O.stands oracle.new) ≡ with_journal [] (O.stands oracle.old) }
{
    let mut answers = Vec::new(alloc);
    for question in questions {
        let answer = ask_one(alloc, context, oracle, *question, gate)?;
        answers.push(answer)?;
    }
    Ok(answers)
}

/// Calls the gate, and asks the oracle of the context the question.
fn ask_one<O: Oracle, G: Gate>(
    alloc: Global,
    context: u32,
    oracle: &mut O,
    question: Active,
    gate: &G,
) -> Result<Answer, Halt>
    requires context { (O.stands oracle.old).context ≡ context }
    requires rules { Within question (rules_into (O.stands oracle.old).system context) }
    ensures answer { IfOk result (λ a. HasAskedAll (O.stands oracle.old) (O.stands oracle.new)
        (question ∷ []) (answered_of a ∷ [])) }
    ensures cause { IfErr result (HasAskingCause context (O.stands oracle.old) (question ∷ [])) }
    ensures rest { with_journal [] (O.stands oracle.new) ≡ with_journal [] (O.stands oracle.old) }
{
    gate.before(context);
    match oracle.ask(alloc, question) {
        Ok(parts) => Ok(Answer {
            active: question,
            parts,
        }),
        Err(stop) => Err(halt_of(context, stop)),
    }
}

/// The halt of a node whose oracle of this context stopped so.
fn halt_of(context: u32, stop: OracleStop) -> Halt
    ensures { result ≡ halt_from_stop context stop }
{
    match stop {
        OracleStop::Missing(active) => Halt::Missing { context, active },
        OracleStop::Memory => Halt::Memory,
    }
}
