//! Whether one formula follows.

ghost use Rattle.std.specs.Prelude.{◌≡◌, ◌≤◌, ◌↔◌, ◌∷◌, [], List, Some, false, length, map, IsTrue};
ghost use Rattle.std.specs.Prelude.{IfOk, IfSome};
ghost use Rattle.mcs_system.specs.Faults.{has_twins};
ghost use Rattle.mcs_system.specs.Logic.{holds, true_names, Entails};
ghost use Rattle.mcs_system.specs.Plain as plain;
ghost use Rattle.mcs_system.specs.Seen.{formula_of};
ghost use Rattle.mcs_cnf.specs.ClauseLists.{IsOver, AreOver};
ghost use Rattle.mcs_cnf.specs.Entailments.{entailment_of, says_yes, IsAcceptedEntailment};
ghost use Rattle.mcs_classical.specs.Calls.{AddsOrKeeps, AnswersGoal, AnswersGoalBeside};
ghost use Rattle.mcs_classical.specs.Given.{given_names};
ghost use Rattle.mcs_meant.specs.Meanings.{AreMeantBy};
ghost use Rattle.mcs_classical.specs.Models.{IsCounterexample};

use crate::given::Given;
use crate::refuting::true_places;
use mcs_asked::Asked;
use mcs_base::{Memory, Vars};
use mcs_cnf::{clauses, push_negation};
use mcs_sat::{ClauseBase, Outcome};
use mcs_system::{Formula, Name, holds_at};
use mcs_trace::{Cnf, Entail};
use std::alloc::Global;

/// Whether the entailment says `yes`.
pub fn says_yes(entail: &Entail) -> bool
    ensures { result ≡ says_yes (entailment_of entail.now) }
{
    match entail {
        Entail::Yes(_) => true,
        Entail::No(_) => false,
    }
}

/// Adds the clauses of the negated goal. If memory runs out, `known` is as before.
fn push_goal(
    alloc: Global,
    known: &mut ClauseBase,
    goal: &Formula,
    atoms: &[Name],
) -> Result<(), Memory>
    requires goal { IsOver atoms.now (formula_of goal.now) }
    requires room { length atoms.now ≤ known.old.vars }
    ensures { AddsOrKeeps atoms.now (plain.Not (formula_of goal.now) ∷ []) known.old known.new
        result }
{
    let mut more = Cnf::new(alloc, known.vars());
    push_negation(alloc, &mut more, atoms, goal)?;
    let added = known.append(&more);
    drop(more);
    added
}

/// Whether the goal follows from the formulas whose clauses are `known`, with what shows it. This
/// is a trace that refutes the formulas with the negated goal, or the places of the atoms that are
/// true under an assignment under which the formulas hold and the goal does not. Of what is given
/// only the atoms count. The clauses of the goal are added for the search and removed again. So
/// `known` is as before, also if memory runs out, and can be used for the next goal, with what was
/// learnt.
pub fn entails_in(
    alloc: Global,
    known: &mut ClauseBase,
    goal: &Formula,
    given: &Given<'_>,
) -> Result<Entail, Memory>
    requires goal { IsOver (given_names given.now) (formula_of goal.now) }
    requires room { length (given_names given.now) ≤ known.old.vars }
    ensures { AnswersGoal (given_names given.now) (formula_of goal.now) known.old known.new result }
{
    let atoms = given.asked.atoms;
    let vars = known.vars();
    let count = known.count();
    push_goal(alloc, known, goal, atoms)?;
    let outcome = known.solve();
    known.cut(vars, count);
    match outcome? {
        Outcome::Refuted(trace) => Ok(Entail::Yes(trace)),
        Outcome::Model(values) => Ok(Entail::No(true_places(&values, atoms.len()).number())),
    }
}

/// The same without a trace, for clauses that mean the formulas: the places of the atoms that are
/// true under an assignment under which the formulas hold and the goal does not, or `None` exactly
/// if the goal follows.
pub fn counterexample_in(
    alloc: Global,
    known: &mut ClauseBase,
    goal: &Formula,
    given: &Given<'_>,
) -> Result<Option<Vars>, Memory>
    requires goal { IsOver (given_names given.now) (formula_of goal.now) }
    requires room { length (given_names given.now) ≤ known.old.vars }
    ensures kept { known.new ≡ known.old }
    ensures exact { IfOk result
        (λ found. (fs : List plain.Formula) → AreMeantBy (given_names given.now) fs known.old
        → IsCounterexample (given_names given.now) fs (formula_of goal.now) found) }
{
    let vars = known.vars();
    let count = known.count();
    push_goal(alloc, known, goal, given.asked.atoms)?;
    let found = known.satisfy();
    known.cut(vars, count);
    match found? {
        Some(values) => Ok(Some(true_places(&values, given.asked.atoms.len()))),
        None => Ok(None),
    }
}

/// The same as `entails_in` for a list of clauses, which is preprocessed for this goal alone, and
/// is left unchanged.
pub fn entails_from(
    alloc: Global,
    known: &mut Cnf,
    goal: &Formula,
    given: &Given<'_>,
) -> Result<Entail, Memory>
    requires goal { IsOver (given_names given.now) (formula_of goal.now) }
    requires room { length (given_names given.now) ≤ known.old.vars }
    ensures { AnswersGoal (given_names given.now) (formula_of goal.now) known.old known.new result }
{
    let mut base = ClauseBase::of(alloc, known)?;
    let entail = entails_in(alloc, &mut base, goal, given);
    drop(base);
    entail
}

/// Whether the goal follows from the formulas, with what shows it. All atoms have to be among
/// `atoms`, of which there are at most 64. `Yes` is returned exactly if the goal follows.
pub fn entails(
    alloc: Global,
    kb: &[Formula],
    goal: &Formula,
    atoms: &[Name],
) -> Result<Entail, Memory>
    requires few { length atoms.now ≤ 64 }
    requires different { has_twins atoms.now ≡ false }
    requires kb { AreOver atoms.now (map formula_of kb.now) }
    requires goal { IsOver atoms.now (formula_of goal.now) }
    ensures accepted { IfOk result
        (λ e. IsAcceptedEntailment atoms.now (map formula_of kb.now) (formula_of goal.now)
        (entailment_of e)) }
    ensures exact { IfOk result
        (λ e. IsTrue (says_yes (entailment_of e))
        ↔ Entails (map formula_of kb.now) (formula_of goal.now)) }
{
    let mut known = clauses(alloc, kb, atoms)?;
    let asked = Asked {
        atoms,
        beliefs: &[],
    };
    let given = Given {
        asked: &asked,
        assumptions: &[],
    };
    entails_from(alloc, &mut known, goal, &given)
}

/// The model, if the goal is false in it.
fn refuting(model: &Option<Vars>, goal: &Formula, asked: &Asked<'_>) -> Option<Vars>
    ensures { IfSome result
        (λ places. (model.now ≡ Some places)
        × (holds (true_names 0 asked.now.atoms.now places) (formula_of goal.now) ≡ false)) }
{
    match model {
        Some(places) => {
            if holds_at(asked.atoms, *places, goal) {
                None
            } else {
                Some(*places)
            }
        }
        None => None,
    }
}

/// The same as `entails_in`, with a model of the formulas that may be known from an earlier goal.
/// It is given as the places of the atoms that are true in it, and is tried on the goal before any
/// search.
pub fn entails_beside(
    alloc: Global,
    known: &mut ClauseBase,
    model: &Option<Vars>,
    goal: &Formula,
    given: &Given<'_>,
) -> Result<Entail, Memory>
    requires goal { IsOver (given_names given.now) (formula_of goal.now) }
    requires room { length (given_names given.now) ≤ known.old.vars }
    ensures { AnswersGoalBeside (given_names given.now) model.now (formula_of goal.now) known.old
        known.new result }
{
    match refuting(model, goal, given.asked) {
        Some(places) => Ok(Entail::No(places.number())),
        None => entails_in(alloc, known, goal, given),
    }
}
