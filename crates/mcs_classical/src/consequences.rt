//! What follows from formulas with assumptions, kept from one question to the next.

ghost use Rattle.std.specs.Prelude.{◌≡◌, ℕ, ◌+◌, ◌<◌, ◌≤◌, List, IsTrue, true, length, map, IfOk};
ghost use Rattle.std.specs.List.{AllByRecursion};
ghost use Rattle.mcs_sets.specs.Sets.{has, such_that};
ghost use Rattle.mcs_system.specs.Logic.{Theory, true_names};
ghost use Rattle.mcs_system.specs.Plain as plain;
ghost use Rattle.mcs_system.specs.Seen.{formula_of};
ghost use Rattle.mcs_system.specs.Views.{Shows};
ghost use Rattle.mcs_asked.specs.Questions.{asked_beliefs};
ghost use Rattle.mcs_meant.specs.Meanings.{AreMeantBy};
ghost use Rattle.mcs_classical.specs.Consequences.{holds_goal, with_assumed, AreConsequences};
ghost use Rattle.mcs_classical.specs.Calls.{Searches};
ghost use Rattle.mcs_classical.specs.Consequences.{IsGoalAnswer, AreGoalsTold};
ghost use Rattle.mcs_classical.specs.Given.{given_names, given_beliefs, with_given};
ghost use Rattle.mcs_classical.specs.Given.{AreConsequencesOf};
ghost use Rattle.mcs_classical.specs.declared.assumptions.Assumption as declared;

use crate::adding::add_assumed;
use crate::among::goals_among;
use crate::assumptions::holding;
use crate::bounds::{Lower, Upper, entailed_with, possible_with};
use crate::consequence::counterexample_in;
use crate::given::Given;
use mcs_asked::Asked;
use mcs_base::{Active, Memory, Vars};
use mcs_sat::ClauseBase;
use mcs_system::{Formula, holds_at};
use std::alloc::Global;

/// What is known of the goals: which of them follow, and of which this is open.
#[derive(Clone, Copy)]
struct Told {
    entailed: Vars,
    left: Vars,
}

/// What was found to follow from formulas with sets of assumptions, among a list of goals. It is
/// right for the formulas, assumptions and goals with which the calls were made.
pub struct Consequences {
    lower: Vec<Lower>,
    upper: Vec<Upper>,
}

impl Drop for Consequences {
    fn drop(self) {
        let Consequences { lower: _, upper: _ } = self;
    }
}

/// The numbers of the assumptions.
fn numbers_of(given: &Given<'_>) -> Active
    ensures { AllByRecursion (λ (a : declared.Assumption). IsTrue (has result a.number))
        given.now.assumptions.now }
{
    let assumptions = given.assumptions;
    let mut numbers = Active::empty();
    for assumption in assumptions {
        numbers = numbers.with(assumption.number);
    }
    numbers
}

/// The places of a list of this many goals.
#[tactic(auto, using(mcs_system::proofs::SeenLemmas::loops))]
fn places_of(count: usize) -> Vars
    requires { count ≤ 64 }
    ensures { result ≡ such_that count (λ k. true) }
{
    let mut places = Vars::empty();
    for place in 0..count as u32 {
        places = places.with(place);
    }
    places
}

/// The places of the beliefs that hold if exactly the atoms at the places in `values` are true.
fn goals_holding(asked: &Asked<'_>, values: Vars) -> Vars
    ensures { result ≡ such_that (length asked.now.beliefs.now)
        (holds_goal (true_names 0 asked.now.atoms.now values) (asked_beliefs asked.now)) }
{
    let goals = asked.beliefs;
    let mut places = Vars::empty();
    for (place, goal) in goals.iter().enumerate() {
        if holds_at(asked.atoms, values, goal) {
            places = places.with(place as u32);
        }
    }
    places
}

/// Searches whether the belief at the place follows from the formulas that `known` means. `None` is
/// returned if it does, and otherwise the places of the beliefs that hold in the model that was
/// found: no others can follow, and this one is none of them. The model is kept as an upper bound.
fn ask(
    alloc: Global,
    known: &mut ClauseBase,
    upper: &mut Vec<Upper>,
    given: &Given<'_>,
    place: usize,
) -> Result<Option<Vars>, Memory>
    requires room { length (given_names given.now) ≤ known.old.vars }
    requires place { place < length given.now.asked.now.beliefs.now }
    ensures search { Searches given.now known.old known.new upper.old.items upper.new.items }
    ensures answer { IfOk result (λ answer. (fs : List plain.Formula)
        → AreMeantBy (given_names given.now) fs known.old
        → IsGoalAnswer fs (given_beliefs given.now) place answer) }
{
    let goals = given.asked.beliefs;
    match counterexample_in(alloc, known, goals[place], given)? {
        None => Ok(None),
        Some(values) => {
            let assumed = holding(given, values);
            let possible = goals_holding(given.asked, values);
            upper.push(Upper { assumed, possible })?;
            Ok(Some(possible))
        }
    }
}

/// What is known of the goals, once the answer about the goal at the place is known too.
fn with_answer(told: Told, place: u32, answer: Option<Vars>) -> Told
    requires { place < 64 }
    ensures { (fs : List plain.Formula) (goals : List plain.Formula)
        → IsGoalAnswer fs goals place answer → AreGoalsTold fs goals place told
        → AreGoalsTold fs goals (place + 1) result }
{
    match answer {
        None => Told {
            entailed: told.entailed.with(place),
            left: told.left.without(place),
        },
        Some(possible) => Told {
            entailed: told.entailed,
            left: told.left.common(possible),
        },
    }
}

/// The beliefs that follow from the formulas whose clauses are `known`: those already known to
/// follow, and those found to follow by searches. Each model that is found is kept, and decides
/// later beliefs that are false in it.
fn ask_left(
    alloc: Global,
    known: &mut ClauseBase,
    upper: &mut Vec<Upper>,
    given: &Given<'_>,
    before: Told,
) -> Result<Vars, Memory>
    requires { length (given_names given.now) ≤ known.old.vars }
    ensures search { Searches given.now known.old known.new upper.old.items upper.new.items }
    ensures exact { IfOk result (λ view. (fs : List plain.Formula)
        → AreMeantBy (given_names given.now) fs known.old
        → AreGoalsTold fs (given_beliefs given.now) 0 before
        → Shows (Theory fs) (given_beliefs given.now) view) }
{
    let goals = given.asked.beliefs;
    let mut told = before;
    for place in 0..goals.len() {
        if told.left.has(place as u32) {
            let answer = ask(alloc, known, upper, given, place)?;
            told = with_answer(told, place as u32, answer);
        }
    }
    Ok(told.entailed)
}

impl Consequences {
    /// Nothing found yet. This is right for all formulas, assumptions and goals.
    pub fn new(alloc: Global) -> Consequences
        ensures { (fs : List plain.Formula) (assumptions : List declared.Assumption)
            (goals : List plain.Formula) → AreConsequences fs assumptions goals result }
    {
        Consequences {
            lower: Vec::new(alloc),
            upper: Vec::new(alloc),
        }
    }

    /// What is found without a search: the beliefs that are literally among the formulas follow.
    /// This is right for these formulas and beliefs, and for all assumptions.
    pub fn of(
        alloc: Global,
        formulas: &[Formula],
        asked: &Asked<'_>,
    ) -> Result<Consequences, Memory>
        ensures { IfOk result (λ found. (assumptions : List declared.Assumption)
            → AreConsequences (map formula_of formulas.now) assumptions
            (asked_beliefs asked.now) found) }
    {
        let mut found = Consequences::new(alloc);
        let entailed = goals_among(formulas, asked);
        found.lower.push(Lower {
            assumed: Active::empty(),
            entailed,
        })?;
        Ok(found)
    }

    /// What is known of the beliefs, with the assumptions in the set.
    fn told(&self, set: Active, asked: &Asked<'_>) -> Told
        ensures { (fs : List plain.Formula) (assumptions : List declared.Assumption)
            → AreConsequences fs assumptions (asked_beliefs asked.now) self.now
            → AreGoalsTold (with_assumed fs assumptions set) (asked_beliefs asked.now) 0 result }
    {
        let entailed = entailed_with(&self.lower, set);
        let all = places_of(asked.beliefs.len());
        let possible = possible_with(&self.upper, set, all);
        Told {
            entailed,
            left: possible.minus(entailed),
        }
    }

    /// The places, from 0, of the beliefs that follow from the formulas, whose clauses are `known`,
    /// with the assumptions in the set. What was found for other sets is used first, and what is
    /// found is kept. The clauses of the assumptions are added for a search and removed again, so
    /// that `known` is as before. If memory runs out, what is kept is still right.
    pub fn following(
        &mut self,
        alloc: Global,
        known: &mut ClauseBase,
        given: &Given<'_>,
        set: Active,
    ) -> Result<Vars, Memory>
        requires { length (given_names given.now) ≤ known.old.vars }
        ensures kept { known.new ≡ known.old }
        ensures right { (fs : List plain.Formula) → AreMeantBy (given_names given.now) fs known.old
            → AreConsequencesOf given.now fs self.old → AreConsequencesOf given.now fs self.new }
        ensures exact { IfOk result (λ view. (fs : List plain.Formula)
            → AreMeantBy (given_names given.now) fs known.old
            → AreConsequencesOf given.now fs self.old
            → Shows (Theory (with_given fs given.now set)) (given_beliefs given.now) view) }
    {
        let assumed = set.common(numbers_of(given));
        let told = self.told(assumed, given.asked);
        if told.left == Vars::empty() {
            return Ok(told.entailed);
        }
        let vars = known.vars();
        let count = known.count();
        add_assumed(alloc, known, given, assumed)?;
        let found = ask_left(alloc, known, &mut self.upper, given, told);
        known.cut(vars, count);
        let entailed = found?;
        if entailed != told.entailed {
            self.lower.push(Lower { assumed, entailed })?;
        }
        Ok(entailed)
    }
}
