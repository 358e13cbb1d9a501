//! A SAT solver whose steps are separate calls.

ghost use Rattle.std.specs.Prelude.{◌≡◌, [], ◌∷◌, ◌++◌, ◌<◌, ◌≤◌, ◌+◌, List, ℕ, ℤ, drop, slice_get};
ghost use Rattle.std.specs.Prelude.{neg_ℤ, length, unsigned_abs, IsTrue, ◌↔◌, Some, IfOk, IfSome};
ghost use Rattle.std.specs.Prelude.{OnOk, OnErr, MatchOption};
ghost use Rattle.std.specs.Bool.{MatchBool};
ghost use Rattle.std.specs.List.{AllByRecursion};
ghost use Rattle.std.specs.Option.{IfNone, is_some};
ghost use Rattle.mcs_base.specs.Listings.{IsAmong};
ghost use Rattle.mcs_trace.specs.Clauses.{IsLiteral};
ghost use Rattle.mcs_engine.specs.Trails.{IsClauseOver};
ghost use Rattle.mcs_engine.specs.States.{IsFull, KeepsTrail};
ghost use Rattle.mcs_engine.specs.Stores.{IsGround};
ghost use Rattle.mcs_sat.specs.Adding.{AreAdded, IsFreshFor};
ghost use Rattle.mcs_sat.specs.Solvers.{GoesOn, HasNoValue, IsAsserting, IsFalseNumber, IsLearned};
ghost use Rattle.mcs_sat.specs.Solvers.{IsOpenUnder, IsReasonNumber, IsSolver, IsUnitRun};
ghost use Rattle.mcs_sat.specs.Solvers.{LeadsToConflict, last_level, trues, trues_below};

use mcs_base::Memory;
use mcs_engine::{State, analyse, decide, learn};
use mcs_search::{add, attach, run, run_or_restore};
use mcs_trace::{Clause, Cnf, Step};
use std::alloc::Global;
use std::marker::Model;

/// A SAT solver: its clauses, each with its number, and the literals that are true, level by level.
/// Level 0 has those that are true before any decision; each other level begins with a decision.
/// The literals of a level are in the order in which they became true. No variable occurs in two of
/// them. Each literal that is not a decision is in a clause whose other literals were false before
/// it.
pub struct Solver {
    state: State,
}

impl Drop for Solver {
    fn drop(self) {
        let Solver { state: _ } = self;
    }
}

impl Model for Solver {
    ghost use Rattle.mcs_sat.specs.Solvers.{SolverView, view_of};
    ghost use Rattle.mcs_engine.specs.States.{IsReady};

    ghost Value = { SolverView };

    ghost view = { λ s. view_of s.state };

    ghost invariant = { λ s. IsReady s.state };
}

/// Adds the clauses of the list, at level 0.
fn add_all(state: &mut State, clauses: &[Clause]) -> Result<(), Memory>
    requires ground { IsGround state.old }
    requires clauses { (i : ℕ) (c : List ℤ) → slice_get clauses.now i ≡ Some c
        → IsClauseOver state.old.trail.positions.items c }
    ensures kept { KeepsTrail state.old state.new }
    ensures added { OnOk result (AreAdded state.old state.new clauses.now) }
{
    for clause in clauses {
        add(state, clause.literals())?;
    }
    Ok(())
}

/// Adds the clauses of the list, at level 0, and makes each watch two of its literals.
fn add_watched(state: &mut State, clauses: &[Clause]) -> Result<(), Memory>
    requires ground { IsGround state.old }
    requires clauses { (i : ℕ) (c : List ℤ) → slice_get clauses.now i ≡ Some c
        → IsClauseOver state.old.trail.positions.items c }
    ensures kept { KeepsTrail state.old state.new }
    ensures added { OnOk result (AreAdded state.old state.new clauses.now) }
    ensures full { OnOk result (IsFull state.new) }
{
    add_all(state, clauses)?;
    attach(state)?;
    Ok(())
}

/// The state of a solver with the clauses of the list, in which no literal is true yet.
pub(crate) fn state_of(alloc: Global, cnf: &Cnf) -> Result<State, Memory>
    ensures { IfOk result (IsFreshFor cnf.now) }
{
    let mut state = State::new(alloc, cnf.vars())?;
    match add_watched(&mut state, cnf.clauses()) {
        Ok(()) => Ok(state),
        Err(error) => {
            drop(state);
            Err(error)
        }
    }
}

impl Solver {
    /// A solver with the clauses of the list, with their numbers, in which no literal is true yet.
    pub fn new(alloc: Global, cnf: &Cnf) -> Result<Solver, Memory>
        ensures { IfOk result (λ s. s
            ≡ record { vars = cnf.now.vars; clauses = cnf.now.clauses; levels = [] ∷ [] }) }
    {
        Ok(Solver {
            state: state_of(alloc, cnf)?,
        })
    }

    /// The value of the literal, or `None` if it has none. The variable has to be one of the
    /// clauses'.
    pub fn value(&self, literal: i64) -> Option<bool>
        requires literal { IsLiteral literal }
        requires within { unsigned_abs literal ≤ self.now.vars }
        ensures value { MatchOption result
            (HasNoValue (trues self.now) literal)
            (λ v. MatchBool v (IsAmong literal (trues self.now))
            (IsAmong (neg_ℤ literal) (trues self.now))) }
        ensures kept { IsSolver self.now }
    {
        self.state.trail.value(literal)
    }

    /// Decides the literal: opens a level and makes it true. Its variable has to be one of the
    /// clauses' and must have no value. If memory runs out, everything is as before.
    pub fn decide(&mut self, literal: i64) -> Result<(), Memory>
        requires literal { IsLiteral literal }
        requires within { unsigned_abs literal ≤ self.old.vars }
        requires free { HasNoValue (trues self.old) literal }
        ensures ok { OnOk result (self.new
            ≡ record self.old { levels = self.old.levels ++ (literal ∷ []) ∷ [] }) }
        ensures err { OnErr result (self.new ≡ self.old) }
    {
        decide(&mut self.state, literal)
    }

    /// Makes true, at the end of the last level, what follows by unit propagation. Returns the
    /// number of a clause that is false, exactly if unit propagation leads to one. If there is
    /// none, each clause then has a true literal, or at least two without a value. If memory runs
    /// out, everything is as before. The two watched literals are those of Moskewicz, Madigan,
    /// Zhao, Zhang & Malik (2001).
    pub fn propagate(&mut self) -> Result<Option<u64>, Memory>
        ensures vars { self.new.vars ≡ self.old.vars }
        ensures clauses { self.new.clauses ≡ self.old.clauses }
        ensures run { OnOk result
            ((more : List ℤ) × GoesOn self.old.levels self.new.levels more
            × IsUnitRun self.old.clauses (trues self.old) more) }
        ensures open { IfOk result (λ found. IfNone found
            (AllByRecursion (IsOpenUnder (trues self.new)) self.new.clauses)) }
        ensures conflict { IfOk result (λ found. IfSome found (IsFalseNumber self.new)) }
        ensures exact { IfOk result (λ found. IsTrue (is_some found)
            ↔ LeadsToConflict self.old.clauses (trues self.old)) }
        ensures err { OnErr result (self.new ≡ self.old) }
    {
        match run_or_restore(&mut self.state) {
            Ok(Some(index)) => {
                prove!(index < self.state.clauses.len());
                Ok(Some(index as u64 + 1))
            }
            Ok(None) => Ok(None),
            Err(error) => Err(error),
        }
    }

    /// The step that is learnt from the false clause with the number `conflict` (Marques-Silva &
    /// Sakallah 1996).
    ///
    /// The step is right, its clause is false, and exactly one literal of it has its value from the
    /// last level. Its chain begins with `conflict`. The other numbers are those of the reasons, in
    /// the order in which they are resolved: clauses with a true literal whose other literals were
    /// false before it.
    ///
    /// The clause has to be false, and there has to be a level above 0. Under the literals of the
    /// levels before the last, each clause has to have a true literal, or at least two without a
    /// value. The clauses and the true literals are unchanged.
    pub fn analyse(&mut self, conflict: u64) -> Result<Step, Memory>
        requires conflict { IsFalseNumber self.old conflict }
        requires level { 1 < length self.old.levels }
        requires before { AllByRecursion (IsOpenUnder
            (trues_below self.old.levels (last_level self.old))) self.old.clauses }
        ensures step { IfOk result (IsAsserting self.old) }
        ensures begins { IfOk result (λ step. (ns : List ℕ) × (step.chain.items ≡ conflict ∷ ns)) }
        ensures reasons { IfOk result (λ step. AllByRecursion (IsReasonNumber self.old)
            (drop 1 step.chain.items)) }
        ensures same { self.new ≡ self.old }
    {
        let start = match self.state.levels.last() {
            Some(reach) => reach.entries,
            None => unreachable!(),
        };
        analyse(
            *self.state.levels.allocator(),
            &self.state.clauses,
            &self.state.trail,
            start,
            conflict as usize - 1,
        )
    }

    /// Adds the clause of the step, and returns its number, which is the next one. Jumps back to
    /// the greatest level of its literals other than the one of the last level; if there are no
    /// others, to level 0. Then exactly one literal of the clause has no value, and the others are
    /// false.
    ///
    /// The step has to be right and its clause false, and exactly one literal of it has to have its
    /// value from the last level. This must not be level 0. If memory runs out, everything is as
    /// before.
    pub fn learn(&mut self, step: &Step) -> Result<u64, Memory>
        requires step { IsAsserting self.old step.now }
        requires level { 1 < length self.old.levels }
        ensures number { IfOk result (λ number. number ≡ length self.old.clauses + 1) }
        ensures learnt { OnOk result (IsLearned self.old self.new step.now) }
        ensures err { OnErr result (self.new ≡ self.old) }
    {
        learn(&mut self.state, step.clause.literals(), &step.chain)?;
        Ok(self.state.clauses.len() as u64)
    }
}
