//! A list of clauses that many searches use.

ghost use Rattle.std.specs.Prelude.{◌≡◌, [], ◌∷◌, ◌++◌, ◌+◌, ◌<◌, ◌≤◌, ◌^◌, length, take, IfOk};
ghost use Rattle.std.specs.Prelude.{OnOk, OnErr};
ghost use Rattle.std.specs.List.{AllByRecursion};
ghost use Rattle.mcs_trace.specs.Clauses.{IsClause, IsClauseList, IsWithin};
ghost use Rattle.mcs_sat.specs.Answers.{IsSatAnswer, IsExact, IsSettledAnswer};
ghost use Rattle.mcs_engine.specs.States.{IsFull, IsState, IsWider, SameRoom};
ghost use Rattle.mcs_engine.specs.Stores.{IsFrontOf, IsGround, IsLaterGround, given};

use crate::flatten::flatten_from;
use crate::outcome::Outcome;
use crate::solving::{assignment_of, outcome_of};
use mcs_base::Memory;
use mcs_engine::State;
use mcs_search::{Order, add, attach, cut, go_back, keep, run, search_left, settle_all, widen};
use mcs_trace::{Clause, Cnf};
use std::alloc::Global;
use std::marker::Model;

/// A list of clauses over the variables 1 to `vars`, numbered from 1 in their order, for many
/// searches. Between two searches clauses may be added and removed. From one search to the next it
/// keeps what was learnt from clauses that stay, the literals that are true at level 0, and the
/// order of the variables with their last values.
pub struct ClauseBase {
    state: State,
    order: Order,
    vars: u64,
}

impl Drop for ClauseBase {
    fn drop(self) {
        let ClauseBase {
            state: _,
            order: _,
            vars: _,
        } = self;
    }
}

impl Model for ClauseBase {
    ghost use Rattle.mcs_trace.specs.Clauses.{ClauseList};
    ghost use Rattle.mcs_engine.specs.Stores.{IsBase, list_of};

    ghost Value = { ClauseList };

    ghost view = { λ b. list_of b.state b.vars };

    ghost invariant = { λ b. IsBase b.state b.vars };
}

/// Keeps the first `count` of the given clauses, and what was learnt before the first one that is
/// removed.
fn leave_first(state: &mut State, order: &mut Order, count: usize)
    requires { IsGround state.old }
    ensures ground { IsGround state.new }
    ensures positions { SameRoom state.old state.new }
    ensures clauses { given state.new.clauses state.new.chains
        ≡ take count (given state.old.clauses state.old.chains) }
{
    if count < state.chains.given() {
        let place = state.chains.place_of(count);
        cut(state, order, place);
    }
}

/// Adds the variable, if it does not exist yet.
fn make_room(state: &mut State, variable: usize) -> Result<(), Memory>
    requires state { IsState state.old }
    requires next { variable ≤ length state.old.trail.positions.items }
    requires fits { variable < 2 ^ 63 }
    ensures wider { IsWider state.old state.new }
    ensures room { OnOk result (variable < length state.new.trail.positions.items) }
{
    if variable >= state.trail.positions.len() {
        widen(state)?;
    }
    Ok(())
}

/// Preprocesses the clauses from the index `from` on: learns clauses over the parts of their
/// formulas, and what a bounded search learns from these alone.
fn learn_beforehand(state: &mut State, order: &mut Order, from: usize) -> Result<(), Memory>
    requires ground { IsGround state.old }
    requires full { IsFull state.old }
    ensures later { IsLaterGround state.old state.new }
    ensures full { OnOk result (IsFull state.new) }
{
    let left_out = flatten_from(state, from)?;
    let searched = search_left(state, order, &left_out);
    drop(left_out);
    searched?;
    attach(state)?;
    Ok(())
}

/// Makes true what follows by unit propagation at level 0, and learns what a bounded search finds.
fn settle_state(state: &mut State, order: &mut Order) -> Result<(), Memory>
    requires { IsGround state.old }
    ensures { IsLaterGround state.old state.new }
{
    let from = state.watches.pairs.len();
    settle_all(state)?;
    learn_beforehand(state, order, from)?;
    let _found = run(state)?;
    keep(state);
    Ok(())
}

impl ClauseBase {
    /// The list without clauses, over the variables 1 to `vars`.
    pub fn new(alloc: Global, vars: u64) -> Result<ClauseBase, Memory>
        requires { vars < 2 ^ 63 }
        ensures { IfOk result (λ b. b ≡ record { vars = vars; clauses = [] }) }
    {
        let state = State::new(alloc, vars)?;
        Ok(ClauseBase {
            state,
            order: Order::new(alloc),
            vars,
        })
    }

    /// The clauses of the list.
    pub fn of(alloc: Global, cnf: &Cnf) -> Result<ClauseBase, Memory>
        ensures { IfOk result (λ b. b ≡ cnf.now) }
    {
        let mut base = ClauseBase::new(alloc, cnf.vars())?;
        match base.append(cnf) {
            Ok(()) => Ok(base),
            Err(error) => {
                drop(base);
                Err(error)
            }
        }
    }

    /// The number of variables.
    pub fn vars(&self) -> u64
        ensures value { result ≡ self.now.vars }
        ensures kept { IsClauseList self.now }
    {
        self.vars
    }

    /// The number of clauses.
    pub fn count(&self) -> usize
        ensures { result ≡ length self.now.clauses }
    {
        self.state.chains.given()
    }

    /// Adds a variable, which occurs in no clause yet. Returns its number, which is the next one.
    /// If memory runs out, none is added.
    pub fn add_variable(&mut self) -> Result<u64, Memory>
        requires { self.old.vars + 1 < 2 ^ 63 }
        ensures number { IfOk result (λ number. number ≡ self.old.vars + 1) }
        ensures ok { OnOk result (self.new ≡ record self.old { vars = self.old.vars + 1 }) }
        ensures err { OnErr result (self.new ≡ self.old) }
    {
        make_room(&mut self.state, self.vars as usize + 1)?;
        self.vars += 1;
        Ok(self.vars)
    }

    /// Appends a clause. Its variables have to be those of the list. If memory runs out, the list
    /// is as before.
    pub fn add(&mut self, literals: &[i64]) -> Result<(), Memory>
        requires clause { IsClause literals.now }
        requires within { IsWithin self.old.vars literals.now }
        ensures ok { OnOk result (self.new
            ≡ record self.old { clauses = self.old.clauses ++ literals.now ∷ [] }) }
        ensures err { OnErr result (self.new ≡ self.old) }
    {
        add(&mut self.state, literals)?;
        Ok(())
    }

    /// Adds variables up to the number `vars`.
    fn widen_to(&mut self, vars: u64) -> Result<(), Memory>
        requires more { self.old.vars ≤ vars }
        requires fits { vars < 2 ^ 63 }
        ensures clauses { self.new.clauses ≡ self.old.clauses }
        ensures bound { (self.old.vars ≤ self.new.vars) × (self.new.vars ≤ vars) }
        ensures ok { OnOk result (self.new.vars ≡ vars) }
    {
        while self.vars < vars {
            self.add_variable()?;
        }
        Ok(())
    }

    /// Appends the clauses. If memory runs out, only the first ones are added.
    fn add_all(&mut self, clauses: &[Clause]) -> Result<(), Memory>
        requires { AllByRecursion (λ c. IsClause c × IsWithin self.old.vars c) clauses.now }
        ensures vars { self.new.vars ≡ self.old.vars }
        ensures added { IsFrontOf self.old.clauses self.new.clauses }
        ensures ok { OnOk result (self.new.clauses ≡ self.old.clauses ++ clauses.now) }
    {
        for clause in clauses {
            self.add(clause.literals())?;
        }
        Ok(())
    }

    /// Appends the clauses of a list, which has the same variables or more. If memory runs out,
    /// nothing is added.
    pub fn append(&mut self, cnf: &Cnf) -> Result<(), Memory>
        requires { self.old.vars ≤ cnf.now.vars }
        ensures ok { OnOk result (self.new
            ≡ record { vars = cnf.now.vars; clauses = self.old.clauses ++ cnf.now.clauses }) }
        ensures err { OnErr result (self.new ≡ self.old) }
    {
        let vars = self.vars();
        let count = self.count();
        let done = self.append_part(cnf);
        if done.is_err() {
            self.cut(vars, count);
        }
        done
    }

    /// The same as `append`, but if memory runs out, a part of it is added.
    fn append_part(&mut self, cnf: &Cnf) -> Result<(), Memory>
        requires { self.old.vars ≤ cnf.now.vars }
        ensures vars { self.old.vars ≤ self.new.vars }
        ensures added { IsFrontOf self.old.clauses self.new.clauses }
        ensures ok { OnOk result (self.new
            ≡ record { vars = cnf.now.vars; clauses = self.old.clauses ++ cnf.now.clauses }) }
    {
        self.widen_to(cnf.vars())?;
        self.add_all(cnf.clauses())
    }

    /// Keeps the first `count` clauses, over the variables 1 to `vars`. The variables of these
    /// clauses have to be among them. What was learnt before the first removed clause stays.
    pub fn cut(&mut self, vars: u64, count: usize)
        requires fewer { vars ≤ self.old.vars }
        requires within { AllByRecursion (IsWithin vars) (take count self.old.clauses) }
        ensures { self.new ≡ record { vars = vars; clauses = take count self.old.clauses } }
    {
        leave_first(&mut self.state, &mut self.order, count);
        self.vars = vars;
    }

    /// Preprocesses the list: makes true what follows by unit propagation at level 0, and learns
    /// what a bounded search finds. Later searches begin with this, also if clauses that are added
    /// afterwards are removed again. It is worth its time if many questions follow. The list itself
    /// is unchanged.
    pub fn settle(&mut self) -> Result<(), Memory>
        ensures { self.new ≡ self.old }
    {
        settle_state(&mut self.state, &mut self.order)
    }

    /// An assignment that satisfies the clauses, with a value for each variable; or, exactly if
    /// there is none, an accepted trace. In the trace each step but the last is used by a later
    /// one. The list is unchanged.
    pub fn solve(&mut self) -> Result<Outcome, Memory>
        ensures same { self.new ≡ self.old }
        ensures answer { IfOk result (IsSatAnswer self.old) }
        ensures exact { IfOk result (IsExact self.old) }
    {
        let count = self.state.chains.given();
        let outcome = outcome_of(&mut self.state, &mut self.order, self.vars, count);
        go_back(&mut self.state, &mut self.order);
        outcome
    }

    /// The same without a trace: an assignment that satisfies the clauses, or `None` exactly if
    /// there is none.
    pub fn satisfy(&mut self) -> Result<Option<Vec<bool>>, Memory>
        ensures same { self.new ≡ self.old }
        ensures exact { IfOk result (IsSettledAnswer self.old) }
    {
        let found = assignment_of(&mut self.state, &mut self.order, self.vars);
        go_back(&mut self.state, &mut self.order);
        found
    }
}

/// An assignment that satisfies the clauses, with a value for each variable; or, exactly if there
/// is none, an accepted trace. The search decides and propagates, learns from each conflict, and
/// jumps back (Marques-Silva & Sakallah 1996). It decides first on variables of recent conflicts
/// (Moskewicz, Madigan, Zhao, Zhang & Malik 2001).
pub fn solve(alloc: Global, cnf: &Cnf) -> Result<Outcome, Memory>
    ensures answer { IfOk result (IsSatAnswer cnf.now) }
    ensures exact { IfOk result (IsExact cnf.now) }
{
    let mut base = ClauseBase::of(alloc, cnf)?;
    let outcome = base.solve();
    drop(base);
    outcome
}
