//! The trace of a solver, once a clause is false at level 0.

ghost use Rattle.std.specs.Prelude.{◌≡◌, ℕ, [], ◌+◌, ◌<◌, ◌≤◌, ◌^◌, ◌⊎◌, false, IsTrue, IfOk};
ghost use Rattle.std.specs.Prelude.{get_or, length, map};
ghost use Rattle.mcs_base.specs.Listings.{IsAmong};
ghost use Rattle.mcs_trace.specs.Clauses.{IsClause};
ghost use Rattle.mcs_trace.specs.Traces.{IsAcceptedTrace, IsChainResolvent, inference_of};
ghost use Rattle.mcs_trace.specs.Traces.{inferences_of};
ghost use Rattle.mcs_search.specs.Numbering.{AreMarked, AreChainsMarked, AreNeeded, IsNumbering};
ghost use Rattle.mcs_search.specs.Numbering.{IsRead, IsStore, NameBelow, NamesAt, number_now};
ghost use Rattle.mcs_engine.specs.Stores.{IsGround, given, given_count};
ghost use Rattle.mcs_engine.specs.Trails.{IsFalseAt};

use mcs_base::{Memory, Rows};
use mcs_engine::{Chains, State, analyse};
use mcs_trace::{Clause, Step, Trace};
use std::alloc::Global;

/// Marks the clauses with these numbers.
fn mark(needed: &mut Vec<bool>, numbers: &[u64])
    requires { NameBelow (length needed.old.items) numbers.now }
    ensures sized { length needed.new.items ≡ length needed.old.items }
    ensures kept { (i : ℕ) → IsTrue (get_or needed.old.items i false)
        → IsTrue (get_or needed.new.items i false) }
    ensures marked { AreMarked needed.new.items numbers.now }
    ensures only { (i : ℕ) → IsTrue (get_or needed.new.items i false)
        → IsTrue (get_or needed.old.items i false) ⊎ IsAmong (i + 1) numbers.now }
{
    for number in numbers {
        let index = *number as usize - 1;
        needed[index] = true;
    }
}

/// Which clauses are named by the last chain, or by the chain of one that is needed itself.
fn needed_for(alloc: Global, chains: &Chains, last: &[u64]) -> Result<Vec<bool>, Memory>
    requires chains { NamesAt chains.now }
    requires last { NameBelow (length chains.now) last.now }
    ensures { IfOk result (λ needed. AreNeeded chains.now last.now needed.items) }
{
    let mut needed = vec![in alloc; false; chains.len()]?;
    mark(&mut needed, last);
    let mut index = needed.len();
    while index > 0 {
        index -= 1;
        if needed[index] {
            mark(&mut needed, chains.row(index));
        }
    }
    Ok(needed)
}

/// The chain, with the numbers that its clauses have in the trace.
pub(crate) fn renumbered(alloc: Global, numbers: &[u64], chain: &[u64]) -> Result<Vec<u64>, Memory>
    requires { NameBelow (length numbers.now) chain.now }
    ensures { IfOk result (λ r. r.items ≡ map (number_now numbers.now) chain.now) }
{
    let mut renumbered = Vec::new(alloc);
    for number in chain {
        renumbered.push(numbers[*number as usize - 1])?;
    }
    Ok(renumbered)
}

/// A step of the clause and of the chain with new numbers, as copies.
fn step_of(alloc: Global, numbers: &[u64], literals: &[i64], chain: &[u64]) -> Result<Step, Memory>
    requires clause { IsClause literals.now }
    requires chain { NameBelow (length numbers.now) chain.now }
    ensures { IfOk result (λ step. inference_of step
        ≡ record { clause = literals.now; chain = map (number_now numbers.now) chain.now }) }
{
    let Some(clause) = Clause::new(literals.to_vec(alloc)?) else {
        unreachable!();
    };
    match renumbered(alloc, numbers, chain) {
        Ok(chain) => Ok(Step { clause, chain }),
        Err(error) => {
            drop(clause);
            Err(error)
        }
    }
}

/// What a trace has so far: its steps, the number of given clauses so far, and for each clause its
/// number in the trace, 0 if it is left out.
#[derive(Drop)]
pub(crate) struct Numbering {
    pub steps: Vec<Step>,
    pub given: u64,
    pub numbers: Vec<u64>,
}

impl Numbering {
    /// Takes the next clause: a given one, which has no chain, one that becomes a step, or one that
    /// is left out. In all, `count` clauses are given.
    fn take(
        &mut self,
        alloc: Global,
        literals: &[i64],
        chain: &[u64],
        is_needed: bool,
        count: usize,
    ) -> Result<(), Memory>
        requires clause { IsClause literals.now }
        requires chain { NameBelow (length self.old.numbers.items) chain.now }
        requires few { self.old.given ≤ length self.old.numbers.items }
        requires room { 0 < length chain.now → count + length self.old.steps.items + 1 < 2 ^ 64 }
        ensures { IfOk result (λ _. IsRead self.old self.new literals.now chain.now is_needed
            count) }
    {
        if chain.is_empty() {
            self.given += 1;
            self.numbers.push(self.given)?;
            return Ok(());
        }
        if !is_needed {
            self.numbers.push(0)?;
            return Ok(());
        }
        let step = step_of(alloc, &self.numbers, literals, chain)?;
        self.steps.push(step)?;
        self.numbers.push((count + self.steps.len()) as u64)?;
        Ok(())
    }
}

/// What a trace has of all clauses, of which `count` are given.
fn numbering_of(
    alloc: Global,
    clauses: &Rows<i64>,
    chains: &Chains,
    needed: &[bool],
    count: usize,
) -> Result<Numbering, Memory>
    requires store { IsStore clauses.now chains.now count }
    requires len { length needed.now ≡ length chains.now }
    requires closed { AreChainsMarked chains.now needed.now 0 }
    requires fits { length clauses.now < 2 ^ 63 }
    ensures { IfOk result (IsNumbering clauses.now chains.now needed.now (length clauses.now)) }
{
    let mut numbering = Numbering {
        steps: Vec::new(alloc),
        given: 0,
        numbers: Vec::new(alloc),
    };
    for index in 0..clauses.len() {
        if let Err(error) = numbering.take(
            alloc,
            clauses.row(index),
            chains.row(index),
            needed[index],
            count,
        ) {
            drop(numbering);
            return Err(error);
        }
    }
    Ok(numbering)
}

/// The trace that ends with the step, whose clause is empty. It has no step that is not needed.
fn trace_to(
    alloc: Global,
    clauses: &Rows<i64>,
    chains: &Chains,
    count: usize,
    last: &Step,
) -> Result<Trace, Memory>
    requires store { IsStore clauses.now chains.now count }
    requires last { IsChainResolvent clauses.now last.now.chain.items [] }
    requires empty { last.now.clause ≡ [] }
    ensures { IfOk result (λ trace. IsAcceptedTrace (given clauses.now chains.now)
        (inferences_of trace)) }
{
    let needed = needed_for(alloc, chains, &last.chain)?;
    let mut numbering = numbering_of(alloc, clauses, chains, &needed, count)?;
    let taken = numbering.take(alloc, last.clause.literals(), &last.chain, true, count);
    let Numbering {
        steps,
        given: _,
        numbers,
    } = numbering;
    drop(numbers);
    match taken {
        Ok(()) => Ok(Trace { steps }),
        Err(error) => {
            drop(steps);
            Err(error)
        }
    }
}

/// The trace that follows from the clause with this index, which is false at level 0. Of all
/// clauses `count` are given, and the steps are numbered after these.
pub fn trace_of(alloc: Global, state: &State, count: usize, index: usize) -> Result<Trace, Memory>
    requires ground { IsGround state.now }
    requires conflict { IsFalseAt state.now.clauses state.now.trail.entries.items index }
    requires count { count ≡ given_count state.now.chains }
    ensures { IfOk result (λ trace. IsAcceptedTrace (given state.now.clauses state.now.chains)
        (inferences_of trace)) }
{
    let none = state.trail.entries.len();
    let last = analyse(alloc, &state.clauses, &state.trail, none, index)?;
    let trace = trace_to(alloc, &state.clauses, &state.chains, count, &last);
    drop(last);
    trace
}
