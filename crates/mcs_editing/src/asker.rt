//! The asker of a session: a solver of one context, which is made anew where the system is another.

ghost use Rattle.std.specs.Prelude.{◌≡◌, ◌↔◌, ◌<◌, [], IfOk, IsTrue, length};
ghost use Rattle.std.specs.Arc.{arc_value};
ghost use Rattle.mcs_sets.specs.Sets.{Within};
ghost use Rattle.mcs_system.specs.Imports.{rules_into};
ghost use Rattle.mcs_session.specs.Sessions.{AreAnswersTo};
ghost use Rattle.mcs_editing.specs.Asked.{keys_asked, IsOf};

use mcs_base::{Active, Memory, Vars};
use mcs_session::Asker;
use mcs_solver::LocalSolver;
use mcs_states::{Oracle, OracleStop};
use mcs_system::System;
use std::alloc::Global;
use std::marker::Model;
use std::sync::Arc;

/// A solver that keeps no certificates, and what it is a solver of.
struct Solver {
    system: Arc<System>,
    context: u32,
    solver: LocalSolver,
}

impl Drop for Solver {
    fn drop(self) {
        let Solver {
            system: _,
            context: _,
            solver: _,
        } = self;
    }
}

impl Model for Solver {
    ghost use Rattle.std.specs.Prelude.{◌≡◌, None};
    ghost use Rattle.std.specs.Arc.{arc_value};
    ghost use Rattle.mcs_states.specs.Codes.{coded_oracle};
    ghost use Rattle.mcs_states.specs.Oracles.{OracleState};

    ghost Value = { OracleState };

    ghost coded = { coded_oracle };

    ghost view = { λ s. s.solver };

    ghost invariant = { λ s. (s.solver.system ≡ arc_value s.system)
        × (s.solver.context ≡ s.context) × (s.solver.holds ≡ None) };
}

impl Solver {
    /// A solver of this context of the system.
    fn new(alloc: Global, system: &Arc<System>, context: u32) -> Result<Solver, Memory>
        requires { context < length (arc_value system.now).contexts }
        ensures { IfOk result (IsOf (arc_value system.now) context) }
    {
        let own = system.clone()?;
        let solver = LocalSolver::new(alloc, system.clone()?, context, false);
        Ok(Solver {
            system: own,
            context,
            solver,
        })
    }

    /// Whether it is a solver of this context of the system.
    fn is_of(&self, system: &System, context: u32) -> bool
        ensures { IsTrue result ↔ IsOf system.now context self.now }
    {
        self.context == context && self.system.is(system)
    }

    /// What the context accepts with the heads of these rules, which have to be rules into it.
    fn answer(&mut self, alloc: Global, active: Active) -> Result<Vec<Vars>, Memory>
        requires { Within active (rules_into self.old.system self.old.context) }
        ensures answer { IfOk result (λ states. AreAnswersTo self.old.system self.old.context active
            states.items) }
        ensures same { IsOf self.old.system self.old.context self.new }
    {
        match self.solver.ask(alloc, active) {
            Ok(states) => Ok(states),
            Err(OracleStop::Missing(_)) => unreachable!(),
            Err(OracleStop::Memory) => Err(Memory),
        }
    }
}

/// A question that was solved: to this context of the system, with the heads of these rules.
#[derive(Drop)]
pub(crate) struct Question {
    pub(crate) system: Arc<System>,
    pub(crate) context: u32,
    pub(crate) active: Active,
}

/// Solves questions by a solver, which it keeps as long as it is asked about one context of one
/// system. Its journal has the keys of the questions that it has solved.
#[derive(Drop)]
pub struct SolverAsker {
    solver: Option<Solver>,
    pub(crate) solved: Vec<Question>,
}

impl SolverAsker {
    /// An asker with an empty journal.
    pub fn new(alloc: Global) -> SolverAsker
        ensures { keys_asked result.solved.items ≡ [] }
    {
        SolverAsker {
            solver: None,
            solved: Vec::new(alloc),
        }
    }
}

/// This solver, if it is one of the context of the system; otherwise a new one.
fn solver_for(
    alloc: Global,
    last: Option<Solver>,
    system: &Arc<System>,
    context: u32,
) -> Result<Solver, Memory>
    requires { context < length (arc_value system.now).contexts }
    ensures { IfOk result (IsOf (arc_value system.now) context) }
{
    if let Some(last) = last {
        if last.is_of(system, context) {
            return Ok(last);
        }
    }
    Solver::new(alloc, system, context)
}

impl Asker for SolverAsker {
    ghost journal = { λ a. keys_asked a.solved.items };

    fn solve(
        &mut self,
        alloc: Global,
        system: &Arc<System>,
        context: u32,
        active: Active,
    ) -> Result<(Vec<Vars>, Vec<Vars>), Memory> {
        let own = system.clone()?;
        let mut solver = solver_for(alloc, self.solver.take(), system, context)?;
        let states = solver.answer(alloc, active)?;
        let copy = states.to_vec(alloc)?;
        self.solver = Some(solver);
        self.solved.push(Question {
            system: own,
            context,
            active,
        })?;
        Ok((states, copy))
    }
}
