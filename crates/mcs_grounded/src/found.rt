//! What classical contexts tell: each has a solver, which is kept with all that was found.

ghost use Rattle.std.specs.Prelude.{IfOk, map};
ghost use Rattle.mcs_system.specs.Seen.{formula_of};
ghost use Rattle.mcs_system.specs.Systems.{IsAcceptedPart};
ghost use Rattle.mcs_grounded.specs.Parts.{AreAllFound, CanSolve, CanTell};
ghost use Rattle.mcs_grounded.specs.Parts.{IsClassicalAt, IsFoundOf, IsSolverOf};

use mcs_asked::Asked;
use mcs_asking::{at_places, beliefs_of};
use mcs_base::{Active, Memory, Vars};
use mcs_classical::{Consequences, Given, assumptions_into};
use mcs_cnf::clauses;
use mcs_sat::ClauseBase;
use mcs_system::{Formula, System};
use std::alloc::Global;
use std::collections::BTreeMap;
use std::mem;

/// The solver of a classical context: clauses that mean its formulas, what was found to follow from
/// these with heads of rules, and what the context was found to tell, by the sets of rules into it.
#[derive(Drop)]
pub(crate) struct Solver {
    pub(crate) clauses: ClauseBase,
    pub(crate) found: Consequences,
    pub(crate) told: BTreeMap<Active, Vars>,
}

impl Solver {
    /// The solver of the context, which has these formulas. Nothing was found yet.
    fn of(
        alloc: Global,
        system: &System,
        context: u32,
        formulas: &[Formula],
    ) -> Result<Solver, Memory>
        requires { IsClassicalAt system.now context (map formula_of formulas.now) }
        ensures { IfOk result (IsSolverOf system.now context) }
    {
        let list = clauses(alloc, formulas, system.atoms_of(context))?;
        let made = ClauseBase::of(alloc, &list);
        drop(list);
        let clauses = made?;
        Ok(Solver {
            clauses,
            found: Consequences::new(alloc),
            told: BTreeMap::new(alloc),
        })
    }

    /// What the context tells with the heads of the rules. It is looked up if it was found before,
    /// and kept if it was not. What was found for other sets of rules is used.
    fn tell(
        &mut self,
        alloc: Global,
        system: &System,
        context: u32,
        rules: Active,
    ) -> Result<Vars, Memory>
        requires { CanSolve system.now context self.old }
        ensures own { IsSolverOf system.now context self.new }
        ensures told { IfOk result (IsAcceptedPart system.now context rules) }
    {
        let own = rules.common(system.rules_of(context));
        if let Some(told) = self.told.get(&own) {
            return Ok(*told);
        }
        let heads = assumptions_into(alloc, system, context)?;
        let beliefs = beliefs_of(alloc, system, context)?;
        let asked = Asked {
            atoms: system.atoms_of(context),
            beliefs: &beliefs,
        };
        let given = Given {
            asked: &asked,
            assumptions: &heads,
        };
        let view = self.found.following(alloc, &mut self.clauses, &given, own)?;
        let told = at_places(system.vars_of(context), view);
        self.told.insert(own, told)?;
        Ok(told)
    }
}

/// What the context, which has these formulas, tells with the heads of the rules, as its solver
/// finds it. The solver is made if there is none.
pub(crate) fn ask(
    alloc: Global,
    system: &System,
    context: u32,
    formulas: &[Formula],
    solver: &mut Option<Solver>,
    rules: Active,
) -> Result<Vars, Memory>
    requires { CanTell system.now context (map formula_of formulas.now) solver.old }
    ensures found { IsFoundOf system.now context solver.new }
    ensures told { IfOk result (IsAcceptedPart system.now context rules) }
{
    match solver {
        Some(solver) => solver.tell(alloc, system, context, rules),
        None => {
            let mut made = Solver::of(alloc, system, context, formulas)?;
            let told = made.tell(alloc, system, context, rules);
            drop(mem::replace(solver, Some(made)));
            told
        }
    }
}

/// The solvers of the contexts at first: there is none.
pub(crate) fn no_solvers(alloc: Global, system: &System) -> Result<Vec<Option<Solver>>, Memory>
    ensures { IfOk result (λ all. AreAllFound system.now all.items) }
{
    let mut all = Vec::new(alloc);
    for _ in 0..system.contexts().len() {
        all.push(None)?;
    }
    Ok(all)
}
