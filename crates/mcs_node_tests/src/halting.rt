//! Oracles that halt a round when they are made to.

ghost use Rattle.std.specs.Prelude.{◌≡◌};
ghost use Rattle.mcs_node_tests.specs.Halting.{held_by};

use mcs_base::{Active, Vars};
use mcs_solver::LocalSolver;
use mcs_states::{Oracle, OracleStop};
use std::alloc::Global;
use std::marker::Model;

/// How an oracle halts a round.
#[derive(Clone, Copy)]
pub(crate) enum Halting {
    Never,
    /// It lacks every answer.
    ByLack,
    /// Its memory runs out at each question.
    ByMemory,
}

/// A solver of a context, which may halt each round.
#[derive(Drop)]
pub(crate) struct HaltingOracle {
    solver: LocalSolver,
    halting: Halting,
}

impl Model for HaltingOracle {
    ghost use Rattle.mcs_states.specs.Oracles.{OracleState};
    ghost use Rattle.mcs_states.specs.Codes.{coded_oracle};
    ghost use Rattle.mcs_node_tests.specs.Halting.{held_by};

    ghost Value = { OracleState };

    ghost coded = { coded_oracle };

    ghost view = { λ o. held_by o.halting o.solver };
}

impl HaltingOracle {
    /// An oracle that answers as the solver does, or halts so.
    pub(crate) fn new(solver: LocalSolver, halting: Halting) -> HaltingOracle
        ensures { result ≡ held_by halting solver }
    {
        HaltingOracle { solver, halting }
    }
}

impl Oracle for HaltingOracle {
    ghost stands = { λ o. o };

    fn ask(&mut self, alloc: Global, active: Active) -> Result<Vec<Vars>, OracleStop> {
        match self.halting {
            Halting::Never => self.solver.ask(alloc, active),
            Halting::ByLack => Err(OracleStop::Missing(active)),
            Halting::ByMemory => Err(OracleStop::Memory),
        }
    }
}
