//! The search for a smaller set that undoes a model.

ghost use Rattle.std.specs.Prelude.{map, IfOk};
ghost use Rattle.mcs_system.specs.Seen.{rule_of};
ghost use Rattle.mcs_classical.specs.Models.{IsSatisfiedAnswer};
ghost use Rattle.mcs_evidence.specs.Programs.{smaller_formulas};

use crate::asked::LogicProgram;
use mcs_base::{Memory, Vars};
use mcs_classical::{Satisfied, satisfy_from};
use mcs_evidence::smaller_clauses;
use std::alloc::Global;

/// The places of the atoms of a proper subset of the model that satisfies the reduct of the rules
/// by it, or an accepted trace that there is none. A model of the rules is an answer set exactly if
/// there is none.
pub fn smaller_model(
    alloc: Global,
    program: &LogicProgram<'_>,
    model: Vars,
) -> Result<Satisfied, Memory>
    ensures { IfOk result (IsSatisfiedAnswer program.now.atoms.now
        (smaller_formulas program.now.atoms.now (map rule_of program.now.rules.now) model)) }
{
    let smaller = smaller_clauses(alloc, program.atoms, program.rules, model)?;
    let found = satisfy_from(alloc, &smaller, program.atoms);
    drop(smaller);
    found
}
