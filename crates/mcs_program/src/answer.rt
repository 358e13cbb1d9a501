//! Models of clauses.

ghost use Rattle.std.specs.Prelude.{◌≡◌, ◌≤◌, List, length, IfOk};
ghost use Rattle.mcs_system.specs.Plain as plain;
ghost use Rattle.mcs_program.specs.Asked.{program_names};
ghost use Rattle.mcs_meant.specs.Meanings.{AreMeantBy};
ghost use Rattle.mcs_program.specs.Searches.{IsFoundFor};

use mcs_base::{Memory, Vars};
use mcs_classical::true_places;
use mcs_minimal::LogicProgram;
use mcs_sat::ClauseBase;

/// The places of the atoms that are true under an assignment that satisfies all clauses, or `None`
/// if there is none. `known` is unchanged.
pub(crate) fn find_model(
    known: &mut ClauseBase,
    program: &LogicProgram<'_>,
) -> Result<Option<Vars>, Memory>
    requires { length (program_names program.now) ≤ known.old.vars }
    ensures same { known.new ≡ known.old }
    ensures found { IfOk result (λ found. (fs : List plain.Formula)
        → AreMeantBy (program_names program.now) fs known.old
        → IsFoundFor (program_names program.now) fs found) }
{
    match known.satisfy()? {
        Some(values) => Ok(Some(true_places(&values, program.atoms.len()))),
        None => Ok(None),
    }
}
