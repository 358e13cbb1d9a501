//! Reading resolution steps.

ghost use Rattle.std.specs.Prelude.{◌≡◌, IfOk};
ghost use Rattle.std.specs.Option.{option_map};
ghost use Rattle.mcs_trace.specs.Traces.{inference_of};
ghost use Rattle.mcs_spelling.specs.Parts.{SpellsStep};
ghost use Rattle.mcs_spelling.specs.Words.{step_of};

use crate::digits::{read_literals, read_numbers};
use crate::front::{find, strip};
use mcs_base::Memory;
use mcs_trace::{Clause, Step};
use std::alloc::Global;

/// The resolution step in the line.
#[tactic(auto, unfolding(crate::specs::Words::step_of))]
fn step_in(alloc: Global, line: &[u8]) -> Result<Option<Step>, Memory>
    ensures { IfOk result (λ o. option_map inference_of o ≡ step_of line.now) }
{
    let Some(rest) = strip(line, b"step ") else {
        return Ok(None);
    };
    let Some(by) = find(rest, b'b') else {
        return Ok(None);
    };
    let Some(numbers) = strip(&rest[by..], b"by ") else {
        return Ok(None);
    };
    let Some(literals) = read_literals(alloc, &rest[..by])? else {
        return Ok(None);
    };
    let Some(clause) = Clause::new(literals) else {
        return Ok(None);
    };
    match read_numbers(alloc, numbers)? {
        Some(chain) => Ok(Some(Step { clause, chain })),
        None => Ok(None),
    }
}

/// The resolution step that the line spells: `step LITERALS by CHAIN`. `None` exactly if it spells
/// none.
pub fn read_step(alloc: Global, line: &[u8]) -> Result<Option<Step>, Memory>
    ensures spelled { IfOk result (λ o. SpellsStep line.now (option_map inference_of o)) }
    ensures exact { IfOk result (λ o. option_map inference_of o ≡ step_of line.now) }
{
    step_in(alloc, line)
}
