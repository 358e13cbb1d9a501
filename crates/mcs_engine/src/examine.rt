//! The state of a clause under the literals that are true.

ghost use Rattle.mcs_engine.specs.Trails.{IsClauseFinding, IsClauseOver};

use crate::trail::Trail;

/// The state of a clause. `Open`: a literal of it is true, or at least two have no value. `Forced`:
/// this literal has no value, and all others are false. `Conflict`: all literals are false.
#[derive(Drop)]
pub(crate) enum Finding {
    Open,
    Forced(i64),
    Conflict,
}

pub(crate) fn examine(trail: &Trail, literals: &[i64]) -> Finding
    requires { IsClauseOver trail.now.positions.items literals.now }
    ensures { IsClauseFinding trail.now.entries.items literals.now result }
{
    let mut free = None;
    for literal in literals {
        match trail.value(*literal) {
            Some(true) => return Finding::Open,
            Some(false) => {}
            None => {
                if free.is_some() {
                    return Finding::Open;
                }
                free = Some(*literal);
            }
        }
    }
    match free {
        Some(literal) => Finding::Forced(literal),
        None => Finding::Conflict,
    }
}
