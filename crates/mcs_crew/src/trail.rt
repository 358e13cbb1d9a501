//! What a round that threads played leaves.

ghost use Rattle.mcs_crew.specs.Trails.{IsNoTrail, trail_of};

use mcs_draw::Closed;
use mcs_wire::Settled;
use std::alloc::Global;

/// What is to be seen of a round: its wires, one for each group, in order, and the word that totals
/// were drawn from. There is nothing to be seen if fewer than two workers were used, or after want
/// of memory.
pub struct Trail {
    pub wires: Vec<Settled>,
    pub word: Option<Closed>,
}

impl Drop for Trail {
    fn drop(self) {
        let Trail { wires: _, word: _ } = self;
    }
}

impl Trail {
    /// The trail of which nothing is to be seen: no wires and no word. No memory is needed.
    pub fn nothing(alloc: Global) -> Trail
        ensures { IsNoTrail (trail_of result) }
    {
        Trail {
            wires: Vec::new(alloc),
            word: None,
        }
    }
}
