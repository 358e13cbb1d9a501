//! What an evaluator has told of its system.

ghost use Rattle.std.specs.Prelude.{IfSome};
ghost use Rattle.mcs_system.specs.Plain.{System};
ghost use Rattle.mcs_states.specs.Evaluators.{AreRepairs};
ghost use Rattle.mcs_costs.specs.Costs.{AreCheapest};
ghost use Rattle.mcs_recall.specs.Told.{AreRepairsTold, IsToldOf};

use crate::shown::Shown;
use mcs_base::Marks;
use mcs_elimination::cheapest_among;
use mcs_system::System;
use std::alloc::Global;

/// The minimal diagnoses with at most so many marks, in the order of pairs.
#[derive(Drop)]
pub(crate) struct Repairs {
    pub(crate) level: u32,
    pub(crate) pairs: Vec<Marks>,
}

/// What an evaluator has told of its system: first states, and the minimal diagnoses of a level.
pub struct Told {
    pub(crate) shown: Vec<Shown>,
    pub(crate) repairs: Option<Repairs>,
}

impl Drop for Told {
    fn drop(self) {
        let Told {
            shown: _,
            repairs: _,
        } = self;
    }
}

impl Told {
    /// Nothing yet.
    pub fn new(alloc: Global) -> Told
        ensures { (m : System) → IsToldOf m result }
    {
        Told {
            shown: Vec::new(alloc),
            repairs: None,
        }
    }
}

/// The minimal diagnoses of the level, to be kept, unless there is no memory for them.
pub(crate) fn kept_repairs(alloc: Global, level: u32, pairs: &[Marks]) -> Option<Repairs>
    ensures { (m : System) → AreRepairs m level pairs.now → AreRepairsTold m result }
{
    let mut kept = Vec::new(alloc);
    kept.extend_from_slice(pairs).ok()?;
    Some(Repairs { level, pairs: kept })
}

/// The cheapest diagnoses of the system, if the minimal ones that were told settle them, and there
/// is memory for them.
pub(crate) fn cheapest_told(
    alloc: Global,
    system: &System,
    repairs: &Option<Repairs>,
) -> Option<Vec<Marks>>
    requires { AreRepairsTold system.now repairs.now }
    ensures { IfSome result (λ pairs. AreCheapest system.now pairs.items) }
{
    let repairs = repairs.as_ref()?;
    cheapest_among(alloc, system, &repairs.pairs, repairs.level).ok()?
}
