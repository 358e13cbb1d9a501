//! What is listed of a system, and why the work stops before its end.

ghost use Rattle.std.specs.Prelude.{◌≡◌};
ghost use Rattle.mcs_work.specs.Tasks.{stop_for_halt, stop_for_line};
ghost use Rattle.mcs_work.specs.declared.task.WorkStop.TheVariants as stops;

use mcs_base::{Active, Memory};
use mcs_states::Halt;
use mcs_text::Unwritten;
use std::alloc::AllocError;

/// What is to be listed of a system.
#[derive(Clone, Copy, Debug, PartialEq, Eq)]
pub enum Task {
    /// Its projected equilibria.
    Equilibria,
    /// Its grounded equilibria. The system has to be plain.
    Grounded,
    /// Its projected equilibria, its minimal diagnoses and its minimal explanations.
    Solve,
    /// Its diagnoses of least cost.
    Cheapest,
    /// Whether it is consistent, and how many projected equilibria, minimal diagnoses and minimal
    /// explanations it has.
    Make,
}

/// Why the work on a system stops before its end.
#[derive(Clone, Copy, Debug, PartialEq, Eq)]
pub enum WorkStop {
    /// A write failed.
    Write,
    /// The system has more questions of the level than the budget.
    Spent { level: u32 },
    /// The oracle of the context has no answer for this set of rules.
    Missing { context: u32, active: Active },
    /// Memory ran out.
    Memory,
}

impl From<Halt> for WorkStop {
    ghost from_gives = { λ halt stop. stop ≡ stop_for_halt halt };

    fn from(halt: Halt) -> WorkStop {
        match halt {
            Halt::Spent { level, .. } => WorkStop::Spent { level },
            Halt::Missing { context, active } => WorkStop::Missing { context, active },
            Halt::Memory => WorkStop::Memory,
        }
    }
}

impl From<Unwritten> for WorkStop {
    ghost from_gives = { λ why stop. stop ≡ stop_for_line why };

    fn from(why: Unwritten) -> WorkStop {
        match why {
            Unwritten::Fault => WorkStop::Write,
            Unwritten::Memory => WorkStop::Memory,
        }
    }
}

impl From<Memory> for WorkStop {
    ghost from_gives = { λ _ stop. stop ≡ stops.Memory };

    fn from(_want: Memory) -> WorkStop {
        WorkStop::Memory
    }
}

impl From<AllocError> for WorkStop {
    ghost from_gives = { λ _ stop. stop ≡ stops.Memory };

    fn from(_refused: AllocError) -> WorkStop {
        WorkStop::Memory
    }
}
