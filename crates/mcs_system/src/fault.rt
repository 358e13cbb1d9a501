//! Why lists of contexts and bridge rules make no system.

ghost use Rattle.std.specs.Prelude.{◌≡◌, Some, None};
ghost use Rattle.mcs_system.specs.Built.{flaw_number};
ghost use Rattle.mcs_system.specs.declared.fault.BuildFault.TheVariants.{Fault, Memory};

use crate::limit::Limit;
use std::alloc::{AllocError, AllocFailed};

/// Why no system was built: memory ran out, or the lists have the fault of this number. `limit` is
/// given exactly for number 5.
///
/// - 2: a context number is out of range.
/// - 3: two contexts, or two bridge rules, have the same name.
/// - 4: the head of a rule into a program or a belief of a program is not an atom, a bridge rule
///   has the weight 0, or a default has no justification.
/// - 5: a limit is exceeded.
#[derive(Clone, Copy, Debug, PartialEq, Eq)]
pub enum BuildFault {
    Fault { number: u8, limit: Option<Limit> },
    Memory,
}

/// Why contexts and bridge rules make no system, apart from limits.
#[derive(Clone, Copy, Debug, PartialEq, Eq)]
pub(crate) enum Flaw {
    /// A context number is out of range.
    UnknownContext,
    /// Two contexts, or two bridge rules, have the same name.
    TwinNames,
    /// The head of a rule into a program or a belief of a program is not an atom, a bridge rule has
    /// the weight 0, or a default has no justification.
    Misfits,
}

impl BuildFault {
    /// The fault with the number of the flaw.
    pub(crate) fn flawed(flaw: Flaw) -> BuildFault
        ensures { result ≡ Fault (flaw_number flaw) None }
    {
        let number = match flaw {
            Flaw::UnknownContext => 2,
            Flaw::TwinNames => 3,
            Flaw::Misfits => 4,
        };
        BuildFault::Fault {
            number,
            limit: None,
        }
    }

    /// The fault that a limit is exceeded.
    pub(crate) fn exceeded(limit: Limit) -> BuildFault
        ensures { result ≡ Fault 5 (Some limit) }
    {
        BuildFault::Fault {
            number: 5,
            limit: Some(limit),
        }
    }
}

impl From<mcs_base::Memory> for BuildFault {
    ghost from_gives = { λ _ e. e ≡ Memory };

    fn from(_want: mcs_base::Memory) -> BuildFault {
        BuildFault::Memory
    }
}

impl From<AllocError> for BuildFault {
    ghost from_gives = { λ _ e. e ≡ Memory };

    fn from(_refused: AllocError) -> BuildFault {
        BuildFault::Memory
    }
}

impl<T: Drop> From<AllocFailed<T>> for BuildFault {
    ghost from_gives = { λ _ e. e ≡ Memory };

    fn from(_refused: AllocFailed<T>) -> BuildFault {
        BuildFault::Memory
    }
}
