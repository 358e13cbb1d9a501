//! Why a report can't be read.

use mcs_base::Memory;
use std::alloc::AllocFailed;

/// Why a report can't be read.
#[derive(Clone, Copy, Debug, PartialEq, Eq)]
pub enum ReportFault {
    /// The line with this number, counted from 1, is the first that is out of place.
    Grammar { line: u64 },
    /// Memory ran out.
    Memory,
}

impl From<Memory> for ReportFault {
    ghost use Rattle.std.specs.Prelude.{◌≡◌};
    ghost use Rattle.mcs_proof_lines.specs.declared.fault.ReportFault.TheVariants as faults;

    ghost from_gives = { λ _ e. e ≡ faults.Memory };

    fn from(_want: Memory) -> ReportFault {
        ReportFault::Memory
    }
}

impl<T: Drop> From<AllocFailed<T>> for ReportFault {
    ghost use Rattle.std.specs.Prelude.{◌≡◌};
    ghost use Rattle.mcs_proof_lines.specs.declared.fault.ReportFault.TheVariants as faults;

    ghost from_gives = { λ _ e. e ≡ faults.Memory };

    fn from(_refused: AllocFailed<T>) -> ReportFault {
        ReportFault::Memory
    }
}
