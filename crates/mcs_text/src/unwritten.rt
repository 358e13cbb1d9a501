//! Why a text was not written whole.

ghost use Rattle.std.specs.Prelude.{◌≡◌};
ghost use Rattle.mcs_text.specs.declared.unwritten.Unwritten.TheVariants as why;

/// Why a text was not written whole.
#[derive(Clone, Copy, Debug, PartialEq, Eq)]
pub enum Unwritten {
    /// A write failed.
    Fault,
    /// Memory ran out.
    Memory,
}

impl From<mcs_base::Memory> for Unwritten {
    ghost from_gives = { λ _ e. e ≡ why.Memory };

    fn from(_want: mcs_base::Memory) -> Unwritten {
        Unwritten::Memory
    }
}
