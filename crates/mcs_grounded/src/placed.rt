//! Rules by the places of their atoms.

ghost use Rattle.std.specs.Prelude.{◌<◌};

use mcs_base::Vars;

/// A rule of a normal program: the place of its head, and the sets of places of its body.
#[derive(Clone, Copy)]
pub(crate) struct NormalRule {
    pub(crate) head: u32,
    pub(crate) pos: Vars,
    pub(crate) neg: Vars,
    pub(crate) ghost low: { head < 64 },
}
