//! Laws over the definitions. The functions compute nothing: each contract is a law.

ghost use Rattle.mcs_equilibria.specs.First.{SelfSupportComesFirst};

/// A system with a rule that supports itself has two states, and the one that contains its variable
/// is the first.
pub fn self_support_comes_first()
    ensures { SelfSupportComesFirst }
{}
