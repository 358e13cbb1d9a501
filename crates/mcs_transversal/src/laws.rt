//! Laws over the definitions. The functions compute nothing: each contract is a law.

ghost use Rattle.mcs_transversal.specs.Transversals.{MinimalityIsCritical};

/// A transversal is minimal exactly if for each of its marks there is an edge that it meets in this
/// mark alone.
pub fn minimality_is_critical()
    ensures { MinimalityIsCritical }
{}
