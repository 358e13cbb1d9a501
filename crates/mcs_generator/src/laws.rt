//! Laws of generated systems. The functions compute nothing: each contract is a law.

ghost use Rattle.mcs_generator.specs.Laws.{GeneratedSystemsAreValid};

/// A generated system has no fault.
pub fn generated_systems_are_valid()
    ensures { GeneratedSystemsAreValid }
{}
