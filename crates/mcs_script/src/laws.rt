//! Laws over the definitions of edits, of scripts and of rules that are read by themselves. The
//! functions compute nothing: their contracts are the laws.

ghost use Rattle.mcs_script.specs.Laws.{RulesAreUnambiguous, RulesHaveOneFault};
ghost use Rattle.mcs_script.specs.Laws.{ScriptsAreUnambiguous, ScriptsHaveOneFault};
ghost use Rattle.mcs_script.specs.Laws.{SpelledRulesHaveNoFault, SpelledScriptsHaveNoFault};
ghost use Rattle.mcs_script.specs.Worked.{EditsAreMade, EditsAreRefused, EditsAreWritten};
ghost use Rattle.mcs_script.specs.Edits.{Dropped, edited};
ghost use Rattle.mcs_system.specs.Faults.{IsValid};
ghost use Rattle.mcs_system.specs.Plain.{Name, System};

/// Worked edits: the systems that some make, what is written of them, and what is refused.
pub fn worked_edits()
    ensures made { EditsAreMade }
    ensures written { EditsAreWritten }
    ensures refused { EditsAreRefused }
{}

/// A system that has no fault has none after one of its rules was dropped.
pub fn dropped_rules_leave_systems()
    ensures { (m : System) (rule : Name) → IsValid m → IsValid (edited m (Dropped rule)) }
{}

/// A rule that is read by itself has one fault at most: one number, one limit and one offset.
pub fn rules_have_one_fault()
    ensures { RulesHaveOneFault }
{}

/// A rule that is spelled has no fault by itself.
pub fn spelled_rules_have_no_fault()
    ensures { SpelledRulesHaveNoFault }
{}

/// The tokens from a place on spell at most one rule by itself, and it ends in one place.
pub fn rules_are_unambiguous()
    ensures { RulesAreUnambiguous }
{}

/// A script of edits of a system has one fault at most: one number, one limit and one offset.
pub fn scripts_have_one_fault()
    ensures { ScriptsHaveOneFault }
{}

/// A script that spells edits of a system has no fault.
pub fn spelled_scripts_have_no_fault()
    ensures { SpelledScriptsHaveNoFault }
{}

/// A script spells at most one list of edits of a system.
pub fn scripts_are_unambiguous()
    ensures { ScriptsAreUnambiguous }
{}
