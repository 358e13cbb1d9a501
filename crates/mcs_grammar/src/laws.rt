//! Laws over the definitions of texts. The functions compute nothing: each contract is a law.

ghost use Rattle.mcs_grammar.specs.Laws.{UnversionedRulesAreUnmarked, SpelledWeightsAreInRange};
ghost use Rattle.mcs_grammar.specs.Laws.{MarkedTextIsRead, RefusedFronts};
ghost use Rattle.mcs_grammar.specs.Laws.{LoneRuleIsRead, LoneRuleFaults};
ghost use Rattle.mcs_grammar.specs.Entries.{Token};
ghost use Rattle.std.specs.Prelude.{List};
ghost use Rattle.mcs_grammar.specs.Texts.{SpelledDefaultsAreShort, SpelledTextsHaveNoFault, TextsHaveOneFault};

/// A text has at most one fault.
pub fn texts_have_one_fault()
    ensures { TextsHaveOneFault }
{}

/// A text that spells a system has no fault.
pub fn spelled_texts_have_no_fault()
    ensures { SpelledTextsHaveNoFault }
{}

/// No default of a system has more justifications than its text has bytes.
pub fn spelled_defaults_are_short()
    ensures { SpelledDefaultsAreShort }
{}

/// A text that does not begin with `version 2.` says only rules that may be removed and may be
/// forced, of weight 1.
pub fn unversioned_rules_are_unmarked()
    ensures { UnversionedRulesAreUnmarked }
{}

/// The weights that a text spells are from 1 to 1,000,000.
pub fn spelled_weights_are_in_range()
    ensures { SpelledWeightsAreInRange }
{}

/// Worked texts of version 2: one with each of the marks, and fronts that no text goes on from.
pub fn worked_texts()
    ensures marked { MarkedTextIsRead }
    ensures refused { RefusedFronts }
{}

/// Worked rules that are read by themselves: one with marks and a read, and some with a fault.
pub fn worked_rules()
    ensures read { LoneRuleIsRead }
    ensures faults { (names : List Token) → LoneRuleFaults names }
{}
