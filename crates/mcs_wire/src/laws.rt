//! Laws of the rule of a wire. The functions compute nothing: each contract is a law.

ghost use Rattle.mcs_wire.specs.Laws.{WiresBeginWithTheRule, NamesKeepTheRule, SendsKeepTheRule};
ghost use Rattle.mcs_wire.specs.Laws.{TakesKeepTheRule, LooksKeepTheRule, SplitsKeepTheRule};
ghost use Rattle.mcs_wire.specs.Laws.{JoinsKeepTheRule, PartsFitAWord, WholeEndsKnowAllLetters};

/// A new channel satisfies the rule: it is a wire of the system of nothing, without addresses.
pub fn wires_begin_with_the_rule()
    ensures { WiresBeginWithTheRule }
{}

/// From any state that satisfies the rule of such a wire, its naming leads to one that satisfies
/// the rule: it gets a plan and some addresses, and an address that stands for all of them.
pub fn names_keep_the_rule()
    ensures { NamesKeepTheRule }
{}

/// From any state that satisfies the rule, a letter that an end with a part sends leads to one that
/// does.
pub fn sends_keep_the_rule()
    ensures { SendsKeepTheRule }
{}

/// From any state that satisfies the rule, a letter that the inbox takes leads to one that does,
/// and the letter names the plan.
pub fn takes_keep_the_rule()
    ensures { TakesKeepTheRule }
{}

/// From any state that satisfies the rule, a look that changes nothing leads to one that does. So
/// it is if the inbox finds no letter, and after a join.
pub fn looks_keep_the_rule()
    ensures { LooksKeepTheRule }
{}

/// From any state that satisfies the rule, a split of an end with at least two parts leads to one
/// that does.
pub fn splits_keep_the_rule()
    ensures { SplitsKeepTheRule }
{}

/// From any state that satisfies the rule, a join of two ends leads to one that does.
pub fn joins_keep_the_rule()
    ensures { JoinsKeepTheRule }
{}

/// The parts of an end fit a machine word. That is what the look after a join finds.
pub fn parts_fit_a_word()
    ensures { PartsFitAWord }
{}

/// If an end stands for the inbox and for all addresses, the letters that it has sent are as bags
/// those that it has taken with those queued.
pub fn whole_ends_know_all_letters()
    ensures { WholeEndsKnowAllLetters }
{}
