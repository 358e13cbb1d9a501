//! Laws of the rule of a word. The functions compute nothing: each contract is a law.

ghost use Rattle.mcs_draw.specs.Laws.{WordsBeginWithTheRule, DrawsKeepTheRule, SplitsKeepTheRule};
ghost use Rattle.mcs_draw.specs.Laws.{JoinsKeepTheRule, WholeSeatsAreAlone};

/// A word at its base, with one seat that may draw the room, satisfies the rule.
pub fn words_begin_with_the_rule()
    ensures { WordsBeginWithTheRule }
{}

/// From any state that satisfies the rule, a draw of at most what the seat may still draw leads to
/// one that does.
pub fn draws_keep_the_rule()
    ensures { DrawsKeepTheRule }
{}

/// From any state that satisfies the rule, a split of a part that is not all leads to one that
/// does.
pub fn splits_keep_the_rule()
    ensures { SplitsKeepTheRule }
{}

/// From any state that satisfies the rule, a join of two seats leads to one that does.
pub fn joins_keep_the_rule()
    ensures { JoinsKeepTheRule }
{}

/// If what a seat has left and what it has drawn add up to a room that is not 0, it is the only
/// seat that is not gone. Whatever the room is, the word is then the base plus what the seat has
/// drawn, and this is its greatest total.
pub fn whole_seats_are_alone()
    ensures { WholeSeatsAreAlone }
{}
