//! What holds of the texts of each grammar that is read. The functions compute nothing: each
//! contract is a law.

ghost use Rattle.std.specs.Prelude.{◌≡◌, false};
ghost use Rattle.mcs_syntax.specs.Grammar.{IsReadable, is_readable};
ghost use Rattle.mcs_syntax.specs.Operands.{IsBalanced};
ghost use Rattle.mcs_syntax.specs.Worked.{Product, sums, sum_operands, unclear_sums};
ghost use Rattle.mcs_syntax.specs.Laws.{TextsAreReadInOneWay, FirstsAreExact, ReadsAreJoined};
ghost use Rattle.mcs_syntax.specs.Laws.{BeginningsAreJoined, EndsAreJoined, EachHasAText};
ghost use Rattle.mcs_syntax.specs.Laws.{OperandsAreThere, TextsLeaveOperands};

use crate::part::Rules;

/// The tokens of a text of a rule tell its events: it is read in one way only. Each expression has
/// a text.
pub fn texts_are_read_in_one_way<C, A, N: Rules<C, A>>()
    ensures one_way { TextsAreReadInOneWay N.grammar }
    ensures some { EachHasAText N.grammar }
{}

/// FIRST tells exactly with which tokens the texts of an expression begin, and whether one of them
/// has no token.
pub fn firsts_are_exact<C, A, N: Rules<C, A>>()
    ensures { FirstsAreExact N.grammar }
{}

/// What is read token by token is read in one: so the first token that is refused is the first with
/// which no text goes on.
pub fn reads_are_joined<C, A, N: Rules<C, A>>()
    ensures reads { ReadsAreJoined N.grammar }
    ensures beginnings { BeginningsAreJoined N.grammar }
    ensures ends { EndsAreJoined N.grammar }
{}

/// Where each rule takes and leaves as many operands as is said of it, no event along a text of a
/// rule meets fewer than it takes, and a whole text leaves what is said of its rule.
pub fn operands_are_there<C, A, N: Rules<C, A>>()
    ensures along { OperandsAreThere N.grammar }
    ensures whole { TextsLeaveOperands N.grammar }
{}

/// Sums of products in parentheses are read, and each leaves one operand. With one sign for both
/// they are refused.
pub fn worked_grammars()
    ensures read { IsReadable sums }
    ensures operands { IsBalanced sums sum_operands }
    ensures refused { is_readable unclear_sums Product ≡ false }
{}
