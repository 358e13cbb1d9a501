//! Laws of rounds by threads. The functions do nothing: each contract is a law.

ghost use Rattle.mcs_crew.specs.Laws.{NoneIsIgnored, OneFactIsSpent, OneFactIsTold, OneLetterIsDue};

/// Where all nodes of a load have finished the round, none of the letters that its inbox has taken
/// was ignored, and none is left to be taken. That is shown by counting: the nodes await just so
/// many letters, and have had as many.
pub fn none_is_ignored()
    ensures { NoneIsIgnored }
{}

/// Of two contexts, of which the first supplies the second: the trail of a round that two groups
/// have done shows one letter at the second wire, the supply of the level from the first context to
/// the second, and none at the first. In the example in which one context reads a fact of the
/// other, level 0 has two wires and a word that ends with two questions. A budget of one question
/// is spent there with the same wires and word.
pub fn one_letter_is_due()
    ensures two { OneLetterIsDue }
    ensures example { OneFactIsTold }
    ensures spent { OneFactIsSpent }
{}
