//! Laws over the definitions of tokens. The functions compute nothing: each contract is a law.

ghost use Rattle.mcs_tokens.specs.Laws.{OneTokenIsNext, OneListOfTokens, TokensDoNotOverlap};
ghost use Rattle.mcs_tokens.specs.Laws.{TokensAndGapsAreWhole, OneKindForBytes};

/// There is at most one next token, and a text has at most one list of tokens.
pub fn tokens_are_unique()
    ensures next { OneTokenIsNext }
    ensures list { OneListOfTokens }
{}

/// Tokens do not overlap.
pub fn tokens_do_not_overlap()
    ensures { TokensDoNotOverlap }
{}

/// The tokens and the gaps between them make up the whole text.
pub fn tokens_and_gaps_are_whole()
    ensures { TokensAndGapsAreWhole }
{}

/// The bytes of a token determine its kind.
pub fn kinds_are_unique()
    ensures { OneKindForBytes }
{}
