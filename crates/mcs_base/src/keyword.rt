//! The reserved words of a system text.

ghost use Rattle.std.specs.Prelude.{◌≡◌, MatchOption};
ghost use Rattle.mcs_base.specs.Words.{keyword_bytes};

/// A reserved word. The last six are reserved for later use.
#[derive(Clone, Copy, Debug, PartialEq, Eq)]
pub enum Keyword {
    Context,
    Bridge,
    Classical,
    Default,
    Program,
    Not,
    If,
    True,
    False,
    Version,
    Keep,
    Closed,
    Weight,
    Autoepistemic,
    Know,
}

/// All reserved words.
pub(crate) const KEYWORDS: [Keyword; 15] = [
    Keyword::Context,
    Keyword::Bridge,
    Keyword::Classical,
    Keyword::Default,
    Keyword::Program,
    Keyword::Not,
    Keyword::If,
    Keyword::True,
    Keyword::False,
    Keyword::Version,
    Keyword::Keep,
    Keyword::Closed,
    Keyword::Weight,
    Keyword::Autoepistemic,
    Keyword::Know,
];

impl Keyword {
    /// The bytes of the word.
    pub fn spelling(self) -> &'static [u8]
        ensures { result.now ≡ keyword_bytes self }
    {
        match self {
            Keyword::Context => b"context",
            Keyword::Bridge => b"bridge",
            Keyword::Classical => b"classical",
            Keyword::Default => b"default",
            Keyword::Program => b"program",
            Keyword::Not => b"not",
            Keyword::If => b"if",
            Keyword::True => b"true",
            Keyword::False => b"false",
            Keyword::Version => b"version",
            Keyword::Keep => b"keep",
            Keyword::Closed => b"closed",
            Keyword::Weight => b"weight",
            Keyword::Autoepistemic => b"autoepistemic",
            Keyword::Know => b"know",
        }
    }

    /// The reserved word with these bytes.
    pub fn of(word: &[u8]) -> Option<Keyword>
        ensures { MatchOption result ((k : Keyword) → ¬ (word.now ≡ keyword_bytes k))
            (λ k. word.now ≡ keyword_bytes k) }
    {
        for keyword in KEYWORDS {
            if word == keyword.spelling() {
                return Some(keyword);
            }
        }
        None
    }
}
