//! What a token is to the grammar.

ghost use Rattle.std.specs.Prelude.{◌≡◌, ◌<◌};
ghost use Rattle.mcs_productions.specs.Terminals.{terminal_of, keyword_number, sign_number, number};

use mcs_tokens::{Keyword, Sign, TokenKind};

/// A terminal of the grammar: what a token is to it. The length of a name is no matter of the
/// grammar.
#[derive(Clone, Copy, Debug, PartialEq, Eq, Drop)]
pub enum Terminal {
    /// A reserved word.
    Keyword(Keyword),
    /// A word that is not reserved, of any length.
    Name,
    Sign(Sign),
    /// The number `2`.
    Two,
    /// Another number, which does not begin with 0.
    Number,
    /// A number that begins with 0.
    ZeroNumber,
    /// A byte with which no token begins.
    Stray,
}

impl Terminal {
    /// What a token of the kind is to the grammar.
    pub fn of(kind: TokenKind) -> Terminal
        ensures { result ≡ terminal_of kind }
    {
        match kind {
            TokenKind::Keyword(keyword) => Terminal::Keyword(keyword),
            TokenKind::Name | TokenKind::LongName => Terminal::Name,
            TokenKind::Sign(sign) => Terminal::Sign(sign),
            TokenKind::Two => Terminal::Two,
            TokenKind::Number => Terminal::Number,
            TokenKind::ZeroNumber => Terminal::ZeroNumber,
            TokenKind::Stray => Terminal::Stray,
        }
    }

    /// The number of the terminal, below 128.
    pub fn number(self) -> u32
        ensures number { result ≡ number self }
        ensures small { result < 128 }
    {
        match self {
            Terminal::Keyword(keyword) => keyword_number(keyword),
            Terminal::Sign(sign) => sign_number(sign),
            Terminal::Name => 29,
            Terminal::Two => 30,
            Terminal::Number => 31,
            Terminal::ZeroNumber => 32,
            Terminal::Stray => 33,
        }
    }
}

/// The number of the reserved word as a terminal.
fn keyword_number(keyword: Keyword) -> u32
    ensures { result ≡ keyword_number keyword }
{
    match keyword {
        Keyword::Context => 0,
        Keyword::Bridge => 1,
        Keyword::Classical => 2,
        Keyword::Default => 3,
        Keyword::Program => 4,
        Keyword::Not => 5,
        Keyword::If => 6,
        Keyword::True => 7,
        Keyword::False => 8,
        Keyword::Version => 9,
        Keyword::Keep => 10,
        Keyword::Closed => 11,
        Keyword::Weight => 12,
        Keyword::Autoepistemic => 13,
        Keyword::Know => 14,
    }
}

/// The number of the sign as a terminal.
fn sign_number(sign: Sign) -> u32
    ensures { result ≡ sign_number sign }
{
    match sign {
        Sign::OpenBrace => 15,
        Sign::CloseBrace => 16,
        Sign::Period => 17,
        Sign::Comma => 18,
        Sign::Colon => 19,
        Sign::If => 20,
        Sign::Slash => 21,
        Sign::Bar => 22,
        Sign::Ampersand => 23,
        Sign::Tilde => 24,
        Sign::Arrow => 25,
        Sign::DoubleArrow => 26,
        Sign::OpenParenthesis => 27,
        Sign::CloseParenthesis => 28,
    }
}
