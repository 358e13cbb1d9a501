//! The kinds of tokens.

ghost use Rattle.std.specs.Prelude.{◌≡◌, ◌≢◌, IsTrue, MatchOption};
ghost use Rattle.std.specs.Char.{is_ascii_digit};
ghost use Rattle.std.specs.List.{list_all};
ghost use Rattle.mcs_base.specs.Words.{keyword_bytes, is_word};
ghost use Rattle.mcs_base.specs.declared.keyword.Keyword.{Keyword};
ghost use Rattle.mcs_tokens.specs.Kinds.{IsKind, keywords_of};
ghost use Rattle.mcs_tokens.specs.Spelling.{sign_bytes};
ghost use Rattle.mcs_tokens.specs.Tokens.{is_number};
ghost use Rattle.mcs_tokens.specs.declared.sign.Sign as declared;

use crate::sign::Sign;
use mcs_base::{Keyword, MOST_NAME_BYTES, is_word};

/// The kind of a token.
#[derive(Clone, Copy, Debug, PartialEq, Eq)]
pub enum TokenKind {
    /// A reserved word.
    Keyword(Keyword),
    /// A word that is not reserved, of at most 64 bytes.
    Name,
    /// A word that is not reserved, of more than 64 bytes.
    LongName,
    Sign(Sign),
    /// The number `2`, in this one digit.
    Two,
    /// Any other number that does not begin with `0`.
    Number,
    /// A number that begins with `0`.
    ZeroNumber,
    /// Neither a word, nor a sign, nor a number: one byte with which no token begins.
    Stray,
}

/// The reserved words of that many bytes.
fn keywords_of(bytes: usize) -> &'static [Keyword]
    ensures { result.now ≡ keywords_of bytes }
{
    match bytes {
        2 => &[Keyword::If],
        3 => &[Keyword::Not],
        4 => &[Keyword::True, Keyword::Keep, Keyword::Know],
        5 => &[Keyword::False],
        6 => &[Keyword::Bridge, Keyword::Closed, Keyword::Weight],
        7 => &[
            Keyword::Context,
            Keyword::Default,
            Keyword::Program,
            Keyword::Version,
        ],
        9 => &[Keyword::Classical],
        13 => &[Keyword::Autoepistemic],
        _ => &[],
    }
}

/// The reserved word with these bytes, looked for among those that are as long.
fn keyword_of(word: &[u8]) -> Option<Keyword>
    ensures { MatchOption result ((k : Keyword) → ¬ (word.now ≡ keyword_bytes k))
        (λ k. word.now ≡ keyword_bytes k) }
{
    for keyword in keywords_of(word.len()) {
        if word == keyword.spelling() {
            return Some(*keyword);
        }
    }
    None
}

/// Whether all these bytes are digits.
fn are_digits(bytes: &[u8]) -> bool
    ensures { result ≡ list_all is_ascii_digit bytes.now }
{
    bytes.iter().all(|byte| byte.is_ascii_digit())
}

/// Whether these bytes are a number: one or more digits.
fn is_number(bytes: &[u8]) -> bool
    ensures { result ≡ is_number bytes.now }
{
    match bytes {
        [] => false,
        [first, rest @ ..] => first.is_ascii_digit() && are_digits(rest),
    }
}

/// The kind of a token that is neither a word nor a sign.
fn kind_of_number(token: &[u8]) -> TokenKind
    requires no_word { ¬ IsTrue (is_word token.now) }
    requires no_sign { (s : declared.Sign) → token.now ≢ sign_bytes s }
    ensures { IsKind result token.now }
{
    if !is_number(token) {
        TokenKind::Stray
    } else if token[0] == b'0' {
        TokenKind::ZeroNumber
    } else if token == b"2".as_slice() {
        TokenKind::Two
    } else {
        TokenKind::Number
    }
}

/// The kind of the token with these bytes.
pub fn kind_of(token: &[u8]) -> TokenKind
    ensures { IsKind result token.now }
{
    if !is_word(token) {
        return match Sign::of(token) {
            Some(sign) => TokenKind::Sign(sign),
            None => kind_of_number(token),
        };
    }
    match keyword_of(token) {
        Some(keyword) => TokenKind::Keyword(keyword),
        None if token.len() <= MOST_NAME_BYTES => TokenKind::Name,
        None => TokenKind::LongName,
    }
}
