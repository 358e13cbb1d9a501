//! The signs of a system text.

ghost use Rattle.std.specs.Prelude.{◌≡◌, ◌≤◌, length, MatchOption, IsTrue, ◌↔◌, [], ◌∷◌};
ghost use Rattle.mcs_tokens.specs.Spelling.{sign_bytes};
ghost use Rattle.mcs_tokens.specs.Tokens.{BeginsWith};

/// A sign.
#[derive(Clone, Copy, Debug, PartialEq, Eq)]
pub enum Sign {
    OpenBrace,
    CloseBrace,
    Period,
    Comma,
    Colon,
    /// `:-`
    If,
    Slash,
    Bar,
    Ampersand,
    Tilde,
    /// `->`
    Arrow,
    /// `<->`
    DoubleArrow,
    OpenParenthesis,
    CloseParenthesis,
}

impl Sign {
    /// The bytes of the sign.
    pub fn spelling(self) -> &'static [u8]
        ensures { result.now ≡ sign_bytes self }
    {
        match self {
            Sign::OpenBrace => b"{",
            Sign::CloseBrace => b"}",
            Sign::Period => b".",
            Sign::Comma => b",",
            Sign::Colon => b":",
            Sign::If => b":-",
            Sign::Slash => b"/",
            Sign::Bar => b"|",
            Sign::Ampersand => b"&",
            Sign::Tilde => b"~",
            Sign::Arrow => b"->",
            Sign::DoubleArrow => b"<->",
            Sign::OpenParenthesis => b"(",
            Sign::CloseParenthesis => b")",
        }
    }

    /// The sign with these bytes.
    pub fn of(bytes: &[u8]) -> Option<Sign>
        ensures { MatchOption result ((s : Sign) → ¬ (bytes.now ≡ sign_bytes s))
            (λ s. bytes.now ≡ sign_bytes s) }
    {
        match bytes {
            [byte] => sign_of_byte(*byte),
            b":-" => Some(Sign::If),
            b"->" => Some(Sign::Arrow),
            b"<->" => Some(Sign::DoubleArrow),
            _ => None,
        }
    }
}

/// The sign of this one byte.
fn sign_of_byte(byte: u8) -> Option<Sign>
    ensures { MatchOption result ((s : Sign) → ¬ (byte ∷ [] ≡ sign_bytes s))
        (λ s. byte ∷ [] ≡ sign_bytes s) }
{
    match byte {
        b'{' => Some(Sign::OpenBrace),
        b'}' => Some(Sign::CloseBrace),
        b'.' => Some(Sign::Period),
        b',' => Some(Sign::Comma),
        b':' => Some(Sign::Colon),
        b'/' => Some(Sign::Slash),
        b'|' => Some(Sign::Bar),
        b'&' => Some(Sign::Ampersand),
        b'~' => Some(Sign::Tilde),
        b'(' => Some(Sign::OpenParenthesis),
        b')' => Some(Sign::CloseParenthesis),
        _ => None,
    }
}

fn begins_with(text: &[u8], part: &[u8]) -> bool
    ensures { IsTrue result ↔ BeginsWith text.now part.now }
{
    text.starts_with(part)
}

/// The longest sign with which the text begins.
pub(crate) fn first_sign(text: &[u8]) -> Option<Sign>
    ensures { MatchOption result
        ((s : Sign) → ¬ BeginsWith text.now (sign_bytes s))
        (λ sign. BeginsWith text.now (sign_bytes sign)
        × ((s : Sign) → BeginsWith text.now (sign_bytes s)
        → length (sign_bytes s) ≤ length (sign_bytes sign))) }
{
    if begins_with(text, b"<->") {
        return Some(Sign::DoubleArrow);
    }
    if begins_with(text, b":-") {
        return Some(Sign::If);
    }
    if begins_with(text, b"->") {
        return Some(Sign::Arrow);
    }
    match text {
        [byte, ..] => sign_of_byte(*byte),
        [] => None,
    }
}
