//! The tokens of a text, and their kinds.

use mcs_base::{Memory, Text};
use mcs_tokens::{Keyword, Sign, Span, TokenKind, kind_of, next_token, token_list};
use std::alloc::Global;

/// Appends the offsets from and up to which a token stands.
fn push_span(text: &mut Text, span: Span) -> Result<(), Memory> {
    text.push_number(span.from as u64)?;
    text.push(b"-")?;
    text.push_number(span.to as u64)?;
    text.push(b" ")
}

/// The offsets from and up to which tokens stand, with a space after each token.
fn told(alloc: Global, spans: &[Span]) -> Result<Text, Memory> {
    let mut text = Text::new(alloc);
    for span in spans {
        push_span(&mut text, *span)?;
    }
    Ok(text)
}

/// Whether the tokens of the text stand from and up to these offsets.
fn has_tokens(alloc: Global, text: &str, offsets: &str) -> Result<bool, Memory> {
    let spans = token_list(alloc, text.as_bytes())?;
    let told = told(alloc, &spans);
    drop(spans);
    let told = told?;
    let is_right = told.bytes() == offsets.as_bytes();
    drop(told);
    Ok(is_right)
}

/// Whether the text of this byte has the token that the byte is, and this is of its kind.
fn is_told(byte: u8) -> bool {
    let text = [byte];
    let between = matches!(byte, b' ' | b'\t' | b'\n' | b'\r' | b'#');
    let letter = byte.is_ascii_alphabetic() || byte == b'_';
    let sign = b"{}.,:/|&~()".contains(&byte);
    let digit = byte.is_ascii_digit();
    let kind = kind_of(&text);
    next_token(&text, 0) == (if between { 1 } else { 0 }, 1)
        && (kind == TokenKind::Name) == letter
        && (kind == TokenKind::ZeroNumber) == (byte == b'0')
        && (kind == TokenKind::Two) == (byte == b'2')
        && (kind == TokenKind::Stray) == (!letter && !sign && !digit)
}

#[test]
fn one_byte(rt: HostRuntime) {
    for byte in 0..=255u8 {
        assert!(rt; is_told(byte));
    }
}

/// Texts, and the offsets from and up to which their tokens stand: first of gaps, then of words,
/// numbers and signs.
static SPANS: [(&str, &str); 17] = [
    ("", ""),
    (" \t\r\n", ""),
    ("a#b", "0-1 "),
    ("#a\nb", "3-4 "),
    ("#a\r.\nb", "5-6 "),
    ("a\r\nb\r", "0-1 3-4 "),
    ("a##\n#\n_", "0-1 6-7 "),
    ("_a1 1a", "0-3 4-5 5-6 "),
    ("007a7", "0-3 3-5 "),
    ("12 3\n45", "0-2 3-4 5-7 "),
    ("1-2", "0-1 1-2 2-3 "),
    ("2.5.", "0-1 1-2 2-3 3-4 "),
    ("<->", "0-3 "),
    ("<-", "0-1 1-2 "),
    ("<<->->", "0-1 1-4 4-6 "),
    ("::-:", "0-1 1-3 3-4 "),
    ("-->", "0-1 1-3 "),
];

#[test]
fn gaps_words_numbers_and_signs(rt: HostRuntime) {
    for (text, offsets) in &SPANS {
        assert!(rt; has_tokens(rt.alloc(), text, offsets) == Ok(true));
    }
}

static SIGNS: [&[u8]; 14] = [
    b"{", b"}", b".", b",", b":", b":-", b"/", b"|", b"&", b"~", b"->", b"<->", b"(", b")",
];

/// Whether there are two tokens, the one up to the middle and the other from there up to the end.
fn are_two(spans: &[Span], middle: usize, end: usize) -> bool {
    match spans {
        [one, other] => { (one.from, one.to, other.from, other.to) == (0, middle, middle, end) }
        _ => false,
    }
}

/// Whether the one sign after the other has two tokens, of which the second begins where the first
/// sign ends.
fn are_two_tokens(alloc: Global, first: &[u8], second: &[u8]) -> Result<bool, Memory> {
    let mut text = Text::new(alloc);
    text.push(first)?;
    text.push(second)?;
    let spans = token_list(alloc, text.bytes())?;
    // `:->` begins with `:-`, which is the longest sign there.
    let longest = text.bytes() == b":->".as_slice();
    let middle = if longest { 2 } else { first.len() };
    Ok(are_two(&spans, middle, text.bytes().len()))
}

/// Whether the sign and each sign after it have two tokens.
fn ends_before_each(alloc: Global, first: &[u8]) -> Result<bool, Memory> {
    for second in &SIGNS {
        if !are_two_tokens(alloc, first, second)? {
            return Ok(false);
        }
    }
    Ok(true)
}

#[test]
fn pairs_of_signs(rt: HostRuntime) {
    for first in &SIGNS {
        assert!(rt; ends_before_each(rt.alloc(), first) == Ok(true));
    }
}

/// As long as no name may be.
const LONG_WORD: &str = "xxxxxxxxxxxxxxxxxxxxxxxxxxxxxxxxxxxxxxxxxxxxxxxxxxxxxxxxxxxxxxxxx";

static KINDS: [(&str, TokenKind); 11] = [
    (LONG_WORD, TokenKind::LongName),
    (
        "xxxxxxxxxxxxxxxxxxxxxxxxxxxxxxxxxxxxxxxxxxxxxxxxxxxxxxxxxxxxxxxx",
        TokenKind::Name,
    ),
    ("know", TokenKind::Keyword(Keyword::Know)),
    ("knows", TokenKind::Name),
    (":-", TokenKind::Sign(Sign::If)),
    ("2", TokenKind::Two),
    ("02", TokenKind::ZeroNumber),
    ("000", TokenKind::ZeroNumber),
    ("20", TokenKind::Number),
    ("22", TokenKind::Number),
    ("123456789012345678901234567890", TokenKind::Number),
];

#[test]
fn kinds_of_words_and_numbers(rt: HostRuntime) {
    assert!(rt; next_token(LONG_WORD.as_bytes(), 0) == (0, 65));
    for (text, kind) in &KINDS {
        assert!(rt; kind_of(text.as_bytes()) == *kind);
    }
}
