//! Words and names of a system text.

ghost use Rattle.std.specs.Prelude.{◌≡◌};
ghost use Rattle.std.specs.List.{list_all, list_any};
ghost use Rattle.std.specs.Str.{bytes_eq};
ghost use Rattle.mcs_base.specs.Words.{keyword_bytes, is_letter, is_word_byte, is_word};
ghost use Rattle.mcs_base.specs.Words.{is_reserved, is_name};

use crate::keyword::{KEYWORDS, Keyword};

/// The greatest number of bytes of a name.
pub const MOST_NAME_BYTES: usize = 64;

/// Whether the byte is one of `a` to `z`, `A` to `Z` and `_`.
pub fn is_letter(byte: u8) -> bool
    ensures { result ≡ is_letter byte }
{
    matches!(byte, b'a'..=b'z' | b'A'..=b'Z' | b'_')
}

/// Whether the byte is a letter or a digit.
pub fn is_word_byte(byte: u8) -> bool
    ensures { result ≡ is_word_byte byte }
{
    is_letter(byte) || byte.is_ascii_digit()
}

/// Whether all these bytes are letters and digits.
fn are_word_bytes(bytes: &[u8]) -> bool
    ensures { result ≡ list_all is_word_byte bytes.now }
{
    bytes.iter().all(|byte| is_word_byte(*byte))
}

/// Whether these bytes are a word: a letter, followed by letters and digits.
pub fn is_word(bytes: &[u8]) -> bool
    ensures { result ≡ is_word bytes.now }
{
    match bytes {
        [] => false,
        [first, rest @ ..] => is_letter(*first) && are_word_bytes(rest),
    }
}

/// Whether the word is one of these.
fn is_one_of(word: &[u8], keywords: &[Keyword]) -> bool
    ensures { result ≡ list_any (λ k. bytes_eq word.now (keyword_bytes k)) keywords.now }
{
    keywords.iter().any(|keyword| word == keyword.spelling())
}

/// Whether the word is reserved, and so not a name.
pub fn is_reserved(word: &[u8]) -> bool
    ensures { result ≡ is_reserved word.now }
{
    is_one_of(word, &KEYWORDS)
}

/// Whether these bytes are a name: a word that is not reserved and has at most 64 bytes.
pub fn is_name(bytes: &[u8]) -> bool
    ensures { result ≡ is_name bytes.now }
{
    is_word(bytes) && !is_reserved(bytes) && bytes.len() <= MOST_NAME_BYTES
}
