//! Numbers and literals, taken from the front of bytes one at a time.

ghost use Rattle.std.specs.Prelude.{◌≡◌, ◌<◌, ◌^◌, [], None, length, IfSome, MatchOption};
ghost use Rattle.mcs_trace.specs.Clauses.{IsLiteral};
ghost use Rattle.mcs_spelling.specs.Words.{numbers_of, literals_of_bytes, signed};
ghost use Rattle.mcs_steps.specs.Words.{IsWordEnd, spaced_numbers, with_front, literal_of};

use mcs_spelling::{find, read_number, strip};

/// Where the first word of the bytes ends: at the first space, or at their end.
fn word_end(bytes: &[u8]) -> usize
    ensures { IsWordEnd bytes.now result }
{
    match find(bytes, b' ') {
        Some(end) => end,
        None => bytes.len(),
    }
}

/// The number that is the first word of the bytes, and what follows it. `None` if it is none.
pub fn first_number(bytes: &[u8]) -> Option<(u64, &[u8])>
    ensures read { MatchOption result (numbers_of bytes.now ≡ None)
        (λ x. numbers_of bytes.now ≡ with_front x.0 (spaced_numbers x.1.now)) }
    ensures less { MatchOption result (Unit {0}) (λ x. length x.1.now < length bytes.now) }
{
    let end = word_end(bytes);
    let number = read_number(&bytes[..end])?;
    Some((number, &bytes[end..]))
}

/// The literal of this size.
fn signed(size: u64, is_negative: bool) -> i64
    requires { size < 2 ^ 63 }
    ensures { result ≡ signed size is_negative }
{
    if is_negative {
        -(size as i64)
    } else {
        size as i64
    }
}

/// The literal that the word spells.
fn literal_in(word: &[u8]) -> Option<i64>
    ensures value { result ≡ literal_of word.now }
    ensures literal { IfSome result IsLiteral }
{
    match strip(word, b"-") {
        Some(digits) => Some(signed(read_number(digits)?, true)),
        None => Some(signed(read_number(word)?, false)),
    }
}

/// The literal that is the first word of the bytes, and what follows it and a space. `None` if it
/// is none, or if no space follows.
pub(crate) fn first_literal(bytes: &[u8]) -> Option<(i64, &[u8])>
    requires { ¬ (bytes.now ≡ []) }
    ensures read { MatchOption result (literals_of_bytes bytes.now ≡ None)
        (λ x. literals_of_bytes bytes.now ≡ with_front x.0 (literals_of_bytes x.1.now)) }
    ensures literal { MatchOption result (Unit {0}) (λ x. IsLiteral x.0) }
    ensures less { MatchOption result (Unit {0}) (λ x. length x.1.now < length bytes.now) }
{
    let end = word_end(bytes);
    let rest = strip(&bytes[end..], b" ")?;
    let literal = literal_in(&bytes[..end])?;
    Some((literal, rest))
}
