//! The scanner: where the tokens of a text are.

ghost use Rattle.std.specs.Prelude.{◌≡◌, ◌≢◌, ◌≤◌, ◌<◌, length, IfOk, IsTrue, take, drop};
ghost use Rattle.std.specs.Prelude.{slice_index, slice_range, All};
ghost use Rattle.std.specs.Char.{is_ascii_digit};
ghost use Rattle.std.specs.List.{list_all};
ghost use Rattle.mcs_tokens.specs.Tokens.{IsNextToken, IsGap, IsGapByte, IsToken, AreTokens};
ghost use Rattle.mcs_tokens.specs.Tokens.{IsSpanOf, is_separator, hash};
ghost use Rattle.mcs_base.specs.Words.{is_letter, is_word_byte};

use crate::sign::first_sign;
use mcs_base::{Memory, is_letter, is_word_byte};
use std::alloc::Global;

/// The span of a token: from the first offset up to, but not including, the second.
#[derive(Clone, Copy, Debug, PartialEq, Eq)]
pub struct Span {
    pub from: usize,
    pub to: usize,
}

impl Span {
    /// The bytes of the text in the span.
    pub fn text(self, bytes: &[u8]) -> &[u8]
        requires { IsSpanOf bytes.now self }
        ensures { result.now ≡ slice_range bytes.now self.from self.to }
    {
        &bytes[self.from..self.to]
    }
}

fn is_separator(byte: u8) -> bool
    ensures { result ≡ is_separator byte }
{
    matches!(byte, b' ' | b'\t' | b'\n' | b'\r')
}

/// The end of the separators and comments that begin at `at`.
fn gap_end(bytes: &[u8], at: usize) -> usize
    requires { at ≤ length bytes.now }
    ensures inside { (at ≤ result) × (result ≤ length bytes.now) }
    ensures gap { IsGap bytes.now at result }
    ensures ended { result < length bytes.now → ¬ IsGapByte bytes.now at result }
{
    let mut in_comment = false;
    for i in at..bytes.len() {
        let byte = bytes[i];
        if in_comment {
            in_comment = byte != b'\n';
        } else if byte == b'#' {
            in_comment = true;
        } else if !is_separator(byte) {
            return i;
        }
    }
    bytes.len()
}

/// How many letters and digits the text begins with.
fn word_len(text: &[u8]) -> usize
    ensures inside { result ≤ length text.now }
    ensures word { IsTrue (list_all is_word_byte (take result text.now)) }
    ensures ended { result < length text.now
        → ¬ IsTrue (is_word_byte (slice_index text.now result)) }
{
    for (k, byte) in text.iter().enumerate() {
        if !is_word_byte(*byte) {
            return k;
        }
    }
    text.len()
}

/// How many digits the text begins with.
fn number_len(text: &[u8]) -> usize
    ensures inside { result ≤ length text.now }
    ensures digits { IsTrue (list_all is_ascii_digit (take result text.now)) }
    ensures ended { result < length text.now
        → ¬ IsTrue (is_ascii_digit (slice_index text.now result)) }
{
    for (k, byte) in text.iter().enumerate() {
        if !byte.is_ascii_digit() {
            return k;
        }
    }
    text.len()
}

/// The length of the token with which the text begins.
fn token_len(text: &[u8]) -> usize
    requires some { 0 < length text.now }
    requires no_separator { ¬ IsTrue (is_separator (slice_index text.now 0)) }
    requires no_comment { slice_index text.now 0 ≢ hash }
    ensures inside { (0 < result) × (result ≤ length text.now) }
    ensures token { IsToken (take result text.now) (drop result text.now) }
{
    if is_letter(text[0]) {
        return word_len(text);
    }
    if text[0].is_ascii_digit() {
        return number_len(text);
    }
    match first_sign(text) {
        Some(sign) => sign.spelling().len(),
        None => 1,
    }
}

/// The offset of the first token that begins at or after `at`, and the offset after it. The text is
/// read as if it began at `at`, so `at` must not be within a token or a comment. At the end of the
/// text both are its length.
pub fn next_token(bytes: &[u8], at: usize) -> (usize, usize)
    requires { at ≤ length bytes.now }
    ensures { IsNextToken bytes.now at result.0 result.1 }
{
    let from = gap_end(bytes, at);
    if from == bytes.len() {
        return (from, from);
    }
    (from, from + token_len(&bytes[from..]))
}

/// All tokens of the text, in order.
pub fn token_list(alloc: Global, bytes: &[u8]) -> Result<Vec<Span>, Memory>
    ensures tokens { IfOk result (λ spans. AreTokens bytes.now 0 spans.items) }
    ensures inside { IfOk result (λ spans. All (IsSpanOf bytes.now) spans.items) }
{
    let mut spans = Vec::new(alloc);
    let mut at = 0;
    loop {
        let (from, to) = next_token(bytes, at);
        if from == bytes.len() {
            return Ok(spans);
        }
        spans.push(Span { from, to })?;
        at = to;
    }
}
