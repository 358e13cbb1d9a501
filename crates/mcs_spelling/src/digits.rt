//! Decimal numbers from 1 to 2^63-1, without leading zeros, and literals.

ghost use Rattle.std.specs.Prelude.{◌≡◌, ◌<◌, ◌^◌, IfOk, IfSome};
ghost use Rattle.std.specs.Option.{option_map};
ghost use Rattle.mcs_spelling.specs.Parts.{SpellsNumber};
ghost use Rattle.mcs_spelling.specs.Words.{with_digit, number_of_bytes, numbers_of, signed};
ghost use Rattle.mcs_spelling.specs.Words.{literals_of_bytes};

use mcs_base::Memory;
use std::alloc::Global;

/// The greatest number.
const MOST: u64 = 9_223_372_036_854_775_807;

/// The number with one more digit; the number of no digits is 0. `None` if the byte is no digit, or
/// if the number would begin with 0 or be too large.
#[tactic(auto, unfolding(crate::specs::Words::with_digit))]
fn with_digit(number: u64, byte: u8) -> Option<u64>
    ensures value { result ≡ with_digit number byte }
    ensures fits { IfSome result (λ n. n < 2 ^ 63) }
{
    if !byte.is_ascii_digit() {
        return None;
    }
    let digit = u64::from(byte - b'0');
    if number > (MOST - digit) / 10 || (number == 0 && digit == 0) {
        return None;
    }
    Some(number * 10 + digit)
}

/// The number with these digits.
#[tactic(auto, unfolding(crate::specs::Words::number_of_bytes))]
fn number_in(bytes: &[u8]) -> Option<u64>
    ensures { result ≡ number_of_bytes bytes.now }
{
    let mut number = 0;
    for byte in bytes {
        number = with_digit(number, *byte)?;
    }
    if number == 0 { None } else { Some(number) }
}

/// The number from 1 to 2^63-1 that the bytes spell, in decimal without leading zeros. `None`
/// exactly if they spell none.
pub fn read_number(bytes: &[u8]) -> Option<u64>
    ensures spelled { SpellsNumber bytes.now result }
    ensures exact { result ≡ number_of_bytes bytes.now }
{
    number_in(bytes)
}

/// The numbers that the bytes spell: one or more, with one space between them. `None` if they spell
/// none.
#[tactic(auto, unfolding(crate::specs::Words::numbers_of))]
pub fn read_numbers(alloc: Global, bytes: &[u8]) -> Result<Option<Vec<u64>>, Memory>
    ensures { IfOk result (λ o. option_map (λ v. v.items) o ≡ numbers_of bytes.now) }
{
    let mut numbers = Vec::new(alloc);
    let mut number = 0;
    for byte in bytes {
        if *byte == b' ' {
            if number == 0 {
                return Ok(None);
            }
            numbers.push(number)?;
            number = 0;
        } else {
            let Some(next) = with_digit(number, *byte) else {
                return Ok(None);
            };
            number = next;
        }
    }
    if number == 0 {
        return Ok(None);
    }
    numbers.push(number)?;
    Ok(Some(numbers))
}

/// The literal with this absolute value.
fn signed(size: u64, is_negative: bool) -> i64
    requires { size < 2 ^ 63 }
    ensures { result ≡ signed size is_negative }
{
    if is_negative {
        -(size as i64)
    } else {
        size as i64
    }
}

/// The literals that the bytes spell, each followed by one space; there may be none. `None` if the
/// bytes are not of this form.
#[tactic(auto, unfolding(crate::specs::Words::literals_of_bytes))]
pub fn read_literals(alloc: Global, bytes: &[u8]) -> Result<Option<Vec<i64>>, Memory>
    ensures { IfOk result (λ o. option_map (λ v. v.items) o ≡ literals_of_bytes bytes.now) }
{
    let mut literals = Vec::new(alloc);
    let mut size = 0;
    let mut is_negative = false;
    for byte in bytes {
        if *byte == b' ' {
            if size == 0 {
                return Ok(None);
            }
            literals.push(signed(size, is_negative))?;
            size = 0;
            is_negative = false;
        } else if *byte == b'-' {
            if size != 0 || is_negative {
                return Ok(None);
            }
            is_negative = true;
        } else {
            let Some(next) = with_digit(size, *byte) else {
                return Ok(None);
            };
            size = next;
        }
    }
    if size != 0 || is_negative {
        return Ok(None);
    }
    Ok(Some(literals))
}
