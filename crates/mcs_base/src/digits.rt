//! Numbers in decimal digits.

ghost use Rattle.std.specs.Prelude.{ℕ, MatchOption};
ghost use Rattle.mcs_base.specs.Numbers.{IsNumber};

/// The number in these bytes: one or more digits, whose value lies within the bounds. `None`
/// exactly if they are no such number.
pub fn number(bytes: &[u8], least: u64, most: u64) -> Option<u64>
    ensures { MatchOption result ((n : ℕ) → ¬ IsNumber least most bytes.now n)
        (λ n. IsNumber least most bytes.now n) }
{
    let mut n: u64 = 0;
    for byte in bytes {
        if !byte.is_ascii_digit() {
            return None;
        }
        n = n.checked_mul(10)?.checked_add(u64::from(*byte - b'0'))?;
    }
    if bytes.is_empty() || n < least || n > most {
        return None;
    }
    Some(n)
}
