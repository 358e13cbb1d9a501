//! Literals.

ghost use Rattle.std.specs.Prelude.{◌≡◌, ◌<◌, ◌^◌, ◌↔◌, IsTrue, length, slice_index_or, pos};
ghost use Rattle.std.specs.Int.RustNames.{unsigned_abs};
ghost use Rattle.mcs_trace.specs.Clauses.{IsLiteral, place};

/// The place of a literal in the order 1, -1, 2, -2, ..
pub fn place(literal: i64) -> u64
    requires { unsigned_abs literal < 2 ^ 63 }
    ensures { result ≡ place literal }
{
    literal.unsigned_abs() * 2 + u64::from(literal < 0)
}

/// Whether the number is a literal: its absolute value is from 1 to 2^63-1.
pub fn is_literal(number: i64) -> bool
    ensures { IsTrue result ↔ IsLiteral number }
{
    number != 0 && number != i64::MIN
}

/// Whether the literal is at the index.
pub(crate) fn is_at(lits: &[i64], index: usize, literal: i64) -> bool
    ensures { IsTrue result
        ↔ ((index < length lits.now) × (slice_index_or lits.now index (pos 0) ≡ literal)) }
{
    index < lits.len() && lits[index] == literal
}
