//! The resolvent of two clauses.

ghost use Rattle.std.specs.Prelude.{◌≡◌, [], ◌<◌, ◌≤◌, ◌↔◌, ℤ, List, unsigned_abs, length, drop};
ghost use Rattle.std.specs.Prelude.{slice_index_or, pos, IsTrue, IfOk, MatchOption, OnOk};
ghost use Rattle.std.specs.Bool.{MatchBool};
ghost use Rattle.mcs_base.specs.Listings.{IsAmong, IsListing};
ghost use Rattle.mcs_trace.specs.Clauses.{IsClause, IsLiteral, LiteralBefore, place};
ghost use Rattle.mcs_trace.specs.Resolution.{IsOnlyClash, IsLeft, IsResolvent};

use crate::literal::{is_at, place};
use mcs_base::Memory;

/// The first index from `start` on at which the literal has at least this absolute value.
fn skip_smaller(lits: &[i64], start: usize, size: u64) -> usize
    requires { start ≤ length lits.now }
    ensures bound { result ≤ length lits.now }
    ensures kept { (k : ℤ) → size ≤ unsigned_abs k → IsAmong k (drop start lits.now)
        → IsAmong k (drop result lits.now) }
    ensures large { result < length lits.now
        → size ≤ unsigned_abs (slice_index_or lits.now result (pos 0)) }
{
    let mut index = start;
    while index < lits.len() && lits[index].unsigned_abs() < size {
        index += 1;
    }
    index
}

/// Whether the literal is in the clause from `start` on, where no literal has a smaller absolute
/// value.
fn is_next(lits: &[i64], start: usize, literal: i64) -> bool
    requires clause { IsClause lits.now }
    requires start { start ≤ length lits.now }
    requires large { start < length lits.now
        → unsigned_abs literal ≤ unsigned_abs (slice_index_or lits.now start (pos 0)) }
    ensures { IsTrue result ↔ IsAmong literal (drop start lits.now) }
{
    is_at(lits, start, literal) || is_at(lits, start + 1, literal)
}

/// The one literal of the first clause whose negation is in the second, or `None` if there is none
/// or more than one.
fn only_clash(first: &[i64], second: &[i64]) -> Option<i64>
    requires first { IsClause first.now }
    requires second { IsClause second.now }
    ensures { MatchOption result ((l : ℤ) → ¬ IsOnlyClash first.now second.now l)
        (IsOnlyClash first.now second.now) }
{
    let mut found = None;
    let mut index = 0;
    for literal in first {
        index = skip_smaller(second, index, literal.unsigned_abs());
        if is_next(second, index, -*literal) {
            if found.is_some() {
                return None;
            }
            found = Some(*literal);
        }
    }
    found
}

/// Whether the next literal is that of the first clause, at `i`: it comes before the one of the
/// second clause at `j`, or the second clause has none left.
fn comes_first(first: &[i64], i: usize, second: &[i64], j: usize) -> bool
    requires first { IsClause first.now }
    requires second { IsClause second.now }
    ensures { IsTrue result
        ↔ ((i < length first.now)
        × (j < length second.now → place (slice_index_or first.now i (pos 0))
        < place (slice_index_or second.now j (pos 0)))) }
{
    i < first.len() && (j >= second.len() || place(first[i]) < place(second[j]))
}

/// Appends the union of the first clause without the literal and of the second clause without its
/// negation.
fn join(first: &[i64], second: &[i64], literal: i64, out: &mut Vec<i64>) -> Result<(), Memory>
    requires first { IsClause first.now }
    requires second { IsClause second.now }
    requires literal { IsLiteral literal }
    requires empty { out.old.items ≡ [] }
    ensures { OnOk result (IsListing (IsLeft first.now second.now literal) LiteralBefore
        out.new.items) }
{
    let negated = -literal;
    let mut i = 0;
    let mut j = 0;
    while i < first.len() || j < second.len() {
        if is_at(first, i, literal) {
            i += 1;
        } else if is_at(second, j, negated) {
            j += 1;
        } else if comes_first(first, i, second, j) {
            out.push(first[i])?;
            i += 1;
        } else if comes_first(second, j, first, i) {
            out.push(second[j])?;
            j += 1;
        } else {
            out.push(second[j])?;
            i += 1;
            j += 1;
        }
    }
    Ok(())
}

/// Replaces `out` by the resolvent of the two clauses, and returns whether there is one. If there
/// is none, `out` is as before. If memory runs out, it has only the first literals of the
/// resolvent, and can be used for another one.
pub fn resolve(first: &[i64], second: &[i64], out: &mut Vec<i64>) -> Result<bool, Memory>
    requires first { IsClause first.now }
    requires second { IsClause second.now }
    ensures resolvent { IfOk result (λ yes. MatchBool yes
        (IsResolvent first.now second.now out.new.items)
        ((clause : List ℤ) → ¬ IsResolvent first.now second.now clause)) }
    ensures clash { IfOk result (λ yes. (l : ℤ) → IsOnlyClash first.now second.now l → IsTrue yes) }
    ensures clause { IfOk result (λ yes. IsTrue yes → IsClause out.new.items) }
{
    let Some(literal) = only_clash(first, second) else {
        return Ok(false);
    };
    out.clear();
    join(first, second, literal, out)?;
    Ok(true)
}
