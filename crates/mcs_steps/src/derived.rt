//! The clauses that a chain may name.

ghost use Rattle.std.specs.Prelude.{◌≡◌, ◌++◌, MatchOption};
ghost use Rattle.std.specs.List.{AllByRecursion};
ghost use Rattle.mcs_trace.specs.Clauses.{IsClause};
ghost use Rattle.std.specs.Option.{option_copied};
ghost use Rattle.mcs_trace.specs.Traces.{numbered_clause};

use mcs_base::Rows;
use mcs_trace::Clause;

/// The clause with this number, counted from 1, or `None` if no clause has it. The clauses of the
/// list come first, then those that were derived.
pub(crate) fn numbered<'a>(
    clauses: &'a [Clause],
    derived: &'a Rows<i64>,
    number: u64,
) -> Option<&'a [i64]>
    requires { AllByRecursion IsClause derived.now }
    ensures value { option_copied result ≡ numbered_clause (clauses.now ++ derived.now) number }
    ensures clause { MatchOption result (Unit {0}) (λ c. IsClause c.now) }
{
    if number == 0 {
        return None;
    }
    let index = (number - 1) as usize;
    if index < clauses.len() {
        return Some(clauses[index].literals());
    }
    let later = index - clauses.len();
    if later < derived.len() {
        return Some(derived.row(later));
    }
    None
}
