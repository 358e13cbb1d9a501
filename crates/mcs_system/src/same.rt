//! Whether formulas, or reads, are the same.

ghost use Rattle.std.specs.Prelude.{◌≡◌};
ghost use Rattle.mcs_system.specs.Seen.{formula_of, read_of};
ghost use Rattle.mcs_system.specs.Systems.{same_formula, same_read};

use crate::bridge::Read;
use crate::formula::Formula;

/// Whether both formulas are the same.
pub fn same_formula(f: &Formula, g: &Formula) -> bool
    ensures { result ≡ same_formula (formula_of f.now) (formula_of g.now) }
{
    match (f, g) {
        (Formula::True, Formula::True) | (Formula::False, Formula::False) => true,
        (Formula::Atom(m), Formula::Atom(n)) => m.is(n),
        (Formula::Not(x), Formula::Not(y)) => same_formula(x, y),
        (Formula::And(x, v), Formula::And(y, w)) => same_formula(x, y) && same_formula(v, w),
        (Formula::Or(x, v), Formula::Or(y, w)) => same_formula(x, y) && same_formula(v, w),
        (Formula::Implies(x, v), Formula::Implies(y, w)) => same_formula(x, y)
            && same_formula(v, w),
        (Formula::Iff(x, v), Formula::Iff(y, w)) => same_formula(x, y) && same_formula(v, w),
        _ => false,
    }
}

/// Whether both reads are of the same belief of the same context.
pub fn same_read(q: &Read, r: &Read) -> bool
    ensures { result ≡ same_read (read_of q.now) (read_of r.now) }
{
    q.context == r.context && same_formula(&q.belief, &r.belief)
}
