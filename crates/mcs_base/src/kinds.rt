//! The kinds of sets, and the orders of the sets.

ghost use Rattle.std.specs.Prelude.{◌≡◌, ◌↔◌, IsTrue};
ghost use Rattle.mcs_sets.specs.Orders.{StateBefore, PairBefore};
ghost use Rattle.mcs_base.specs.StateOrder.{state_cmp};
ghost use Rattle.mcs_base.specs.PairOrder.{pair_cmp};

use crate::kind::Kind;
use crate::set::Set;
use mcs_sets::SmallSet;
use std::cmp::Ordering;

/// The kind of variables, and of places in a list.
pub struct Variable;

/// The kind of numbers of bridge rules.
pub struct Rule;

/// The kind of marks.
pub struct Mark;

/// A set of variables, or of places in a list. Such sets are listed in the order of states.
pub type Vars = Set<Variable>;

/// A set of bridge rules.
pub type Active = Set<Rule>;

/// A set of marks. Such sets are listed in the order of pairs.
pub type Marks = Set<Mark>;

impl Set<Variable> {
    /// The set with this number: it has `k` if bit `k` of the number is set. So the sets of numbers
    /// below `n` are the first `2^n`.
    pub fn numbered(number: u64) -> Self
        ensures { result ≡ number }
    {
        Set::of(SmallSet::numbered(number))
    }

    /// The number of the set, as `numbered` takes it.
    pub fn number(self) -> u64
        ensures { result ≡ self }
    {
        self.set.number()
    }
}

impl Set<Rule> {
    /// The set with this number: it has `k` if bit `k` of the number is set. So the sets of numbers
    /// below `n` are the first `2^n`.
    pub fn numbered(number: u64) -> Self
        ensures { result ≡ number }
    {
        Set::of(SmallSet::numbered(number))
    }
}

impl Kind for Variable {
    ghost use Rattle.std.proofs.Common.{arith};
    ghost use Rattle.mcs_base.specs.StateOrder.{state_cmp, state_cmp_total, state_tie};

    ghost most = { 64 };

    ghost order = { state_cmp };

    ghost few = { Prim.omega arith };

    ghost total = { state_cmp_total };

    ghost tie = { state_tie };

    fn compare(a: SmallSet, b: SmallSet) -> Ordering {
        compare_states(a, b)
    }
}

impl Kind for Rule {
    ghost use Rattle.std.proofs.Common.{arith};
    ghost use Rattle.std.specs.Ordering.{nat_cmp};
    ghost use Rattle.std.proofs.lemmas.Cmp.{nat_cmp_total};
    ghost use Rattle.mcs_base.specs.NumberOrder.{nat_tie};

    ghost most = { 64 };

    ghost order = { nat_cmp };

    ghost few = { Prim.omega arith };

    ghost total = { nat_cmp_total };

    ghost tie = { nat_tie };

    fn compare(a: SmallSet, b: SmallSet) -> Ordering {
        a.cmp(&b)
    }
}

impl Kind for Mark {
    ghost use Rattle.std.proofs.Common.{arith};
    ghost use Rattle.mcs_base.specs.PairOrder.{pair_cmp, pair_cmp_total, pair_tie};

    ghost most = { 128 };

    ghost order = { pair_cmp };

    ghost few = { Prim.omega arith };

    ghost total = { pair_cmp_total };

    ghost tie = { pair_tie };

    fn compare(a: SmallSet, b: SmallSet) -> Ordering {
        compare_pairs(a, b)
    }
}

// The order of states.
fn compare_states(a: SmallSet, b: SmallSet) -> Ordering
    ensures { result ≡ state_cmp a b }
{
    if a == b {
        Ordering::Equal
    } else if mcs_sets::state_before(a, b) {
        Ordering::Less
    } else {
        Ordering::Greater
    }
}

// The order of pairs.
fn compare_pairs(a: SmallSet, b: SmallSet) -> Ordering
    ensures { result ≡ pair_cmp a b }
{
    if a == b {
        Ordering::Equal
    } else if mcs_sets::pair_before(a, b) {
        Ordering::Less
    } else {
        Ordering::Greater
    }
}

/// Whether `a` comes before `b` in the order of states. Of two different states, the one that has
/// the least variable in which they differ comes first.
pub fn state_before(a: Vars, b: Vars) -> bool
    ensures { IsTrue result ↔ StateBefore a b }
{
    mcs_sets::state_before(a.set, b.set)
}

/// Whether `a` comes before `b` in the order of pairs. The one with fewer marks comes first; with
/// equally many, the one whose ascending list of marks is lexicographically less.
pub fn pair_before(a: Marks, b: Marks) -> bool
    ensures { IsTrue result ↔ PairBefore a b }
{
    mcs_sets::pair_before(a.set, b.set)
}
