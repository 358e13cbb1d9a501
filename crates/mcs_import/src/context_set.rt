//! Sets of contexts.

use mcs_base::{Kind, Set};
use mcs_sets::SmallSet;
use std::cmp::Ordering;

/// The kind of sets of contexts: their members are numbers of contexts.
pub(crate) struct ContextNumber;

/// A set of contexts.
pub(crate) type ContextSet = Set<ContextNumber>;

impl Kind for ContextNumber {
    ghost use Rattle.std.proofs.Common.{arith};
    ghost use Rattle.std.specs.Ordering.{nat_cmp};
    ghost use Rattle.std.proofs.lemmas.Cmp.{nat_cmp_total};
    ghost use Rattle.mcs_base.specs.NumberOrder.{nat_tie};

    ghost most = { 64 };

    ghost order = { nat_cmp };

    ghost few = { Prim.omega arith };

    ghost total = { nat_cmp_total };

    ghost tie = { nat_tie };

    fn compare(a: SmallSet, b: SmallSet) -> Ordering {
        a.cmp(&b)
    }
}
