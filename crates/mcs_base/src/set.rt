//! Sets of numbers of one kind.

ghost use Rattle.std.specs.Prelude.{◌≡◌, ℕ, ◌^◌, ◌<◌, ◌≤◌, ◌↔◌, IsTrue, IfSome, IfNone, All};
ghost use Rattle.std.specs.Prelude.{length};
ghost use Rattle.mcs_sets.specs.Sets.{has, size, single, union, common, minus, members, Within};
ghost use Rattle.mcs_sets.specs.Sets.{Meets, IsLeast};

use crate::kind::Kind;
use mcs_sets::{Members, SmallSet};
use std::cmp::Ordering;
use std::marker::{Model, PhantomData};

/// A set of numbers of one kind.
#[derive_where(Clone, Copy, Debug, PartialEq, Eq)]
pub struct Set<K: Kind> {
    pub(crate) set: SmallSet,
    #[derive_where(skip)]
    kind: PhantomData<K>,
}

impl<K: Kind> Model for Set<K> {
    ghost use Rattle.std.specs.Prelude.{ℕ, ◌<◌, ◌^◌};

    ghost Value = { ℕ };

    ghost view = { λ s. s.set };

    ghost invariant = { λ s. s.set < 2 ^ K.most };

    ghost inverse = { λ n. record { set = n; kind = _ } };
}

impl<K: Kind> Set<K> {
    // The set of these numbers.
    pub(crate) fn of(set: SmallSet) -> Self
        requires { set < 2 ^ K.most }
        ensures { result ≡ set }
    {
        Set {
            set,
            kind: PhantomData,
        }
    }

    /// The empty set.
    #[tactic(auto, using(crate::proofs::Fits::empty_fits))]
    pub fn empty() -> Self
        ensures { result ≡ 0 }
    {
        Set::of(SmallSet::empty())
    }

    /// The set with this one number.
    pub fn one(n: u32) -> Self
        requires { n < K.most }
        ensures { result ≡ single n }
    {
        Set::of(SmallSet::one(n))
    }

    /// Whether the number is in the set.
    pub fn has(self, n: u32) -> bool
        requires { n < K.most }
        ensures value { result ≡ has self n }
        ensures in_range { self < 2 ^ K.most }
    {
        self.set.has(n)
    }

    /// The set with this number added.
    pub fn with(self, n: u32) -> Self
        requires { n < K.most }
        ensures { result ≡ union self (single n) }
    {
        Set::of(self.set.with(n))
    }

    /// The set without this number.
    pub fn without(self, n: u32) -> Self
        requires { n < K.most }
        ensures { result ≡ minus self (single n) }
    {
        Set::of(self.set.without(n))
    }

    /// The union of both sets.
    pub fn union(self, other: Self) -> Self
        ensures { result ≡ union self other }
    {
        Set::of(self.set.union(other.set))
    }

    /// The intersection of both sets.
    pub fn common(self, other: Self) -> Self
        ensures { result ≡ common self other }
    {
        Set::of(self.set.common(other.set))
    }

    /// The difference: the numbers of this set that are not in the other.
    pub fn minus(self, other: Self) -> Self
        ensures { result ≡ minus self other }
    {
        Set::of(self.set.minus(other.set))
    }

    /// Whether the two sets have a number in common.
    pub fn meets(self, other: Self) -> bool
        ensures { IsTrue result ↔ Meets self other }
    {
        self.set.meets(other.set)
    }

    /// Whether this set lies within the other: each of its numbers is in the other.
    pub fn within(self, other: Self) -> bool
        ensures { IsTrue result ↔ Within self other }
    {
        self.set.within(other.set)
    }

    /// How many numbers are in the set.
    pub fn count(self) -> u32
        ensures number { result ≡ size self }
        ensures few { result ≤ K.most }
        ensures in_range { self < 2 ^ K.most }
    {
        self.set.count()
    }

    /// The least number of the set, or `None` exactly if the set is empty.
    pub fn first(self) -> Option<u32>
        ensures least { IfSome result (IsLeast self) }
        ensures below { IfSome result (λ k. k < K.most) }
        ensures empty { IfNone result (self ≡ 0) }
    {
        self.set.first()
    }

    /// The members, ascending.
    pub fn members(self) -> Members
        ensures list { result ≡ members self }
        ensures below { All (λ k. k < K.most) result }
        ensures few { length result ≤ K.most }
    {
        self.set.members()
    }
}

/// Sets are ordered by the order of their kind, so that std's sort lists them in it.
impl<K: Kind> PartialOrd for Set<K> {
    ghost use Rattle.std.specs.Ordering.{as_partial_cmp};
    ghost use Rattle.std.specs.Cmp.{po};

    ghost partial_cmp = { as_partial_cmp K.order };

    ghost laws = { po K.total K.tie };

    fn partial_cmp(&self, other: &Set<K>) -> Option<Ordering> {
        Some(self.cmp(other))
    }
}

impl<K: Kind> Ord for Set<K> {
    ghost use Rattle.std.specs.Prelude.{refl};

    ghost cmp = { K.order };

    ghost total = { K.total };

    ghost matches_partial_cmp = { λ x y. refl };

    ghost matches_eq = { K.tie };

    fn cmp(&self, other: &Set<K>) -> Ordering {
        K::compare(self.set, other.set)
    }
}
