//! Sets of small numbers, each one word of bits, and the orders of such sets.

ghost use Rattle.std.specs.Prelude.{◌≡◌, ℕ, ◌^◌, ◌<◌, ◌↔◌, IsTrue, IfSome, IfNone};
ghost use Rattle.mcs_sets.specs.Sets.{has, single, union, common, minus, Within, Meets, IsLeast};
ghost use Rattle.mcs_sets.specs.Sets.{size, members};
ghost use Rattle.mcs_sets.specs.Orders.{StateBefore, PairBefore};

use crate::members::Members;
use std::marker::Model;

/// A set of numbers below 128. Its own order is that of the sets as numbers: the set that has the
/// greatest number in which they differ is the greater one.
#[derive(Clone, Copy, Debug, PartialEq, Eq, PartialOrd, Ord)]
pub struct SmallSet {
    bits: u128,
}

impl Model for SmallSet {
    ghost use Rattle.std.specs.Prelude.{ℕ, ◌<◌, ◌^◌};

    ghost Value = { ℕ };

    ghost view = { λ s. s.bits };

    ghost invariant = { λ s. s.bits < 2 ^ 128 };

    ghost inverse = { λ n. record { bits = n } };
}

impl SmallSet {
    /// The empty set.
    pub fn empty() -> Self
        ensures { result ≡ 0 }
    {
        SmallSet { bits: 0 }
    }

    /// The set with this number: it has `k` if bit `k` of the number is set.
    pub fn numbered(number: u64) -> Self
        ensures { result ≡ number }
    {
        SmallSet {
            bits: number as u128,
        }
    }

    /// The number of the set, as `numbered` takes it. The set has to be one of numbers below 64.
    pub fn number(self) -> u64
        requires { self < 2 ^ 64 }
        ensures { result ≡ self }
    {
        self.bits as u64
    }

    /// The set with this one number.
    #[tactic(auto, unfolding(crate::specs::Sets::single))]
    pub fn one(n: u32) -> Self
        requires { n < 128 }
        ensures { result ≡ single n }
    {
        SmallSet { bits: 1 << n }
    }

    /// Whether the number is in the set.
    #[tactic(auto, using(std::proofs::lemmas::Nat::Bits::shr_and_one), unfolding(crate::specs::Sets::has))]
    pub fn has(self, n: u32) -> bool
        requires { n < 128 }
        ensures value { result ≡ has self n }
        ensures in_range { self < 2 ^ 128 }
    {
        (self.bits >> n) & 1 == 1
    }

    /// The set with this number added.
    #[tactic(auto, using(crate::proofs::SetLemmas::fits), unfolding(crate::specs::Sets::single, crate::specs::Sets::union))]
    pub fn with(self, n: u32) -> Self
        requires { n < 128 }
        ensures { result ≡ union self (single n) }
    {
        SmallSet {
            bits: self.bits | (1 << n),
        }
    }

    /// The set without this number.
    #[tactic(auto, using(crate::proofs::SetLemmas::fits), unfolding(crate::specs::Sets::single, crate::specs::Sets::minus))]
    pub fn without(self, n: u32) -> Self
        requires { n < 128 }
        ensures { result ≡ minus self (single n) }
    {
        SmallSet {
            bits: self.bits ^ (self.bits & (1 << n)),
        }
    }

    /// The union of both sets.
    #[tactic(auto, using(crate::proofs::SetLemmas::fits), unfolding(crate::specs::Sets::union))]
    pub fn union(self, other: Self) -> Self
        ensures { result ≡ union self other }
    {
        SmallSet {
            bits: self.bits | other.bits,
        }
    }

    /// The intersection of both sets.
    #[tactic(auto, using(crate::proofs::SetLemmas::fits), unfolding(crate::specs::Sets::common))]
    pub fn common(self, other: Self) -> Self
        ensures { result ≡ common self other }
    {
        SmallSet {
            bits: self.bits & other.bits,
        }
    }

    /// The difference: the numbers of this set that are not in the other.
    #[tactic(auto, using(crate::proofs::SetLemmas::fits), unfolding(crate::specs::Sets::minus))]
    pub fn minus(self, other: Self) -> Self
        ensures { result ≡ minus self other }
    {
        SmallSet {
            bits: self.bits ^ (self.bits & other.bits),
        }
    }

    /// Whether the two sets have a number in common.
    pub fn meets(self, other: Self) -> bool
        ensures { IsTrue result ↔ Meets self other }
    {
        self.bits & other.bits != 0
    }

    /// Whether this set lies within the other: each of its numbers is in the other.
    pub fn within(self, other: Self) -> bool
        ensures { IsTrue result ↔ Within self other }
    {
        self.bits & other.bits == self.bits
    }

    /// How many numbers are in the set.
    pub fn count(self) -> u32
        ensures number { result ≡ size self }
        ensures in_range { self < 2 ^ 128 }
    {
        self.bits.count_ones()
    }

    /// The least number of the set, if it has one.
    pub fn first(self) -> Option<u32>
        ensures least { IfSome result (IsLeast self) }
        ensures below { IfSome result (λ k. k < 128) }
        ensures empty { IfNone result (self ≡ 0) }
    {
        if self.bits == 0 {
            None
        } else {
            Some(self.bits.trailing_zeros())
        }
    }

    /// The members, ascending.
    pub fn members(self) -> Members
        ensures { result ≡ members self }
    {
        Members { left: self }
    }
}

/// Whether `a` comes before `b` in the order of states. Of two different sets, the one that has the
/// least number in which they differ comes first.
pub fn state_before(a: SmallSet, b: SmallSet) -> bool
    ensures { IsTrue result ↔ StateBefore a b }
{
    let differ = a.bits ^ b.bits;
    differ != 0 && a.has(differ.trailing_zeros())
}

/// Whether `a` comes before `b` in the order of pairs. The one with fewer members comes first; with
/// equally many, the one whose ascending list of members is lexicographically less.
pub fn pair_before(a: SmallSet, b: SmallSet) -> bool
    ensures { IsTrue result ↔ PairBefore a b }
{
    let (m, n) = (a.count(), b.count());
    m < n || m == n && state_before(a, b)
}
