//! Pairs of sets of bridge rules: the removed and the forced ones.

ghost use Rattle.std.specs.Prelude.{◌≡◌, ◌<◌, ◌+◌, ◌*◌, ◌^◌};
ghost use Rattle.mcs_sets.specs.Sets.{has, such_that};
ghost use Rattle.mcs_base.specs.Pairs.{removed_of, forced_of};

use crate::kinds::{Active, Marks};
use std::marker::Model;

/// A pair of sets of bridge rules, each numbered below 64: the rules that are removed, and those
/// that are forced. Mark 2r says that rule r is removed, and mark 2r+1 that it is forced. The model
/// is the set of these marks.
#[derive(Clone, Copy, Debug, PartialEq, Eq)]
pub struct Pair {
    marks: Marks,
}

impl Model for Pair {
    ghost use Rattle.std.specs.Prelude.{ℕ};

    ghost Value = { ℕ };

    ghost view = { λ p. p.marks };

    ghost inverse = { λ n. record { marks = n } };
}

/// The rules r whose mark 2r, or 2r+1 if `offset` is 1, is in the set.
#[tactic(auto, using(crate::proofs::PairLemmas::loops))]
fn part(marks: Marks, offset: u32) -> Active
    requires { offset < 2 }
    ensures rules { result ≡ such_that 64 (λ r. has marks (2 * r + offset)) }
    ensures in_range { marks < 2 ^ 128 }
{
    let mut rules = Active::empty();
    for rule in 0..64 {
        if marks.has(2 * rule + offset) {
            rules = rules.with(rule);
        }
    }
    rules
}

impl Pair {
    /// The pair with these marks.
    pub fn new(marks: Marks) -> Pair
        ensures { result ≡ marks }
    {
        Pair { marks }
    }

    /// The marks of the pair.
    pub fn marks(&self) -> Marks
        ensures { result ≡ self.now }
    {
        self.marks
    }

    /// The rules of the first set: those whose mark 2r is in the pair.
    pub fn removed(&self) -> Active
        ensures { result ≡ removed_of self.now }
    {
        part(self.marks, 0)
    }

    /// The rules of the second set: those whose mark 2r+1 is in the pair.
    pub fn forced(&self) -> Active
        ensures { result ≡ forced_of self.now }
    {
        part(self.marks, 1)
    }
}
