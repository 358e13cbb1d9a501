//! The watched literals of each clause, by the index of the clause.

ghost use Rattle.std.specs.Prelude.{◌≡◌, ◌≢◌, ◌+◌, ◌<◌, ◌^◌, ◌++◌, ◌∷◌, [], length, set, take};
ghost use Rattle.std.specs.Prelude.{slice_get, Some, OnOk, OnErr};
ghost use Rattle.mcs_engine.specs.Pairs.{no_pair};

use crate::watches::{NO_PAIR, Pair};
use mcs_base::Memory;
use std::alloc::Global;
use std::marker::Model;

/// For each clause the pair of literals that it watches. A clause that watches nothing has a pair
/// of no literals; it takes no memory before the first clause that watches something.
pub struct Pairs {
    none: usize,
    rest: Vec<Pair>,
}

impl Drop for Pairs {
    fn drop(self) {
        let Pairs { none: _, rest: _ } = self;
    }
}

impl Model for Pairs {
    ghost use Rattle.std.specs.Prelude.{List, length, ◌+◌, ◌<◌, ◌^◌, ◌++◌};
    ghost use Rattle.mcs_engine.specs.declared.watches.Pair.{Pair};
    ghost use Rattle.mcs_engine.specs.Pairs.{no_pairs};

    ghost Value = { List Pair };

    ghost view = { λ p. no_pairs p.none ++ p.rest.items };

    ghost invariant = { λ p. p.none + length p.rest.items < 2 ^ 64 };
}

impl Pairs {
    /// No pairs.
    pub fn new(alloc: Global) -> Pairs
        ensures { result ≡ [] }
    {
        Pairs {
            none: 0,
            rest: Vec::new(alloc),
        }
    }

    /// The number of pairs.
    pub fn len(&self) -> usize
        ensures { result ≡ length self.now }
    {
        self.none + self.rest.len()
    }

    /// The pair at the index.
    pub fn get(&self, index: usize) -> Pair
        requires { index < length self.now }
        ensures { slice_get self.now index ≡ Some result }
    {
        if index < self.none {
            NO_PAIR
        } else {
            self.rest[index - self.none]
        }
    }

    /// Replaces the pair at the index, which must not be a pair of no literals.
    pub fn set(&mut self, index: usize, pair: Pair)
        requires within { index < length self.old }
        requires some { slice_get self.old index ≢ Some no_pair }
        ensures { self.new ≡ set self.old index pair }
    {
        let at = index - self.none;
        self.rest[at] = pair;
    }

    /// Appends a pair.
    pub fn push(&mut self, pair: Pair) -> Result<(), Memory>
        requires { length self.old + 1 < 2 ^ 64 }
        ensures ok { OnOk result (self.new ≡ self.old ++ pair ∷ []) }
        ensures err { OnErr result (self.new ≡ self.old) }
    {
        self.rest.push(pair)?;
        Ok(())
    }

    /// Appends a pair of no literals.
    pub fn push_none(&mut self) -> Result<(), Memory>
        requires { length self.old + 1 < 2 ^ 64 }
        ensures ok { OnOk result (self.new ≡ self.old ++ no_pair ∷ []) }
        ensures err { OnErr result (self.new ≡ self.old) }
    {
        if self.rest.is_empty() {
            self.none += 1;
            return Ok(());
        }
        self.push(NO_PAIR)
    }

    /// Keeps the first `count` pairs.
    pub fn truncate(&mut self, count: usize)
        ensures { self.new ≡ take count self.old }
    {
        self.rest.truncate(count.saturating_sub(self.none));
        self.none = self.none.min(count);
    }
}
