//! The chains of the clauses of a solver.

ghost use Rattle.std.specs.Prelude.{◌≡◌, List, [], ◌∷◌, ◌++◌, ◌+◌, ◌<◌, take, length, slice_get};
ghost use Rattle.std.specs.Prelude.{Some, OnOk, OnErr};
ghost use Rattle.mcs_engine.specs.Chains.{AreSpaced, IsCut};
ghost use Rattle.mcs_engine.specs.Stores.{given_count};

use mcs_base::{Memory, Rows};
use std::alloc::Global;
use std::marker::Model;

/// For each clause its chain, which is empty if the clause was given. Only the chains of learnt
/// clauses are stored, each with the index of its clause. The model is the list of all chains.
pub struct Chains {
    count: usize,
    learnt: Vec<usize>,
    rows: Rows<u64>,
}

impl Drop for Chains {
    fn drop(self) {
        let Chains {
            count: _,
            learnt: _,
            rows: _,
        } = self;
    }
}

impl Model for Chains {
    ghost use Rattle.std.specs.Prelude.{◌<◌, ◌^◌, List, ℕ};
    ghost use Rattle.mcs_engine.specs.Chains.{AreLearnt, spread};

    ghost Value = { List (List ℕ) };

    ghost view = { λ c. spread 0 c.count c.learnt.items c.rows };

    ghost invariant = { λ c. (c.count < 2 ^ 64) × AreLearnt 0 c.count c.learnt.items c.rows };
}

/// How many of the indices, which ascend, come before `index`.
fn before(indices: &[usize], index: usize) -> usize
    requires { AreSpaced indices.now }
    ensures { IsCut indices.now result index }
{
    match indices.binary_search(&index) {
        Ok(place) => place,
        Err(place) => place,
    }
}

/// How many of the learnt clauses, whose indices ascend, come before the given clause that follows
/// `number` other given ones.
fn before_given(learnt: &[usize], number: usize) -> usize
    requires { AreSpaced learnt.now }
    ensures { IsCut learnt.now result (number + result) }
{
    let mut low = 0;
    let mut high = learnt.len();
    while low < high {
        let middle = low + (high - low) / 2;
        if learnt[middle] - middle > number {
            high = middle;
        } else {
            low = middle + 1;
        }
    }
    low
}

impl Chains {
    /// No chains. No memory is needed.
    pub fn new(alloc: Global) -> Chains
        ensures { result ≡ [] }
    {
        Chains {
            count: 0,
            learnt: Vec::new(alloc),
            rows: Rows::new(alloc),
        }
    }

    /// How many chains there are.
    pub fn len(&self) -> usize
        ensures { result ≡ length self.now }
    {
        self.count
    }

    /// The number of given clauses.
    pub fn given(&self) -> usize
        ensures { result ≡ given_count self.now }
    {
        self.count - self.learnt.len()
    }

    /// Appends a chain. An empty one takes no memory. If memory runs out, the chains are as before.
    pub fn push(&mut self, chain: &[u64]) -> Result<(), Memory>
        ensures ok { OnOk result (self.new ≡ self.old ++ chain.now ∷ []) }
        ensures err { OnErr result (self.new ≡ self.old) }
    {
        let Some(count) = self.count.checked_add(1) else {
            return Err(Memory);
        };
        if chain.is_empty() {
            self.count = count;
            return Ok(());
        }
        self.learnt.push(self.count)?;
        match self.rows.push(chain) {
            Ok(()) => {
                self.count = count;
                Ok(())
            }
            Err(error) => {
                self.learnt.pop();
                Err(error)
            }
        }
    }

    /// The chain at the index.
    pub fn row(&self, index: usize) -> &[u64]
        requires { index < length self.now }
        ensures { slice_get self.now index ≡ Some result.now }
    {
        match self.learnt.binary_search(&index) {
            Ok(place) => self.rows.row(place),
            Err(_) => &[],
        }
    }

    /// The index of the first of the last `most` learnt clauses.
    pub fn last_from(&self, most: usize) -> usize {
        let before = self.learnt.len().saturating_sub(most);
        self.learnt.get(before).copied().unwrap_or(self.count)
    }

    /// The index of the given clause that follows `number` other given ones.
    pub fn place_of(&self, number: usize) -> usize
        requires { number < given_count self.now }
        ensures within { result < length self.now }
        ensures number { given_count (take result self.now) ≡ number }
    {
        number + before_given(&self.learnt, number)
    }

    /// Keeps the first `count` chains, if there are more. No memory is needed.
    pub fn truncate(&mut self, count: usize)
        ensures { self.new ≡ take count self.old }
    {
        if count < self.count {
            let stays = before(&self.learnt, count);
            self.learnt.truncate(stays);
            self.rows.truncate(stays);
            self.count = count;
        }
    }
}
