//! The watched literals: which clauses watch a literal.

ghost use Rattle.std.specs.Prelude.{◌≡◌, ℕ, ◌+◌, ◌<◌, ◌^◌, [], length, take, MatchOption};
ghost use Rattle.std.specs.Prelude.{OnOk, OnErr, IfSome, filter, ltb};
ghost use Rattle.mcs_trace.specs.Clauses.{IsLiteral};
ghost use Rattle.mcs_engine.specs.Lists.{KeepsLists, list_at};
ghost use Rattle.mcs_engine.specs.Watching.{IsOf, IsPairOf, IsPushed, SameWatched};

use crate::lists::Lists;
use crate::pairs::Pairs;
use mcs_base::Memory;
use std::alloc::Global;

/// The two literals that a clause watches.
#[derive(Clone, Copy)]
pub struct Pair {
    pub first: i64,
    pub second: i64,
}

/// The pair of a clause that watches nothing.
pub(crate) const NO_PAIR: Pair = Pair {
    first: 0,
    second: 0,
};

impl Pair {
    /// The one of the two literals that `literal` is not, or `None` if it is neither.
    pub fn other(self, literal: i64) -> Option<i64>
        ensures { MatchOption result (¬ IsOf literal self) (IsPairOf self literal) }
    {
        if self.first == literal {
            Some(self.second)
        } else if self.second == literal {
            Some(self.first)
        } else {
            None
        }
    }
}

/// For each of the first clauses, by its index, the two literals that it watches. For each literal,
/// by its place, the indices of clauses, among them those that watch it. Also the indices of
/// clauses, among them those of fewer than two literals.
pub struct Watches {
    pub pairs: Pairs,
    pub lists: Lists,
    pub short: Vec<usize>,
}

impl Drop for Watches {
    fn drop(self) {
        let Watches {
            pairs: _,
            lists: _,
            short: _,
        } = self;
    }
}

impl Watches {
    /// No clauses.
    pub fn new(alloc: Global) -> Watches
        ensures lists { (p : ℕ) → list_at result.lists p ≡ [] }
        ensures pairs { result.pairs ≡ [] }
        ensures short { result.short.items ≡ [] }
    {
        Watches {
            pairs: Pairs::new(alloc),
            lists: Lists::new(alloc),
            short: Vec::new(alloc),
        }
    }

    /// Adds the next clause, which watches the pair; without a pair it has fewer than two literals.
    /// If memory runs out, no clause is added.
    pub fn push(&mut self, pair: Option<Pair>) -> Result<(), Memory>
        requires literals { IfSome pair (λ p. IsLiteral p.first × IsLiteral p.second) }
        requires fits { length self.old.pairs + 1 < 2 ^ 64 }
        ensures kept { KeepsLists self.old.lists self.new.lists }
        ensures pushed { OnOk result (IsPushed self.old self.new pair) }
        ensures err { OnErr result (SameWatched self.old self.new) }
    {
        let index = self.pairs.len();
        match pair {
            Some(pair) => {
                self.lists.add(pair.first, index)?;
                self.lists.add(pair.second, index)?;
                self.pairs.push(pair)?;
            }
            None => {
                self.short.push(index)?;
                if let Err(error) = self.pairs.push_none() {
                    self.short.pop();
                    return Err(error);
                }
            }
        }
        Ok(())
    }

    /// Keeps the first `count` clauses, and the short ones among them. Indices of other clauses in
    /// the lists are skipped.
    pub fn cut(&mut self, count: usize)
        ensures pairs { self.new.pairs ≡ take count self.old.pairs }
        ensures short { self.new.short.items ≡ filter (λ i. ltb i count) self.old.short.items }
        ensures lists { self.new.lists ≡ self.old.lists }
    {
        self.pairs.truncate(count);
        self.short.retain(|index| *index < count);
    }

    /// Removes all clauses.
    pub fn clear(&mut self)
        ensures pairs { self.new.pairs ≡ [] }
        ensures short { self.new.short.items ≡ [] }
    {
        self.pairs.truncate(0);
        self.lists.clear();
        self.short.truncate(0);
    }
}
