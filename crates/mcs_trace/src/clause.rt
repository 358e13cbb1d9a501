//! Clauses: ordered sets of literals.

ghost use Rattle.std.specs.Prelude.{◌≡◌, ◌⊎◌, ◌↔◌, ◌<◌, ◌≤◌, ℕ, pos, IsTrue, MatchOption, OnOk};
ghost use Rattle.std.specs.Prelude.{OnErr, [], length, slice_index_or};
ghost use Rattle.mcs_base.specs.Listings.{IsAmong, IsListing};
ghost use Rattle.mcs_trace.specs.Clauses.{IsClause, IsLiteral, LiteralBefore, place};

use crate::literal::{is_at, is_literal, place};
use mcs_base::Memory;
use std::alloc::Global;
use std::marker::Model;

/// A set of literals. The literal n says that variable n is true, and -n that it is false; n is
/// from 1 to 2^63-1. The literals are ordered by variable, with the positive literal of a variable
/// first. Each occurs once.
pub struct Clause {
    lits: Vec<i64>,
}

impl Drop for Clause {
    fn drop(self) {
        let Clause { lits: _ } = self;
    }
}

impl Model for Clause {
    ghost use Rattle.std.specs.Prelude.{List, ℤ};
    ghost use Rattle.mcs_trace.specs.Clauses.{IsClause};

    ghost Value = { List ℤ };

    ghost view = { λ c. c.lits.items };

    ghost invariant = { λ c. IsClause c.lits.items };
}

/// Whether the numbers are literals in strictly ascending order.
fn is_clause(lits: &[i64]) -> bool
    ensures { IsTrue result ↔ IsClause lits.now }
{
    let mut last = 0;
    for literal in lits {
        if !is_literal(*literal) || place(*literal) <= last {
            return false;
        }
        last = place(*literal);
    }
    true
}

/// How many literals of the clause come before the literal.
fn place_in(lits: &[i64], literal: i64) -> usize
    requires clause { IsClause lits.now }
    requires literal { IsLiteral literal }
    ensures bound { result ≤ length lits.now }
    ensures before { (k : ℕ) → k < result
        → place (slice_index_or lits.now k (pos 0)) < place literal }
    ensures after { result < length lits.now
        → place literal ≤ place (slice_index_or lits.now result (pos 0)) }
{
    let mut index = 0;
    while index < lits.len() && place(lits[index]) < place(literal) {
        index += 1;
    }
    index
}

impl Clause {
    /// The clause of these literals, or `None` exactly if they are not in strict order or one of
    /// them is not a literal.
    pub fn new(lits: Vec<i64>) -> Option<Clause>
        ensures { MatchOption result (¬ IsClause lits.items) (λ c. (c ≡ lits.items) × IsClause c) }
    {
        if is_clause(&lits) {
            Some(Clause { lits })
        } else {
            None
        }
    }

    /// The empty clause, which no assignment satisfies.
    pub fn empty(alloc: Global) -> Clause
        ensures { result ≡ [] }
    {
        Clause {
            lits: Vec::new(alloc),
        }
    }

    /// Adds the literal, in time linear in the number of literals. If memory runs out, the clause
    /// is as before.
    pub fn insert(&mut self, literal: i64) -> Result<(), Memory>
        requires { IsLiteral literal }
        ensures ok { OnOk result (IsListing (λ l. (l ≡ literal) ⊎ IsAmong l self.old) LiteralBefore
            self.new) }
        ensures err { OnErr result (self.new ≡ self.old) }
    {
        let index = place_in(&self.lits, literal);
        if !is_at(&self.lits, index, literal) {
            self.lits.insert(index, literal)?;
        }
        Ok(())
    }

    /// The literals, in order.
    pub fn literals(&self) -> &[i64]
        ensures value { result.now ≡ self.now }
        ensures clause { IsClause self.now }
    {
        &self.lits
    }

    /// Whether there are no literals.
    pub fn is_empty(&self) -> bool
        ensures { IsTrue result ↔ (self.now ≡ []) }
    {
        self.lits.is_empty()
    }
}
