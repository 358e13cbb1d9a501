//! The trail: the literals that are true, in their order.

ghost use Rattle.std.specs.Prelude.{◌≡◌, ℕ, ◌++◌, ◌∷◌, [], ◌<◌, ◌≤◌, ◌+◌, ◌^◌, length};
ghost use Rattle.std.specs.Prelude.{unsigned_abs, neg_ℤ, take, ◌↔◌, IsTrue, MatchOption, IfOk};
ghost use Rattle.std.specs.Prelude.{OnOk, OnErr};
ghost use Rattle.std.specs.Bool.{MatchBool};
ghost use Rattle.mcs_engine.specs.Trails.{ArePlaced, AreAssigned, IsFree, IsLiteralOver, IsOn};
ghost use Rattle.mcs_engine.specs.Trails.{StandsAt, StandsNowhere, literal_at, reason_at};

use mcs_base::Memory;
use std::alloc::Global;

/// A literal that is true; its reason, which is 0 for a decision, and otherwise the number of a
/// clause whose other literals were false before it; and its level, the number of decisions up to
/// it.
#[derive(Clone, Copy)]
pub struct Entry {
    pub literal: i64,
    pub reason: u64,
    pub level: usize,
}

/// The literals that are true, and for each variable the place at which it was last put.
#[derive(Drop)]
pub struct Trail {
    pub entries: Vec<Entry>,
    pub positions: Vec<usize>,
    pub ghost placed: { ArePlaced entries.items positions.items },
    pub ghost some: { 0 < length positions.items },
    pub ghost fits: { length positions.items ≤ 2 ^ 63 },
}

impl Trail {
    /// The trail without literals, for the variables 1 to `vars`.
    pub fn new(alloc: Global, vars: u64) -> Result<Trail, Memory>
        requires { vars < 2 ^ 63 }
        ensures entries { IfOk result (λ t. t.entries.items ≡ []) }
        ensures positions { IfOk result (λ t. length t.positions.items ≡ vars + 1) }
    {
        Ok(Trail {
            entries: Vec::new(alloc),
            positions: vec![in alloc; 0; vars as usize + 1]?,
        })
    }

    /// The place of the literal's variable, if it has a value.
    pub fn position(&self, literal: i64) -> Option<usize>
        requires { unsigned_abs literal < length self.now.positions.items }
        ensures { MatchOption result
            (StandsNowhere self.now.entries.items (unsigned_abs literal))
            (StandsAt self.now.entries.items (unsigned_abs literal)) }
    {
        let position = self.positions[literal.unsigned_abs() as usize];
        if position >= self.entries.len() {
            return None;
        }
        if self.entries[position].literal.unsigned_abs() == literal.unsigned_abs() {
            Some(position)
        } else {
            None
        }
    }

    /// The value of the literal, if it has one.
    pub fn value(&self, literal: i64) -> Option<bool>
        requires { IsLiteralOver self.now.positions.items literal }
        ensures { MatchOption result
            (StandsNowhere self.now.entries.items (unsigned_abs literal))
            (λ value. MatchBool value (IsOn self.now.entries.items literal)
            (IsOn self.now.entries.items (neg_ℤ literal))) }
    {
        let position = self.position(literal)?;
        Some(self.entries[position].literal == literal)
    }

    /// Whether the literal is true.
    pub fn is_true(&self, literal: i64) -> bool
        requires { IsLiteralOver self.now.positions.items literal }
        ensures { IsTrue result ↔ IsOn self.now.entries.items literal }
    {
        self.value(literal).unwrap_or(false)
    }

    /// Whether the literal is false.
    pub fn is_false(&self, literal: i64) -> bool
        requires { IsLiteralOver self.now.positions.items literal }
        ensures { IsTrue result ↔ IsOn self.now.entries.items (neg_ℤ literal) }
    {
        !self.value(literal).unwrap_or(true)
    }

    /// The negation of the literal at the place.
    pub fn negated(&self, place: usize) -> i64
        requires { place < length self.now.entries.items }
        ensures { result ≡ neg_ℤ (literal_at self.now.entries.items place) }
    {
        -self.entries[place].literal
    }

    /// Makes the literal true. Its variable must have no value.
    pub fn push(&mut self, literal: i64, reason: u64, level: usize) -> Result<(), Memory>
        requires { IsFree self.old.entries.items self.old.positions.items literal }
        ensures entries { OnOk result
            (self.new.entries.items ≡ self.old.entries.items
            ++ record { literal = literal; reason = reason; level = level } ∷ []) }
        ensures err { OnErr result (self.new.entries.items ≡ self.old.entries.items) }
        ensures positions { length self.new.positions.items ≡ length self.old.positions.items }
    {
        let position = self.entries.len();
        self.entries.push(Entry {
            literal,
            reason,
            level,
        })?;
        self.positions[literal.unsigned_abs() as usize] = position;
        Ok(())
    }

    /// Takes back the literals from the place on.
    pub fn back(&mut self, place: usize)
        ensures entries { self.new.entries.items ≡ take place self.old.entries.items }
        ensures positions { self.new.positions.items ≡ self.old.positions.items }
    {
        self.entries.truncate(place);
    }

    /// Adds an entry for one more variable.
    pub fn widen(&mut self) -> Result<(), Memory>
        requires { length self.old.positions.items < 2 ^ 63 }
        ensures ok { OnOk result (self.new.positions.items ≡ self.old.positions.items ++ 0 ∷ []) }
        ensures err { OnErr result (self.new.positions.items ≡ self.old.positions.items) }
        ensures entries { self.new.entries.items ≡ self.old.entries.items }
    {
        self.positions.push(0)?;
        Ok(())
    }

    /// How many literals come before the first one whose reason has a number above `number`.
    pub fn explained_within(&self, number: usize) -> usize
        ensures bound { result ≤ length self.now.entries.items }
        ensures reasons { (i : ℕ) → i < result → reason_at self.now.entries.items i ≤ number }
        ensures first { result < length self.now.entries.items
            → number < reason_at self.now.entries.items result }
    {
        for (place, entry) in self.entries.iter().enumerate() {
            if entry.reason > number as u64 {
                return place;
            }
        }
        self.entries.len()
    }

    /// The first variable from this number on that has no value.
    pub fn first_free(&self, from: usize) -> Option<i64>
        requires { 0 < from }
        ensures { MatchOption result
            (AreAssigned self.now.entries.items from (length self.now.positions.items))
            (IsFree self.now.entries.items self.now.positions.items) }
    {
        for variable in from..self.positions.len() {
            let literal = variable as i64;
            if self.position(literal).is_none() {
                return Some(literal);
            }
        }
        None
    }
}
