//! Antichains: lists of sets of which none lies within another.

ghost use Rattle.std.specs.Prelude.{◌≡◌, ◌≤◌, ◌<◌, ◌+◌, ◌++◌, [], ◌∷◌, ◌↔◌, IsTrue, OnOk, OnErr};
ghost use Rattle.std.specs.Prelude.{IfOk};
ghost use Rattle.std.specs.Bool.{MatchBool};
ghost use Rattle.mcs_base.specs.Antichains.{IsAntichain, HasOneWithin, not_containing};

use crate::kinds::Marks;
use crate::memory::Memory;
use std::alloc::Global;
use std::marker::Model;

/// The minimal ones of the sets that were inserted, each once. The model is the list of them, and
/// the number of sets for which there is room without more memory.
#[derive(Debug)]
pub struct Antichain {
    sets: Vec<Marks>,
}

impl Drop for Antichain {
    fn drop(self) {
        let Antichain { sets: _ } = self;
    }
}

impl Model for Antichain {
    ghost use Rattle.std.specs.Prelude.{◌-◌};
    ghost use Rattle.mcs_base.specs.Antichains.{IsAntichain, SpareAntichain};

    ghost Value = { SpareAntichain };

    ghost view = { λ a. record { members = a.sets.items; spare = a.sets.cap - a.sets.len } };

    ghost invariant = { λ a. IsAntichain a.sets.items };
}

/// Whether one of the sets lies within `m`.
fn has_one_within(sets: &[Marks], m: Marks) -> bool
    ensures { IsTrue result ↔ HasOneWithin sets.now m }
{
    for set in sets {
        if set.within(m) {
            return true;
        }
    }
    false
}

impl Antichain {
    /// The empty antichain. No memory is needed.
    pub fn new(alloc: Global) -> Antichain
        ensures { result ≡ record { members = []; spare = 0 } }
    {
        Antichain {
            sets: Vec::new(alloc),
        }
    }

    /// Makes room for at least `n` more members. If there is no memory for them, everything is as
    /// before.
    pub fn reserve(&mut self, n: usize) -> Result<(), Memory>
        ensures members { self.new.members ≡ self.old.members }
        ensures ok { OnOk result (n ≤ self.new.spare) }
        ensures grows { self.old.spare ≤ self.new.spare }
        ensures err { OnErr result ((self.new ≡ self.old) × (self.old.spare < n)) }
    {
        self.sets.reserve(n)?;
        Ok(())
    }

    /// Appends the set, and removes the members that contain it; the others stay in their order.
    /// Returns false exactly if a member lies within the set; then nothing changes. Memory is
    /// allocated only if there is no room to spare. If it is refused, everything is as before.
    pub fn insert_min(&mut self, m: Marks) -> Result<bool, Memory>
        ensures answer { IfOk result (λ added. MatchBool added
            ((¬ HasOneWithin self.old.members m)
            × (self.new.members ≡ not_containing m self.old.members ++ m ∷ []))
            (HasOneWithin self.old.members m × (self.new ≡ self.old))) }
        ensures spare { self.old.spare ≤ self.new.spare + 1 }
        ensures err { OnErr result ((self.new ≡ self.old) × (self.old.spare ≡ 0)) }
    {
        if has_one_within(&self.sets, m) {
            return Ok(false);
        }
        self.sets.reserve(1)?;
        self.sets.retain(|set| !m.within(*set));
        self.sets.push(m)?;
        Ok(true)
    }

    /// The members, in the order in which they were inserted.
    pub fn members(&self) -> &[Marks]
        ensures value { result.now ≡ self.now.members }
        ensures antichain { IsAntichain self.now.members }
    {
        &self.sets
    }
}
