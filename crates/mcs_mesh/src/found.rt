//! The minimal diagnoses that were found.

ghost use Rattle.std.specs.Prelude.{◌≡◌, ◌<◌, ◌≤◌, ℕ, true, false, Some, IfOk, OnOk, length};
ghost use Rattle.mcs_base.specs.Listings.{IsAmong, IsAscending, IsListing};
ghost use Rattle.mcs_sets.specs.Orders.{PairBefore};
ghost use Rattle.mcs_sets.specs.Sets.{size};
ghost use Rattle.mcs_states.specs.Evaluators.{AreRepairs};
ghost use Rattle.mcs_costs.specs.Settling.{IsSettling};
ghost use Rattle.mcs_mesh.specs.Found.{AreRepairsFound};
ghost use Rattle.mcs_mesh.specs.Players.{known_to};
ghost use Rattle.mcs_mesh.specs.Rounds.{AreKnown};

use crate::cheapest::{cheapest_of, settling_among};
use crate::lasting::level_ahead;
use crate::nodes::NodeList;
use mcs_base::{Marks, Memory};
use mcs_costs::Settling;
use mcs_import::Plan;
use mcs_joint::{few_repairs_in, repairs_in};
use std::alloc::Global;

/// So many of the minimal diagnoses that are known are looked for at most in the marks of each row.
const MOST_LOOKED_FOR: usize = 128;

/// The minimal diagnoses with at most so many marks, in the order of pairs; none where no level is
/// told.
#[derive(Drop)]
pub(crate) struct Found {
    pub level: Option<u32>,
    pub pairs: Vec<Marks>,
    /// Whether there were too many to be listed where the cheapest ones were looked for.
    pub many: bool,
}

/// Whether this level, if there is one, is no less than the other.
pub(crate) fn is_reached(done: Option<u32>, level: u32) -> bool
    ensures yes { result ≡ true → (d : ℕ) × (done ≡ Some d) × (level ≤ d) }
    ensures not { result ≡ false → (d : ℕ) → done ≡ Some d → d < level }
{
    match done {
        Some(done) => level <= done,
        None => false,
    }
}

impl Found {
    /// The minimal diagnoses with at most so many marks, in the order of pairs: those that were
    /// found before, where these are all. All questions of the level `done`, which is no less, were
    /// asked.
    pub(crate) fn repairs<N: NodeList>(
        &mut self,
        alloc: Global,
        plan: &Plan,
        nodes: &N,
        done: u32,
        level: u32,
    ) -> Result<Vec<Marks>, Memory>
        requires before { AreRepairsFound plan.now self.old.level self.old.pairs.items }
        requires one_each { length (N.seen nodes.now) ≡ length plan.now.contexts }
        requires known { AreKnown plan.now done (known_to (N.seen nodes.now)) }
        requires within { level ≤ done }
        ensures listing { IfOk result (λ pairs. AreRepairs plan.now level pairs.items) }
        ensures kept { AreRepairsFound plan.now self.new.level self.new.pairs.items }
    {
        if !is_reached(self.level, level) {
            self.find(alloc, plan, nodes, done, level)?;
        }
        let few = few_of(alloc, &self.pairs, level)?;
        Ok(few)
    }

    /// Finds the minimal diagnoses with at most so many marks, or more of them at once. Those that
    /// were found before have no more, and are not found anew.
    fn find<N: NodeList>(
        &mut self,
        alloc: Global,
        plan: &Plan,
        nodes: &N,
        done: u32,
        level: u32,
    ) -> Result<(), Memory>
        requires before { AreRepairsFound plan.now self.old.level self.old.pairs.items }
        requires one_each { length (N.seen nodes.now) ≡ length plan.now.contexts }
        requires known { AreKnown plan.now done (known_to (N.seen nodes.now)) }
        requires within { level ≤ done }
        requires lower { (d : ℕ) → self.old.level ≡ Some d → d ≤ level }
        ensures found { OnOk result ((d : ℕ) × (self.new.level ≡ Some d) × (level ≤ d)) }
        ensures kept { AreRepairsFound plan.now self.new.level self.new.pairs.items }
    {
        let ahead = level_ahead(plan.system(), level);
        let looked_for = &self.pairs[..self.pairs.len().min(MOST_LOOKED_FOR)];
        let tables = nodes.minimal_tables(alloc, plan, done, looked_for)?;
        let pairs = repairs_in(alloc, plan, &tables, ahead, looked_for)?;
        self.pairs = pairs;
        self.level = Some(ahead);
        Ok(())
    }

    /// The cheapest diagnoses, in the order of pairs, if they are known from the questions of the
    /// level; otherwise a level, this one or a higher one, of which none settles a diagnosis, and
    /// the cheapest of those that are known. They are taken of the minimal diagnoses, unless these
    /// are too many. All questions of the level `done`, which is no less, were asked.
    pub(crate) fn cheapest<N: NodeList>(
        &mut self,
        alloc: Global,
        plan: &Plan,
        nodes: &N,
        done: u32,
        level: u32,
    ) -> Result<Settling, Memory>
        requires before { AreRepairsFound plan.now self.old.level self.old.pairs.items }
        requires one_each { length (N.seen nodes.now) ≡ length plan.now.contexts }
        requires known { AreKnown plan.now done (known_to (N.seen nodes.now)) }
        requires within { level ≤ done }
        ensures told { IfOk result (IsSettling plan.now level) }
        ensures kept { AreRepairsFound plan.now self.new.level self.new.pairs.items }
    {
        if !self.many && !is_reached(self.level, level) {
            self.find_few(alloc, plan, nodes, done, level)?;
        }
        if is_reached(self.level, level) {
            let found = self.level.unwrap_or(level);
            return settling_among(alloc, plan.system(), &self.pairs, found, level);
        }
        cheapest_of(alloc, plan, nodes, done, level)
    }

    /// Finds what `find` finds, unless there is too much of it.
    fn find_few<N: NodeList>(
        &mut self,
        alloc: Global,
        plan: &Plan,
        nodes: &N,
        done: u32,
        level: u32,
    ) -> Result<(), Memory>
        requires before { AreRepairsFound plan.now self.old.level self.old.pairs.items }
        requires one_each { length (N.seen nodes.now) ≡ length plan.now.contexts }
        requires known { AreKnown plan.now done (known_to (N.seen nodes.now)) }
        requires within { level ≤ done }
        requires lower { (d : ℕ) → self.old.level ≡ Some d → d ≤ level }
        ensures { AreRepairsFound plan.now self.new.level self.new.pairs.items }
    {
        let ahead = level_ahead(plan.system(), level);
        let looked_for = &self.pairs[..self.pairs.len().min(MOST_LOOKED_FOR)];
        let tables = nodes.minimal_tables(alloc, plan, done, looked_for)?;
        match few_repairs_in(alloc, plan, &tables, ahead, looked_for)? {
            Some(pairs) => {
                self.pairs = pairs;
                self.level = Some(ahead);
            }
            None => self.many = true,
        }
        Ok(())
    }
}

/// Those of the sets of marks that have at most so many.
pub(crate) fn few_of(alloc: Global, pairs: &[Marks], level: u32) -> Result<Vec<Marks>, Memory>
    requires { IsAscending PairBefore pairs.now }
    ensures { IfOk result (λ few. IsListing (λ p. IsAmong p pairs.now × (size p ≤ level))
        PairBefore few.items) }
{
    let mut few = Vec::new(alloc);
    for marks in pairs {
        if marks.count() <= level {
            few.push(*marks)?;
        }
    }
    Ok(few)
}
