//! A default theory that is asked with many sets of assumptions.

ghost use Rattle.std.specs.Prelude.{◌≡◌, ◌≤◌, ◌<◌, List, length, map, IfOk, OnOk};
ghost use Rattle.mcs_sets.specs.Orders.{StateBefore};
ghost use Rattle.mcs_base.specs.Listings.{IsListing};
ghost use Rattle.mcs_system.specs.Logic.{with_heads};
ghost use Rattle.mcs_system.specs.Plain.{DefaultTheory};
ghost use Rattle.mcs_system.specs.Plain as plain;
ghost use Rattle.mcs_system.specs.Seen.{item_of};
ghost use Rattle.mcs_system.specs.Views.{IsAcceptedView};
ghost use Rattle.mcs_classical.specs.Given.{given_names, given_beliefs, given_with};
ghost use Rattle.mcs_classical.specs.declared.assumptions.Assumption as declared;
ghost use Rattle.mcs_evidence.specs.Defaults.{AreOverItems, defaults_of};
ghost use Rattle.mcs_default.specs.Searches.{AreRightFindings, IsLower};
ghost use Rattle.mcs_default.specs.Keeping.{items_with, IsTheoryBase};

use crate::findings::{Findings, Lower};
use crate::kept::{
    KeptConflict, KeptLower, KeptUpper, keep_conflicts, keep_lower, keep_upper, select_conflicts,
    select_lower, select_upper,
};
use crate::listing::list_with;
use crate::said::lower_of_said;
use crate::theory::facts_base;
use mcs_base::{Active, Memory, Vars};
use mcs_classical::{Given, assumed};
use mcs_system::{Name, TheoryItem};
use std::alloc::Global;

/// A default theory that is asked for its extensions with one set of assumptions after the other:
/// the clauses of its facts, ready for searches, and what was found with these sets.
pub struct TheoryBase {
    findings: Findings,
    lower: Vec<KeptLower>,
    upper: Vec<KeptUpper>,
    conflicts: Vec<KeptConflict>,
}

impl Drop for TheoryBase {
    fn drop(self) {
        let TheoryBase {
            findings: _,
            lower: _,
            upper: _,
            conflicts: _,
        } = self;
    }
}

/// How much is selected of what is kept.
#[derive(Clone, Copy)]
struct Selected {
    lower: usize,
    upper: usize,
    conflicts: usize,
}

impl TheoryBase {
    /// The theory of these items, with which nothing was found yet. All atoms are among these, at
    /// most 64.
    pub fn new(alloc: Global, items: &[TheoryItem], atoms: &[Name]) -> Result<TheoryBase, Memory>
        requires few { length atoms.now ≤ 64 }
        requires items { AreOverItems atoms.now (map item_of items.now) }
        ensures { IfOk result (λ base. (given : List declared.Assumption)
            → IsTheoryBase atoms.now (map item_of items.now) given base) }
    {
        let facts = facts_base(alloc, items, atoms)?;
        Ok(TheoryBase {
            findings: Findings::new(alloc, facts),
            lower: Vec::new(alloc),
            upper: Vec::new(alloc),
            conflicts: Vec::new(alloc),
        })
    }

    /// Takes what tells of this set of assumptions, and what these say themselves.
    fn select(&mut self, set: Active, said: Lower) -> Result<Selected, Memory>
        ensures facts { self.new.findings.facts ≡ self.old.findings.facts }
        ensures lower { self.new.lower ≡ self.old.lower }
        ensures upper { self.new.upper ≡ self.old.upper }
        ensures conflicts { self.new.conflicts ≡ self.old.conflicts }
        ensures right { OnOk result ((names : List plain.Name) (items : List plain.Item)
            (given : List declared.Assumption) → IsTheoryBase names items given self.old
            → IsLower (items_with items given set) said
            → AreRightFindings names (items_with items given set) self.new.findings) }
    {
        select_lower(&self.lower, set, &mut self.findings.lower)?;
        self.findings.lower.push(said)?;
        select_upper(&self.upper, set, &mut self.findings.upper)?;
        select_conflicts(&self.conflicts, set, &mut self.findings.conflicts)?;
        Ok(Selected {
            lower: self.findings.lower.len(),
            upper: self.findings.upper.len(),
            conflicts: self.findings.conflicts.len(),
        })
    }

    /// Keeps what was found with this set of assumptions, beside what was selected; where memory
    /// runs out, a part of it.
    fn keep(&mut self, selected: Selected, given: &Given<'_>, set: Active) -> Result<(), Memory>
        ensures { (items : List plain.Item) → IsTheoryBase
            (given_names given.now) items given.now.assumptions.now self.old
            → AreRightFindings (given_names given.now)
            (items_with items given.now.assumptions.now set) self.old.findings
            → IsTheoryBase (given_names given.now) items given.now.assumptions.now self.new }
    {
        keep_lower(&self.findings.lower, selected.lower, set, &mut self.lower)?;
        keep_upper(&self.findings.upper, selected.upper, given, &mut self.upper)?;
        keep_conflicts(
            &self.findings.conflicts,
            selected.conflicts,
            set,
            &mut self.conflicts,
        )
    }

    /// The views of the extensions of the theory with some of the assumptions as facts: those whose
    /// numbers are in the set. The view of an extension is the set of the numbers, from 0, of the
    /// beliefs that it has. Each view is listed once, in the order of states. There are at most 10
    /// defaults. What is found serves for the sets that come later; where memory runs out, what is
    /// kept stays right.
    pub fn list_extensions(
        &mut self,
        alloc: Global,
        items: &[TheoryItem],
        given: &Given<'_>,
        set: Active,
    ) -> Result<Vec<Vars>, Memory>
        requires few_defaults { length (defaults_of (map item_of items.now)) ≤ 10 }
        requires items { AreOverItems (given_names given.now) (map item_of items.now) }
        requires base { IsTheoryBase (given_names given.now)
            (map item_of items.now) given.now.assumptions.now self.old }
        ensures base { IsTheoryBase (given_names given.now)
            (map item_of items.now) given.now.assumptions.now self.new }
        ensures exact { IfOk result (λ views. IsListing
            (IsAcceptedView (with_heads (DefaultTheory (map item_of items.now))
            (given_with given.now set)) (given_beliefs given.now)) StateBefore views.items) }
    {
        let heads = assumed(alloc, given.assumptions, set)?;
        let said = lower_of_said(alloc, items, &heads)?;
        let selected = self.select(set, said)?;
        let views = list_with(alloc, &mut self.findings, items, &heads, given)?;
        self.keep(selected, given, set)?;
        Ok(views)
    }
}
