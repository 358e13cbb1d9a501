//! The nodes of all contexts, which rounds are played over.

ghost use Rattle.std.specs.Prelude.{◌≡◌, ◌≤◌, ℕ, List, [], IfOk, length, map};
ghost use Rattle.mcs_sets.specs.Sets.{size, Within};
ghost use Rattle.mcs_system.specs.Repairs.{allowed_marks};
ghost use Rattle.mcs_rows.specs.Changed.{AreChangedAt};
ghost use Rattle.mcs_rows.specs.Local.{AreFittingTables};
ghost use Rattle.mcs_node.specs.Nodes.{NodeData};
ghost use Rattle.mcs_mesh.specs.Players.{known_to, oracles_of};
ghost use Rattle.mcs_mesh.specs.Rounds.{AreKnown};

use crate::making::oracles_in;
use crate::tables::{changed_tables, minimal_tables};
use mcs_base::{Marks, Memory, Pair};
use mcs_import::Plan;
use mcs_node::Node;
use mcs_states::Oracle;
use mcs_table::Table;
use std::alloc::Global;

/// The nodes of all contexts, in order: what a player plays rounds over, and what an evaluation
/// takes the tables of the final steps from. An evaluation and its player need not know of what
/// oracles they are.
pub trait NodeList: Drop {
    /// The oracles of the nodes.
    type Of: Oracle;

    /// The nodes, in the order of the contexts.
    ghost seen: { Self → List NodeData };

    /// No nodes.
    fn none(alloc: Global) -> Self;

    /// A table for each context, in some order, once all questions of the level were asked. It has
    /// the minimal ones of the local rows whose marks contain none of the pairs, at least those
    /// that are compatible with a row of each table before. Stops only for want of memory.
    fn minimal_tables(
        &self,
        alloc: Global,
        plan: &Plan,
        level: u32,
        pairs: &[Marks],
    ) -> Result<Vec<Table>, Memory>
        requires one_each { length (seen self.now) ≡ length plan.now.contexts }
        requires known { AreKnown plan.now level (known_to (seen self.now)) }
        ensures { IfOk result (λ tables. AreFittingTables plan.now level pairs.now tables.items) };

    /// Of the local rows of each context those whose marks are the ones that the pair makes of
    /// their state, once all questions of a level were asked that is no less than the number of the
    /// pair's marks. Stops only for want of memory.
    fn changed_tables(&self, alloc: Global, plan: &Plan, pair: Pair) -> Result<Vec<Table>, Memory>
        requires one_each { length (seen self.now) ≡ length plan.now.contexts }
        requires known { (k : ℕ) × (size pair ≤ k)
            × AreKnown plan.now k (known_to (seen self.now)) }
        requires allowed { Within pair (allowed_marks plan.now) }
        ensures { IfOk result (λ tables. (k : ℕ) × (size pair ≤ k)
            × AreChangedAt plan.now k pair tables.items) };

    /// The oracles of the nodes, in order. Stops only for want of memory.
    fn into_oracles(self) -> Result<Vec<Self::Of>, Memory>
        ensures { IfOk result (λ oracles. map Self.Of.stands oracles.items
            ≡ oracles_of (seen self)) };
}

/// The nodes of all contexts, in order, and nothing besides.
#[derive(Drop)]
pub struct Nodes<O: Oracle> {
    pub list: Vec<Node<O>>,
}

impl<O: Oracle> NodeList for Nodes<O> {
    type Of = O;

    ghost seen = { λ nodes. nodes.list.items };

    fn none(alloc: Global) -> Nodes<O> {
        Nodes {
            list: Vec::new(alloc),
        }
    }

    fn minimal_tables(
        &self,
        alloc: Global,
        plan: &Plan,
        level: u32,
        pairs: &[Marks],
    ) -> Result<Vec<Table>, Memory> {
        minimal_tables(alloc, plan, level, &self.list, pairs)
    }

    fn changed_tables(&self, alloc: Global, plan: &Plan, pair: Pair) -> Result<Vec<Table>, Memory> {
        changed_tables(alloc, plan, &self.list, pair)
    }

    fn into_oracles(self) -> Result<Vec<O>, Memory> {
        let Nodes { list } = self;
        let alloc = *list.allocator();
        oracles_in(alloc, list)
    }
}
