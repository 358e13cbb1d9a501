//! A round of three contexts in each order of its events.

ghost use Rattle.std.specs.Prelude.{◌≡◌, false, None};

use crate::halting::HaltingOracle;
use crate::meshes::{Meshed, NOWHERE, mesh_of, system_of};
use mcs_base::Memory;
use mcs_node::Event::{self, Begin, Deliver, Grant};
use mcs_node::Node;
use mcs_ports::IdleGate;
use mcs_system::System;
use mcs_table::Row;
use std::alloc::Global;
use std::sync::Arc;
use std::test::Fail;

/// The third context is told what the others believe.
pub(crate) const THREE: &str =
    "context a program { x. } context b program { y. } context c program {}
bridge r1: c:p if a:x. bridge r2: c:q if b:y.";

/// What happens between the begin of all and the grant of the third.
const BETWEEN: [Event; 4] = [Grant(0), Grant(1), Deliver(0), Deliver(1)];

/// All orders of four things, by their places.
const ORDERS: [[usize; 4]; 24] = [
    [0, 1, 2, 3],
    [0, 1, 3, 2],
    [0, 2, 1, 3],
    [0, 2, 3, 1],
    [0, 3, 1, 2],
    [0, 3, 2, 1],
    [1, 0, 2, 3],
    [1, 0, 3, 2],
    [1, 2, 0, 3],
    [1, 2, 3, 0],
    [1, 3, 0, 2],
    [1, 3, 2, 0],
    [2, 0, 1, 3],
    [2, 0, 3, 1],
    [2, 1, 0, 3],
    [2, 1, 3, 0],
    [2, 3, 0, 1],
    [2, 3, 1, 0],
    [3, 0, 1, 2],
    [3, 0, 2, 1],
    [3, 1, 0, 2],
    [3, 1, 2, 0],
    [3, 2, 0, 1],
    [3, 2, 1, 0],
];

/// All begin; twice, what is between comes in this order, since a letter may have come before it
/// was put out; then the third is granted.
fn events_in(order: &[usize; 4]) -> [Event; 12] {
    let [first, second, third, fourth] = *order;
    let (a, b) = (BETWEEN[first % 4], BETWEEN[second % 4]);
    let (c, d) = (BETWEEN[third % 4], BETWEEN[fourth % 4]);
    [
        Begin(0),
        Begin(1),
        Begin(2),
        a,
        b,
        c,
        d,
        a,
        b,
        c,
        d,
        Grant(2),
    ]
}

/// Appends the local rows of the node; whether it is done.
fn push_rows(
    alloc: Global,
    node: &Node<HaltingOracle>,
    rows: &mut Vec<Row>,
) -> Result<bool, Memory> {
    let Some(table) = node.local(alloc)? else {
        return Ok(false);
    };
    let pushed = rows.extend_from_slice(table.rows());
    drop(table);
    pushed?;
    Ok(true)
}

/// The local rows of all contexts, one after the other; `None` where a node is not done.
fn rows_of(alloc: Global, mesh: &Meshed<'_>) -> Result<Option<Vec<Row>>, Memory> {
    let mut rows = Vec::new(alloc);
    for node in mesh.nodes() {
        if !push_rows(alloc, node, &mut rows)? {
            return Ok(None);
        }
    }
    Ok(Some(rows))
}

/// The local rows after these events of level 1, where the round ends with two letters put out.
fn rows_by(
    alloc: Global,
    mesh: &mut Meshed<'_>,
    events: &[Event],
) -> Result<Option<Vec<Row>>, Memory>
    requires going { mesh.old.state.halted ≡ false }
    requires first { mesh.old.last ≡ None }
{
    let replay = mesh.replay(alloc, 1, events)?;
    if !replay.done || replay.put_out != 2 {
        return Ok(None);
    }
    rows_of(alloc, mesh)
}

/// The local rows after the round in this order.
fn rows_after(
    alloc: Global,
    system: &Arc<System>,
    order: &[usize; 4],
) -> Result<Option<Vec<Row>>, Memory> {
    let mut mesh = mesh_of(alloc, system, 8, NOWHERE, &IdleGate)?;
    let rows = rows_by(alloc, &mut mesh, &events_in(order));
    drop(mesh);
    rows
}

/// Whether these are the local rows after the round in this order.
fn are_rows(
    alloc: Global,
    system: &Arc<System>,
    order: &[usize; 4],
    rows: &[Row],
) -> Result<bool, Memory> {
    match rows_after(alloc, system, order)? {
        Some(found) => Ok(found.as_slice() == rows),
        None => Ok(false),
    }
}

/// Whether the round has five local rows in each order of its events, the same in all: one of each
/// of the first two contexts; of the third one for no change, and one for each of its rules
/// removed.
fn are_alike(alloc: Global, system: &Arc<System>) -> Result<bool, Memory> {
    let Some(first) = rows_after(alloc, system, &ORDERS[0])? else {
        return Ok(false);
    };
    let mut are_alike = first.len() == 5;
    for order in &ORDERS {
        are_alike &= are_rows(alloc, system, order, &first) == Ok(true);
    }
    drop(first);
    Ok(are_alike)
}

#[test]
fn rounds_are_alike_in_each_order(rt: HostRuntime) -> Result<(), Fail> {
    let system = system_of(rt.alloc(), THREE.as_bytes())?;
    let are_alike = are_alike(rt.alloc(), &system);
    drop(system);
    assert!(rt; are_alike == Ok(true));
    Ok(())
}
