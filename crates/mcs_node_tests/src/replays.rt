//! Replays of events.

use crate::meshes::{NOWHERE, mesh_of, system_of};
use crate::turns::TOLD;
use mcs_base::Memory;
use mcs_mesh::Replay;
use mcs_node::Event::{self, Begin, Deliver, Grant};
use mcs_ports::IdleGate;
use mcs_states::{Evaluator, Halt};
use mcs_system::System;
use std::alloc::Global;
use std::sync::Arc;
use std::test::Fail;

/// A context that reads itself.
const ALONE: &str = "context c1 program {} bridge r1: c1:a if c1:a.";

/// What a replay of events of level 0 tells.
#[derive(Clone, Copy)]
struct Told {
    put_out: u32,
    ignored: u64,
    skipped: u64,
    done: bool,
    /// How many questions were found, where these are more than the budget.
    spent: Option<u64>,
}

/// Texts of systems, the events of a round of level 0, a budget, and what a replay of them tells.
const REPLAYS: &[(&str, &[Event], u64, Told)] = &[
    (
        TOLD,
        &[Begin(0), Begin(1), Grant(0), Deliver(0), Deliver(0)],
        2,
        Told {
            put_out: 1,
            ignored: 1,
            skipped: 0,
            done: false,
            spent: None,
        },
    ),
    (
        TOLD,
        &[
            Begin(0),
            Begin(1),
            Grant(0),
            Deliver(0),
            Deliver(0),
            Grant(1),
        ],
        2,
        Told {
            put_out: 1,
            ignored: 1,
            skipped: 0,
            done: true,
            spent: None,
        },
    ),
    (
        TOLD,
        &[
            Begin(0),
            Begin(1),
            Grant(0),
            Deliver(0),
            Deliver(0),
            Grant(1),
        ],
        1,
        Told {
            put_out: 1,
            ignored: 1,
            skipped: 0,
            done: false,
            spent: Some(2),
        },
    ),
    (
        TOLD,
        &[Grant(0), Begin(0), Begin(0), Deliver(0)],
        2,
        Told {
            put_out: 0,
            ignored: 0,
            skipped: 3,
            done: false,
            spent: None,
        },
    ),
    (
        TOLD,
        &[
            Begin(0),
            Grant(0),
            Deliver(0),
            Begin(1),
            Deliver(0),
            Grant(1),
        ],
        2,
        Told {
            put_out: 1,
            ignored: 1,
            skipped: 0,
            done: true,
            spent: None,
        },
    ),
    (
        TOLD,
        &[Begin(0), Grant(0), Begin(1), Deliver(0)],
        0,
        Told {
            put_out: 1,
            ignored: 0,
            skipped: 0,
            done: false,
            spent: Some(1),
        },
    ),
    (
        TOLD,
        &[Begin(2), Grant(2), Deliver(2)],
        2,
        Told {
            put_out: 0,
            ignored: 0,
            skipped: 3,
            done: false,
            spent: None,
        },
    ),
    (
        TOLD,
        &[],
        2,
        Told {
            put_out: 0,
            ignored: 0,
            skipped: 0,
            done: false,
            spent: None,
        },
    ),
    (
        ALONE,
        &[Begin(0), Grant(0), Grant(0)],
        2,
        Told {
            put_out: 0,
            ignored: 0,
            skipped: 1,
            done: true,
            spent: None,
        },
    ),
    (
        "",
        &[Begin(0)],
        0,
        Told {
            put_out: 0,
            ignored: 0,
            skipped: 1,
            done: true,
            spent: None,
        },
    ),
];

/// Whether the replay tells this.
fn is_told(replay: Replay, told: Told) -> bool {
    replay.put_out == told.put_out
        && replay.ignored == told.ignored
        && replay.skipped == told.skipped
        && replay.done == told.done
        && replay.stopped == told.spent.map(|drawn| Halt::Spent { level: 0, drawn })
}

/// Whether a replay of the events tells this, and the evaluation can be asked no more then.
fn tells(
    alloc: Global,
    system: &Arc<System>,
    events: &[Event],
    budget: u64,
    told: Told,
) -> Result<bool, Memory> {
    let mut mesh = mesh_of(alloc, system, budget, NOWHERE, &IdleGate)?;
    let replay = mesh.replay(alloc, 0, events);
    let is_halted = mesh.halted();
    drop(mesh);
    Ok(is_told(replay?, told) && is_halted)
}

#[test]
fn events_are_replayed(rt: HostRuntime) -> Result<(), Fail> {
    let mut are_told = true;
    for (text, events, budget, told) in REPLAYS {
        let system = system_of(rt.alloc(), text.as_bytes())?;
        are_told &= tells(rt.alloc(), &system, events, *budget, *told) == Ok(true);
        drop(system);
    }
    assert!(rt; are_told);
    Ok(())
}
