//! Rounds that halt before they end.

use crate::halting::Halting;
use crate::meshes::{HaltAt, Meshed, mesh_of, system_of};
use crate::orders::THREE;
use mcs_base::{Active, Memory};
use mcs_ports::IdleGate;
use mcs_states::{Evaluator, Halt};
use mcs_system::System;
use std::alloc::Global;
use std::sync::Arc;
use std::test::Fail;

/// The budget of a round of level 0 of three contexts, and how the oracle of the second halts it.
const HALTS: &[(u64, Halting)] = &[
    (1, Halting::Never),
    (3, Halting::ByLack),
    (3, Halting::ByMemory),
];

/// Why the round stops then: where the oracle does not halt it, the budget of one question is
/// spent.
fn halt_by(halting: Halting) -> Halt {
    match halting {
        Halting::Never => Halt::Spent { level: 0, drawn: 2 },
        Halting::ByLack => Halt::Missing {
            context: 1,
            active: Active::empty(),
        },
        Halting::ByMemory => Halt::Memory,
    }
}

/// Whether of the nodes the first is done, the second has stopped by itself with the halt, and the
/// third was granted nothing.
fn are_stopped(mesh: &Meshed<'_>, halt: Halt) -> bool {
    match mesh.nodes() {
        [first, second, third] => {
            first.is_done()
                && second.by_itself()
                && second.stopped() == Some(halt)
                && !third.is_done()
                && third.stopped().is_none()
        }
        _ => false,
    }
}

/// Whether a round of the system halts so, and gives back its three oracles.
fn halts(
    alloc: Global,
    system: &Arc<System>,
    budget: u64,
    halting: Halting,
) -> Result<bool, Memory> {
    let halt = halt_by(halting);
    let at = HaltAt {
        context: 1,
        halting,
    };
    let mut mesh = mesh_of(alloc, system, budget, at, &IdleGate)?;
    let is_right = mesh.repairs(alloc, 0) == Err(halt) && are_stopped(&mesh, halt) && mesh.halted();
    let oracles = mesh.into_oracles()?;
    let count = oracles.len();
    drop(oracles);
    Ok(is_right && count == 3)
}

#[test]
fn rounds_halt_before_they_end(rt: HostRuntime) -> Result<(), Fail> {
    let system = system_of(rt.alloc(), THREE.as_bytes())?;
    let mut are_right = true;
    for (budget, halting) in HALTS {
        are_right &= halts(rt.alloc(), &system, *budget, *halting) == Ok(true);
    }
    drop(system);
    assert!(rt; are_right);
    Ok(())
}
