//! The listing of a system, computed from answers alone.

ghost use Rattle.std.specs.Prelude.{◌≡◌, IfOk, OnOk, OnErr, MatchOption};
ghost use Rattle.std.specs.Arc.{arc_value};
ghost use Rattle.mcs_system.specs.Faults.{IsValid};
ghost use Rattle.mcs_report.specs.Solutions.{IsWholeListing};
ghost use Rattle.mcs_states.specs.Evaluators.{unasked};
ghost use Rattle.mcs_recall.specs.Told.{IsToldOf};
ghost use Rattle.mcs_check.specs.Relisting.{AreOraclesOf, IsMissingStop, IsRelisted, IsSpentStop};
ghost use Rattle.mcs_check.specs.Relisting.{LackOne, start_of};

use crate::accepted::Accepted;
use crate::certified::CertifiedOracle;
use crate::collecting::Collecting;
use mcs_base::Memory;
use mcs_import::Plan;
use mcs_mesh::Mesh;
use mcs_ports::IdleGate;
use mcs_recall::{Recalling, Told};
use mcs_system::System;
use mcs_work::{Task, WorkStop, work};
use std::alloc::Global;
use std::sync::Arc;

/// The greatest number of questions of a level that may be asked. There are fewer rule sets into
/// the contexts of any system.
const MOST_QUESTIONS: u64 = 4_294_967_295;

/// `Ok` if an answer was missing; otherwise memory ran out. There are never too many questions.
fn missing(stop: WorkStop) -> Result<(), Memory>
    requires { ¬ IsSpentStop stop }
    ensures missing { OnOk result (IsMissingStop stop) }
    ensures other { OnErr result (¬ IsMissingStop stop) }
{
    match stop {
        WorkStop::Missing { .. } => Ok(()),
        WorkStop::Spent { .. } => unreachable!(),
        WorkStop::Write => Err(Memory),
        WorkStop::Memory => Err(Memory),
    }
}

/// The evaluator of the system by the oracles of its contexts, which keeps what it tells and what
/// was told before. It may ask as many questions as there are.
pub(crate) fn evaluator_of<'a>(
    alloc: Global,
    system: &Arc<System>,
    oracles: Vec<CertifiedOracle>,
    told: Told,
    gate: &'a IdleGate,
) -> Result<Recalling<Mesh<'a, CertifiedOracle, IdleGate>>, Memory>
    requires own { AreOraclesOf (arc_value system.now) oracles.items }
    requires told { IsToldOf (arc_value system.now) told }
    ensures { IfOk result (λ evaluator. evaluator
        ≡ start_of (arc_value system.now) oracles.items) }
{
    let plan = Arc::new(alloc, Plan::of(alloc, system.clone()?)?)?;
    let mesh = Mesh::new(alloc, plan, oracles, MOST_QUESTIONS, gate)?;
    Ok(Recalling::new(mesh, system.clone()?, told))
}

/// The oracles with the same answers, of which none was asked.
fn renewed(alloc: Global, oracles: Vec<CertifiedOracle>) -> Result<Vec<CertifiedOracle>, Memory>
    ensures { IfOk result (λ again. again.items ≡ unasked oracles.items) }
{
    let mut again = Vec::new(alloc);
    for oracle in oracles {
        again.push(oracle.renewed())?;
    }
    Ok(again)
}

/// What is left once the listing was computed: the sink that it was written to, the oracles as they
/// were before, and what was told of the system.
#[derive(Drop)]
pub(crate) struct Relisted<'b> {
    pub(crate) sink: Collecting<'b>,
    pub(crate) accepted: Accepted,
}

/// Computes the whole listing of the system by the oracles of its contexts, or tells `None` if one
/// of them lacks an answer that is needed. Little memory is needed for it as long as it is as
/// expected: that of what is told.
pub(crate) fn listing_by<'b>(
    alloc: Global,
    system: Arc<System>,
    oracles: Vec<CertifiedOracle>,
    expected: &'b [u8],
) -> Result<Option<Relisted<'b>>, Memory>
    requires valid { IsValid (arc_value system) }
    requires own { AreOraclesOf (arc_value system) oracles.items }
    ensures { IfOk result (λ listed. MatchOption listed
        (LackOne (arc_value system) oracles.items)
        (λ r. IsRelisted (arc_value system) oracles.items r.sink.text
        r.accepted.oracles.items r.accepted.told)) }
{
    let gate = IdleGate;
    let recalling = evaluator_of(alloc, &system, oracles, Told::new(alloc), &gate)?;
    let mut sink = Collecting::new(alloc, expected);
    let (worked, recalling) = work(alloc, recalling, system, Task::Solve, &mut sink);
    match worked {
        Ok(()) => {
            let (mesh, told) = recalling.into_parts();
            let oracles = renewed(alloc, mesh.into_oracles()?)?;
            let accepted = Accepted { oracles, told };
            Ok(Some(Relisted { sink, accepted }))
        }
        Err(stop) => {
            missing(stop)?;
            Ok(None)
        }
    }
}
