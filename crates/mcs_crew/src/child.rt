//! Loads that are out with threads, and those that stay with the caller.

ghost use Rattle.std.specs.Prelude.{◌≡◌};
ghost use Rattle.std.specs.Thread.{IsSend, IsSync};
ghost use Rattle.mcs_crew.specs.Calls.{load_of};
ghost use Rattle.mcs_crew.specs.Children.{ComesBack, HasWorked, IsGiven};
ghost use Rattle.mcs_crew.specs.Loads.{CanWork, Worked};
ghost use Rattle.mcs_crew.specs.Parts.{IsAsked, IsErrand};

use crate::asker::CrewAsker;
use crate::load::Load;
use crate::parts::ask_with_help;
use crate::workforce::Workforce;
use mcs_base::Active;
use mcs_draw::Draw;
use mcs_node::Asked;
use mcs_ports::Gate;
use mcs_states::{Fork, Oracle};
use std::alloc::Global;
use std::snapshot::Snapshot;
use std::sync::Wait;
use std::sync::atomic::{AtomicBool, Ordering};
use std::thread::{Promise, PromisedHandle, Scope, Threads};

/// That what comes back is what came of this load.
#[derive(Drop)]
pub(crate) struct WorkedOf<O: Oracle> {
    pub was: Snapshot<Load<O>>,
}

impl<O: Oracle> Promise<Load<O>> for WorkedOf<O> {
    ghost use Rattle.mcs_crew.specs.Calls.{load_of};
    ghost use Rattle.mcs_crew.specs.Loads.{Worked};

    ghost kept_by = { λ p r. Worked (load_of p.was.value) (load_of r) };
}

/// A load that is out with a thread, or here.
#[derive(Drop)]
pub(crate) enum Child<O: Oracle> {
    Away(PromisedHandle<Load<O>, WorkedOf<O>>),
    Here(Load<O>),
}

/// How much of a load is worked by a call.
#[derive(Clone, Copy)]
pub(crate) enum Extent {
    /// All of it: then the call may wait for a letter.
    Whole,
    /// A part that needs no waiting.
    Part,
}

/// Works the load as a whole, or a part of it. Returns whether anything was done.
fn work_load<O: Fork + Send, G: Gate + Sync, R: Threads + Wait + Sync>(
    rt: &R,
    alloc: Global,
    draw: &Draw,
    gate: &G,
    workforce: &Workforce,
    load: &mut Load<O>,
    extent: Extent,
) -> bool
    requires word { load.old.team.seat.word ≡ draw.now.word }
    requires work { CanWork (load_of load.old) }
    ensures { Worked (load_of load.old) (load_of load.new) }
{
    let ask = |context: u32, oracle: O, questions: &[Active]| -> Asked<O>
        requires shared { IsSync R.row × IsSync G.row × IsSend O.row }
        requires errand { IsErrand context (O.stands oracle) questions.now }
        ensures { IsAsked context (O.stands oracle)
            (O.stands result.oracle) questions.now result.answers }
    { ask_with_help(rt, alloc, gate, workforce, context, oracle, questions) };
    let asker = CrewAsker::new(&ask);
    match extent {
        Extent::Whole => {
            load.work(rt, alloc, draw, workforce, &asker);
            true
        }
        Extent::Part => load.work_on(rt, alloc, draw, &asker),
    }
}

/// Works the load, unless its flag is set: then it comes back as it is.
fn work_unless<O: Fork + Send, G: Gate + Sync, R: Threads + Wait + Sync>(
    rt: &R,
    alloc: Global,
    draw: &Draw,
    gate: &G,
    workforce: &Workforce,
    flag: &AtomicBool,
    load: Load<O>,
) -> Load<O>
    requires { IsGiven draw.now.word load }
    ensures { Worked (load_of load) (load_of result) }
{
    let mut load = load;
    if !flag.load(Ordering::SeqCst) {
        work_load(rt, alloc, draw, gate, workforce, &mut load, Extent::Whole);
    }
    load
}

/// Starts a thread for the load. Where none can be made, sets the flag, and the load stays here as
/// it is.
pub(crate) fn start<'s, E, O: Fork + Send + 's, G: Gate + Sync, R: Threads + Wait + Sync>(
    scope: &Scope<'s, E>,
    rt: &'s R,
    alloc: Global,
    draw: &'s Draw,
    gate: &'s G,
    workforce: &'s Workforce,
    flag: &'s AtomicBool,
    load: Load<O>,
) -> Child<O>
    requires { IsGiven draw.now.word load }
    ensures { ComesBack load result }
{
    let was = Snapshot::of(&load);
    match scope.spawn_with(
        WorkedOf { was },
        move || -> Load<O>
            requires { IsGiven draw.now.word load }
            ensures { Worked (load_of load) (load_of result) }
        { work_unless(rt, alloc, draw, gate, workforce, flag, load) },
    ) {
        Ok(thread) => Child::Away(thread),
        Err(refused) => {
            flag.store(true, Ordering::SeqCst);
            Child::Here((refused.value)())
        }
    }
}

/// The load back, once its thread has ended.
pub(crate) fn finish<O: Oracle, R: Threads>(rt: &R, child: Child<O>) -> Load<O>
    ensures { (was : _) → ComesBack was child → HasWorked was result }
{
    match child {
        Child::Away(thread) => thread.join(rt),
        Child::Here(load) => load,
    }
}

/// What a look at a load found.
#[derive(Clone, Copy)]
pub(crate) struct Look {
    /// Whether the load is here, and there is work left.
    pub busy: bool,
    /// Whether a part of it was done.
    pub worked: bool,
}

/// Works a load that is here, as a whole or a part of it.
pub(crate) fn look_at<O: Fork + Send, G: Gate + Sync, R: Threads + Wait + Sync>(
    rt: &R,
    alloc: Global,
    draw: &Draw,
    gate: &G,
    workforce: &Workforce,
    extent: Extent,
    child: &mut Child<O>,
) -> Look
    requires { (was : _) × IsGiven draw.now.word was × ComesBack was child.old }
    ensures { (was : _) → IsGiven draw.now.word was → ComesBack was child.old
        → ComesBack was child.new }
{
    match child {
        Child::Away(_) => Look {
            busy: false,
            worked: false,
        },
        Child::Here(load) => {
            let worked = work_load(rt, alloc, draw, gate, workforce, load, extent);
            Look {
                busy: load.is_busy(),
                worked,
            }
        }
    }
}
