//! All loads of a round at work at once: each in a thread of its own, but for those that stay with
//! the caller.

ghost use Rattle.std.specs.Prelude.{◌≡◌, ◌≤◌, length, vec_capacity, vec_len};
ghost use Rattle.std.specs.List.{AllByRecursion, AllZip};
ghost use Rattle.mcs_crew.specs.Children.{AreAtWork, ComesBack, HasWorked, IsGiven};

use crate::child::{Child, Extent, Look, finish, look_at, start};
use crate::equipment::Hall;
use crate::load::Load;
use crate::workforce::Workforce;
use mcs_draw::Draw;
use mcs_ports::Gate;
use mcs_states::{Fork, Oracle};
use std::alloc::Global;
use std::sync::Wait;
use std::sync::atomic::AtomicBool;
use std::thread;
use std::thread::{Scope, Threads};

/// The load of the first group stays here; for each other a thread is started, if one can be made.
fn send_off<'s, E, O: Fork + Send + 's, G: Gate + Sync, R: Threads + Wait + Sync>(
    scope: &Scope<'s, E>,
    rt: &'s R,
    alloc: Global,
    draw: &'s Draw,
    gate: &'s G,
    workforce: &'s Workforce,
    flags: &'s [AtomicBool],
    group: usize,
    load: Load<O>,
) -> Child<O>
    requires { IsGiven draw.now.word load }
    ensures { ComesBack load result }
{
    match flags.get(group) {
        Some(flag) if group > 0 => start(scope, rt, alloc, draw, gate, workforce, flag, load),
        _ => Child::Here(load),
    }
}

/// Sends off all loads, each with the flag at its place.
fn send_all_off<'s, E, O: Fork + Send + 's, G: Gate + Sync, R: Threads + Wait + Sync>(
    scope: &Scope<'s, E>,
    rt: &'s R,
    alloc: Global,
    draw: &'s Draw,
    gate: &'s G,
    workforce: &'s Workforce,
    flags: &'s [AtomicBool],
    loads: Vec<Load<O>>,
    children: Vec<Child<O>>,
) -> Vec<Child<O>>
    requires given { AllByRecursion (IsGiven draw.now.word) loads.items }
    requires room { (vec_len children ≡ 0) × (vec_len loads ≤ vec_capacity children) }
    ensures { AllZip ComesBack loads.items result.items }
{
    let mut children = children;
    for load in loads {
        let group = children.len();
        children.push_reserved(send_off(
            scope, rt, alloc, draw, gate, workforce, flags, group, load,
        ));
    }
    children
}

/// Works each load that is here once, as a whole or a part of it.
fn look_round<O: Fork + Send, G: Gate + Sync, R: Threads + Wait + Sync>(
    rt: &R,
    alloc: Global,
    draw: &Draw,
    gate: &G,
    workforce: &Workforce,
    extent: Extent,
    children: &mut [Child<O>],
) -> Look
    requires { AreAtWork draw.now.word children.old }
    ensures { (was : _) → AllByRecursion (IsGiven draw.now.word) was
        → AllZip ComesBack was children.old → AllZip ComesBack was children.new }
{
    let mut busy = false;
    let mut worked = false;
    for child in children.iter_mut() {
        let look = look_at(rt, alloc, draw, gate, workforce, extent, child);
        busy = busy || look.busy;
        worked = worked || look.worked;
    }
    Look { busy, worked }
}

/// Whether one load alone is here.
fn is_one_here<O: Oracle>(children: &[Child<O>]) -> bool {
    let mut one = false;
    for child in children {
        if let Child::Here(_) = child {
            if one {
                return false;
            }
            one = true;
        }
    }
    one
}

/// How much of the loads that are here is worked by a call.
fn extent_for<O: Oracle>(children: &[Child<O>]) -> Extent {
    if is_one_here(children) {
        Extent::Whole
    } else {
        Extent::Part
    }
}

/// Works the loads that are here. One alone is worked as a whole, and may wait at its inbox;
/// several in turns, without waiting at any of their inboxes, since a letter that the one waits for
/// may come from the other.
fn go_round<O: Fork + Send, G: Gate + Sync, R: Threads + Wait + Sync>(
    rt: &R,
    alloc: Global,
    draw: &Draw,
    gate: &G,
    workforce: &Workforce,
    children: &mut [Child<O>],
)
    requires { AreAtWork draw.now.word children.old }
    ensures { (was : _) → AllByRecursion (IsGiven draw.now.word) was
        → AllZip ComesBack was children.old → AllZip ComesBack was children.new }
{
    let extent = extent_for(children);
    for _ in rt.forever() {
        let look = look_round(rt, alloc, draw, gate, workforce, extent, children);
        if !look.busy {
            return;
        }
        if !look.worked {
            thread::yield_now();
        }
    }
    unreachable!()
}

/// Takes all loads back.
fn finish_all<O: Oracle, R: Threads>(
    rt: &R,
    children: Vec<Child<O>>,
    back: Vec<Load<O>>,
) -> Vec<Load<O>>
    requires room { (vec_len back ≡ 0) × (vec_len children ≤ vec_capacity back) }
    ensures { (was : _) → AllZip ComesBack was children.items → AllZip HasWorked was result.items }
{
    let mut back = back;
    for child in children {
        back.push_reserved(finish(rt, child));
    }
    back
}

/// Works all loads at once: the first here, each other in a thread of its own, or here if no thread
/// can be made.
pub(crate) fn work_all<O: Fork + Send, G: Gate + Sync, R: Threads + Wait + Sync>(
    rt: &R,
    alloc: Global,
    draw: &Draw,
    gate: &G,
    hall: Hall<O>,
    loads: Vec<Load<O>>,
) -> Vec<Load<O>>
    requires given { AllByRecursion (IsGiven draw.now.word) loads.items }
    requires children { (vec_len hall.children ≡ 0) × (vec_len loads ≤ vec_capacity hall.children) }
    requires back { (vec_len hall.back ≡ 0) × (vec_len loads ≤ vec_capacity hall.back) }
    ensures { AllZip HasWorked loads.items result.items }
{
    let Hall {
        flags,
        workforce,
        children,
        back,
    } = hall;
    let flags = flags.as_slice();
    let workforce = &workforce;
    thread::scope(
        thread::scope_env(),
        rt,
        |scope| -> Vec<Load<O>>
            requires given { AllByRecursion (IsGiven draw.now.word) loads.items }
            requires children { (vec_len children ≡ 0) × (vec_len loads ≤ vec_capacity children) }
            requires back { (vec_len back ≡ 0) × (vec_len loads ≤ vec_capacity back) }
            ensures { AllZip HasWorked loads.items result.items }
        {
            let mut children = send_all_off(
                scope, rt, alloc, draw, gate, workforce, flags, loads, children,
            );
            go_round(rt, alloc, draw, gate, workforce, &mut children);
            finish_all(rt, children, back)
        },
    )
}
