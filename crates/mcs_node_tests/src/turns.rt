//! Rounds of two contexts, of which the first supplies the second.

use crate::meshes::system_of;
use crate::nodes::{Two, begin_two, grant, hand_twice};
use crate::orders::THREE;
use mcs_base::Memory;
use mcs_node::{Content, Handled};
use mcs_states::Halt;
use mcs_system::System;
use std::alloc::Global;
use std::sync::Arc;
use std::test::Fail;

/// The second context is told what the first one believes: each has one question at level 0.
pub(crate) const TOLD: &str =
    "context c1 program { a. } context c2 program {} bridge r1: c2:p if c1:a.";

/// Whether the first node waits for a grant of one question, and the second one does not wait for
/// one.
fn is_first_turn(nodes: &Two) -> bool {
    nodes.first.needs() == Some(1) && nodes.second.needs() == None
}

/// Whether the first node is granted its question and its letter is taken once; then the second one
/// waits for a grant of one question.
fn takes_first_turn(alloc: Global, nodes: &mut Two) -> Result<bool, Memory> {
    let total = grant(alloc, &mut nodes.first, 0);
    let handled = hand_twice(alloc, &mut nodes.first, &mut nodes.second)?;
    Ok(
        total == Some(1)
            && handled == Some((Handled::Took, Handled::Ignored))
            && nodes.first.next_out().is_none()
            && nodes.second.needs() == Some(1),
    )
}

/// Whether both nodes are done after two questions, of which the first tells that one state may be
/// supplied.
fn takes_second_turn(alloc: Global, nodes: &mut Two) -> bool {
    let total = grant(alloc, &mut nodes.second, 1);
    total == Some(2)
        && nodes.first.is_done()
        && nodes.second.is_done()
        && nodes.second.stopped().is_none()
        && nodes.first.known().supplies.len() == 1
        && nodes.second.next_out().is_none()
}

/// Whether both nodes take their turns.
fn take_both_turns(alloc: Global, nodes: &mut Two) -> Result<bool, Memory> {
    Ok(is_first_turn(nodes) && takes_first_turn(alloc, nodes)? && takes_second_turn(alloc, nodes))
}

/// Whether the second node stops by itself when it is granted two questions, which are more than
/// the budget.
fn is_stopped_second(alloc: Global, nodes: &mut Two) -> Result<bool, Memory> {
    let is_taken = takes_first_turn(alloc, nodes)?;
    let total = grant(alloc, &mut nodes.second, 1);
    Ok(
        is_taken
            && total == Some(2)
            && nodes.second.stopped() == Some(Halt::Spent { level: 0, drawn: 2 })
            && nodes.second.by_itself()
            && !nodes.second.is_done(),
    )
}

/// Whether the next letter of the first node is a stop, which stops the second one with its halt.
fn carries_stop(alloc: Global, nodes: &mut Two) -> bool {
    let Some(letter) = nodes.first.next_out() else {
        return false;
    };
    let is_stop = match letter.content() {
        Content::Supply(_) => false,
        Content::Stop(halt) => *halt == Halt::Spent { level: 0, drawn: 1 },
    };
    let handled = nodes.second.handle(alloc, letter);
    is_stop && handled == Handled::Took
}

/// Whether the first node stops when it is granted a question, which is more than the budget, and
/// stops the second one.
fn are_both_stopped(alloc: Global, nodes: &mut Two) -> bool {
    let total = grant(alloc, &mut nodes.first, 0);
    total == Some(1)
        && carries_stop(alloc, nodes)
        && nodes.second.stopped() == Some(Halt::Spent { level: 0, drawn: 1 })
        && !nodes.second.by_itself()
}

/// Whether a letter of the first node to the third one is ignored by the second one, which still
/// waits for its grant.
fn is_ignored(alloc: Global, nodes: &mut Two) -> bool {
    let total = grant(alloc, &mut nodes.first, 0);
    let Some(letter) = nodes.first.next_out() else {
        return false;
    };
    let is_stranger = total == Some(1) && letter.to() == 2;
    let handled = nodes.second.handle(alloc, letter);
    is_stranger && handled == Handled::Ignored && nodes.second.needs() == Some(1)
}

/// What comes of two nodes.
enum Outcome {
    BothDone,
    SecondStopped,
    BothStopped,
    StrangerIgnored,
}

/// Texts of systems, budgets of questions, and what comes of the nodes of the first two contexts.
const OUTCOMES: &[(&str, u64, Outcome)] = &[
    (TOLD, 2, Outcome::BothDone),
    (TOLD, 1, Outcome::SecondStopped),
    (TOLD, 0, Outcome::BothStopped),
    (THREE, 3, Outcome::StrangerIgnored),
];

/// Whether this comes of the nodes.
fn comes(alloc: Global, nodes: &mut Two, outcome: &Outcome) -> Result<bool, Memory> {
    match outcome {
        Outcome::BothDone => take_both_turns(alloc, nodes),
        Outcome::SecondStopped => is_stopped_second(alloc, nodes),
        Outcome::BothStopped => Ok(are_both_stopped(alloc, nodes)),
        Outcome::StrangerIgnored => Ok(is_ignored(alloc, nodes)),
    }
}

/// Whether this comes of the nodes of the system within the budget. They give back their solvers.
fn comes_within(
    alloc: Global,
    system: &Arc<System>,
    budget: u64,
    outcome: &Outcome,
) -> Result<bool, Memory> {
    let Some(mut nodes) = begin_two(alloc, system, budget)? else {
        return Ok(false);
    };
    let is_right = comes(alloc, &mut nodes, outcome);
    let Two { first, second } = nodes;
    drop(first.take_oracle());
    drop(second.take_oracle());
    is_right
}

#[test]
fn nodes_take_turns(rt: HostRuntime) -> Result<(), Fail> {
    let mut are_right = true;
    for (text, budget, outcome) in OUTCOMES {
        let system = system_of(rt.alloc(), text.as_bytes())?;
        are_right &= comes_within(rt.alloc(), &system, *budget, outcome) == Ok(true);
        drop(system);
    }
    assert!(rt; are_right);
    Ok(())
}
