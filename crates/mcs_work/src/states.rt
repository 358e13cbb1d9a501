//! The equilibria of a system, found and printed.

ghost use Rattle.std.specs.Prelude.{[], IfOk};
ghost use Rattle.mcs_states.specs.Calls.{CanBegin};
ghost use Rattle.mcs_work.specs.Course.{HasFoundEquilibria};
ghost use Rattle.mcs_work.specs.Work.{Proceeds, Works};
ghost use Rattle.mcs_work.specs.declared.task.Task.TheVariants as tasks;

use crate::printing::{print_listing, print_opening};
use crate::task::{Task, WorkStop};
use mcs_base::{Marks, Pair, Vars};
use mcs_equilibria::list_states;
use mcs_ports::Sink;
use mcs_states::Evaluator;
use mcs_system::System;
use std::alloc::Global;

/// Prints what comes before the first question, and then finds the projected equilibria of the
/// system, in the order of states. The evaluator has to be one of this system that has done no
/// level yet.
pub fn find_states<E: Evaluator, K: Sink>(
    alloc: Global,
    evaluator: &mut E,
    task: Task,
    system: &System,
    sink: &mut K,
) -> Result<Vec<Vars>, WorkStop>
    requires { CanBegin system.now (E.stands evaluator.old) }
    ensures part { Proceeds task [] (E.stands evaluator.old) (E.stands evaluator.new)
        (K.device sink.old) (K.device sink.new) result }
    ensures found { IfOk result (λ states. HasFoundEquilibria task system.now
        (E.stands evaluator.old) (E.stands evaluator.new) (K.device sink.old).written
        (K.device sink.new).written states.items) }
{
    print_opening(alloc, task, system, sink)?;
    let states = list_states(alloc, evaluator, Pair::new(Marks::empty()))?;
    Ok(states)
}

/// Prints the listing of the projected equilibria of the system, with the number of questions
/// asked.
pub(crate) fn list_equilibria<E: Evaluator, K: Sink>(
    alloc: Global,
    evaluator: &mut E,
    system: &System,
    sink: &mut K,
) -> Result<(), WorkStop>
    requires { CanBegin system.now (E.stands evaluator.old) }
    ensures { Works tasks.Equilibria [] (E.stands evaluator.old) (E.stands evaluator.new)
        (K.device sink.old) (K.device sink.new) result }
{
    let states = find_states(alloc, evaluator, Task::Equilibria, system, sink)?;
    print_listing(alloc, system, &states, evaluator.asked(), sink)?;
    Ok(())
}
