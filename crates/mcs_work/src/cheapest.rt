//! The cheapest diagnoses of a system, found and printed.

ghost use Rattle.std.specs.Prelude.{◌≡◌, []};
ghost use Rattle.std.specs.List.{AllByRecursion};
ghost use Rattle.mcs_states.specs.Calls.{CanBegin};
ghost use Rattle.mcs_report.specs.Repairs.{IsOfSystem};
ghost use Rattle.mcs_text.specs.Writes.{Writes};
ghost use Rattle.mcs_work.specs.Cheapest.{after_search, cheapest_lines, is_free};
ghost use Rattle.mcs_work.specs.Cheapest.{verdict_above, verdict_before};
ghost use Rattle.mcs_work.specs.Work.{Works};
ghost use Rattle.mcs_work.specs.declared.task.Task.TheVariants as tasks;

use crate::line::{Line, print_line};
use crate::printing::print_opening;
use crate::task::{Task, WorkStop};
use mcs_cheapest::{Cheapest, cost, list_least};
use mcs_costs::CheapestEvaluator;
use mcs_diagnosis::Diagnosis;
use mcs_ports::Sink;
use mcs_states::Halt;
use mcs_system::System;
use mcs_text::Unwritten;
use std::alloc::Global;

/// Prints the listing of the cheapest diagnoses of the system: the heading, and the rest once the
/// search has ended.
pub(crate) fn list_cheapest_of<E: CheapestEvaluator, K: Sink>(
    alloc: Global,
    evaluator: &mut E,
    system: &System,
    sink: &mut K,
) -> Result<(), WorkStop>
    requires { CanBegin system.now (E.stands evaluator.old) }
    ensures { Works tasks.Cheapest [] (E.stands evaluator.old) (E.stands evaluator.new)
        (K.device sink.old) (K.device sink.new) result }
{
    let _bridges = system.bridges();
    print_opening(alloc, Task::Cheapest, system, sink)?;
    match list_least(alloc, evaluator, system) {
        Ok(cheapest) => {
            print_cheapest(alloc, system, &cheapest, sink)?;
            Ok(())
        }
        Err(halt) => {
            print_verdict_before(alloc, system, &halt, sink)?;
            Err(WorkStop::from(halt))
        }
    }
}

/// Prints what is known if the search has halted so: the verdict, if the budget was spent above
/// level 0. The system is inconsistent then.
fn print_verdict_before<K: Sink>(
    alloc: Global,
    system: &System,
    halt: &Halt,
    sink: &mut K,
) -> Result<(), Unwritten>
    ensures { Writes (verdict_before halt.now) (K.device sink.old) (K.device sink.new) result }
{
    match halt {
        Halt::Spent { level, .. } => print_verdict_above(alloc, system, *level, sink),
        Halt::Missing { .. } => Ok(()),
        Halt::Memory => Ok(()),
    }
}

/// Prints the verdict of an inconsistent system, if the level is above 0.
fn print_verdict_above<K: Sink>(
    alloc: Global,
    system: &System,
    level: u32,
    sink: &mut K,
) -> Result<(), Unwritten>
    ensures { Writes (verdict_above level) (K.device sink.old) (K.device sink.new) result }
{
    if level == 0 {
        return Ok(());
    }
    let consistent = false;
    print_line(alloc, system, &Line::Verdict { consistent }, sink)
}

/// Prints what comes after the heading: the verdict, a line for each of the cheapest diagnoses, and
/// the end line.
fn print_cheapest<K: Sink>(
    alloc: Global,
    system: &System,
    cheapest: &Cheapest,
    sink: &mut K,
) -> Result<(), Unwritten>
    requires { AllByRecursion (IsOfSystem system.now) cheapest.now.found.items }
    ensures { Writes (after_search system.now (is_free cheapest.now.cost)
        cheapest.now.found.items cheapest.now.cost cheapest.now.need) (K.device sink.old)
        (K.device sink.new) result }
{
    let consistent = is_free(cheapest.cost);
    print_line(alloc, system, &Line::Verdict { consistent }, sink)?;
    print_found(alloc, system, &cheapest.found, sink)?;
    let line = Line::CheapestEnd {
        count: cheapest.found.len() as u64,
        price: cheapest.cost,
        need: cheapest.need,
    };
    print_line(alloc, system, &line, sink)
}

/// Whether the cheapest diagnoses cost nothing. This is so exactly if the system is consistent.
fn is_free(price: Option<u64>) -> bool
    ensures { result ≡ is_free price }
{
    match price {
        None => false,
        Some(price) => price == 0,
    }
}

/// Prints a line for each diagnosis, numbered from 1, with what it costs.
fn print_found<K: Sink>(
    alloc: Global,
    system: &System,
    found: &[Diagnosis],
    sink: &mut K,
) -> Result<(), Unwritten>
    requires { AllByRecursion (IsOfSystem system.now) found.now }
    ensures { Writes (cheapest_lines system.now 1 found.now) (K.device sink.old)
        (K.device sink.new) result }
{
    for (k, diagnosis) in found.iter().enumerate() {
        let line = Line::CheapestDiagnosis {
            number: k as u64 + 1,
            price: cost(system, diagnosis.pair.marks()),
            diagnosis,
        };
        print_line(alloc, system, &line, sink)?;
    }
    Ok(())
}
