//! The work of a task.

ghost use Rattle.std.specs.Prelude.{[]};
ghost use Rattle.std.specs.Arc.{arc_value};
ghost use Rattle.mcs_states.specs.Calls.{CanBegin};
ghost use Rattle.mcs_work.specs.Tasks.{TakesAnswersAlone};
ghost use Rattle.mcs_work.specs.Work.{Works};

use crate::cheapest::list_cheapest_of;
use crate::extent::Extent;
use crate::repairing::solve;
use crate::states::list_equilibria;
use crate::task::{Task, WorkStop};
use mcs_costs::CheapestEvaluator;
use mcs_ports::Sink;
use mcs_system::System;
use std::alloc::Global;
use std::sync::Arc;

/// Does the task: prints its listing of the system, each line in one piece, as soon as it is known.
/// The heading comes before the first question. For `Solve` the equilibria and the verdict come
/// before diagnoses are searched for, and the diagnoses of a level before the next level is asked.
/// For `Cheapest` no other diagnoses are made, and the rest comes once all of it is known; if the
/// budget is spent above level 0, the verdict is written, which is then known. For `Make` nothing is
/// printed before all is known, and then the verdict and the end line alone.
/// For `Grounded` a solver is needed beside the evaluator, so that task is not done here.
///
/// The evaluator has to be one of this system that has done no level yet. It is handed back, and
/// shows what was done. If the whole text was written, its greatest level done is the last one of
/// the task. This is 0 for equilibria and for a consistent system, the stop level for `Cheapest`,
/// and otherwise the number of rules. Its journals then have exactly the questions of that level.
///
/// `Write` is returned only if the sink's count of faults rose; unless it is returned, that count
/// is as before. `Spent` is returned with the least level of the task that has more questions than
/// the budget; what is printed before this level was then written. `Missing` is returned with a
/// question, of a level of the task, for which an oracle has no answer. Neither is returned without
/// its cause; if one has its cause, the work is not done. After each stop a prefix of the text was
/// written.
pub fn work<E: CheapestEvaluator, K: Sink>(
    alloc: Global,
    evaluator: E,
    system: Arc<System>,
    task: Task,
    sink: &mut K,
) -> (Result<(), WorkStop>, E)
    requires begin { CanBegin (arc_value system) (E.stands evaluator) }
    requires alone { TakesAnswersAlone task }
    ensures { Works task [] (E.stands evaluator) (E.stands result.1) (K.device sink.old)
        (K.device sink.new) result.0 }
{
    match task {
        Task::Equilibria => {
            let mut evaluator = evaluator;
            let result = list_equilibria(alloc, &mut evaluator, &system, sink);
            (result, evaluator)
        }
        Task::Grounded => unreachable!(),
        Task::Solve => solve(alloc, Extent::Whole, evaluator, system, sink),
        Task::Cheapest => {
            let mut evaluator = evaluator;
            let result = list_cheapest_of(alloc, &mut evaluator, &system, sink);
            (result, evaluator)
        }
        Task::Make => solve(alloc, Extent::Counts, evaluator, system, sink),
    }
}
