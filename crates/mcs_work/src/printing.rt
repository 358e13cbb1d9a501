//! The parts of a listing. Each line is written in one piece.

ghost use Rattle.std.specs.Prelude.{◌+◌, ◌<◌, ◌^◌, length};
ghost use Rattle.std.specs.List.{AllByRecursion};
ghost use Rattle.mcs_sets.specs.Sets.{Within};
ghost use Rattle.mcs_system.specs.Systems.{all_variables};
ghost use Rattle.mcs_report.specs.Listing.{state_lines, after_heading};
ghost use Rattle.mcs_report.specs.Solutions.{equilibria_part, diagnosis_lines, explanation_lines};
ghost use Rattle.mcs_text.specs.Writes.{Writes};
ghost use Rattle.mcs_work.specs.Extents.{states_part, diagnoses_part, explanations_part, rest_part};
ghost use Rattle.mcs_work.specs.Grounded.{after_grounded};
ghost use Rattle.mcs_report.specs.Repairs.{IsOfSystem};
ghost use Rattle.mcs_work.specs.Printed.{sort_word, IsCauseOf};
ghost use Rattle.mcs_work.specs.Tasks.{opening};

use crate::extent::Extent;
use crate::line::{Line, Sort, print_line};
use crate::task::Task;
use mcs_base::{Marks, Vars};
use mcs_diagnosis::Diagnosis;
use mcs_ports::Sink;
use mcs_system::System;
use mcs_text::Unwritten;
use std::alloc::Global;

/// Prints what comes before the first question: the heading, or nothing if only counts are printed.
pub(crate) fn print_opening<K: Sink>(
    alloc: Global,
    task: Task,
    system: &System,
    sink: &mut K,
) -> Result<(), Unwritten>
    ensures { Writes (opening task system.now) (K.device sink.old) (K.device sink.new) result }
{
    match task {
        Task::Equilibria | Task::Grounded | Task::Solve | Task::Cheapest => {
            print_line(alloc, system, &Line::Heading, sink)
        }
        Task::Make => Ok(()),
    }
}

/// Prints what comes after the heading: a line for each state, the verdict, and the end line with
/// the number of states and of questions.
pub(crate) fn print_listing<K: Sink>(
    alloc: Global,
    system: &System,
    states: &[Vars],
    need: u64,
    sink: &mut K,
) -> Result<(), Unwritten>
    requires { AllByRecursion (λ σ. Within σ (all_variables system.now)) states.now }
    ensures { Writes (after_heading system.now states.now need) (K.device sink.old)
        (K.device sink.new) result }
{
    print_states(alloc, system, Sort::Equilibrium, states, sink)?;
    let consistent = !states.is_empty();
    print_line(alloc, system, &Line::Verdict { consistent }, sink)?;
    let equilibria = states.len() as u64;
    print_line(alloc, system, &Line::ShortEnd { equilibria, need }, sink)
}

/// Prints the part of the states, as `extent` has it: a line for each and the verdict, or nothing.
pub(crate) fn print_states_part<K: Sink>(
    alloc: Global,
    extent: Extent,
    system: &System,
    states: &[Vars],
    sink: &mut K,
) -> Result<(), Unwritten>
    requires { AllByRecursion (λ σ. Within σ (all_variables system.now)) states.now }
    ensures { Writes (states_part extent system.now states.now) (K.device sink.old)
        (K.device sink.new) result }
{
    match extent {
        Extent::Whole => print_equilibria_part(alloc, system, states, sink),
        Extent::Counts => Ok(()),
    }
}

/// Prints a line for each state, and the verdict.
fn print_equilibria_part<K: Sink>(
    alloc: Global,
    system: &System,
    states: &[Vars],
    sink: &mut K,
) -> Result<(), Unwritten>
    requires { AllByRecursion (λ σ. Within σ (all_variables system.now)) states.now }
    ensures { Writes (equilibria_part system.now states.now) (K.device sink.old)
        (K.device sink.new) result }
{
    print_states(alloc, system, Sort::Equilibrium, states, sink)?;
    let consistent = !states.is_empty();
    print_line(alloc, system, &Line::Verdict { consistent }, sink)
}

/// Prints a line for each state of this sort, numbered from 1.
fn print_states<K: Sink>(
    alloc: Global,
    system: &System,
    sort: Sort,
    states: &[Vars],
    sink: &mut K,
) -> Result<(), Unwritten>
    requires { AllByRecursion (λ σ. Within σ (all_variables system.now)) states.now }
    ensures { Writes (state_lines (sort_word sort) system.now 1 states.now) (K.device sink.old)
        (K.device sink.new) result }
{
    for (k, state) in states.iter().enumerate() {
        let line = Line::State {
            sort,
            number: k as u64 + 1,
            state: *state,
        };
        print_line(alloc, system, &line, sink)?;
    }
    Ok(())
}

/// Prints what comes after the heading in a listing of grounded equilibria: a line for each, and the
/// end line with their number, that of the equilibria and that of the questions.
pub fn print_grounded<K: Sink>(
    alloc: Global,
    system: &System,
    grounded: &[Vars],
    equilibria: u64,
    need: u64,
    sink: &mut K,
) -> Result<(), Unwritten>
    requires { AllByRecursion (λ σ. Within σ (all_variables system.now)) grounded.now }
    ensures { Writes (after_grounded system.now grounded.now equilibria need) (K.device sink.old)
        (K.device sink.new) result }
{
    print_states(alloc, system, Sort::Grounded, grounded, sink)?;
    let line = Line::GroundedEnd {
        grounded: grounded.len() as u64,
        equilibria,
        need,
    };
    print_line(alloc, system, &line, sink)
}

/// Prints the part of some diagnoses, as `extent` has it: a line for each, numbered from `first`
/// on, or nothing.
pub(crate) fn print_diagnoses_part<K: Sink>(
    alloc: Global,
    extent: Extent,
    system: &System,
    first: u64,
    diagnoses: &[Diagnosis],
    sink: &mut K,
) -> Result<(), Unwritten>
    requires few { first + length diagnoses.now < 2 ^ 64 }
    requires of_system { AllByRecursion (IsOfSystem system.now) diagnoses.now }
    ensures { Writes (diagnoses_part extent system.now first diagnoses.now) (K.device sink.old)
        (K.device sink.new) result }
{
    match extent {
        Extent::Whole => print_diagnoses(alloc, system, first, diagnoses, sink),
        Extent::Counts => Ok(()),
    }
}

/// Prints a line for each diagnosis, numbered from `first` on.
fn print_diagnoses<K: Sink>(
    alloc: Global,
    system: &System,
    first: u64,
    diagnoses: &[Diagnosis],
    sink: &mut K,
) -> Result<(), Unwritten>
    requires few { first + length diagnoses.now < 2 ^ 64 }
    requires of_system { AllByRecursion (IsOfSystem system.now) diagnoses.now }
    ensures { Writes (diagnosis_lines system.now first diagnoses.now) (K.device sink.old)
        (K.device sink.new) result }
{
    for (k, diagnosis) in diagnoses.iter().enumerate() {
        let line = Line::Diagnosis {
            number: first + k as u64,
            diagnosis,
        };
        print_line(alloc, system, &line, sink)?;
    }
    Ok(())
}

/// Prints what comes after the diagnoses: a line for each explanation, or the verdict, and then the
/// end line. `pairs` are the pairs of the diagnoses.
pub(crate) fn print_rest<K: Sink>(
    alloc: Global,
    extent: Extent,
    system: &System,
    equilibria: u64,
    pairs: &[Marks],
    explanations: &[Marks],
    need: u64,
    sink: &mut K,
) -> Result<(), Unwritten>
    requires { AllByRecursion (IsCauseOf system.now pairs.now) explanations.now }
    ensures { Writes (rest_part extent system.now equilibria pairs.now explanations.now need)
        (K.device sink.old) (K.device sink.new) result }
{
    print_explanations_part(alloc, extent, system, equilibria, pairs, explanations, sink)?;
    let line = Line::End {
        equilibria,
        diagnoses: pairs.len() as u64,
        explanations: explanations.len() as u64,
        need,
    };
    print_line(alloc, system, &line, sink)
}

/// Prints the part of the explanations: a line for each, or, for `Counts`, the verdict in their
/// place.
fn print_explanations_part<K: Sink>(
    alloc: Global,
    extent: Extent,
    system: &System,
    equilibria: u64,
    pairs: &[Marks],
    explanations: &[Marks],
    sink: &mut K,
) -> Result<(), Unwritten>
    requires { AllByRecursion (IsCauseOf system.now pairs.now) explanations.now }
    ensures { Writes (explanations_part extent system.now equilibria pairs.now explanations.now)
        (K.device sink.old) (K.device sink.new) result }
{
    match extent {
        Extent::Whole => print_explanations(alloc, system, pairs, explanations, sink),
        Extent::Counts => {
            let consistent = equilibria > 0;
            print_line(alloc, system, &Line::Verdict { consistent }, sink)
        }
    }
}

/// Prints a line for each explanation, numbered from 1.
fn print_explanations<K: Sink>(
    alloc: Global,
    system: &System,
    pairs: &[Marks],
    explanations: &[Marks],
    sink: &mut K,
) -> Result<(), Unwritten>
    requires { AllByRecursion (IsCauseOf system.now pairs.now) explanations.now }
    ensures { Writes (explanation_lines system.now 1 pairs.now explanations.now)
        (K.device sink.old) (K.device sink.new) result }
{
    for (k, explanation) in explanations.iter().enumerate() {
        let line = Line::Explanation {
            number: k as u64 + 1,
            pairs,
            explanation: *explanation,
        };
        print_line(alloc, system, &line, sink)?;
    }
    Ok(())
}
