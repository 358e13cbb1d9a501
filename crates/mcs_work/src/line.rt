//! The lines of a listing, and how one is printed.

ghost use Rattle.std.specs.Prelude.{◌≡◌, ◌++◌, OnOk};
ghost use Rattle.mcs_sets.specs.Sets.{Within};
ghost use Rattle.mcs_system.specs.Systems.{all_variables};
ghost use Rattle.mcs_report.specs.Listing.{state_line};
ghost use Rattle.mcs_text.specs.Writes.{Writes};
ghost use Rattle.mcs_work.specs.Printed.{line_text, sort_word, IsLineOf};

use mcs_base::{Marks, Memory, Text, Vars};
use mcs_diagnosis::Diagnosis;
use mcs_ports::Sink;
use mcs_report::{
    cheapest_end_line, cheapest_line, diagnosis_line, end_line, equilibrium_line, explanation_line,
    grounded_end_line, grounded_line, heading, short_end_line, verdict_line,
};
use mcs_system::System;
use mcs_text::{Unwritten, write_line};
use std::alloc::Global;

/// Which states a listing names.
#[derive(Clone, Copy)]
pub(crate) enum Sort {
    /// The projected equilibria.
    Equilibrium,
    /// The grounded ones among them.
    Grounded,
}

/// A line of a listing.
#[derive(Clone, Copy)]
pub(crate) enum Line<'a> {
    /// How many contexts, rules and variables the system has.
    Heading,
    /// A state of this sort, with its number.
    State {
        sort: Sort,
        number: u64,
        state: Vars,
    },
    /// Whether there is an equilibrium.
    Verdict {
        consistent: bool,
    },
    /// How many equilibria there are, and how many questions were asked.
    ShortEnd {
        equilibria: u64,
        need: u64,
    },
    /// How many grounded equilibria and how many equilibria there are, and how many questions were
    /// asked.
    GroundedEnd {
        grounded: u64,
        equilibria: u64,
        need: u64,
    },
    /// A diagnosis, with its number.
    Diagnosis {
        number: u64,
        diagnosis: &'a Diagnosis,
    },
    /// An explanation, with its number, by the pairs of the diagnoses.
    Explanation {
        number: u64,
        pairs: &'a [Marks],
        explanation: Marks,
    },
    /// How many equilibria, diagnoses and explanations there are, and how many questions were
    /// asked.
    End {
        equilibria: u64,
        diagnoses: u64,
        explanations: u64,
        need: u64,
    },
    /// A cheapest diagnosis, with its number and what it costs.
    CheapestDiagnosis {
        number: u64,
        price: u64,
        diagnosis: &'a Diagnosis,
    },
    /// How many cheapest diagnoses there are, what each of them costs if there are any, and how
    /// many questions were asked.
    CheapestEnd {
        count: u64,
        price: Option<u64>,
        need: u64,
    },
}

/// Appends the line.
fn push_line(system: &System, line: &Line<'_>, text: &mut Text) -> Result<(), Memory>
    requires { IsLineOf system.now line.now }
    ensures { OnOk result (text.new ≡ text.old ++ line_text system.now line.now) }
{
    match *line {
        Line::Heading => heading(system, text),
        Line::State {
            sort,
            number,
            state,
        } => push_state(system, sort, number, state, text),
        Line::Verdict { consistent } => verdict_line(consistent, text),
        Line::ShortEnd { equilibria, need } => short_end_line(equilibria, need, text),
        Line::GroundedEnd {
            grounded,
            equilibria,
            need,
        } => grounded_end_line(grounded, equilibria, need, text),
        Line::Diagnosis { number, diagnosis } => diagnosis_line(system, number, diagnosis, text),
        Line::Explanation {
            number,
            pairs,
            explanation,
        } => explanation_line(system, number, pairs, explanation, text),
        Line::End {
            equilibria,
            diagnoses,
            explanations,
            need,
        } => end_line(equilibria, diagnoses, explanations, need, text),
        Line::CheapestDiagnosis {
            number,
            price,
            diagnosis,
        } => cheapest_line(system, number, price, diagnosis, text),
        Line::CheapestEnd { count, price, need } => cheapest_end_line(count, price, need, text),
    }
}

/// Appends the line of a state of this sort.
fn push_state(
    system: &System,
    sort: Sort,
    number: u64,
    state: Vars,
    text: &mut Text,
) -> Result<(), Memory>
    requires { Within state (all_variables system.now) }
    ensures { OnOk result (text.new ≡ text.old ++ state_line (sort_word sort) system.now number
        state) }
{
    match sort {
        Sort::Equilibrium => equilibrium_line(system, number, state, text),
        Sort::Grounded => grounded_line(system, number, state, text),
    }
}

/// Prints the line, in one piece.
pub(crate) fn print_line<K: Sink>(
    alloc: Global,
    system: &System,
    line: &Line<'_>,
    sink: &mut K,
) -> Result<(), Unwritten>
    requires { IsLineOf system.now line.now }
    ensures { Writes (line_text system.now line.now) (K.device sink.old) (K.device sink.new) result }
{
    let mut text = Text::new(alloc);
    push_line(system, line, &mut text)?;
    write_line(&text, sink)
}
