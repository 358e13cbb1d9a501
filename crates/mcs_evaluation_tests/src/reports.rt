//! Reports, read: the answers that stand in their text, whole or as they are kept.

ghost use Rattle.std.specs.Prelude.{◌≡◌};

use crate::numbered::are_numbered;
use crate::systems::system_of;
use mcs_base::Active;
use mcs_proof_lines::{Lines, ReportFault};
use mcs_proof_reader::{Keep, Report, ReportAnswer, Texts, read_kept, read_report, take_answer};
use mcs_system::System;
use std::alloc::Global;
use std::test::Fail;

/// A context that may not believe what a rule tells it.
const TOLD: &str =
    "context c1 program { a. }\ncontext c2 program { :- p. }\nbridge r1: c2:p if c1:a.\n";

/// A report on it: a listing of five lines, and three answers.
const TOLD_REPORT: &str =
    "mcs 1: 2 contexts, 1 rules, 1 variables\ninconsistent\ndiagnosis 1: {-r1} state {c1:a} active {}\nexplanation 1: {-r1 by 1}\nend: 0 equilibria, 1 diagnoses, 1 explanations, need 3\nproof\nanswer c1 {}\nstate {c1:a}\nmodel {a}\nstep by 8 6 4 1 5\nnone\nstep by 8 6 4 1 5\ndone\nanswer c2 {}\nstate {}\nmodel {}\nstep by 12 10 9\nnone\nstep by 9 7 6\ndone\nanswer c2 {r1}\nnone\nstep by 10 9 6 4 1 5\ndone\nend of proof\n";

/// Its listing.
const TOLD_LISTING: &str =
    "mcs 1: 2 contexts, 1 rules, 1 variables\ninconsistent\ndiagnosis 1: {-r1} state {c1:a} active {}\nexplanation 1: {-r1 by 1}\nend: 0 equilibria, 1 diagnoses, 1 explanations, need 3\n";

/// Whether the answer begins at this line, is to the question of this context and these rules, and
/// puts out the states of these numbers.
fn is_answer(
    answer: &ReportAnswer,
    line: u64,
    context: u32,
    active: Active,
    outputs: &[u64],
) -> bool {
    answer.line == line
        && answer.context == context
        && answer.active == active
        && are_numbered(&answer.outputs, outputs)
}

/// Whether the report is the one above.
fn is_told(report: &Report) -> bool {
    let [first, second, third] = report.answers.as_slice() else {
        return false;
    };
    let is_first = is_answer(first, 7, 0, Active::empty(), &[1]);
    let is_second = is_answer(second, 14, 1, Active::empty(), &[0]);
    let is_third = is_answer(third, 21, 1, Active::one(0), &[]);
    let is_whole = report.listing.len() == 5 && report.last_line == 25;
    [is_first, is_second, is_third, is_whole] == [true; 4]
}

/// Whether it is read so.
fn is_read(alloc: Global, system: &System) -> bool {
    match read_report(alloc, system, TOLD_REPORT.as_bytes()) {
        Ok(report) => is_told(&report),
        Err(_) => false,
    }
}

/// Keeps of each answer the number of its first line.
struct FirstLines;

impl Keep for FirstLines {
    type Kept = u64;

    ghost Keeps = { λ _ _ line kept. kept ≡ line };

    fn take(
        &self,
        alloc: Global,
        system: &System,
        texts: &Texts,
        question: (u32, Active),
        line: u64,
        lines: &mut Lines<'_>,
    ) -> Result<u64, ReportFault> {
        match take_answer(alloc, system, texts, question, line, lines) {
            Ok(answer) => {
                drop(answer);
                Ok(line)
            }
            Err(fault) => Err(fault),
        }
    }
}

/// Whether its listing is kept as bytes, and the lines at which its answers begin.
fn is_kept(alloc: Global, system: &System) -> bool {
    match read_kept(alloc, system, TOLD_REPORT.as_bytes(), &FirstLines) {
        Ok(report) => {
            let are_lines = report.answers.as_slice() == [7, 14, 21].as_slice();
            let is_whole = report.listing == TOLD_LISTING.as_bytes() && report.last_line == 25;
            drop(report);
            are_lines && is_whole
        }
        Err(_) => false,
    }
}

#[test]
fn the_answers_of_a_report_are_read(rt: HostRuntime) -> Result<(), Fail> {
    let system = system_of(rt.alloc(), TOLD)?;
    let is_read = is_read(rt.alloc(), &system);
    let is_kept = is_kept(rt.alloc(), &system);
    drop(system);
    assert!(rt; is_read && is_kept);
    Ok(())
}
