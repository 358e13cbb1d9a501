//! The cheapest diagnoses by a report: from the two files to their listing, or to the line of the
//! test that the report fails.

ghost use Rattle.std.specs.Prelude.{◌≡◌, ℕ, List, IfOk};
ghost use Rattle.std.specs.Arc.{arc_value};
ghost use Rattle.mcs_text.specs.Writes.{Writes};
ghost use Rattle.mcs_check.specs.Checked.{finding_in, HoldsAnswers};
ghost use Rattle.mcs_top.specs.Examining.{TellsCheapest};
ghost use Rattle.mcs_top.specs.Meaning.{IsToldCheapest, report_job};
ghost use Rattle.mcs_top.specs.Promise.{DoesJob, outcome_of};

use crate::checking::print_finding;
use crate::examining::{Examined, examine};
use crate::outcome::Outcome;
use mcs_check::{Checked, Finding, cheapest_by};
use mcs_listing::Stop;
use mcs_ports::{Shelf, Sink};
use mcs_system::System;
use mcs_text::Unwritten;
use std::alloc::Global;
use std::sync::Arc;

/// Checks the report in the file `report` against the system whose text is in the file `file`, and
/// prints the cheapest diagnoses by its answers, or, if it is not valid, what `check` prints. No
/// solver runs, and one thread does all.
pub(crate) fn cheapest_by_report<H: Shelf, K: Sink>(
    alloc: Global,
    file: &str,
    report: &str,
    shelf: &mut H,
    sink: &mut K,
) -> Result<Outcome, Stop>
    ensures { DoesJob (report_job IsToldCheapest file.now report.now) (H.held shelf.old)
        (H.faults shelf.old) (H.faults shelf.new) (H.failures shelf.old) (H.failures shelf.new)
        (K.device sink.old) (K.device sink.new) result }
{
    let examined = examine(alloc, file, report, shelf)?;
    let Examined { system, checked } = examined;
    let outcome = print_by(alloc, system, checked, sink)?;
    Ok(outcome)
}

/// Prints the cheapest diagnoses of the system by the answers of a valid report, or the line of the
/// test that a report fails.
fn print_by<K: Sink>(
    alloc: Global,
    system: Arc<System>,
    checked: Checked,
    sink: &mut K,
) -> Result<Outcome, Unwritten>
    requires { HoldsAnswers (arc_value system) checked }
    ensures prints { (text : List ℕ) × TellsCheapest (arc_value system) text (finding_in checked)
        × Writes text (K.device sink.old) (K.device sink.new) result }
    ensures outcome { IfOk result (λ outcome. outcome ≡ outcome_of (finding_in checked)) }
{
    match checked {
        Checked::Valid(accepted) => {
            cheapest_by(alloc, system, accepted, sink)?;
            Ok(Outcome::Done)
        }
        Checked::Fails { line, reason } => {
            print_finding(alloc, Finding::Fails { line, reason }, sink)?;
            Ok(Outcome::NotValid)
        }
    }
}
