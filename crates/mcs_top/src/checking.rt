//! The check of a report: from the two files to the line with the finding.

ghost use Rattle.std.specs.Prelude.{◌≡◌};
ghost use Rattle.mcs_text.specs.Writes.{Writes};
ghost use Rattle.mcs_words.specs.Commands as commands;
ghost use Rattle.mcs_check.specs.Findings.{finding_line};
ghost use Rattle.mcs_top.specs.Meaning.{meaning};
ghost use Rattle.mcs_top.specs.Promise.{DoesJob, outcome_of};

use crate::examining::examine;
use crate::outcome::Outcome;
use mcs_base::Text;
use mcs_check::{Finding, finding_line};
use mcs_listing::Stop;
use mcs_ports::{Shelf, Sink};
use mcs_text::{Unwritten, write_line};
use std::alloc::Global;

/// Checks the report in the file `report` against the system whose text is in the file `file`, and
/// prints whether it is valid.
pub(crate) fn check<H: Shelf, K: Sink>(
    alloc: Global,
    file: &str,
    report: &str,
    shelf: &mut H,
    sink: &mut K,
) -> Result<Outcome, Stop>
    ensures { DoesJob (meaning (commands.check file.now report.now)) (H.held shelf.old)
        (H.faults shelf.old) (H.faults shelf.new) (H.failures shelf.old) (H.failures shelf.new)
        (K.device sink.old) (K.device sink.new) result }
{
    let examined = examine(alloc, file, report, shelf)?;
    let finding = examined.checked.finding();
    print_finding(alloc, finding, sink)?;
    Ok(outcome_of(finding))
}

/// Prints the line of the finding.
pub(crate) fn print_finding<K: Sink>(
    alloc: Global,
    finding: Finding,
    sink: &mut K,
) -> Result<(), Unwritten>
    ensures { Writes (finding_line finding) (K.device sink.old) (K.device sink.new) result }
{
    let mut line = Text::new(alloc);
    finding_line(finding, &mut line)?;
    write_line(&line, sink)
}

/// The outcome of a job with this finding.
fn outcome_of(finding: Finding) -> Outcome
    ensures { result ≡ outcome_of finding }
{
    match finding {
        Finding::Valid => Outcome::Done,
        Finding::Fails { .. } => Outcome::NotValid,
    }
}
