//! The check of a report.

ghost use Rattle.std.specs.Prelude.{◌≡◌, ℕ, List, [], IfOk};
ghost use Rattle.std.specs.Arc.{arc_value};
ghost use Rattle.mcs_system.specs.Plain as plain;
ghost use Rattle.mcs_spelling.specs.Lines.{complete_lines, incomplete};
ghost use Rattle.mcs_report.specs.Solutions.{IsWholeListing};
ghost use Rattle.mcs_proof_text.specs.Answers.{Answer};
ghost use Rattle.mcs_proof_text.specs.Reports.{SpellsReport};
ghost use Rattle.mcs_check.specs.Answers.{AreEnough};
ghost use Rattle.mcs_check.specs.Checked.{finding_in, ShowsCheck};
ghost use Rattle.mcs_check.specs.Findings.{IsReportFinding, RulesOut};
ghost use Rattle.mcs_check.specs.Judging.{IsJudgedReport};

use crate::accepted::Accepted;
use crate::collecting::Collecting;
use crate::difference::first_difference;
use crate::finding::{Finding, Reason};
use crate::judging::{Judge, Judged, first_wrong};
use crate::oracles::oracles_of;
use crate::relisting::{Relisted, listing_by};
use mcs_base::Memory;
use mcs_proof_lines::ReportFault;
use mcs_proof_reader::{KeptReport, read_kept};
use mcs_system::System;
use std::alloc::Global;
use std::sync::Arc;

/// What the check of a report leaves.
#[derive(Drop)]
pub enum Checked {
    /// The report is valid. This is left of it.
    Valid(Accepted),
    /// The report fails a test. The line, counted from 1, is the one that shows it.
    Fails { line: u64, reason: Reason },
}

impl Checked {
    /// The finding of the check.
    pub fn finding(&self) -> Finding
        ensures { result ≡ finding_in self.now }
    {
        match self {
            Checked::Valid(_) => Finding::Valid,
            Checked::Fails { line, reason } => Finding::Fails {
                line: *line,
                reason: *reason,
            },
        }
    }
}

/// Checks the bytes as a report on the system: it is valid, or fails the first of four tests, with
/// the number of the line that shows it. No search is done. `Memory` may be returned in place of a
/// finding.
pub fn check_report(alloc: Global, system: Arc<System>, bytes: &[u8]) -> Result<Finding, Memory>
    ensures found { IfOk result (IsReportFinding (arc_value system) bytes.now) }
    ensures only { IfOk result (RulesOut (arc_value system) bytes.now) }
{
    let checked = certify(alloc, system, bytes)?;
    Ok(checked.finding())
}

/// Checks the bytes as `check_report` does. Of a valid report it hands back oracles with its
/// answers, which lack none to a question on which the listing of the system depends, and the first
/// states of diagnoses that they have told.
pub fn certify(alloc: Global, system: Arc<System>, bytes: &[u8]) -> Result<Checked, Memory>
    ensures shows { IfOk result (ShowsCheck (arc_value system) bytes.now) }
    ensures only { IfOk result (λ checked. RulesOut (arc_value system) bytes.now
        (finding_in checked)) }
{
    // The contract of `contexts` ensures that the system is valid and its names are names, so a
    // text spells at most one report.
    let _ = system.contexts();
    checked_in(alloc, system, bytes)
}

/// What the check of the bytes leaves. Each answer is judged line by line while it is read, so that
/// no certificate is held whole: of the answer that is being read, the clauses of one trace, the
/// views, and the smaller sets of a program; of those before it, the question, the states, and
/// whether the certificate was accepted.
fn checked_in(alloc: Global, system: Arc<System>, bytes: &[u8]) -> Result<Checked, Memory>
    ensures { IfOk result (ShowsCheck (arc_value system) bytes.now) }
{
    match read_kept(alloc, &system, bytes, &Judge) {
        Ok(report) => checked_by(alloc, system, report),
        Err(ReportFault::Grammar { line }) => Ok(Checked::Fails {
            line,
            reason: Reason::Grammar,
        }),
        Err(ReportFault::Memory) => Err(Memory),
    }
}

/// What the check of a report leaves that was read and whose answers were judged.
fn checked_by(
    alloc: Global,
    system: Arc<System>,
    report: KeptReport<'_, Judged>,
) -> Result<Checked, Memory>
    requires judged { (bytes : List ℕ) × IsJudgedReport (arc_value system) bytes report }
    requires whole { incomplete report.listing.now ≡ [] }
    ensures { (bytes : List ℕ) → IsJudgedReport (arc_value system) bytes report.entry
        → IfOk result (ShowsCheck (arc_value system) bytes) }
{
    if let Some(line) = first_wrong(&report.answers) {
        return Ok(Checked::Fails {
            line,
            reason: Reason::Certificate,
        });
    }
    let oracles = oracles_of(alloc, &system, report.answers)?;
    let Some(listed) = listing_by(alloc, system, oracles, report.listing)? else {
        return Ok(Checked::Fails {
            line: report.last_line,
            reason: Reason::Missing,
        });
    };
    let Relisted { sink, accepted } = listed;
    match compared(report.listing, &sink) {
        Finding::Valid => Ok(Checked::Valid(accepted)),
        Finding::Fails { line, reason } => Ok(Checked::Fails { line, reason }),
    }
}

/// The finding on a report with this listing that passes the other tests. `due` has the listing of
/// the system.
fn compared(listing: &[u8], due: &Collecting<'_>) -> Finding
    requires listing { incomplete listing.now ≡ [] }
    requires due { (m : plain.System) × IsWholeListing m due.now.text }
    ensures { (m : plain.System) (bytes : List ℕ) (as' : List Answer)
        → SpellsReport m bytes (complete_lines listing.now) as' → AreEnough m as'
        → IsWholeListing m due.now.text → IsReportFinding m bytes result }
{
    let (front, rest) = due.pieces();
    match first_difference(listing, front, rest) {
        Some(line) => Finding::Fails {
            line,
            reason: Reason::Listing,
        },
        None => Finding::Valid,
    }
}
