//! A whole report.

ghost use Rattle.std.specs.Prelude.{◌≡◌, ◌≤◌, ◌<◌, ℕ, [], None, length, IfOk, MatchResult};
ghost use Rattle.mcs_spelling.specs.Lines.{complete_lines, incomplete};
ghost use Rattle.mcs_proof_lines.specs.Walks.{ReturnsReading, Passes};
ghost use Rattle.mcs_proof_reader.specs.Answers.{answer_at, answers_at};
ghost use Rattle.mcs_proof_reader.specs.Keeping.{IsNextKept, AreReadAndKept, IsKeptReport};
ghost use Rattle.mcs_proof_reader.specs.Keeping.{IsReportFault};
ghost use Rattle.mcs_proof_reader.specs.Readers.{AreTexts};
ghost use Rattle.mcs_proof_reader.specs.Whole.{IsReportRead, end_at};

use crate::answer::ReportAnswer;
use crate::keep::{Keep, Whole};
use crate::listing::{copies_of, take_listing};
use crate::question::next_question;
use crate::texts::Texts;
use mcs_base::Active;
use mcs_proof_lines::{Lines, ReportFault, expect, is_next, out_of_place};
use mcs_system::System;
use std::alloc::Global;

/// A report: the lines of the listing, the answers, and the number of the line `end of proof`
/// (counted from 1).
#[derive(Drop)]
pub struct Report {
    pub listing: Vec<Vec<u8>>,
    pub answers: Vec<ReportAnswer>,
    pub last_line: u64,
}

/// What is kept of a report: the lines of the listing as bytes, what was kept of each answer, in
/// their order, and the number of the line `end of proof` (counted from 1).
#[derive(Drop)]
pub struct KeptReport<'b, T> {
    pub listing: &'b [u8],
    pub answers: Vec<T>,
    pub last_line: u64,
}

/// Takes the next answer, whose question has to come after the last one, by context and then by
/// rule set. Returns the question, and what `keep` keeps of the answer.
fn keep_next<K: Keep>(
    alloc: Global,
    system: &System,
    texts: &Texts,
    keep: &K,
    last: Option<(u32, Active)>,
    lines: &mut Lines<'_>,
) -> Result<((u32, Active), K::Kept), ReportFault>
    requires { AreTexts system.now texts.now }
    ensures read { MatchResult result
        (λ a. IsNextKept K.Keeps system.now last lines.old lines.new a.0 a.1)
        (λ fault. ReturnsReading fault (answer_at system.now last lines.old)) }
    ensures shorter { IfOk result (λ a. length lines.new.rest < length lines.old.rest) }
{
    let line = lines.number();
    let Some(question) = next_question(system, texts, last, lines) else {
        return Err(out_of_place(lines));
    };
    let asked = (question.0, question.1);
    lines.advance();
    let kept = keep.take(alloc, system, texts, question, line, lines)?;
    match expect(lines, b"done") {
        Ok(()) => Ok((asked, kept)),
        Err(fault) => {
            drop(kept);
            Err(fault)
        }
    }
}

/// Takes the next answers, up to the line that ends them, and keeps of each what `keep` returns.
fn keep_answers<K: Keep>(
    alloc: Global,
    system: &System,
    texts: &Texts,
    keep: &K,
    lines: &mut Lines<'_>,
) -> Result<Vec<K::Kept>, ReportFault>
    requires { AreTexts system.now texts.now }
    ensures { MatchResult result
        (λ kept. AreReadAndKept K.Keeps system.now lines.old lines.new kept.items)
        (λ fault. (n : ℕ) → length lines.old.rest ≤ n
        → ReturnsReading fault (answers_at system.now n None lines.old)) }
{
    let mut kept = Vec::new(alloc);
    let mut last = None;
    while !is_next(lines, b"end of proof") {
        match keep_next(alloc, system, texts, keep, last, lines) {
            Ok((question, item)) => {
                last = Some(question);
                kept.push(item)?;
            }
            Err(fault) => return Err(fault),
        }
    }
    Ok(kept)
}

/// What is kept of the report on the system that the bytes spell, by the grammar of `read_report`.
/// `keep` reads what each answer shows, one answer after the other, and of each only what it
/// returns is held. `Grammar` is returned in the same cases as by `read_report`, even if `keep` has
/// read answers before that line.
pub fn read_kept<'b, K: Keep>(
    alloc: Global,
    system: &System,
    bytes: &'b [u8],
    keep: &K,
) -> Result<KeptReport<'b, K::Kept>, ReportFault>
    ensures read { MatchResult result
        (λ r. IsKeptReport K.Keeps system.now bytes.now
        (complete_lines r.listing.now) r.answers.items r.last_line)
        (IsReportFault system.now bytes.now) }
    ensures whole { IfOk result (λ r. incomplete r.listing.now ≡ []) }
{
    let texts = Texts::of(alloc, system)?;
    let mut lines = Lines::new(bytes);
    let listing = take_listing(&mut lines)?;
    expect(&mut lines, b"proof")?;
    let answers = keep_answers(alloc, system, &texts, keep, &mut lines)?;
    let last_line = lines.number();
    match end_of(&mut lines) {
        Ok(()) => Ok(KeptReport {
            listing,
            answers,
            last_line,
        }),
        Err(fault) => {
            drop(answers);
            Err(fault)
        }
    }
}

/// The report on the system that the bytes spell. It is
///
/// - a listing, of which only the last line begins with `end: `,
/// - the line `proof`,
/// - answers to different questions, ordered by context and then by rule set, each with a
///   certificate,
/// - the line `end of proof`.
///
/// `Grammar` is returned exactly if they spell no report, with the number of the first line that is
/// out of place, counted from 1. The lines before it begin a report, and the lines up to and
/// including it do not, or there is no such line.
pub fn read_report(alloc: Global, system: &System, bytes: &[u8]) -> Result<Report, ReportFault>
    ensures { IsReportRead system.now bytes.now result }
{
    let kept = match read_kept(alloc, system, bytes, &Whole) {
        Ok(kept) => kept,
        Err(fault) => return Err(fault),
    };
    match copies_of(alloc, kept.listing) {
        Ok(listing) => Ok(Report {
            listing,
            answers: kept.answers,
            last_line: kept.last_line,
        }),
        Err(want) => {
            drop(kept);
            Err(ReportFault::from(want))
        }
    }
}

/// Takes the line `end of proof`, which has to be the last one.
fn end_of(lines: &mut Lines<'_>) -> Result<(), ReportFault>
    ensures { Passes result lines.new (end_at lines.old) }
{
    expect(lines, b"end of proof")?;
    if lines.is_at_end() {
        Ok(())
    } else {
        Err(out_of_place(lines))
    }
}
