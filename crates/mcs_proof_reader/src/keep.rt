//! What a caller keeps of the answers of a report.

ghost use Rattle.std.specs.Prelude.{ℕ, ◌<◌, length, slice_get};
ghost use Rattle.mcs_sets.specs.Sets.{Within};
ghost use Rattle.mcs_system.specs.Imports.{rules_into};
ghost use Rattle.mcs_system.specs.Plain as plain;
ghost use Rattle.mcs_proof_text.specs.Answers.{Answer};
ghost use Rattle.mcs_proof_reader.specs.Answers.{shown_of};
ghost use Rattle.mcs_proof_reader.specs.Keeping.{TakesAndKeeps};
ghost use Rattle.mcs_proof_reader.specs.Readers.{AreTexts};

use crate::answer::{ReportAnswer, take_answer};
use crate::texts::Texts;
use mcs_base::Active;
use mcs_proof_lines::{Lines, ReportFault};
use mcs_system::System;
use std::alloc::Global;

/// Reads what answers of a report show, and decides what is kept of it.
pub trait Keep {
    /// What is kept of an answer.
    type Kept: Drop;

    /// What holds of an answer, the number of its first line (counted from 1), and what is kept of
    /// it.
    ghost Keeps: { plain.System → Answer → ℕ → Self.Kept → Type 0 };

    /// Reads the states and the certificate of the answer to this question, a context of the system
    /// and rules into it, and returns what is kept of the answer. It begins at the line with the
    /// number `line`; that line is taken, and the states begin at the next one. The texts are those
    /// of the system. `Grammar` is returned exactly if a line is out of place, whatever the
    /// certificate claims.
    fn take(
        &self,
        alloc: Global,
        system: &System,
        texts: &Texts,
        question: (u32, Active),
        line: u64,
        lines: &mut Lines<'_>,
    ) -> Result<Self::Kept, ReportFault>
        requires texts { AreTexts system.now texts.now }
        requires context { question.0 < length system.now.contexts }
        requires rules { Within question.1 (rules_into system.now question.0) }
        ensures { TakesAndKeeps Keeps system.now question line result lines.new
            (shown_of system.now question.0 (slice_get system.now.contexts question.0) lines.old) };
}

/// Keeps each answer unchanged.
pub(crate) struct Whole;

impl Keep for Whole {
    ghost use Rattle.mcs_proof_reader.specs.Keeping.{IsWholeAnswer};

    type Kept = ReportAnswer;

    ghost Keeps = { λ _. IsWholeAnswer };

    fn take(
        &self,
        alloc: Global,
        system: &System,
        texts: &Texts,
        question: (u32, Active),
        line: u64,
        lines: &mut Lines<'_>,
    ) -> Result<ReportAnswer, ReportFault> {
        take_answer(alloc, system, texts, question, line, lines)
    }
}
