//! A text keeps each limit, and with one more it exceeds it, where the one begins.

use crate::faults::{fault_of, has_fault};
use mcs_base::{Memory, Text};
use mcs_system::Limit;
use std::alloc::Global;

/// Whether the text exceeds the limit where the tail begins.
fn exceeds(alloc: Global, text: &[u8], limit: Limit, tail: &[u8]) -> bool {
    let offset = text.len().saturating_sub(tail.len());
    text.ends_with(tail) && has_fault(alloc, text, 5, offset, Some(limit))
}

/// Appends the row with the number in place of each `#`.
fn push_row(text: &mut Text, row: &str, number: u64) -> Result<(), Memory> {
    for byte in row.as_bytes() {
        if *byte == b'#' {
            text.push_number(number)?;
        } else {
            text.push(&[*byte])?;
        }
    }
    Ok(())
}

/// Appends the row for each number from the first up to the one before the end.
fn push_rows(text: &mut Text, row: &str, first: u64, end: u64) -> Result<(), Memory> {
    for number in first..end {
        push_row(text, row, number)?;
    }
    Ok(())
}

/// A row, and from and up to before which number it stands.
type Rows = (&'static str, u64, u64);

/// Appends all the rows.
fn push_all(text: &mut Text, all: &[Rows]) -> Result<(), Memory> {
    for (row, first, end) in all {
        push_rows(text, row, *first, *end)?;
    }
    Ok(())
}

/// The text of all these rows.
fn text_of(alloc: Global, parts: &[&[Rows]]) -> Result<Text, Memory> {
    let mut text = Text::new(alloc);
    for rows in parts {
        push_all(&mut text, rows)?;
    }
    Ok(text)
}

/// A text of a front, a row for each number from 1 up to a count, and a back. With the count `most`
/// it keeps the limit, and with one more it exceeds it where the tail begins.
pub(crate) struct Parts {
    pub(crate) limit: Limit,
    most: u64,
    front: &'static str,
    row: &'static str,
    back: &'static str,
    tail: &'static str,
}

impl Parts {
    /// The text with so many rows.
    fn text(&self, alloc: Global, count: u64) -> Result<Text, Memory> {
        let end = count.saturating_add(1);
        let all = [(self.front, 0, 1), (self.row, 1, end), (self.back, 0, 1)];
        text_of(alloc, &[all.as_slice()])
    }

    /// The text that keeps the limit.
    pub(crate) fn full_text(&self, alloc: Global) -> Result<Text, Memory> {
        self.text(alloc, self.most)
    }

    /// Whether the text with one row more exceeds the limit where the tail begins.
    fn is_exceeded(&self, alloc: Global) -> Result<bool, Memory> {
        let text = self.text(alloc, self.most.saturating_add(1))?;
        let is_exceeded = exceeds(alloc, text.bytes(), self.limit, self.tail.as_bytes());
        drop(text);
        Ok(is_exceeded)
    }

    /// Whether it keeps the limit and exceeds it so.
    fn is_kept(&self, alloc: Global) -> Result<bool, Memory> {
        let text = self.full_text(alloc)?;
        let fits = fault_of(alloc, text.bytes()) == None;
        drop(text);
        Ok(fits & self.is_exceeded(alloc)?)
    }
}

/// It keeps the limit of the atoms of a context.
pub(crate) const FULL_OF_ATOMS: Parts = Parts {
    limit: Limit::AtomsPerContext,
    most: 64,
    front: "context c classical { ",
    row: "a#. ",
    back: "}",
    tail: "a65. }",
};

/// It keeps the limit of the signs and atoms of a formula.
pub(crate) const FULL_OF_SIGNS: Parts = Parts {
    limit: Limit::FormulaSize,
    most: 511,
    front: "context c classical { ",
    row: "~",
    back: "p. }",
    tail: "p. }",
};

static PARTS: [Parts; 9] = [
    Parts {
        limit: Limit::Contexts,
        most: 64,
        front: "",
        row: "context c# classical {} ",
        back: "",
        tail: "context c65 classical {} ",
    },
    Parts {
        limit: Limit::RulesPerContext,
        most: 12,
        front: "context c classical {} ",
        row: "bridge r#: c:p. ",
        back: "",
        tail: "c:p. ",
    },
    Parts {
        limit: Limit::InputsPerContext,
        most: 15,
        front: "context c classical {} bridge r: c:p if c:q",
        row: ", c:q#",
        back: ".",
        tail: "q16.",
    },
    FULL_OF_ATOMS,
    Parts {
        limit: Limit::DefaultsPerContext,
        most: 10,
        front: "context c default { ",
        row: "a : b# / c. ",
        back: "}",
        tail: ": b11 / c. }",
    },
    Parts {
        limit: Limit::ItemsPerContext,
        most: 4096,
        front: "context c classical { ",
        row: "p. ",
        back: "}",
        tail: "p. }",
    },
    FULL_OF_SIGNS,
    Parts {
        limit: Limit::FormulaSize,
        most: 511,
        front: "context c program { a",
        row: " | a",
        back: ". }",
        tail: "a. }",
    },
    Parts {
        limit: Limit::NameBytes,
        most: 63,
        front: "context c classical { ",
        row: "a",
        back: "a. }",
        tail: "aaaaaaaaaaaaaaaaaaaaaaaaaaaaaaaaaaaaaaaaaaaaaaaaaaaaaaaaaaaaaaaaa. }",
    },
];

#[test]
fn limits_of_parts_are_kept(rt: HostRuntime) {
    for parts in &PARTS {
        assert!(rt; parts.is_kept(rt.alloc()) == Ok(true));
    }
}

/// A text that keeps the limit with the rest behind its front, and exceeds it with other rows
/// there, where the last of them begin.
struct Full {
    limit: Limit,
    front: &'static [Rows],
    rest: &'static [Rows],
    other: &'static [Rows],
    last: &'static [Rows],
}

static FULL: [Full; 3] = [
    // A formula in 512 parentheses, from the last one that is opened on; and one in 513, from there
    // on.
    Full {
        limit: Limit::OpenParentheses,
        front: &[("context c classical { ", 0, 1), ("(", 0, 512)],
        rest: &[("p", 0, 1), (")", 0, 512), (". }", 0, 1)],
        other: &[],
        last: &[("(p", 0, 1), (")", 0, 513), (". }", 0, 1)],
    },
    // Bridge rules into six contexts.
    Full {
        limit: Limit::Bridges,
        front: &[
            ("context c# classical {} ", 1, 7),
            ("bridge r#: c1:p. ", 0, 11),
            ("bridge r#: c2:p. ", 11, 22),
            ("bridge r#: c3:p. ", 22, 33),
            ("bridge r#: c4:p. ", 33, 44),
            ("bridge r#: c5:p. ", 44, 54),
            ("bridge r#: c6:p. ", 54, 64),
        ],
        rest: &[],
        other: &[],
        last: &[("bridge r64: c5:p. ", 0, 1)],
    },
    // Four rules that read sixteen beliefs of a context each, and the front of a rule that reads
    // one more.
    Full {
        limit: Limit::Variables,
        front: &[
            ("context d classical {} ", 0, 1),
            ("context c# classical {} ", 1, 6),
            ("bridge r1: c1:p if d:a1", 0, 1),
            (", d:b#", 15, 30),
            (". bridge r2: c2:p if d:a2", 0, 1),
            (", d:b#", 30, 45),
            (". bridge r3: c3:p if d:a3", 0, 1),
            (", d:b#", 45, 60),
            (". bridge r4: c4:p if d:a4", 0, 1),
            (", d:b#", 60, 75),
            (". bridge s: c5:p if ", 0, 1),
        ],
        rest: &[("d:a1. ", 0, 1)],
        other: &[("c1:", 0, 1)],
        last: &[("b. ", 0, 1)],
    },
];

impl Full {
    /// Whether the text keeps the limit.
    fn fits(&self, alloc: Global) -> Result<bool, Memory> {
        let text = text_of(alloc, &[self.front, self.rest])?;
        let fits = fault_of(alloc, text.bytes()) == None;
        drop(text);
        Ok(fits)
    }

    /// Whether it exceeds the limit where the last rows begin.
    fn is_exceeded(&self, alloc: Global) -> Result<bool, Memory> {
        let tail = text_of(alloc, &[self.last])?;
        let text = text_of(alloc, &[self.front, self.other, self.last])?;
        let is_exceeded = exceeds(alloc, text.bytes(), self.limit, tail.bytes());
        drop((text, tail));
        Ok(is_exceeded)
    }
}

#[test]
fn limits_of_texts_are_kept(rt: HostRuntime) {
    for full in &FULL {
        let fits = full.fits(rt.alloc()) == Ok(true);
        assert!(rt; fits && full.is_exceeded(rt.alloc()) == Ok(true));
    }
}
