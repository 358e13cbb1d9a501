//! Bridge rules that are read by themselves.

use crate::systems::system_of;
use mcs_base::{Memory, Text};
use mcs_language::{TextFault, read_bridge};
use mcs_system::{Bridge, Context, Limit};
use std::alloc::Global;

/// What is read of a text from an offset on.
#[derive(Drop)]
enum Reading {
    /// A rule into the context with this number, which ends at this offset.
    Rule(u32, usize),
    /// The fault of this number at this offset.
    Fault(u8, usize),
    /// More than the limit, at this offset.
    Exceeds(Limit, usize),
}

/// Texts, from where on they are read, and what is read of them in a system with the contexts `c1`
/// and `c2`, of which the second is a program.
static READINGS: [(&str, usize, Reading); 13] = [
    ("bridge r1: c2:p if c1:a.", 0, Reading::Rule(1, 24)),
    // What comes before the offset and after the rule is not read.
    ("list. bridge r1: c2:p. c3", 5, Reading::Rule(1, 22)),
    (
        "bridge r keep closed weight 7: c1:(a & b).?",
        0,
        Reading::Rule(0, 42),
    ),
    // Names of rules, and heads that are no atoms, are not looked at.
    ("bridge c1: c2:(p | q).", 0, Reading::Rule(1, 22)),
    ("add bridge r1: c2:p.", 0, Reading::Fault(1, 0)),
    ("bridge r1: c2:p if c1:a", 0, Reading::Fault(1, 23)),
    ("", 0, Reading::Fault(1, 0)),
    ("bridge r1: c2:p if not.", 0, Reading::Fault(1, 22)),
    ("bridge r1: c3:p.", 0, Reading::Fault(2, 11)),
    ("bridge r1: c2:p if c1:a, c3:b.", 0, Reading::Fault(2, 25)),
    // The first fault is told.
    ("bridge r1: c3:p q", 0, Reading::Fault(2, 11)),
    (
        "bridge r1 weight 1000001: c2:p.",
        0,
        Reading::Exceeds(Limit::Weight, 17),
    ),
    (
        "bridge a123456789b123456789c123456789d123456789e123456789f123456789g1234: c2:p.",
        0,
        Reading::Exceeds(Limit::NameBytes, 7),
    ),
];

/// Whether this is read.
fn is_so(read: &Result<(Bridge, usize), TextFault>, wanted: &Reading) -> bool {
    match (read, wanted) {
        (Ok((bridge, end)), Reading::Rule(target, offset)) => {
            bridge.target == *target && end == offset
        }
        (Err(fault), Reading::Fault(number, offset)) => {
            *fault
                == TextFault::Fault {
                    number: *number,
                    offset: *offset,
                    limit: None,
                }
        }
        (Err(fault), Reading::Exceeds(limit, offset)) => {
            *fault
                == TextFault::Fault {
                    number: 5,
                    offset: *offset,
                    limit: Some(*limit),
                }
        }
        _ => false,
    }
}

/// Whether each of the texts is read as it should be.
fn are_read(alloc: Global, contexts: &[Context]) -> bool {
    let mut are_right = true;
    for (text, at, wanted) in &READINGS {
        if *at <= text.len() {
            let read = read_bridge(alloc, text.as_bytes(), *at, contexts);
            are_right &= is_so(&read, wanted);
            drop(read);
        } else {
            are_right = false;
        }
    }
    are_right
}

/// Whether the parenthesis is told that is opened once more than may be.
fn is_last_refused(alloc: Global, contexts: &[Context]) -> Result<bool, Memory> {
    let mut text = Text::new(alloc);
    text.push(b"bridge r: c2:")?;
    for _ in 0..600 {
        text.push(b"(")?;
    }
    let read = read_bridge(alloc, text.bytes(), 0, contexts);
    let wanted = Reading::Exceeds(Limit::OpenParentheses, 525);
    let is_refused = is_so(&read, &wanted);
    drop((read, text));
    Ok(is_refused)
}

#[test]
fn rules_are_read_by_themselves(rt: HostRuntime) {
    let Some(system) = system_of(
        rt.alloc(),
        b"context c1 classical { a. } context c2 program { :- p. }",
    ) else {
        panic!(rt; "the system is read");
    };
    let are_read = are_read(rt.alloc(), system.contexts());
    let is_refused = is_last_refused(rt.alloc(), system.contexts());
    drop(system);
    assert!(rt; are_read && is_refused == Ok(true));
}
