//! Scripts of edits that are read.

use crate::systems::system_of;
use mcs_base::{Memory, Text};
use mcs_language::TextFault;
use mcs_script::{Edit, read_script};
use mcs_system::{Limit, System};
use std::alloc::Global;

/// What is read of a script.
#[derive(Drop)]
enum Reading {
    /// These edits: `+NAME` for a rule that is added, `-NAME` for one that is dropped, `=` for a
    /// listing, with a space after each.
    Edits(&'static str),
    /// The fault of this number at this offset.
    Fault(u8, usize),
    /// More than the limit, at this offset.
    Exceeds(Limit, usize),
}

/// Scripts, and what is read of them for a system without rules that has the contexts `c1` and `c2`,
/// of which the second is a program.
static SPELLED: [(&str, Reading); 5] = [
    ("", Reading::Edits("")),
    (
        "list. add bridge r1: c2:p if c1:a. list. drop r1. list.",
        Reading::Edits("= +r1 = -r1 = "),
    ),
    // A rule may be named as an edit is.
    (
        "add bridge list: c2:p. drop list.",
        Reading::Edits("+list -list "),
    ),
    (
        "add bridge r: c2:p. drop r. add bridge r: c2:q.",
        Reading::Edits("+r -r +r "),
    ),
    (
        "add bridge r: c2:p. add bridge s: c2:p.",
        Reading::Edits("+r +s "),
    ),
];

/// The same of scripts whose edits are misspelled.
static MISSPELLED: [(&str, Reading); 7] = [
    ("list. remove r1.", Reading::Fault(1, 6)),
    ("list. add bridge r1: c2:p if c1:a", Reading::Fault(1, 33)),
    ("drop .", Reading::Fault(1, 5)),
    // What is wrong with the tokens of an edit is told before what it would make.
    ("drop r9", Reading::Fault(1, 7)),
    ("add bridge r1: c3:p.", Reading::Fault(2, 15)),
    (
        "add bridge r: c2:p. add bridge r: c3:p.",
        Reading::Fault(2, 34),
    ),
    (
        "add bridge r1 weight 1000001: c2:p.",
        Reading::Exceeds(Limit::Weight, 21),
    ),
];

/// The same of scripts with an edit that makes no system.
static REFUSED: [(&str, Reading); 5] = [
    ("drop r9.", Reading::Fault(6, 0)),
    // The first edit with a fault decides.
    (
        "list. list. drop r9. add bridge r1: c3:p.",
        Reading::Fault(6, 12),
    ),
    ("add bridge r: c2:p. drop r. drop r.", Reading::Fault(6, 28)),
    (
        "add bridge r: c2:p. add bridge r: c2:q.",
        Reading::Fault(3, 20),
    ),
    ("list. add bridge r1: c2:(p | q).", Reading::Fault(4, 6)),
];

/// The edits, as they are written in the tables.
fn told(alloc: Global, edits: &[Edit]) -> Result<Text, Memory> {
    let mut text = Text::new(alloc);
    for edit in edits {
        match edit {
            Edit::Add(bridge) => {
                text.push(b"+")?;
                text.push(bridge.name.bytes())?;
            }
            Edit::Drop(name) => {
                text.push(b"-")?;
                text.push(name.bytes())?;
            }
            Edit::List => text.push(b"=")?,
        }
        text.push(b" ")?;
    }
    Ok(text)
}

/// Whether this is read.
fn is_so(alloc: Global, read: &Result<Vec<Edit>, TextFault>, wanted: &Reading) -> bool {
    match (read, wanted) {
        (Ok(edits), Reading::Edits(text)) => match told(alloc, edits) {
            Ok(told) => told.bytes() == text.as_bytes(),
            Err(_) => false,
        },
        (Err(fault), Reading::Fault(number, offset)) => {
            *fault
                == TextFault::Fault {
                    number: *number,
                    offset: *offset,
                    limit: None,
                }
        }
        (Err(fault), Reading::Exceeds(limit, offset)) => {
            *fault
                == TextFault::Fault {
                    number: 5,
                    offset: *offset,
                    limit: Some(*limit),
                }
        }
        _ => false,
    }
}

/// Whether each of the scripts is read as it should be.
fn are_read(alloc: Global, system: &System, readings: &[(&str, Reading)]) -> bool {
    let mut are_right = true;
    for (text, wanted) in readings {
        let read = read_script(alloc, text.as_bytes(), system);
        are_right &= is_so(alloc, &read, wanted);
        drop(read);
    }
    are_right
}

/// Whether the thirteenth rule into a context is refused, where it is added.
fn is_last_refused(alloc: Global, system: &System) -> Result<bool, Memory> {
    let mut text = Text::new(alloc);
    for number in 0..13 {
        text.push(b"add bridge r")?;
        text.push_number(number)?;
        text.push(b": c2:p.\n")?;
    }
    let read = read_script(alloc, text.bytes(), system);
    let wanted = Reading::Exceeds(Limit::RulesPerContext, 10 * 21 + 2 * 22);
    let is_refused = is_so(alloc, &read, &wanted);
    drop((read, text));
    Ok(is_refused)
}

#[test]
fn scripts_are_read(rt: HostRuntime) {
    let Some(system) = system_of(
        rt.alloc(),
        b"context c1 classical { a. } context c2 program { :- p. }",
    ) else {
        panic!(rt; "the system is read");
    };
    let are_spelled = are_read(rt.alloc(), &system, &SPELLED);
    let are_misspelled = are_read(rt.alloc(), &system, &MISSPELLED);
    let are_refused = are_read(rt.alloc(), &system, &REFUSED);
    let is_refused = is_last_refused(rt.alloc(), &system);
    drop(system);
    assert!(rt; are_spelled && are_misspelled && are_refused && is_refused == Ok(true));
}
