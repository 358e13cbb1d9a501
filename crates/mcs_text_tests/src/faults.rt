//! The fault of a text, and where it stands.

use mcs_base::{Memory, Text};
use mcs_language::{TextFault, read_system};
use mcs_system::Limit;
use std::alloc::Global;

/// The fault of the text, if it spells no system.
pub(crate) fn fault_of(alloc: Global, text: &[u8]) -> Option<TextFault> {
    read_system(alloc, text).err()
}

/// Whether the text has the fault of this number at this offset, with this limit.
pub(crate) fn has_fault(
    alloc: Global,
    text: &[u8],
    number: u8,
    offset: usize,
    limit: Option<Limit>,
) -> bool {
    let fault = TextFault::Fault {
        number,
        offset,
        limit,
    };
    fault_of(alloc, text) == Some(fault)
}

/// Texts, the numbers of their faults, and their offsets: first where something is missing, too
/// much, or begins no token, then of names.
static FAULTS: [(&str, u8, usize); 31] = [
    ("context", 1, 7),
    ("context context classical {}", 1, 8),
    ("context c logical {}", 1, 10),
    ("context c classical {} }", 1, 23),
    ("context c classical { p & | q. }", 1, 26),
    ("context c classical { p ). }", 1, 24),
    ("context c classical { p : q / r. }", 1, 24),
    ("context c default { p : / r. }", 1, 24),
    ("context c program { a : b. }", 1, 22),
    ("context c program { a | not b. }", 1, 24),
    ("bridge r c:p.", 1, 9),
    ("context c classical {} bridge r: c:p & q.", 1, 37),
    (
        "context c classical {} bridge r: c:p. context d classical {}",
        1,
        38,
    ),
    ("context c classical { p ? }", 1, 24),
    // Another version, and a text that goes on after it as none may.
    ("version 3.", 1, 8),
    ("version 02.", 1, 8),
    ("version 2 context c program {}", 1, 10),
    ("version 2. version 2.", 1, 11),
    // Marks without the version, in another order, twice, and without their number.
    ("context c program {} bridge r keep: c:a.", 1, 30),
    ("context c program {} bridge r weight 2: c:a.", 1, 30),
    (
        "version 2. context c program {} bridge r closed keep: c:a.",
        1,
        48,
    ),
    (
        "version 2. context c program {} bridge r keep keep: c:a.",
        1,
        46,
    ),
    (
        "version 2. context c program {} bridge r weight: c:a.",
        1,
        47,
    ),
    (
        "version 2. context c1 program {} bridge r1 weight 0: c1:a.",
        1,
        50,
    ),
    (
        "version 2. context c1 program {} bridge r1 weight 007: c1:a.",
        1,
        50,
    ),
    // A context that is not there, before other faults of the token.
    ("bridge r: c:p.", 2, 10),
    ("context c classical {} bridge r: c:p if not d:q.", 2, 44),
    // Names that are there already.
    ("context c classical {} context c program {}", 3, 31),
    (
        "context c classical {} bridge r: c:p. bridge r: c:q.",
        3,
        45,
    ),
    // No atom for a program.
    ("context c program {} bridge r: c:(a).", 4, 33),
    ("context c program {} bridge r: c:a if c:true.", 4, 40),
];

#[test]
fn faults_stand_at_their_tokens(rt: HostRuntime) {
    for (text, number, offset) in &FAULTS {
        assert!(rt; has_fault(rt.alloc(), text.as_bytes(), *number, *offset, None));
    }
}

/// A comment alone, a rule with a context's name, what a program reads of a classical context, and
/// texts of version 2.
static FAULTLESS: [&str; 5] = [
    "# context c",
    "context c classical {} bridge c: c:p.",
    "context c program {} context d classical {} bridge r: d:(a | b) if c:a, not d:~a.",
    "version 2.",
    "# A comment first.\nversion 2 . context c program {} bridge r keep closed weight 1000000 : c:a.",
];

#[test]
fn texts_without_faults_are_read(rt: HostRuntime) {
    for text in &FAULTLESS {
        assert!(rt; fault_of(rt.alloc(), text.as_bytes()) == None);
    }
}

/// Whether this weight of the rule exceeds the limit, at its number.
fn is_heavy(alloc: Global, digits: &str) -> Result<bool, Memory> {
    let mut text = Text::new(alloc);
    text.push(b"version 2. context c1 program {} bridge r1 weight ")?;
    text.push(digits.as_bytes())?;
    text.push(b": c1:a.")?;
    let is_heavy = has_fault(alloc, text.bytes(), 5, 50, Some(Limit::Weight));
    drop(text);
    Ok(is_heavy)
}

/// Numbers above the limit of weights: the least one, those that are small but for a power of 2,
/// and a long one.
static HEAVY: [&str; 4] = [
    "1000001",
    "4294967297",
    "18446744073709551617",
    "10000000000000000000000000000000000000000000000000000000000000000000000",
];

#[test]
fn weights_keep_their_limit(rt: HostRuntime) {
    for digits in &HEAVY {
        assert!(rt; is_heavy(rt.alloc(), digits) == Ok(true));
    }
    assert!(rt; is_heavy(rt.alloc(), "1000000") == Ok(false));
}

/// A text of 190 bytes, with each construct.
pub(crate) const EACH_CONSTRUCT: &str =
    "context c classical { (p & q | ~true) -> false <-> p. } # a\ncontext d default { p. p : q, r / s. } context e program { a | b :- c, not d. :- a. b. :-. } bridge r: c:~p if d:(p | q), not e:a.";

/// Whether the front of this length is a text where the text may end, and otherwise has a fault at
/// its last token or at its end. The text may end at nothing, after each context with the comment
/// and the blanks there, and after the rule. The fronts that end with the first letters of `not`
/// name a context that is not there.
fn is_front(alloc: Global, end: usize) -> bool {
    let front = EACH_CONSTRUCT.as_bytes().get(..end).unwrap_or(b"?");
    let whole = matches!(end, 0 | 55..=60 | 98 | 99 | 152 | 153 | 190);
    match fault_of(alloc, front) {
        None => whole,
        Some(
            TextFault::Fault {
                number,
                offset,
                limit,
            },
        ) => {
            let want = if matches!(end, 183 | 184) { 2 } else { 1 };
            !whole
                && number == want
                && limit == None
                && offset <= end
                && offset.saturating_add(9) > end
        }
        Some(TextFault::Memory) => false,
    }
}

#[test]
fn each_front_of_a_text_lacks_something_or_is_a_text(rt: HostRuntime) {
    assert!(rt; EACH_CONSTRUCT.len() == 190);
    for end in 0..=190 {
        assert!(rt; is_front(rt.alloc(), end));
    }
}
