//! Parts of the lines of certificates, read and written. Their texts are made by hand.

use mcs_base::{Memory, Text, Vars};
use mcs_spelling::{
    find, push_chain, push_defaults, push_order, push_step, read_number, read_numbers, read_set,
    read_step, strip,
};
use mcs_trace::Step;
use std::alloc::Global;
use std::test::Fail;

/// The greatest number.
const MOST: u64 = 9_223_372_036_854_775_807;

/// Texts, the numbers that they spell, and the number that they spell where it is one.
const NUMBERS: &[(&str, Option<&[u64]>, Option<u64>)] = &[
    ("1", Some(&[1]), Some(1)),
    ("10", Some(&[10]), Some(10)),
    ("10 2", Some(&[10, 2]), None),
    ("9223372036854775807", Some(&[MOST]), Some(MOST)),
    ("9223372036854775808", None, None),
    ("18446744073709551617", None, None),
    ("0", None, None),
    ("01", None, None),
    ("1 02", None, None),
    ("", None, None),
    ("1 ", None, None),
    (" 1", None, None),
    ("1  2", None, None),
    ("-1", None, None),
    ("1a", None, None),
];

/// Whether the text spells just these numbers.
fn spells(alloc: Global, text: &str, numbers: &Option<&[u64]>) -> Result<bool, Memory> {
    let found = read_numbers(alloc, text.as_bytes())?;
    let is_right = match (&found, numbers) {
        (Some(found), Some(wanted)) => found.as_slice() == *wanted,
        (None, None) => true,
        _ => false,
    };
    drop(found);
    Ok(is_right)
}

#[test]
fn numbers_are_read(rt: HostRuntime) {
    let mut are_read = true;
    for (text, numbers, number) in NUMBERS {
        are_read &= read_number(text.as_bytes()) == *number;
        are_read &= spells(rt.alloc(), text, numbers) == Ok(true);
    }
    assert!(rt; are_read);
}

/// Texts of sets of the numbers 0 to 2, by their names `a`, `ab` and `b`: the set that each is
/// where all may be members, and where 0 may not be.
const SETS: &[(&str, Option<u64>, Option<u64>)] = &[
    ("{}", Some(0), Some(0)),
    ("{a}", Some(1), None),
    ("{ab}", Some(2), Some(2)),
    ("{a, b}", Some(5), None),
    ("{ab, b}", Some(6), Some(6)),
    ("{b, ab}", None, None),
    ("{b, b}", None, None),
    ("{ab, }", None, None),
    ("{abb}", None, None),
    ("{b", None, None),
];

/// The text of the word.
fn text_of(alloc: Global, word: &str) -> Result<Text, Memory> {
    let mut text = Text::new(alloc);
    match text.push(word.as_bytes()) {
        Ok(()) => Ok(text),
        Err(want) => {
            drop(text);
            Err(want)
        }
    }
}

/// The texts of these words.
pub(crate) fn texts_of(alloc: Global, words: &[&str]) -> Result<Vec<Text>, Memory> {
    let mut texts = Vec::new(alloc);
    for word in words {
        let text = text_of(alloc, word)?;
        texts.push(text)?;
    }
    Ok(texts)
}

/// Whether the bytes spell just this set of those that are allowed.
fn is_set(texts: &[Text], allowed: u64, bytes: &[u8], set: Option<u64>) -> bool {
    texts.len() <= 64
        && match read_set(texts, Vars::numbered(allowed), bytes) {
            Some(found) => set == Some(found.number()),
            None => set.is_none(),
        }
}

#[test]
fn sets_are_read(rt: HostRuntime) -> Result<(), Fail> {
    let texts = texts_of(rt.alloc(), &["a", "ab", "b"])?;
    let mut are_sets = true;
    for (text, of_all, of_the_last) in SETS {
        let bytes = text.as_bytes();
        are_sets &= is_set(&texts, 7, bytes, *of_all) && is_set(&texts, 6, bytes, *of_the_last);
    }
    drop(texts);
    assert!(rt; are_sets);
    Ok(())
}

/// The literals and the numbers of a step.
type StepParts = (&'static [i64], &'static [u64]);

/// Lines, and the parts of the step that each is.
const STEPS: &[(&str, Option<StepParts>)] = &[
    ("step by 1", Some((&[], &[1]))),
    ("step 1 -2 by 12 3", Some((&[1, -2], &[12, 3]))),
    ("step -1 by 9223372036854775807", Some((&[-1], &[MOST]))),
    ("step", None),
    ("step 1 by", None),
    ("step 1by 1", None),
    ("step 1 by1", None),
    ("step  by 1", None),
    ("step by 1 ", None),
    ("step 0 by 1", None),
    ("step 01 by 1", None),
    ("step - by 1", None),
    ("step --1 by 1", None),
    ("step -2 1 by 1", None),
    ("steps by 1", None),
    ("step 1 by 0", None),
];

/// Whether the step has these parts, and is written as the line.
fn is_step(alloc: Global, step: &Step, parts: &StepParts, line: &str) -> Result<bool, Memory> {
    let mut text = Text::new(alloc);
    let pushed = push_step(&mut text, step);
    let is_line = text.bytes() == line.as_bytes();
    drop(text);
    pushed?;
    let (literals, chain) = *parts;
    Ok(is_line && step.clause.literals() == literals && step.chain.as_slice() == chain)
}

/// Whether the line is just the step of these parts, read and written.
fn is_read(alloc: Global, line: &str, parts: &Option<StepParts>) -> Result<bool, Memory> {
    let found = read_step(alloc, line.as_bytes())?;
    let is_right = match (&found, parts) {
        (Some(step), Some(parts)) => is_step(alloc, step, parts, line),
        (None, None) => Ok(true),
        _ => Ok(false),
    };
    drop(found);
    is_right
}

#[test]
fn steps_are_read_and_written(rt: HostRuntime) {
    let mut are_read = true;
    for (line, parts) in STEPS {
        are_read &= is_read(rt.alloc(), line, parts) == Ok(true);
    }
    assert!(rt; are_read);
}

#[test]
fn fronts_and_bytes_are_found(rt: HostRuntime) {
    let is_stripped = strip(b"set {1}", b"set ") == Some(b"{1}".as_slice());
    let is_kept = strip(b"set", b"set ").is_none();
    let is_found = find(b"a b ", b' ') == Some(1);
    let is_missed = find(b"ab", b' ').is_none();
    assert!(rt; [is_stripped, is_kept, is_found, is_missed] == [true; 4]);
}

/// Appends three sets of defaults, and the numbers of a chain and of an order.
fn push_each(text: &mut Text) -> Result<(), Memory> {
    push_defaults(text, 0)?;
    push_defaults(text, 1)?;
    push_defaults(text, 6)?;
    push_chain(text, &[3, MOST])?;
    push_order(text, &[2, 10])
}

#[test]
fn sets_of_defaults_and_orders_are_written(rt: HostRuntime) -> Result<(), Fail> {
    let mut text = Text::new(rt.alloc());
    let pushed = push_each(&mut text);
    let is_right = text.bytes() == b"{}{1}{2, 3} 3 9223372036854775807 2 10".as_slice();
    drop(text);
    assert!(rt; pushed == Ok(()) && is_right);
    Ok(())
}
