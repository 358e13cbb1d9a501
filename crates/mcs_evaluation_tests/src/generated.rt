//! Generated systems, by their canonical texts.

use mcs_base::{Memory, Text};
use mcs_generator::{generate, generated_systems_are_valid};
use mcs_language::write_system;
use std::alloc::Global;
use std::test::Fail;

/// The system of the number 0: two contexts, chains of one link.
const SMALLEST: &str =
    "context g0 program {\n  x | y.\n  a1 :- x.\n}\ncontext g1 classical {\n  x -> a1.\n}\n\
bridge s1: g1:x if g0:a1.\nbridge t1: g1:y if not g0:a1.\n";

/// The system of the number 65: three contexts, one of each kind, chains of three links.
const EACH_KIND: &str =
    "context g0 program {\n  x | y.\n  a1 :- x.\n  a2 :- a1, not b.\n  a3 :- a2, not b.\n}\n\
context g1 classical {\n  x -> a1.\n  a1 -> a2.\n  a2 -> a3.\n}\n\
context g2 default {\n  x : a1 / a1.\n  a1 -> a2.\n  a2 -> a3.\n}\n\
bridge s1: g1:x if g0:a3.\nbridge t1: g1:y if not g0:a3.\n\
bridge s2: g2:x if g1:a3.\nbridge t2: g2:y if not g1:a3.\n";

/// The first contexts of the system of the number 1055, whose chains have one link.
const FRONT: &str =
    "context g0 program {\n  x | y.\n  a1 :- x.\n}\ncontext g1 classical {\n  x -> a1.\n}\n\
context g2 default {\n  x : a1 / a1.\n}\ncontext g3 program {\n  a1 :- x.\n}\ncontext g4 classical {\n  x -> a1.\n}\n";

/// Where its last context, which forbids both atoms, and its rules begin.
const MIDDLE: &str =
    "context g31 classical {\n  x -> a1.\n}\ncontext g32 program {\n  a1 :- x.\n  :- x.\n  :- y.\n}\n\
bridge s1: g1:x if g0:a1.\nbridge t1: g1:y if not g0:a1.\nbridge s2: g2:x if g1:a1.\n";

/// Its last rules.
const BACK: &str =
    "bridge t31: g31:y if not g30:a1.\nbridge s32: g32:x if g31:a1.\nbridge t32: g32:y if not g31:a1.\n";

/// The canonical text of the generated system of this number.
fn generated_text(alloc: Global, number: u64) -> Result<Text, Memory> {
    let system = generate(alloc, number)?;
    let mut text = Text::new(alloc);
    let written = write_system(&system, &mut text);
    drop(system);
    written?;
    Ok(text)
}

/// Numbers of systems, and their texts: the whole one, or a front, what is within, and an end.
const TEXTS: &[(u64, &[&str])] = &[
    (0, &[SMALLEST]),
    (65, &[EACH_KIND]),
    (1055, &[FRONT, MIDDLE, BACK]),
];

/// Whether the text is this one, or has these three parts.
fn has_parts(text: &[u8], parts: &[&str]) -> bool {
    match (str::from_utf8(text), parts) {
        (Ok(text), [whole]) => text == *whole,
        (Ok(text), [front, middle, back]) => {
            text.starts_with(*front) && text.contains(*middle) && text.ends_with(*back)
        }
        _ => false,
    }
}

#[test]
fn systems_are_generated(rt: HostRuntime) -> Result<(), Fail> {
    generated_systems_are_valid();
    let mut are_right = true;
    for (number, parts) in TEXTS {
        let text = generated_text(rt.alloc(), *number)?;
        are_right &= has_parts(text.bytes(), parts);
        drop(text);
    }
    assert!(rt; are_right);
    Ok(())
}

/// Numbers of systems, and how many contexts, rules and variables each has: the smallest one, a
/// consistent one, and an inconsistent one.
const COUNTS: &[(u64, [usize; 3])] = &[(0, [2, 2, 1]), (1023, [33, 64, 32]), (1055, [33, 64, 32])];

/// How many contexts, rules and variables the generated system of this number has.
fn counts_of(alloc: Global, number: u64) -> Result<[usize; 3], Memory> {
    let system = generate(alloc, number)?;
    let counts = [
        system.contexts().len(),
        system.bridges().len(),
        system.variables().len(),
    ];
    drop(system);
    Ok(counts)
}

#[test]
fn generated_systems_have_their_counts(rt: HostRuntime) {
    for (number, counts) in COUNTS {
        assert!(rt; counts_of(rt.alloc(), *number) == Ok(*counts));
    }
}
