//! Systems at the bounds of what is evaluated.

use crate::made::{Rows, text_of};
use crate::runs::{Files, JOB, SOUND, sink_of, status_with};
use crate::tables::{Made, all_made_end, made_ends};
use mcs_ports::IdleGate;
use std::alloc::Global;
use std::sync::Wait;
use std::thread::Threads;

/// Four times over, that each atom up to number 64 follows from the one before: 253 items with the
/// first atom.
const CHAIN: [Rows; 6] = [
    ("context c1 classical { a1.", 0, 1),
    (" a^ -> a#.", 2, 65),
    (" a^ -> a#.", 2, 65),
    (" a^ -> a#.", 2, 65),
    (" a^ -> a#.", 2, 65),
    (
        " } context c2 classical {} bridge r1: c2:x if c1:a64.",
        0,
        1,
    ),
];

/// A program of 64 atoms, of which each but the first has the one before for its reason.
const PROGRAM: [Rows; 3] = [
    ("context c1 program { a1.", 0, 1),
    (" a# :- a^.", 2, 65),
    (
        " } context c2 classical {} bridge r1: c2:x if c1:a64.",
        0,
        1,
    ),
];

/// What follows in 64 steps is believed.
const LAST_ATOM: &str =
    "mcs 1: 2 contexts, 1 rules, 1 variables\nequilibrium 1: {c1:a64} applicable {r1}\nconsistent\nend: 1 equilibria, need 2\n";

/// That each of four pigeons sits in one of three holes and no two in one, and two rules that read
/// whether the first one sits in the first.
const FOUR_IN_THREE: [Rows; 12] = [
    ("context c classical {", 0, 1),
    (" p0_0 | p0_1 | p0_2.", 0, 1),
    (" p1_0 | p1_1 | p1_2.", 0, 1),
    (" ~(p1_# & p0_#).", 0, 3),
    (" p2_0 | p2_1 | p2_2.", 0, 1),
    (" ~(p2_# & p0_#).", 0, 3),
    (" ~(p2_# & p1_#).", 0, 3),
    (" p3_0 | p3_1 | p3_2.", 0, 1),
    (" ~(p3_# & p0_#).", 0, 3),
    (" ~(p3_# & p1_#).", 0, 3),
    (" ~(p3_# & p2_#).", 0, 3),
    (
        " } context d classical {} bridge r: d:x if c:p0_0. bridge s: d:y if c:~p0_0.",
        0,
        1,
    ),
];

/// The same of five pigeons and five holes.
const FIVE_IN_FIVE: [Rows; 17] = [
    ("context c classical {", 0, 1),
    (" p0_0 | p0_1 | p0_2 | p0_3 | p0_4.", 0, 1),
    (" p1_0 | p1_1 | p1_2 | p1_3 | p1_4.", 0, 1),
    (" ~(p1_# & p0_#).", 0, 5),
    (" p2_0 | p2_1 | p2_2 | p2_3 | p2_4.", 0, 1),
    (" ~(p2_# & p0_#).", 0, 5),
    (" ~(p2_# & p1_#).", 0, 5),
    (" p3_0 | p3_1 | p3_2 | p3_3 | p3_4.", 0, 1),
    (" ~(p3_# & p0_#).", 0, 5),
    (" ~(p3_# & p1_#).", 0, 5),
    (" ~(p3_# & p2_#).", 0, 5),
    (" p4_0 | p4_1 | p4_2 | p4_3 | p4_4.", 0, 1),
    (" ~(p4_# & p0_#).", 0, 5),
    (" ~(p4_# & p1_#).", 0, 5),
    (" ~(p4_# & p2_#).", 0, 5),
    (" ~(p4_# & p3_#).", 0, 5),
    (
        " } context d classical {} bridge r: d:x if c:p0_0. bridge s: d:y if c:~p0_0.",
        0,
        1,
    ),
];

/// Nothing holds of four pigeons in three holes, so everything is believed.
const BOTH_SEATS: &str =
    "mcs 1: 2 contexts, 2 rules, 2 variables\nequilibrium 1: {c:p0_0, c:~p0_0} applicable {r, s}\nconsistent\nend: 1 equilibria, need 2\n";

/// Five pigeons fit in five holes, and the first may sit anywhere.
const NO_SEAT: &str =
    "mcs 1: 2 contexts, 2 rules, 2 variables\nequilibrium 1: {} applicable {}\nconsistent\nend: 1 equilibria, need 2\n";

/// Each of the eight variables supports itself and nothing else, so every set of them is an
/// equilibrium.
const EIGHT_FREE: &str = "context c classical {}
bridge r1: c:a1 if c:a1. bridge r2: c:a2 if c:a2. bridge r3: c:a3 if c:a3. bridge r4: c:a4 if c:a4.
bridge r5: c:a5 if c:a5. bridge r6: c:a6 if c:a6. bridge r7: c:a7 if c:a7. bridge r8: c:a8 if c:a8.";

/// Of two states the one that holds the first variable in which they differ comes first, so the
/// full one does.
const EIGHT_FREE_FRONT: &str =
    "mcs 1: 1 contexts, 8 rules, 8 variables\nequilibrium 1: {c:a1, c:a2, c:a3, c:a4, c:a5, c:a6, c:a7, c:a8} applicable {r1, r2, r3, r4, r5, r6, r7, r8}\nequilibrium 2: {c:a1, c:a2, c:a3, c:a4, c:a5, c:a6, c:a7} applicable {r1, r2, r3, r4, r5, r6, r7}\n";

const EIGHT_FREE_BACK: &str =
    "\nequilibrium 255: {c:a8} applicable {r8}\nequilibrium 256: {} applicable {}\nconsistent\nend: 256 equilibria, need 256\n";

/// How many lines there are.
fn lines(bytes: &[u8]) -> usize {
    let mut count: usize = 0;
    for byte in bytes {
        if *byte == b'\n' {
            count = count.saturating_add(1);
        }
    }
    count
}

/// Whether this is a heading, 256 equilibria, a verdict and an end. The lines of the equilibria
/// have 31 bytes each beside numbers, variables and rules, and 660 digits in all. The 1024 members
/// of their states have 4 bytes each and as many rules 2; what separates two neighbours, 769 times
/// in the states and as often in the rules, has 2. The other lines have 40, 11 and 30.
fn are_all_sets(written: &[u8]) -> bool {
    lines(written) == 259
        && written.len() == 256 * 31 + 660 + 1024 * 6 + 769 * 4 + 81
        && written.starts_with(EIGHT_FREE_FRONT.as_bytes())
        && written.ends_with(EIGHT_FREE_BACK.as_bytes())
}

fn are_all_sets_listed<R: Threads + Wait + Sync>(rt: &R, alloc: Global) -> bool {
    let Ok(mut sink) = sink_of(alloc, &SOUND) else {
        return false;
    };
    let files: Files<'_> = (EIGHT_FREE.as_bytes(), b"");
    let status = status_with(rt, alloc, JOB, files, &SOUND, &mut sink, &IdleGate);
    let are_listed = status == 0 && sink.noted().is_empty() && are_all_sets(sink.written());
    drop(sink);
    are_listed
}

#[test]
fn all_sets_of_8_variables_are_listed(rt: HostRuntime) {
    assert!(rt; are_all_sets_listed(&rt, rt.alloc()));
}

/// 64 contexts and 64 rules, of which 12 go into the first context and one into each of the last
/// 52: the last context supports the first, and the first the others.
const WIDE: [Rows; 3] = [
    ("context n# classical {}\n", 0, 64),
    ("bridge r#: n0:x# if n63:y.\n", 0, 12),
    ("bridge r#: n#:y if n0:x11.\n", 12, 64),
];

const WIDE_LISTING: &str =
    "mcs 1: 64 contexts, 64 rules, 2 variables\nequilibrium 1: {n0:x11, n63:y} applicable {r0, r1, r2, r3, r4, r5, r6, r7, r8, r9, r10, r11, r12, r13, r14, r15, r16, r17, r18, r19, r20, r21, r22, r23, r24, r25, r26, r27, r28, r29, r30, r31, r32, r33, r34, r35, r36, r37, r38, r39, r40, r41, r42, r43, r44, r45, r46, r47, r48, r49, r50, r51, r52, r53, r54, r55, r56, r57, r58, r59, r60, r61, r62, r63}\nequilibrium 2: {} applicable {}\nconsistent\nend: 2 equilibria, need 117\n";

/// Systems at the bounds, and their whole listings.
static LISTINGS: [Made; 5] = [
    Made {
        rows: &CHAIN,
        status: 0,
        written: LAST_ATOM,
        noted: "",
    },
    Made {
        rows: &PROGRAM,
        status: 0,
        written: LAST_ATOM,
        noted: "",
    },
    Made {
        rows: &FOUR_IN_THREE,
        status: 0,
        written: BOTH_SEATS,
        noted: "",
    },
    Made {
        rows: &FIVE_IN_FIVE,
        status: 0,
        written: NO_SEAT,
        noted: "",
    },
    // As many contexts and rules as may be.
    Made {
        rows: &WIDE,
        status: 0,
        written: WIDE_LISTING,
        noted: "",
    },
];

#[test]
fn systems_at_the_bounds_are_listed(rt: HostRuntime) {
    assert!(rt; all_made_end(&rt, rt.alloc(), &LISTINGS));
}

/// Contexts in a ring, each of which takes over what the one before it believes.
fn ring(count: u64) -> [Rows; 3] {
    [
        ("context n# classical {}\n", 0, count),
        ("bridge r0: n0:a if n^:a.\n", count, count.saturating_add(1)),
        ("bridge r#: n#:a if n^:a.\n", 1, count),
    ]
}

/// All believe it, or none does. Each context is asked twice.
fn ring_listing(count: u64) -> [Rows; 6] {
    let (after, need) = (count.saturating_add(1), count.saturating_mul(2));
    [
        (
            "mcs 1: # contexts, # rules, # variables\nequilibrium 1: {n0:a",
            count,
            after,
        ),
        (", n#:a", 1, count),
        ("} applicable {r0", 0, 1),
        (", r#", 1, count),
        ("}\nequilibrium 2: {} applicable {}\nconsistent\n", 0, 1),
        ("end: 2 equilibria, need #\n", need, need.saturating_add(1)),
    ]
}

fn is_ring_listed<R: Threads + Wait + Sync>(rt: &R, alloc: Global, count: u64) -> bool {
    let Ok(listing) = text_of(alloc, &ring_listing(count)) else {
        return false;
    };
    let is_listed = made_ends(rt, alloc, &ring(count), (0, listing.bytes(), ""));
    drop(listing);
    is_listed
}

#[test]
fn rings_of_contexts_are_listed(rt: HostRuntime) {
    assert!(rt; is_ring_listed(&rt, rt.alloc(), 3) && is_ring_listed(&rt, rt.alloc(), 64));
}
