//! Minimal transversals.

use mcs_base::{Marks, Memory};
use mcs_transversal::{minimal_transversals, minimality_is_critical};
use std::alloc::Global;

/// The set of these marks, each below 128.
fn set_of(marks: &[u32]) -> Marks {
    let mut set = Marks::empty();
    for mark in marks {
        if *mark < 128 {
            set = set.with(*mark);
        }
    }
    set
}

/// Such sets.
fn sets_of(alloc: Global, sets: &[&[u32]]) -> Result<Vec<Marks>, Memory> {
    let mut all = Vec::new(alloc);
    for marks in sets {
        all.push(set_of(marks))?;
    }
    Ok(all)
}

/// Edges, and their minimal transversals, in order.
type Minimal = (&'static [&'static [u32]], &'static [&'static [u32]]);

/// Two marks of each of three pairs.
const PAIRS: &[&[u32]] = &[&[0, 1], &[2, 3], &[4, 5]];

/// The choices of one mark of each pair.
const CHOICES: &[&[u32]] = &[
    &[0, 2, 4],
    &[0, 2, 5],
    &[0, 3, 4],
    &[0, 3, 5],
    &[1, 2, 4],
    &[1, 2, 5],
    &[1, 3, 4],
    &[1, 3, 5],
];

static MINIMAL: [Minimal; 6] = [
    // Two edges that share a mark.
    (&[&[0, 2], &[2, 4]], &[&[2], &[0, 4]]),
    // The empty set is a transversal where there is no edge.
    (&[], &[&[]]),
    // No set is one where an edge is empty.
    (&[&[0, 2], &[]], &[]),
    (&[&[], &[0, 2]], &[]),
    // The choices are more than the pairs; those of the choices are the pairs, which are fewer.
    (PAIRS, CHOICES),
    (CHOICES, PAIRS),
];

/// Whether the sets are those of these marks.
fn are_sets(found: &[Marks], sets: &[&[u32]]) -> bool {
    let mut same = found.len() == sets.len();
    for (set, marks) in found.iter().zip(sets) {
        same = same && *set == set_of(marks);
    }
    same
}

/// Whether these are the minimal transversals of the edges.
fn are_minimal(alloc: Global, (edges, sets): Minimal) -> Result<bool, Memory> {
    let edges = sets_of(alloc, edges)?;
    let found = minimal_transversals(alloc, &edges)?;
    Ok(are_sets(&found, sets))
}

#[test]
fn edges_have_their_minimal_transversals(rt: HostRuntime) {
    for minimal in &MINIMAL {
        assert!(rt; are_minimal(rt.alloc(), *minimal) == Ok(true));
    }
    minimality_is_critical();
}
