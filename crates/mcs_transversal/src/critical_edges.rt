//! Critical edges of a set: edges that it meets in one mark alone.

ghost use Rattle.std.specs.Prelude.{◌<◌, ◌⊎◌, ◌↔◌, ℕ, IsTrue, MatchOption, IfSome, length};
ghost use Rattle.std.specs.Prelude.{slice_index_or};
ghost use Rattle.mcs_sets.specs.Sets.{has};
ghost use Rattle.mcs_base.specs.Transversals.{MeetAloneAt};
ghost use Rattle.mcs_transversal.specs.Transversals.{IsCritical, IsFirstCritical, AreFirstCritical};

use mcs_base::Marks;

/// The one mark that is in both sets, or `None` exactly if there is none or more than one.
pub(crate) fn only_common(a: Marks, b: Marks) -> Option<u32>
    ensures value { MatchOption result ((k : ℕ) → ¬ MeetAloneAt a b k) (λ k. MeetAloneAt a b k) }
    ensures below { IfSome result (λ k. k < 128) }
{
    let both = a.common(b);
    let Some(first) = both.first() else {
        return None;
    };
    if both == Marks::one(first) {
        Some(first)
    } else {
        None
    }
}

/// Whether the edge meets the set in this mark alone.
fn meet_alone_at(edge: Marks, t: Marks, mark: u32) -> bool
    ensures { IsTrue result ↔ MeetAloneAt edge t mark }
{
    match only_common(edge, t) {
        Some(only) => only == mark,
        None => false,
    }
}

/// The index of the first edge that meets the set in this mark alone, or `None` exactly if there is
/// none. No memory is needed.
pub fn critical(edges: &[Marks], t: Marks, mark: u32) -> Option<usize>
    ensures { MatchOption result
        ((j : ℕ) → j < length edges.now → ¬ MeetAloneAt (slice_index_or edges.now j 0) t mark)
        (IsFirstCritical edges.now t mark) }
{
    for (index, edge) in edges.iter().enumerate() {
        if meet_alone_at(*edge, t, mark) {
            return Some(index);
        }
    }
    None
}

/// The one mark in which the edge meets the set, if it is one and is in `left`.
fn new_mark(edge: Marks, t: Marks, left: Marks) -> Option<u32>
    ensures value { MatchOption result
        ((k : ℕ) → IsTrue (has left k) → ¬ MeetAloneAt edge t k)
        (λ k. MeetAloneAt edge t k × IsTrue (has left k)) }
    ensures below { IfSome result (λ k. k < 128) }
{
    let Some(mark) = only_common(edge, t) else {
        return None;
    };
    if left.has(mark) { Some(mark) } else { None }
}

/// For each mark the index of the first edge that meets the set in this mark alone, or `None`
/// exactly if there is none. No memory is needed. There is one pass over the edges, which ends at
/// the last of these edges.
pub fn first_critical_edges(edges: &[Marks], t: Marks) -> [Option<usize>; 128]
    ensures { AreFirstCritical edges.now t result }
{
    let mut firsts = [None; 128];
    let mut left = t;
    for (index, edge) in edges.iter().enumerate() {
        if left == Marks::empty() {
            return firsts;
        }
        if let Some(mark) = new_mark(*edge, t, left) {
            firsts[mark as usize] = Some(index);
            left = left.without(mark);
        }
    }
    firsts
}

/// The marks, with the one in which the edge meets the set added, if it is one alone.
fn with_critical(marks: Marks, edge: Marks, t: Marks) -> Marks
    ensures { (k : ℕ) → IsTrue (has result k) ↔ (IsTrue (has marks k) ⊎ MeetAloneAt edge t k) }
{
    match only_common(edge, t) {
        Some(mark) => marks.with(mark),
        None => marks,
    }
}

/// Whether each mark of the set has an edge that meets the set in this mark alone.
pub(crate) fn is_critical(edges: &[Marks], t: Marks) -> bool
    ensures { IsTrue result ↔ IsCritical edges.now t }
{
    let mut marks = Marks::empty();
    for edge in edges {
        marks = with_critical(marks, *edge, t);
    }
    t.within(marks)
}
