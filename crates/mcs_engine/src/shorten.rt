//! Minimization of learnt clauses.

ghost use Rattle.std.specs.Prelude.{◌≡◌, ◌≢◌, ◌+◌, ◌<◌, ◌≤◌, length, IsTrue, OnOk};
ghost use Rattle.mcs_engine.specs.Extending.{IsTrail};
ghost use Rattle.mcs_engine.specs.Trails.{reason_at};
ghost use Rattle.mcs_engine.specs.Learning.{AreImplied};
ghost use Rattle.mcs_engine.specs.Marking.{AreUnmarked, IsVariableMarked, IsMarkedChain};
ghost use Rattle.mcs_engine.specs.Marking.{IsResolvedOn, IsSingleMark};

use crate::marks::{are_marked, resolve_at};
use crate::trail::Trail;
use mcs_base::{Memory, Rows};

/// As long as the chain has fewer clauses, false literals of level 0 are resolved away, whatever
/// the result.
const MANY: usize = 256;

/// Whether the literal at the place is resolved with its reason. It has to be marked and to have a
/// reason. Besides, all literals of the reason have to be marked, or it has to be of level 0 while
/// the chain, of `count` clauses, is not long. If the trail ends before `start`, each marked
/// literal with a reason is.
fn is_dropped(
    clauses: &Rows<i64>,
    trail: &Trail,
    start: usize,
    count: usize,
    place: usize,
    marks: &[bool],
) -> bool
    requires trail { IsTrail clauses.now trail.now }
    requires within { place < length trail.now.entries.items }
    requires sized { length marks.now ≡ length trail.now.entries.items }
    ensures marked { IsTrue result → IsVariableMarked marks.now place }
    ensures implied { IsTrue result → reason_at trail.now.entries.items place ≢ 0 }
    ensures every { length trail.now.entries.items ≤ start → IsVariableMarked marks.now place
        → reason_at trail.now.entries.items place ≢ 0 → IsTrue result }
{
    let cause = trail.entries[place].reason;
    if !marks[place] || cause == 0 {
        return false;
    }
    if start >= trail.entries.len() {
        return true;
    }
    if trail.entries[place].level == 0 && count < MANY {
        return true;
    }
    are_marked(trail, clauses.row(cause as usize - 1), marks)
}

/// Drops literals of the marked clause that became false before the place `start`: those whose
/// reason has only other literals that the clause has too (Sörensson & Biere 2009), and some of
/// level 0. Appends the numbers of the reasons to the chain. If the trail ends before `start`,
/// every literal is dropped.
pub(crate) fn shorten(
    clauses: &Rows<i64>,
    trail: &Trail,
    start: usize,
    chain: &mut Vec<u64>,
    marks: &mut Vec<bool>,
) -> Result<(), Memory>
    requires trail { IsTrail clauses.now trail.now }
    requires marked { IsMarkedChain clauses.now trail.now.entries.items chain.old.items
        marks.old.items }
    requires single { start + 1 ≤ length trail.now.entries.items
        → IsSingleMark start marks.old.items }
    requires implied { AreImplied trail.now.entries.items start }
    ensures resolved { OnOk result (IsResolvedOn clauses.now trail.now.entries.items
        chain.old.items chain.new.items marks.new.items) }
    ensures single { OnOk result (start + 1 ≤ length trail.now.entries.items
        → IsSingleMark start marks.new.items) }
    ensures past { OnOk result (length trail.now.entries.items ≤ start
        → AreUnmarked marks.new.items 0 (length trail.now.entries.items)) }
{
    let mut bound = start.min(trail.entries.len());
    while bound > 0 {
        bound -= 1;
        if !is_dropped(clauses, trail, start, chain.len(), bound, marks) {
            continue;
        }
        resolve_at(clauses, trail, bound, chain, marks)?;
    }
    Ok(())
}
