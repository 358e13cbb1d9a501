//! Marks that can't be added to a set of which each mark has to keep a critical edge.

ghost use Rattle.std.specs.Prelude.{◌<◌, ◌↔◌, IsTrue};
ghost use Rattle.mcs_sets.specs.Sets.{has, single, union};
ghost use Rattle.mcs_transversal.specs.Transversals.{IsCritical, AreCommonParts, AreBarred};

use crate::critical_edges::{is_critical, only_common};
use mcs_base::Marks;

/// For each mark a set of marks that are in all edges that meet `t` in this mark alone: the
/// intersection of these edges and `most`.
fn common_parts(edges: &[Marks], t: Marks, most: Marks) -> [Marks; 128]
    ensures { AreCommonParts edges.now t result }
{
    let mut parts = [most; 128];
    for edge in edges {
        if let Some(mark) = only_common(*edge, t) {
            let part = parts[mark as usize].common(*edge);
            parts[mark as usize] = part;
        }
    }
    parts
}

/// The marks of `edge` that are in all critical edges of some mark of `t`. If one of them is added
/// to `t`, that mark has no critical edge left. They are found in one pass over the edges. The
/// contract says that each of them is barred, not that they are all that are: a mark that is left
/// out costs a further test, and changes no result.
pub(crate) fn barred(edges: &[Marks], t: Marks, edge: Marks) -> Marks
    ensures { AreBarred edges.now t result }
{
    let parts = common_parts(edges, t, edge);
    let mut all = Marks::empty();
    for mark in t.members() {
        all = all.union(parts[mark as usize]);
    }
    all.minus(t)
}

/// Whether each mark of `t` with `mark` added has a critical edge. The marks in `barred` are known
/// to be those with which some mark has none.
pub(crate) fn stays_critical(edges: &[Marks], t: Marks, mark: u32, barred: Marks) -> bool
    requires low { mark < 128 }
    requires barred { AreBarred edges.now t barred }
    ensures { IsTrue result ↔ IsCritical edges.now (union t (single mark)) }
{
    if barred.has(mark) {
        return false;
    }
    is_critical(edges, t.with(mark))
}
