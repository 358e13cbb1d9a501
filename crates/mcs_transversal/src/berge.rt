//! Minimal transversals, computed edge by edge.

ghost use Rattle.std.specs.Prelude.{◌≡◌, ◌++◌, [], ◌∷◌, ◌⊎◌, ◌↔◌, ℕ, List, IsTrue, OnOk, IfOk};
ghost use Rattle.std.specs.List.{AllByRecursion};
ghost use Rattle.mcs_sets.specs.Sets.{Meets, Within};
ghost use Rattle.mcs_sets.specs.Orders.{PairBefore};
ghost use Rattle.mcs_base.specs.Listings.{IsAmong, IsListing};
ghost use Rattle.mcs_base.specs.Minimal.{IsMinimal};
ghost use Rattle.mcs_base.specs.Transversals.{IsTransversalOf};
ghost use Rattle.mcs_transversal.specs.Transversals.{ComesOf, ComesOfOne};

use crate::barred::{barred, stays_critical};
use mcs_base::{Marks, Memory, list_pairs};
use std::alloc::Global;
use std::mem;

/// Whether no set of `ts` that meets the edge lies within `grown`.
fn has_none_within(ts: &[Marks], edge: Marks, grown: Marks) -> bool
    ensures { IsTrue result ↔ AllByRecursion (λ s. Meets s edge → ¬ Within s grown) ts.now }
{
    for s in ts {
        if s.meets(edge) && s.within(grown) {
            return false;
        }
    }
    true
}

/// Extends `t`, a minimal transversal of the edges before the last one, `edge`, which it does not
/// meet. Appends to `out` the set with each mark of `edge` added, if each mark of that set still
/// has a critical edge. This is tested on the edges.
fn grow_by_edges(t: Marks, edge: Marks, edges: &[Marks], out: &mut Vec<Marks>) -> Result<(), Memory>
    requires { ¬ Meets t edge }
    ensures { OnOk result
        ((x : ℕ) → IsAmong x out.new.items
        ↔ (IsAmong x out.old.items ⊎ ComesOf edges.now edge x t)) }
{
    let barred = barred(edges, t, edge);
    for mark in edge.members() {
        if stays_critical(edges, t, mark, barred) {
            out.push(t.with(mark))?;
        }
    }
    Ok(())
}

/// The same, tested on `ts`, all minimal transversals of the edges before `edge`. A set with a mark
/// added is left out if one of them meets `edge` and lies within it.
fn grow_by_sets(t: Marks, edge: Marks, ts: &[Marks], out: &mut Vec<Marks>) -> Result<(), Memory>
    requires apart { ¬ Meets t edge }
    requires among { IsAmong t ts.now }
    ensures { OnOk result
        ((before : List ℕ) → ((x : ℕ) → IsAmong x ts.now ↔ IsMinimal (IsTransversalOf before) x)
        → (x : ℕ) → IsAmong x out.new.items
        ↔ (IsAmong x out.old.items ⊎ ComesOf (before ++ edge ∷ []) edge x t)) }
{
    for mark in edge.members() {
        let grown = t.with(mark);
        if has_none_within(ts, edge, grown) {
            out.push(grown)?;
        }
    }
    Ok(())
}

/// Appends to `out` what one of the minimal transversals of the edges before the last one, `edge`,
/// yields: itself, if it meets `edge`, and otherwise its extensions. These are tested on the edges
/// or on the transversals, whichever list is shorter.
fn extend(
    t: Marks,
    edge: Marks,
    edges: &[Marks],
    ts: &[Marks],
    out: &mut Vec<Marks>,
) -> Result<(), Memory>
    requires before { (before : List ℕ) × (edges.now ≡ before ++ edge ∷ [])
        × ((x : ℕ) → IsAmong x ts.now ↔ IsMinimal (IsTransversalOf before) x) }
    requires among { IsAmong t ts.now }
    ensures { OnOk result
        ((x : ℕ) → IsAmong x out.new.items
        ↔ (IsAmong x out.old.items ⊎ ComesOf edges.now edge x t)) }
{
    if t.meets(edge) {
        out.push(t)?;
        return Ok(());
    }
    if ts.len() < edges.len() {
        grow_by_sets(t, edge, ts, out)?;
        return Ok(());
    }
    grow_by_edges(t, edge, edges, out)
}

/// Replaces `out` by what all of the transversals yield.
fn extend_each(
    ts: &[Marks],
    edge: Marks,
    edges: &[Marks],
    out: &mut Vec<Marks>,
) -> Result<(), Memory>
    requires { (before : List ℕ) × (edges.now ≡ before ++ edge ∷ [])
        × ((x : ℕ) → IsAmong x ts.now ↔ IsMinimal (IsTransversalOf before) x) }
    ensures { OnOk result ((x : ℕ) → IsAmong x out.new.items ↔ ComesOfOne edges.now edge ts.now x) }
{
    out.clear();
    for t in ts {
        extend(*t, edge, edges, ts, out)?;
    }
    Ok(())
}

/// The minimal sets that meet every edge (Berge 1989), each once, in the order of pairs. For no
/// edges this is the empty set alone. If an edge is empty, there is none.
pub fn minimal_transversals(alloc: Global, edges: &[Marks]) -> Result<Vec<Marks>, Memory>
    ensures { IfOk result (λ ts. IsListing (IsMinimal (IsTransversalOf edges.now)) PairBefore
        ts.items) }
{
    let mut current = Vec::new(alloc);
    let mut next = Vec::new(alloc);
    current.push(Marks::empty())?;
    for (index, edge) in edges.iter().enumerate() {
        extend_each(&current, *edge, &edges[..index + 1], &mut next)?;
        mem::swap(&mut current, &mut next);
    }
    list_pairs(&mut current);
    Ok(current)
}
