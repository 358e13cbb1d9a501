//! First states that were told, each with its pair.

ghost use Rattle.std.specs.Prelude.{ℕ, IfSome};
ghost use Rattle.mcs_recall.specs.Shown.{IsKept, IsShownAt};

use mcs_base::{Pair, Vars};

/// A pair of a system, with the first of the projected equilibria of the system that it changes.
#[derive(Clone, Copy, Debug)]
pub(crate) struct Shown {
    pub pair: Pair,
    pub state: Vars,
}

/// The place in the list at which the pair is shown, if there is one from `next` on.
pub(crate) fn place_from(shown: &[Shown], pair: Pair, next: usize) -> Option<usize>
    ensures { IfSome result (IsShownAt shown.now pair) }
{
    for place in next..shown.len() {
        if shown[place].pair == pair {
            return Some(place);
        }
    }
    None
}

/// Adds the state to the list, unless there is no memory for it.
pub(crate) fn keep(shown: &mut Vec<Shown>, one: Shown)
    ensures { IsKept one shown.old.items shown.new.items }
{
    let _ = shown.push(one);
}
