//! Lists of sets, sorted and without repeats, so that they are listings.

ghost use Rattle.std.specs.Prelude.{◌<◌};
ghost use Rattle.mcs_sets.specs.Orders.{StateBefore, PairBefore};
ghost use Rattle.mcs_base.specs.Listings.{IsAmong, IsListing};

use crate::kinds::{Active, Marks, Vars};

/// Sorts the states in the order of states, and removes repeats. No memory is needed.
pub fn list_states(states: &mut Vec<Vars>)
    ensures { IsListing (λ s. IsAmong s states.old.items) StateBefore states.new.items }
{
    states.sort_unstable();
    states.dedup();
}

/// Sorts the sets of marks in the order of pairs, and removes repeats. No memory is needed.
pub fn list_pairs(pairs: &mut Vec<Marks>)
    ensures { IsListing (λ m. IsAmong m pairs.old.items) PairBefore pairs.new.items }
{
    pairs.sort_unstable();
    pairs.dedup();
}

/// Sorts the sets of rules as numbers, ascending, and removes repeats. No memory is needed.
pub fn list_rule_sets(sets: &mut Vec<Active>)
    ensures { IsListing (λ a. IsAmong a sets.old.items) (λ a b. a < b) sets.new.items }
{
    sets.sort_unstable();
    sets.dedup();
}
