//! Iterating over the members of a set.

ghost use Rattle.std.specs.Iterator.{YieldsFirst, item_count};

use crate::small_set::SmallSet;
use std::marker::Model;

/// The members of a set that are still to come, ascending. The model is the list of them.
#[derive(Debug, Drop)]
pub struct Members {
    pub(crate) left: SmallSet,
}

impl Model for Members {
    ghost use Rattle.std.specs.Prelude.{List, ℕ};
    ghost use Rattle.mcs_sets.specs.Sets.{members};

    ghost Value = { List ℕ };

    ghost view = { λ m. members m.left };
}

impl Iterator for Members {
    type Item = u32;

    ghost next_gives = { YieldsFirst (λ rest. rest) };

    ghost remaining = { item_count (λ rest. rest) };

    fn next(&mut self) -> Option<u32> {
        let least = self.left.first()?;
        self.left = self.left.without(least);
        Some(least)
    }
}
