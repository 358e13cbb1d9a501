//! Copies of lists.

ghost use Rattle.std.specs.Prelude.{◌≡◌, IfOk, map};

use mcs_base::Memory;
use std::alloc::Global;

/// A value of which a copy can be made. This fails if there is no memory.
pub(crate) trait Copied: Drop {
    ghost Seen: { Type 0 };

    ghost seen: { Self → Self.Seen };

    /// An equal value.
    fn copied(&self, alloc: Global) -> Result<Self, Memory>
        ensures { IfOk result (λ c. Self.seen c ≡ Self.seen self.now) };
}

/// Copies of the items, in the same order.
pub(crate) fn copy_each<T: Copied>(alloc: Global, items: &[T]) -> Result<Vec<T>, Memory>
    ensures { IfOk result (λ copies. map T.seen copies.items ≡ map T.seen items.now) }
{
    let mut copies = Vec::new(alloc);
    for item in items {
        copies.push(item.copied(alloc)?)?;
    }
    Ok(copies)
}
