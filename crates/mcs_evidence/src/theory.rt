//! The defaults of a theory.

ghost use Rattle.std.specs.Prelude.{◌≡◌, map, IfOk};
ghost use Rattle.mcs_system.specs.Seen.{default_of, item_of};
ghost use Rattle.mcs_evidence.specs.Defaults.{defaults_of};

use mcs_base::Memory;
use mcs_system::{Default, TheoryItem};
use std::alloc::Global;

/// The defaults of the items, in their order.
pub fn defaults_of(alloc: Global, items: &[TheoryItem]) -> Result<Vec<&Default>, Memory>
    ensures { IfOk result (λ ds. map (λ d. default_of d.now) ds.items
        ≡ defaults_of (map item_of items.now)) }
{
    let mut defaults = Vec::new(alloc);
    for item in items {
        if let TheoryItem::Rule(default) = item {
            defaults.push(default)?;
        }
    }
    Ok(defaults)
}
