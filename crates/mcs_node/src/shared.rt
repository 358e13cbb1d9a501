//! Lists that are shared, and lists of their own.

ghost use Rattle.std.specs.Prelude.{◌≡◌, IfOk, map, length};
ghost use Rattle.std.specs.List.{AllByRecursion};
ghost use Rattle.std.specs.Arc.{arc_value};
ghost use Rattle.mcs_node.specs.Letters.{shared_states};

use mcs_base::{Memory, Vars};
use std::alloc::Global;
use std::sync::Arc;

/// So many owners of the same.
pub(crate) fn owners<T: Drop>(
    alloc: Global,
    one: &Arc<T>,
    count: usize,
) -> Result<Vec<Arc<T>>, Memory>
    ensures count { IfOk result (λ owners. length owners.items ≡ count) }
    ensures same { IfOk result (λ owners. AllByRecursion
        (λ owner. arc_value owner ≡ arc_value one.now) owners.items) }
{
    let mut owners = Vec::new(alloc);
    for _ in 0..count {
        owners.push(Arc::try_clone(one)?)?;
    }
    Ok(owners)
}

/// So many owners of a list of the states, which is made once, if at all.
pub(crate) fn copies(
    alloc: Global,
    states: &[Vars],
    count: usize,
) -> Result<Vec<Arc<Vec<Vars>>>, Memory>
    ensures count { IfOk result (λ copies. length copies.items ≡ count) }
    ensures same { IfOk result (λ copies. AllByRecursion
        (λ copy. shared_states copy ≡ states.now) copies.items) }
{
    if count == 0 {
        return Ok(Vec::new(alloc));
    }
    let list = Arc::new(alloc, copied(alloc, states)?)?;
    owners(alloc, &list, count)
}

/// What is shared, in lists of their own.
pub(crate) fn lists_of(alloc: Global, shared: &[Arc<Vec<Vars>>]) -> Result<Vec<Vec<Vars>>, Memory>
    ensures { IfOk result (λ lists. map (λ list. list.items) lists.items
        ≡ map shared_states shared.now) }
{
    let mut lists = Vec::new(alloc);
    for list in shared {
        lists.push(copied(alloc, list)?)?;
    }
    Ok(lists)
}

/// The states, in a list of their own.
fn copied(alloc: Global, states: &[Vars]) -> Result<Vec<Vars>, Memory>
    ensures { IfOk result (λ copy. copy.items ≡ states.now) }
{
    let mut copy = Vec::new(alloc);
    copy.extend_from_slice(states)?;
    Ok(copy)
}
