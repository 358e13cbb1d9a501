//! What more marks than so many cost at least, if no rule has both of its marks.

ghost use Rattle.std.specs.Prelude.{◌≡◌, ◌≤◌, max};
ghost use Rattle.mcs_system.specs.Seen.{bridge_of};
ghost use Rattle.mcs_costs.specs.Costs.{IsLeastWeight};
ghost use Rattle.mcs_elimination.specs.Lightest.{IsBoundAt, lack_of, lacking, least_above};
ghost use Rattle.mcs_elimination.specs.Lightest.{least_cost_above};

use mcs_costs::least_weight;
use mcs_system::{Bridge, System};

/// What more marks than so many cost at least, at most one of each rule, so that a minimal diagnosis
/// that costs less has at most so many; `None` if there are no more rules than so many.
pub(crate) fn bound_at(system: &System, level: u32) -> Option<u64>
    ensures { IsBoundAt system.now level result }
{
    if level as usize >= system.bridges().len() {
        return None;
    }
    match least_weight(system) {
        None => None,
        Some(least) => Some(least_cost_above(system, level, least)),
    }
}

/// What more marks than so many cost at least, if they are marks that a repair may have, at most one
/// of each rule: as much as the lightest of these rules. The least weight of a rule is passed.
fn least_cost_above(system: &System, level: u32, least: u64) -> u64
    requires { IsLeastWeight system.now least }
    ensures { result ≡ least_cost_above system.now level least }
{
    let bridges = system.bridges();
    let mut bound = (level as u64 + 1) * least;
    for bridge in bridges {
        bound = raised(system, level, bridge.weight as u64, bound);
    }
    bound
}

/// The bound, or as many marks and one more of this weight, less what the rules lack of it, if this
/// is greater.
fn raised(system: &System, level: u32, weight: u64, bound: u64) -> u64
    requires { weight ≤ 1000000 }
    ensures { result ≡ max bound (least_above system.now level weight) }
{
    let most = (level as u64 + 1) * weight;
    if most <= bound {
        return bound;
    }
    bound.max(most.saturating_sub(lacking(system, weight)))
}

/// What the rules lack of this weight, all together. Each is counted once, since no minimal
/// diagnosis has both of its marks.
fn lacking(system: &System, weight: u64) -> u64
    requires { weight ≤ 1000000 }
    ensures { result ≡ lacking system.now weight }
{
    let mut sum = 0;
    for bridge in system.bridges() {
        sum += lack_of(bridge, weight);
    }
    sum
}

/// What the rule lacks of this weight: nothing, if a repair may neither remove nor force it.
fn lack_of(bridge: &Bridge, weight: u64) -> u64
    ensures { result ≡ lack_of weight (bridge_of bridge.now) }
{
    if bridge.keep && bridge.closed {
        return 0;
    }
    weight.saturating_sub(bridge.weight as u64)
}
