//! The cost of a pair, and the least weight of a rule.

ghost use Rattle.std.specs.Prelude.{◌≡◌, ◌<◌, ◌≤◌, ◌*◌, length};
ghost use Rattle.mcs_sets.specs.Sets.{Within};
ghost use Rattle.mcs_system.specs.Repairs.{all_marks};
ghost use Rattle.mcs_base.specs.Least.{IsLeastOf};
ghost use Rattle.mcs_costs.specs.Costs.{cost, mark_weight, weights};

use mcs_base::{Marks, lesser};
use mcs_system::System;

/// What the marks cost: the sum of the weights of their rules, one for each mark. Each of them has to be a mark of a rule
/// of the system.
pub fn cost(system: &System, marks: Marks) -> u64
    requires { Within marks (all_marks system.now) }
    ensures value { result ≡ cost system.now marks }
    ensures few { result ≤ 128000000 }
{
    let _bridges = system.bridges();
    let mut sum = 0;
    for mark in marks.members() {
        sum += mark_weight(system, mark);
    }
    sum
}

/// The weight of the rule of this mark.
#[tactic(auto, using(mcs_system::proofs::SeenLemmas::loops))]
fn mark_weight(system: &System, mark: u32) -> u64
    requires { mark < 2 * length system.now.bridges }
    ensures { result ≡ mark_weight system.now mark }
{
    system.bridges()[(mark / 2) as usize].weight as u64
}

/// The least weight of a rule of the system, or `None` exactly if it has no rules.
pub fn least_weight(system: &System) -> Option<u64>
    ensures { IsLeastOf (weights system.now) result }
{
    let mut least = None;
    for bridge in system.bridges() {
        least = Some(lesser(least, bridge.weight as u64));
    }
    least
}
