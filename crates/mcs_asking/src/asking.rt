//! What a context is asked with: the heads of rules into it, and the beliefs that are its
//! variables.

ghost use Rattle.std.specs.Prelude.{◌≡◌, ◌<◌, length, map, IfOk};
ghost use Rattle.mcs_system.specs.Seen.{formula_of};
ghost use Rattle.mcs_system.specs.Systems.{variables_of, heads_into};
ghost use Rattle.mcs_system.specs.Views.{at_places, beliefs_at};

use mcs_base::{Active, Memory, Vars};
use mcs_system::{Formula, System};
use std::alloc::Global;

/// The heads of those of the rules that go into the context, in the order of the rules.
pub fn heads_into(
    alloc: Global,
    system: &System,
    context: u32,
    rules: Active,
) -> Result<Vec<&Formula>, Memory>
    ensures { IfOk result (λ heads. map (λ f. formula_of f.now) heads.items
        ≡ heads_into system.now context rules) }
{
    let mut heads = Vec::new(alloc);
    for (k, rule) in system.bridges().iter().enumerate() {
        if rules.has(k as u32) && rule.target == context {
            heads.push(&rule.head)?;
        }
    }
    Ok(heads)
}

/// The beliefs of the variables of a context of the system, ascending.
pub fn beliefs_of(alloc: Global, system: &System, context: u32) -> Result<Vec<&Formula>, Memory>
    requires { context < length system.now.contexts }
    ensures { IfOk result (λ beliefs. map (λ f. formula_of f.now) beliefs.items
        ≡ beliefs_at system.now (variables_of system.now context)) }
{
    let reads = system.variables();
    let mut beliefs = Vec::new(alloc);
    for variable in system.vars_of(context).members() {
        beliefs.push(&reads[variable as usize].belief)?;
    }
    Ok(beliefs)
}

/// The members of the set whose places among its members, counted from 0, are these.
pub fn at_places(set: Vars, places: Vars) -> Vars
    ensures { result ≡ at_places set places }
{
    let mut chosen = Vars::empty();
    for (place, member) in set.members().enumerate() {
        if places.has(place as u32) {
            chosen = chosen.with(member);
        }
    }
    chosen
}

/// For each view the members of the set at its places, in the same order.
pub fn parts_at(alloc: Global, set: Vars, views: &[Vars]) -> Result<Vec<Vars>, Memory>
    ensures { IfOk result (λ parts. parts.items ≡ map (at_places set) views.now) }
{
    let mut parts = Vec::new(alloc);
    for view in views {
        parts.push(at_places(set, *view))?;
    }
    Ok(parts)
}
