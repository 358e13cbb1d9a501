//! What is kept of a program for derivations: the rules on which depends what is read of it.

ghost use Rattle.std.specs.Prelude.{◌<◌, length, IfOk};
ghost use Rattle.mcs_reduct.specs.Plain.{IsPlain};
ghost use Rattle.mcs_grounded.specs.Parts.{AreConesOf, ArePlaced, IsConeFor};

use crate::normal::{dependent, normal_rules};
use crate::placed::NormalRule;
use crate::places::{Places, places_at};
use mcs_base::{Memory, Vars};
use mcs_system::{Kb, System};
use std::alloc::Global;

/// What is kept of a program: the atoms on which depends what is read of it, and the rules for
/// these. Of a classical context it is empty.
#[derive(Drop)]
pub(crate) struct Cone {
    pub(crate) places: Vars,
    pub(crate) rules: Vec<NormalRule>,
}

/// What is kept of the context at first. The system has to be plain.
fn cone_of(alloc: Global, system: &System, context: u32, places: &Places) -> Result<Cone, Memory>
    requires context { context < length system.now.contexts }
    requires plain { IsPlain system.now }
    requires places { ArePlaced system.now places.now }
    ensures { IfOk result (IsConeFor system.now context) }
{
    let Kb::Program(rules) = &system.contexts()[context as usize].kb else {
        return Ok(Cone {
            places: Vars::empty(),
            rules: Vec::new(alloc),
        });
    };
    let mut rules = normal_rules(alloc, system.atoms_of(context), rules)?;
    let start = places_at(&places.reads, system.vars_of(context).members());
    let cone = dependent(&rules, start);
    rules.retain(|rule| cone.has(rule.head));
    Ok(Cone {
        places: cone,
        rules,
    })
}

/// What is kept of each context, in order. The system has to be plain.
pub(crate) fn cones_of(alloc: Global, system: &System, places: &Places) -> Result<Vec<Cone>, Memory>
    requires plain { IsPlain system.now }
    requires places { ArePlaced system.now places.now }
    ensures { IfOk result (λ cones. AreConesOf system.now cones.items) }
{
    let mut cones = Vec::new(alloc);
    for context in 0..system.contexts().len() as u32 {
        cones.push(cone_of(alloc, system, context, places)?)?;
    }
    Ok(cones)
}
