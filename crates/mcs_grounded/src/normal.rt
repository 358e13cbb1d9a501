//! Rules of normal programs, by the places of their atoms; the least models of their reducts.

ghost use Rattle.std.specs.Prelude.{map, IfOk, IsTrue};
ghost use Rattle.std.specs.List.{AllByRecursion, AllZip};
ghost use Rattle.mcs_system.specs.Logic.{is_in};
ghost use Rattle.mcs_system.specs.Seen.{rule_of};
ghost use Rattle.mcs_evidence.specs.Programs.{AreOverRules, IsOverRule};
ghost use Rattle.mcs_evidence.specs.Pushing.{AreNamesOf};
ghost use Rattle.mcs_program.specs.Placing.{IsPlaceOf, ArePlaces};
ghost use Rattle.mcs_reduct.specs.Plain.{has_one_head};
ghost use Rattle.mcs_grounded.specs.Parts.{IsNormalRule, HaveHeadsOf, HaveBodiesOf};
ghost use Rattle.mcs_grounded.specs.Parts.{IsLeastModel, IsDependent, AreNames};

use crate::placed::NormalRule;
use mcs_base::{Memory, Vars};
use mcs_cnf::atom_number;
use mcs_system::{Name, ProgRule};
use std::alloc::Global;

/// The place of the name among the atoms.
pub(crate) fn place_of(atoms: &[Name], name: &Name) -> u32
    requires atoms { AreNames atoms.now }
    requires over { IsTrue (is_in name.now atoms.now) }
    ensures { IsPlaceOf atoms.now name.now result }
{
    atom_number(atoms, name) as u32 - 1
}

/// The places of the names among the atoms.
fn places_of(atoms: &[Name], names: &[Name]) -> Vars
    requires atoms { AreNames atoms.now }
    requires over { AreNamesOf atoms.now names.now }
    ensures { ArePlaces atoms.now names.now result }
{
    let mut places = Vars::empty();
    for name in names {
        places = places.with(place_of(atoms, name));
    }
    places
}

impl NormalRule {
    /// The rule, which has exactly one head name, by the places of its atoms.
    fn of(atoms: &[Name], rule: &ProgRule) -> NormalRule
        requires atoms { AreNames atoms.now }
        requires over { IsOverRule atoms.now (rule_of rule.now) }
        requires one_head { IsTrue (has_one_head (rule_of rule.now)) }
        ensures { IsNormalRule atoms.now (rule_of rule.now) result }
    {
        NormalRule {
            head: place_of(atoms, &rule.head[0]),
            pos: places_of(atoms, &rule.pos),
            neg: places_of(atoms, &rule.neg),
        }
    }
}

/// The rules, by the places of their atoms, in order.
pub(crate) fn normal_rules(
    alloc: Global,
    atoms: &[Name],
    rules: &[ProgRule],
) -> Result<Vec<NormalRule>, Memory>
    requires atoms { AreNames atoms.now }
    requires rules { AreOverRules atoms.now (map rule_of rules.now) }
    requires one_head { AllByRecursion (λ r. IsTrue (has_one_head r)) (map rule_of rules.now) }
    ensures { IfOk result (λ placed. AllZip (IsNormalRule atoms.now) (map rule_of rules.now)
        placed.items) }
{
    let mut placed = Vec::new(alloc);
    for rule in rules {
        placed.push(NormalRule::of(atoms, rule))?;
    }
    Ok(placed)
}

/// The places with the heads of the rules that they support, one after the other. Only those rules
/// count that the reduct by the places in `against` has.
fn with_heads(rules: &[NormalRule], against: Vars, places: Vars) -> Vars
    ensures { HaveHeadsOf rules.now rules.now against places result }
{
    let mut more = places;
    for rule in rules {
        if !rule.neg.meets(against) && rule.pos.within(more) {
            more = more.with(rule.head);
        }
    }
    more
}

/// The least model of the reduct of the rules by `against` that has the places in `start`. The
/// heads that these support are added again and again, until nothing changes.
pub(crate) fn least_model(rules: &[NormalRule], against: Vars, start: Vars) -> Vars
    ensures { IsLeastModel rules.now against start result }
{
    let mut places = start;
    loop {
        let more = with_heads(rules, against, places);
        if more.count() == places.count() {
            return places;
        }
        places = more;
    }
}

/// The places with the bodies of the rules whose heads they have, one after the other.
fn with_bodies(rules: &[NormalRule], places: Vars) -> Vars
    ensures { HaveBodiesOf rules.now rules.now places result }
{
    let mut more = places;
    for rule in rules {
        if more.has(rule.head) {
            more = more.union(rule.pos).union(rule.neg);
        }
    }
    more
}

/// The places with all on which they depend: with the head of a rule they have its body.
pub(crate) fn dependent(rules: &[NormalRule], start: Vars) -> Vars
    ensures { IsDependent rules.now start result }
{
    let mut places = start;
    loop {
        let more = with_bodies(rules, places);
        if more.count() == places.count() {
            return places;
        }
        places = more;
    }
}
