//! Answer sets of programs, and what shows them.

ghost use Rattle.std.specs.Prelude.{◌≡◌, ◌≤◌, false, length, map, IfSome};
ghost use Rattle.mcs_system.specs.Faults.{has_twins};
ghost use Rattle.mcs_system.specs.Seen.{kb_of, rule_of};
ghost use Rattle.mcs_asking.specs.Kinds.{IsOverKb};
ghost use Rattle.mcs_evidence.specs.Programs.{AreOverRules};

use crate::numbered::are_numbered;
use crate::systems::{first_knowledge, system_of};
use mcs_base::{Memory, Vars};
use mcs_cnf::are_different;
use mcs_program::{answer_sets, list_answer_sets};
use mcs_system::{Kb, Name, ProgRule, System};
use mcs_trace::ProgramCert;
use std::alloc::Global;
use std::test::Fail;

/// The rules, where the knowledge is a program over the atoms.
pub(crate) fn program_in<'k>(knowledge: &'k Kb, atoms: &[Name]) -> Option<&'k [ProgRule]>
    requires { IsOverKb atoms.now (kb_of knowledge.now) }
    ensures { IfSome result (λ rules. AreOverRules atoms.now (map rule_of rules.now)) }
{
    match knowledge {
        Kb::Program(rules) => Some(rules.as_slice()),
        Kb::Classical(_) | Kb::DefaultTheory(_) => None,
    }
}

/// What shows the answer sets of the rules, seen through the atoms.
pub(crate) fn shown(
    alloc: Global,
    rules: &[ProgRule],
    atoms: &[Name],
) -> Result<ProgramCert, Memory>
    requires over { AreOverRules atoms.now (map rule_of rules.now) }
    requires few { length atoms.now ≤ 64 }
    requires different { has_twins atoms.now ≡ false }
{
    let (_, certificate) = answer_sets(alloc, rules, &[], atoms, atoms)?;
    Ok(certificate)
}

/// The views of the answer sets of the rules through the atoms, without what shows them.
fn listed(alloc: Global, rules: &[ProgRule], atoms: &[Name]) -> Result<Vec<Vars>, Memory>
    requires over { AreOverRules atoms.now (map rule_of rules.now) }
    requires few { length atoms.now ≤ 64 }
    requires different { has_twins atoms.now ≡ false }
{
    let beliefs: Vec<&Name> = atoms.iter().collect(alloc)?;
    list_answer_sets(alloc, rules, &[], &beliefs, atoms)
}

/// Whether the answer sets of the rules are seen through the atoms as the views of these numbers,
/// by so many models, and listed as the same ones where nothing shows them.
fn are_shown(
    alloc: Global,
    rules: &[ProgRule],
    atoms: &[Name],
    views: &[u64],
    models: usize,
) -> Result<bool, Memory>
    requires over { AreOverRules atoms.now (map rule_of rules.now) }
    requires few { length atoms.now ≤ 64 }
{
    if !are_different(atoms) {
        return Ok(false);
    }
    let (found, certificate) = answer_sets(alloc, rules, &[], atoms, atoms)?;
    let count = certificate.models.len();
    drop(certificate);
    let listed = listed(alloc, rules, atoms)?;
    Ok(count == models && are_numbered(&found, views) && are_numbered(&listed, views))
}

/// Whether the answer sets of the rules, seen through the first two atoms alone, are listed as the
/// views of these numbers.
fn are_listed(
    alloc: Global,
    rules: &[ProgRule],
    atoms: &[Name],
    views: &[u64],
) -> Result<bool, Memory>
    requires over { AreOverRules atoms.now (map rule_of rules.now) }
    requires few { length atoms.now ≤ 64 }
{
    if !are_different(atoms) || atoms.len() < 2 {
        return Ok(false);
    }
    let listed = list_answer_sets(alloc, rules, &[], &[&atoms[0], &atoms[1]], atoms)?;
    Ok(are_numbered(&listed, views))
}

/// Whether the program of the only context has these views of its first two atoms.
fn has_views_of_two(alloc: Global, system: &System, views: &[u64]) -> Result<bool, Memory> {
    if system.contexts().is_empty() {
        return Ok(false);
    }
    let (knowledge, atoms) = first_knowledge(system);
    let Some(rules) = program_in(knowledge, atoms) else {
        return Ok(false);
    };
    are_listed(alloc, rules, atoms, views)
}

/// Whether the program of the only context has these answer sets, by so many models.
fn has_views(alloc: Global, system: &System, views: &[u64], models: usize) -> Result<bool, Memory> {
    if system.contexts().is_empty() {
        return Ok(false);
    }
    let (knowledge, atoms) = first_knowledge(system);
    let Some(rules) = program_in(knowledge, atoms) else {
        return Ok(false);
    };
    are_shown(alloc, rules, atoms, views, models)
}

/// Programs, the numbers of the views of their answer sets, and how many models show these.
const PROGRAMS: &[(&str, &[u64], usize)] = &[
    ("context c program { a | b. }", &[1, 2], 2),
    ("context c program { a. :- a. }", &[], 0),
    ("context c program { :- a. }", &[0], 1),
    ("context c program { a :- not a. }", &[], 0),
    ("context c program { a :- not b. b :- not a. }", &[1, 2], 2),
    (
        "context c program { a :- not b. b :- not c. c :- not d. }",
        &[5],
        1,
    ),
    ("context c program { a. b :- a, not c. c :- b. }", &[], 0),
    ("context c program { a :- a. b :- not a. }", &[2], 1),
    ("context c program { a :- b. b :- a. }", &[0], 1),
    ("context c program { a :- a, not b. b :- not a. }", &[2], 1),
    (
        "context c program { a :- b. b :- a. a :- not c. c :- not a. }",
        &[3, 4],
        2,
    ),
    (
        "context c program { a :- b, not c. b :- a. c :- not b. b :- not c. }",
        &[3, 4],
        2,
    ),
    ("context c program { a | b. :- a. }", &[2], 1),
    ("context c program { a | b. b | c. }", &[5, 2], 2),
    ("context c program { a | b. b | c. :- b. }", &[5], 1),
    (
        "context c program { a | b. c :- a. c :- b. :- not c. }",
        &[5, 6],
        2,
    ),
    (
        "context c program { a | b. c | d. :- a, c. :- b, d. }",
        &[9, 6],
        2,
    ),
    (
        "context c program { a | b :- c. c :- not d. d :- not c. }",
        &[5, 6, 8],
        3,
    ),
    ("context c program { a | b. a :- b. b :- a. }", &[3], 1),
    (
        "context c program { a | b | c. a :- b. b :- c. c :- a. }",
        &[7],
        1,
    ),
    (
        "context c program { a :- b, c. b :- a. c :- a. b | c. }",
        &[2, 4],
        2,
    ),
    (
        "context c program { a | b. a :- c. c :- a. :- not c. }",
        &[5],
        1,
    ),
];

#[test]
fn answer_sets_are_shown(rt: HostRuntime) -> Result<(), Fail> {
    let mut are_right = true;
    for (text, views, models) in PROGRAMS {
        let system = system_of(rt.alloc(), text)?;
        are_right &= has_views(rt.alloc(), &system, views, *models) == Ok(true);
        drop(system);
    }
    assert!(rt; are_right);
    Ok(())
}

/// Programs without loops, and the numbers of the views of their answer sets through `a` and `b`
/// alone.
const PROGRAMS_SEEN_THROUGH_TWO: &[(&str, &[u64])] = &[
    (
        "context c program { :- a, b, not c. c :- a, b. a :- not d. d :- not a. b :- not e. e :- not b. }",
        &[3, 1, 2, 0],
    ),
    (
        "context c program { :- a, b. a :- not d. d :- not a. b :- not e. e :- not b. }",
        &[1, 2, 0],
    ),
    (
        "context c program { a | b. c :- not d. d :- not c. }",
        &[1, 2],
    ),
    ("context c program { :- a, b. c :- not c. }", &[]),
];

#[test]
fn answer_sets_are_seen_through_two_atoms(rt: HostRuntime) -> Result<(), Fail> {
    let mut are_right = true;
    for (text, views) in PROGRAMS_SEEN_THROUGH_TWO {
        let system = system_of(rt.alloc(), text)?;
        are_right &= has_views_of_two(rt.alloc(), &system, views) == Ok(true);
        drop(system);
    }
    assert!(rt; are_right);
    Ok(())
}
