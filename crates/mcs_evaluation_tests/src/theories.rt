//! Extensions of default theories, and what shows them.

ghost use Rattle.std.specs.Prelude.{◌≡◌, ◌≤◌, false, length, map, IfSome};
ghost use Rattle.mcs_system.specs.Seen.{formula_of, item_of, kb_of};
ghost use Rattle.mcs_system.specs.Faults.{default_count, has_twins};
ghost use Rattle.mcs_cnf.specs.ClauseLists.{AreOver};
ghost use Rattle.mcs_asking.specs.Kinds.{IsOverKb};
ghost use Rattle.mcs_evidence.specs.Defaults.{AreOverItems, defaults_of};

use crate::numbered::are_numbered;
use crate::systems::{first_knowledge, system_of};
use mcs_base::Memory;
use mcs_cnf::{are_different, are_over};
use mcs_default::extensions;
use mcs_system::{Context, Formula, Kb, Name, System, TheoryItem};
use mcs_trace::{DefaultCert, SetCert};
use std::alloc::Global;
use std::test::Fail;

/// The items, where the knowledge is a default theory over the atoms with few defaults.
pub(crate) fn theory_in<'k>(knowledge: &'k Kb, atoms: &[Name]) -> Option<&'k [TheoryItem]>
    requires over { IsOverKb atoms.now (kb_of knowledge.now) }
    requires few { default_count (kb_of knowledge.now) ≤ 10 }
    ensures over { IfSome result (λ items. AreOverItems atoms.now (map item_of items.now)) }
    ensures few { IfSome result (λ items. length (defaults_of (map item_of items.now)) ≤ 10) }
{
    match knowledge {
        Kb::DefaultTheory(items) => Some(items.as_slice()),
        Kb::Classical(_) | Kb::Program(_) => None,
    }
}

/// The formulas of the second context.
pub(crate) fn beliefs_of(system: &System) -> &[Formula] {
    match system.contexts() {
        [
            _,
            Context {
                kb: Kb::Classical(formulas),
                ..
            },
        ] => formulas.as_slice(),
        _ => &[],
    }
}

/// Whether those sets of defaults generate extensions of which it is said.
fn are_judged(certificate: &DefaultCert, generating: &[bool]) -> bool {
    if certificate.sets.len() != generating.len() {
        return false;
    }
    for (set, wanted) in certificate.sets.iter().zip(generating) {
        if matches!(set, SetCert::Extension { .. }) != *wanted {
            return false;
        }
    }
    true
}

/// Whether the extensions of the theory are listed with the views of these numbers, and where that
/// is said the sets of its defaults are judged so.
fn are_found(
    alloc: Global,
    items: &[TheoryItem],
    beliefs: &[Formula],
    atoms: &[Name],
    numbers: &[u64],
    generating: Option<&[bool]>,
) -> Result<bool, Memory>
    requires over { AreOverItems atoms.now (map item_of items.now) }
    requires beliefs { AreOver atoms.now (map formula_of beliefs.now) }
    requires different { has_twins atoms.now ≡ false }
    requires few { length atoms.now ≤ 64 }
    requires few_beliefs { length beliefs.now ≤ 64 }
    requires few_defaults { length (defaults_of (map item_of items.now)) ≤ 10 }
{
    let (found, certificate) = extensions(alloc, items, &[], beliefs, atoms)?;
    let is_judged = match generating {
        Some(wanted) => are_judged(&certificate, wanted),
        None => true,
    };
    drop(certificate);
    let is_found = are_numbered(&found, numbers);
    drop(found);
    Ok(is_judged && is_found)
}

/// Each of the defaults keeps out the other one.
const DIAMOND: &str = "context c1 default { quaker. republican.
quaker : pacifist / pacifist. republican : ~pacifist / ~pacifist. } context c2 classical { pacifist. }";

/// Nothing but the default itself gives its prerequisite.
const UNGROUNDED: &str = "context c1 default { p : p / p. } context c2 classical { p. }";

/// A theory and the formulas for which it is asked, the numbers of the views, in their order, and
/// of some which sets of defaults generate an extension.
const THEORIES: &[(&str, &[u64], Option<&[bool]>)] = &[
    (DIAMOND, &[1, 0], Some(&[false, true, true, false])),
    (UNGROUNDED, &[0], Some(&[true, false])),
    (
        "context c default { a. a : b / b. b : c / c. } context d classical { b. c. }",
        &[3],
        None,
    ),
    (
        "context c default { a. a : b & ~c / b. a : c / c. } context d classical { b. c. }",
        &[2],
        None,
    ),
    (
        "context c default { true : a & ~b / a. true : b & ~c / b. true : c & ~a / c. } context d classical { a. }",
        &[],
        None,
    ),
    (
        "context c default { a : b / b. b : a / a. } context d classical { a. b. }",
        &[0],
        None,
    ),
    (
        "context c default { a : b / b. b : a / a. true : a | b / a | b. } context d classical { a. b. a | b. }",
        &[4],
        None,
    ),
    (
        "context c default { a. a : p / p. a : ~p / ~p. a : q / q. a : ~q / ~q. } context d classical { p. q. }",
        &[3, 1, 2, 0],
        None,
    ),
    (
        "context c default { a. ~a. true : b / b. } context d classical { a. b. ~b. }",
        &[7],
        None,
    ),
    (
        "context c default { a. a : b, c / d. a : ~b / ~b. } context d classical { d. ~b. }",
        &[2],
        None,
    ),
    (
        "context c default { a. a : b, ~b / c. } context d classical { b. ~b. c. }",
        &[4],
        None,
    ),
    (
        "context c default { true : a / ~a. } context d classical { a. }",
        &[],
        None,
    ),
    (
        "context c default { true : a / a. true : b / b. a & b : c / c. } context d classical { c. }",
        &[1],
        None,
    ),
    (
        "context c default { true : p / q. true : q / ~p. } context d classical { p. q. ~p. }",
        &[4],
        None,
    ),
    (PAIRS, &[3, 1, 2, 0], None),
    (RING, &[1, 2, 0], None),
    (CYCLE, &[7], None),
];

/// Five pairs of contrary defaults, each of 32 choices.
const PAIRS: &str =
    "context c default { b. b : p0 / p0. b : ~p0 / ~p0. b : p1 / p1. b : ~p1 / ~p1. b : p2 / p2.
b : ~p2 / ~p2. b : p3 / p3. b : ~p3 / ~p3. b : p4 / p4. b : ~p4 / ~p4. } context d classical { p1. p4. }";

/// The same where no two neighbours in a ring hold, each of 11 independent sets.
const RING: &str =
    "context c default { b. b : p0 / p0. b : ~p0 / ~p0. b : p1 / p1. b : ~p1 / ~p1. b : p2 / p2.
b : ~p2 / ~p2. b : p3 / p3. b : ~p3 / ~p3. b : p4 / p4. b : ~p4 / ~p4. ~(p0 & p1). ~(p1 & p2). ~(p2 & p3).
~(p3 & p4). ~(p4 & p0). } context d classical { p0. p4. }";

/// Each of ten defaults gives the prerequisite of the next one.
const CYCLE: &str =
    "context c default { a4. a0 : a1 / a1. a1 : a2 / a2. a2 : a3 / a3. a3 : a4 / a4. a4 : a5 / a5.
a5 : a6 / a6. a6 : a7 / a7. a7 : a8 / a8. a8 : a9 / a9. a9 : a0 / a0. } context d classical { a0. a3. a9. }";

/// Whether the first context, asked for the formulas of the second, has the views of these numbers.
fn has_views(
    alloc: Global,
    system: &System,
    numbers: &[u64],
    generating: Option<&[bool]>,
) -> Result<bool, Memory> {
    if system.contexts().is_empty() {
        return Ok(false);
    }
    let (knowledge, atoms) = first_knowledge(system);
    let beliefs = beliefs_of(system);
    let Some(items) = theory_in(knowledge, atoms) else {
        return Ok(false);
    };
    if beliefs.len() > 64 || !are_different(atoms) || !are_over(atoms, beliefs) {
        return Ok(false);
    }
    are_found(alloc, items, beliefs, atoms, numbers, generating)
}

#[test]
fn extensions_are_listed_with_what_shows_them(rt: HostRuntime) -> Result<(), Fail> {
    let mut are_right = true;
    for (text, numbers, generating) in THEORIES {
        let system = system_of(rt.alloc(), text)?;
        are_right &= has_views(rt.alloc(), &system, numbers, *generating) == Ok(true);
        drop(system);
    }
    assert!(rt; are_right);
    Ok(())
}
