//! What follows from formulas, and what is shown of it.

use crate::contexts::{Claim, holds, may_be_asked};
use mcs_asked::Asked;
use mcs_base::{Memory, Vars};
use mcs_classical::{Given, entails, entails_from, outputs};
use mcs_cnf::{are_over, clauses, is_over};
use mcs_system::{Formula, Name};
use mcs_trace::Entail;
use std::alloc::Global;

/// Whether it is shown that the goal follows, where no places are given; else that it does not
/// where just the atoms at these places are true.
fn is_shown(entail: &Entail, against: Option<u64>) -> bool {
    match entail {
        Entail::Yes(_) => against.is_none(),
        Entail::No(places) => against == Some(*places),
    }
}

/// Whether this is shown of the goal, where the formulas can be asked for it.
fn is_told(
    alloc: Global,
    kb: &[Formula],
    goal: &Formula,
    atoms: &[Name],
    against: Option<u64>,
) -> Result<bool, Memory> {
    if !may_be_asked(kb, atoms) || !is_over(atoms, goal) {
        return Ok(false);
    }
    let entail = entails(alloc, kb, goal, atoms)?;
    let is_shown = is_shown(&entail, against);
    drop(entail);
    Ok(is_shown)
}

/// Whether this is shown of the goal by the clauses of the formulas, where these can be asked for
/// it.
fn is_told_by_clauses(
    alloc: Global,
    kb: &[Formula],
    goal: &Formula,
    atoms: &[Name],
    against: Option<u64>,
) -> Result<bool, Memory> {
    if !may_be_asked(kb, atoms) || !is_over(atoms, goal) {
        return Ok(false);
    }
    let asked = Asked {
        atoms,
        beliefs: &[],
    };
    let given = Given {
        asked: &asked,
        assumptions: &[],
    };
    let mut known = clauses(alloc, kb, atoms)?;
    if known.vars() < atoms.len() as u64 {
        return Ok(false);
    }
    let entail = entails_from(alloc, &mut known, goal, &given);
    drop(known);
    let entail = entail?;
    let is_shown = is_shown(&entail, against);
    drop(entail);
    Ok(is_shown)
}

/// Whether the third formula is told to follow from the two before it, from these and from their
/// clauses, and the fourth one not to, where just the first two atoms are true.
pub(crate) fn follow(alloc: Global, formulas: &[Formula], atoms: &[Name]) -> Result<bool, Memory> {
    let [_, _, third, fourth] = formulas else {
        return Ok(false);
    };
    let kb = &formulas[..2];
    let is_third = is_told(alloc, kb, third, atoms, None)?;
    let is_third_by_clauses = is_told_by_clauses(alloc, kb, third, atoms, None)?;
    let is_fourth = is_told(alloc, kb, fourth, atoms, Some(0b011))?;
    Ok(is_third && is_third_by_clauses && is_fourth)
}

#[test]
fn goals_follow_or_are_refuted(rt: HostRuntime) {
    let text: &[u8] = b"context c classical { a. a -> b. b. b -> c. }";
    assert!(rt; holds(rt.alloc(), text, &Claim::Follow));
}

/// Whether what is shown is of those that follow as it is said, one after the other.
fn are_shown(entails: &[Entail], follow: &[bool]) -> bool {
    let mut as_said = entails.len() == follow.len();
    for (entail, wanted) in entails.iter().zip(follow) {
        as_said = as_said && matches!(entail, Entail::Yes(_)) == *wanted;
    }
    as_said
}

/// Two formulas and then beliefs: which of these follow, by their places, and one after the other.
pub(crate) struct Beliefs {
    text: &'static str,
    places: u64,
    follow: &'static [bool],
}

static BELIEFS: [Beliefs; 2] = [
    // What contradicts itself believes everything.
    Beliefs {
        text: "context c classical { p. ~p. q. p. false. }",
        places: 0b111,
        follow: &[true, true, true],
    },
    // Of five beliefs the first and the last follow. What makes the second false makes the third
    // false too, and the fourth true.
    Beliefs {
        text: "context c classical { p. p -> q. q. r. s. ~r. q & p. }",
        places: 0b10001,
        follow: &[true, false, false, false, true],
    },
];

/// Whether just those of the formulas after the first two follow from these that are said to, with
/// what shows it of each.
pub(crate) fn are_believed(
    alloc: Global,
    formulas: &[Formula],
    atoms: &[Name],
    said: &Beliefs,
) -> Result<bool, Memory> {
    if formulas.len() < 2 || formulas.len() > 66 {
        return Ok(false);
    }
    let (kb, beliefs) = formulas.split_at(2);
    if !may_be_asked(kb, atoms) || !are_over(atoms, beliefs) {
        return Ok(false);
    }
    let (state, certificate) = outputs(alloc, kb, beliefs, atoms)?;
    let are_shown = are_shown(&certificate.entails, said.follow);
    drop(certificate);
    Ok(are_shown && state == Vars::numbered(said.places) && beliefs.len() == said.follow.len())
}

#[test]
fn what_follows_is_believed(rt: HostRuntime) {
    for said in &BELIEFS {
        assert!(rt; holds(rt.alloc(), said.text.as_bytes(), &Claim::AreBelieved(said)));
    }
}
