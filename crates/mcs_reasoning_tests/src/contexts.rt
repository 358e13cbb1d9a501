//! What the tests of formulas claim of a text of one context.

ghost use Rattle.std.specs.Prelude.{◌≡◌, ◌≤◌, false, length, map, IsTrue};
ghost use Rattle.mcs_system.specs.Faults.{has_twins};
ghost use Rattle.mcs_system.specs.Seen.{formula_of};
ghost use Rattle.mcs_cnf.specs.ClauseLists.{AreOver};

use crate::consequences::are_kept;
use crate::entailments::{Beliefs, are_believed, follow};
use crate::formulas::{are_all_stated, are_refuted, has_size};
use crate::meanings::{Meant, are_all_meant};
use crate::questions::are_asked_by_level;
use crate::satisfying::two_hold;
use mcs_cnf::{are_different, are_over};
use mcs_language::read_system;
use mcs_system::{Context, Formula, Kb, Name, System};
use std::alloc::Global;
use std::sync::Arc;

/// The system that the text spells, if there is memory for it.
pub(crate) fn system_of(alloc: Global, text: &[u8]) -> Option<Arc<System>> {
    match read_system(alloc, text) {
        Ok(system) => Arc::new(alloc, system).ok(),
        Err(_) => None,
    }
}

/// What a test claims of a system, of the formulas of its only context and their atoms.
#[derive(Drop)]
pub(crate) enum Claim {
    /// What follows from two of them is found, and found again.
    AreKept,
    /// Of two goals one follows from the first two of them.
    Follow,
    /// This follows from the first two of them.
    AreBelieved(&'static Beliefs),
    /// Each has its clauses.
    AreStated,
    /// Each has the clauses in its row, which mean it.
    AreMeant(&'static [Meant]),
    /// Two of them contradict each other.
    AreRefuted,
    /// The only one's negation has so many variables and clauses.
    HasSize(u64, usize),
    /// Two of three hold together.
    TwoHold,
    /// Its second context is asked by level.
    AreAsked,
}

impl Claim {
    /// Whether it is so of the system.
    fn is_so(&self, alloc: Global, system: &System) -> bool {
        let (formulas, atoms) = (formulas_of(system), atoms_of(system));
        match self {
            Claim::AreKept => are_kept(alloc, formulas, atoms) == Ok(true),
            Claim::Follow => follow(alloc, formulas, atoms) == Ok(true),
            Claim::AreBelieved(said) => are_believed(alloc, formulas, atoms, said) == Ok(true),
            Claim::AreStated => are_all_stated(alloc, formulas, atoms) == Ok(true),
            Claim::AreMeant(rows) => are_all_meant(alloc, formulas, atoms, rows),
            Claim::AreRefuted => are_refuted(alloc, formulas, atoms) == Ok(true),
            Claim::HasSize(vars, count) => {
                has_size(alloc, formulas, atoms, *vars, *count) == Ok(true)
            }
            Claim::TwoHold => two_hold(alloc, formulas, atoms),
            Claim::AreAsked => are_asked_by_level(alloc, system),
        }
    }
}

/// Whether the text spells a system of which it is so.
pub(crate) fn holds(alloc: Global, text: &[u8], claim: &Claim) -> bool {
    let Some(system) = system_of(alloc, text) else {
        return false;
    };
    let is_so = claim.is_so(alloc, &system);
    drop(system);
    is_so
}

/// The formulas of the system's only context.
fn formulas_of(system: &System) -> &[Formula] {
    match system.contexts() {
        [
            Context {
                kb: Kb::Classical(formulas),
                ..
            },
        ] => formulas.as_slice(),
        _ => &[],
    }
}

/// The atoms of the system's only context.
fn atoms_of(system: &System) -> &[Name] {
    if system.contexts().len() == 1 {
        system.atoms_of(0)
    } else {
        &[]
    }
}

/// Whether questions may be asked of the formulas over the atoms: these are few and different, and
/// the formulas have no others.
pub(crate) fn may_be_asked(formulas: &[Formula], atoms: &[Name]) -> bool
    ensures { IsTrue result
        → (length atoms.now ≤ 64) × (has_twins atoms.now ≡ false)
        × AreOver atoms.now (map formula_of formulas.now) }
{
    atoms.len() <= 64 && are_different(atoms) && are_over(atoms, formulas)
}
