//! Clauses over the parts of a formula, learnt in place of those over the whole.

ghost use Rattle.std.specs.Prelude.{◌≡◌, ◌<◌, length, IsTrue, IfOk, OnOk};
ghost use Rattle.std.specs.List.{AllByRecursion};
ghost use Rattle.mcs_trace.specs.Clauses.{IsClause};
ghost use Rattle.mcs_sat.specs.Flattening.{IsFlat};
ghost use Rattle.mcs_engine.specs.States.{IsFull};
ghost use Rattle.mcs_engine.specs.Stores.{IsGround, IsLaterGround};
ghost use Rattle.mcs_engine.specs.Trails.{AreCovered};

use mcs_base::{Memory, Rows};
use mcs_engine::{Pairs, State, Trail, fill, is_marked, mark};
use mcs_search::{attach_next, push_unwatched};
use mcs_trace::resolve;
use std::alloc::Global;
use std::mem;

/// The least number of literals of a clause that is learnt here.
const LEAST_LITERALS: usize = 3;

/// The greatest number of literals of a clause that is resolved further or learnt here.
const MOST_LITERALS: usize = 6;

/// The greatest number of clauses with which one clause is resolved.
const MOST_STEPS: usize = 64;

/// The clauses whose last literal is a given one: none, the one with this index, or several.
#[derive(Clone, Copy)]
enum Definition {
    None,
    One(usize),
    Several,
}

/// For each variable the clause with which one is resolved in which the variable is positive
/// (`if_true`), and the one for a negative occurrence (`if_false`).
#[derive(Drop)]
struct Definitions {
    if_true: Vec<Definition>,
    if_false: Vec<Definition>,
}

/// A clause, and the numbers of the clauses from which it was resolved.
#[derive(Drop)]
pub(crate) struct Flat {
    pub literals: Vec<i64>,
    pub chain: Vec<u64>,
}

/// The variables that were resolved away in learnt clauses, and the clauses from which these were
/// resolved.
#[derive(Drop)]
struct Resolved {
    variables: Vec<bool>,
    clauses: Vec<bool>,
}

/// Records the clause with this index as one more that defines the variable.
fn note(side: &mut Vec<Definition>, variable: usize, index: usize) -> Result<(), Memory> {
    fill(side, variable, Definition::None)?;
    if let Some(here) = side.get_mut(variable) {
        *here = match *here {
            Definition::None => Definition::One(index),
            _ => Definition::Several,
        };
    }
    Ok(())
}

impl Definitions {
    /// Records that the clause with this index has the literal as its last one.
    fn add(&mut self, literal: i64, index: usize) -> Result<(), Memory> {
        let variable = literal.unsigned_abs() as usize;
        if literal < 0 {
            note(&mut self.if_true, variable, index)
        } else {
            note(&mut self.if_false, variable, index)
        }
    }

    /// The index of the clause whose last literal is the negation of this one, if it is the only
    /// one.
    fn of(&self, literal: i64) -> Option<usize> {
        let side = if literal > 0 {
            &self.if_true
        } else {
            &self.if_false
        };
        match side.get(literal.unsigned_abs() as usize) {
            Some(Definition::One(index)) => Some(*index),
            _ => None,
        }
    }
}

impl Resolved {
    /// Records that the clause with this index was resolved with others on its last literal. The
    /// variable of this literal was resolved away, if it has no value.
    fn note_definition(
        &mut self,
        clauses: &Rows<i64>,
        trail: &Trail,
        index: usize,
    ) -> Result<(), Memory>
        requires { index < length clauses.now }
    {
        if let Some(last) = clauses.row(index).last()
            && !has_value(trail, *last)
        {
            mark(&mut self.variables, last.unsigned_abs() as usize)?;
        }
        mark(&mut self.clauses, index)
    }

    /// Records that a clause was learnt from those with these numbers.
    fn note(&mut self, clauses: &Rows<i64>, trail: &Trail, chain: &[u64]) -> Result<(), Memory> {
        let Some((first, others)) = chain.split_first() else {
            return Ok(());
        };
        mark(&mut self.clauses, first.saturating_sub(1) as usize)?;
        for number in others {
            let index = number.saturating_sub(1) as usize;
            if index < clauses.len() {
                self.note_definition(clauses, trail, index)?;
            }
        }
        Ok(())
    }

    /// If the clause with this index was not resolved, and does not define a variable that was
    /// resolved away, its variables do not count as resolved away.
    fn spare(&mut self, clauses: &Rows<i64>, index: usize)
        requires { index < length clauses.now }
    {
        let literals = clauses.row(index);
        let Some(last) = literals.last() else {
            return;
        };
        if is_marked(&self.clauses, index)
            || is_marked(&self.variables, last.unsigned_abs() as usize)
        {
            return;
        }
        for literal in literals {
            if let Some(here) = self.variables.get_mut(literal.unsigned_abs() as usize) {
                *here = false;
            }
        }
    }

    /// The variables that were resolved away from all clauses, from the index `from` on, in which
    /// they occur, except their definitions. The clauses of a whole formula come after those of its
    /// parts.
    fn variables_of(mut self, clauses: &Rows<i64>, pairs: &Pairs, from: usize) -> Vec<bool>
        requires { length pairs.now ≡ length clauses.now }
    {
        let mut index = pairs.len();
        while index > from {
            index -= 1;
            if pairs.get(index).first != 0 {
                self.spare(clauses, index);
            }
        }
        let Resolved { variables, clauses } = self;
        drop(clauses);
        variables
    }
}

/// The definitions of the variables in the clauses from the index `from` on that watch something.
fn definitions_of(
    alloc: Global,
    clauses: &Rows<i64>,
    pairs: &Pairs,
    from: usize,
) -> Result<Definitions, Memory>
    requires { length pairs.now ≡ length clauses.now }
{
    let mut definitions = Definitions {
        if_true: Vec::new(alloc),
        if_false: Vec::new(alloc),
    };
    for index in from..pairs.len() {
        if pairs.get(index).first != 0
            && let Some(last) = clauses.row(index).last()
        {
            definitions.add(*last, index)?;
        }
    }
    Ok(definitions)
}

/// Whether the literal is true or false.
fn has_value(trail: &Trail, literal: i64) -> bool {
    if let Some(position) = trail.positions.get(literal.unsigned_abs() as usize)
        && let Some(entry) = trail.entries.get(*position)
    {
        entry.literal.unsigned_abs() == literal.unsigned_abs()
    } else {
        false
    }
}

/// The index of the clause that is the reason for the negation of the literal, if this is true for
/// a reason.
fn refuted_by(trail: &Trail, literal: i64) -> Option<usize> {
    let position = trail.positions.get(literal.unsigned_abs() as usize)?;
    let entry = trail.entries.get(*position)?;
    if entry.literal.checked_neg()? == literal {
        Some(entry.reason.checked_sub(1)? as usize)
    } else {
        None
    }
}

/// The index of the clause with which this one is resolved next: the reason for one of its literals
/// being false, or the definition of one.
fn next_clause(trail: &Trail, definitions: &Definitions, literals: &[i64]) -> Option<usize> {
    for literal in literals {
        let found = refuted_by(trail, *literal).or(definitions.of(*literal));
        if found.is_some() {
            return found;
        }
    }
    None
}

/// Resolves the clause with the next one. Returns whether there is one.
fn resolve_next(
    clauses: &Rows<i64>,
    trail: &Trail,
    definitions: &Definitions,
    flat: &mut Flat,
    spare: &mut Vec<i64>,
) -> Result<bool, Memory>
    requires clauses { AllByRecursion IsClause clauses.now }
    requires flat { IsFlat clauses.now flat.old }
    ensures { OnOk result (IsFlat clauses.now flat.new) }
{
    let Some(next) = next_clause(trail, definitions, &flat.literals) else {
        return Ok(false);
    };
    if next >= clauses.len() || flat.literals.len() > MOST_LITERALS {
        return Ok(false);
    }
    if !resolve(&flat.literals, clauses.row(next), spare)? {
        return Ok(false);
    }
    flat.chain.push(next as u64 + 1)?;
    mem::swap(&mut flat.literals, spare);
    Ok(true)
}

/// The clause that results from resolving the clause with this index with the reasons for its false
/// literals, and with the definitions of the literals that are left.
fn flat_of(
    alloc: Global,
    clauses: &Rows<i64>,
    trail: &Trail,
    definitions: &Definitions,
    index: usize,
) -> Result<Flat, Memory>
    requires clauses { AllByRecursion IsClause clauses.now }
    requires within { index < length clauses.now }
    ensures { IfOk result (IsFlat clauses.now) }
{
    let mut flat = Flat {
        literals: Vec::new(alloc),
        chain: Vec::new(alloc),
    };
    prove!(index < clauses.len());
    flat.chain.push(index as u64 + 1)?;
    flat.literals.extend_from_slice(clauses.row(index))?;
    let mut spare = Vec::new(alloc);
    for _ in 0..MOST_STEPS {
        if !resolve_next(clauses, trail, definitions, &mut flat, &mut spare)? {
            return Ok(flat);
        }
    }
    Ok(flat)
}

/// Whether the variables of the clause have an entry for their place on the trail.
fn are_covered(trail: &Trail, literals: &[i64]) -> bool
    requires { IsClause literals.now }
    ensures { IsTrue result → AreCovered trail.now.positions.items literals.now }
{
    literals.iter().all(|literal| (literal.unsigned_abs() as usize) < trail.positions.len())
}

/// Learns the clause, at level 0, if it is neither short nor long. Short ones are not learnt, so
/// that unit propagation goes through the whole formulas. Returns whether it is learnt.
fn learn_flat(state: &mut State, flat: &Flat) -> Result<bool, Memory>
    requires ground { IsGround state.old }
    requires full { IsFull state.old }
    requires flat { IsFlat state.old.clauses flat.now }
    ensures later { IsLaterGround state.old state.new }
    ensures full { OnOk result (IsFull state.new) }
{
    let size = flat.literals.len();
    if flat.chain.len() < 2 || size < LEAST_LITERALS || size > MOST_LITERALS {
        return Ok(false);
    }
    if !are_covered(&state.trail, &flat.literals) {
        return Ok(false);
    }
    push_unwatched(state, &flat.literals, &flat.chain)?;
    attach_next(state)?;
    Ok(true)
}

/// Whether the clause with this index watches something, and one of its literals is false.
fn is_shorter(state: &State, index: usize) -> bool
    requires within { index < length state.now.clauses }
    requires paired { index < length state.now.watches.pairs }
{
    state.watches.pairs.get(index).first != 0
        && state
            .clauses
            .row(index)
            .iter()
            .any(|literal| refuted_by(&state.trail, *literal).is_some())
}

/// Learns what the clause with this index is resolved to, if one of its literals is false.
fn flatten(
    state: &mut State,
    definitions: &Definitions,
    resolved: &mut Resolved,
    index: usize,
) -> Result<(), Memory>
    requires ground { IsGround state.old }
    requires full { IsFull state.old }
    requires within { index < length state.old.clauses }
    ensures later { IsLaterGround state.old state.new }
    ensures full { OnOk result (IsFull state.new) }
{
    if !is_shorter(state, index) {
        return Ok(());
    }
    let alloc = *state.levels.allocator();
    let flat = flat_of(alloc, &state.clauses, &state.trail, definitions, index)?;
    let noted = match learn_flat(state, &flat) {
        Ok(true) => resolved.note(&state.clauses, &state.trail, &flat.chain),
        Ok(false) => Ok(()),
        Err(error) => Err(error),
    };
    drop(flat);
    noted
}

/// Does this for each clause from the index `from` on that is there at the call.
fn flatten_each(
    state: &mut State,
    definitions: &Definitions,
    resolved: &mut Resolved,
    from: usize,
) -> Result<(), Memory>
    requires ground { IsGround state.old }
    requires full { IsFull state.old }
    ensures later { IsLaterGround state.old state.new }
    ensures full { OnOk result (IsFull state.new) }
{
    let count = state.clauses.len();
    for index in from..count {
        flatten(state, definitions, resolved, index)?;
    }
    Ok(())
}

/// Learns clauses over the parts of the formulas whose clauses are those from the index `from` on.
/// Each such clause with a false literal is resolved with the reasons for its false literals, and
/// then with the definitions of those that are left, one after the other, on their last literals.
/// So what a formula says of its parts is found without the Tseitin variables of its parts. Returns
/// marks for the variables that are then no longer needed to find it; there are none if nothing is
/// learnt.
pub(crate) fn flatten_from(state: &mut State, from: usize) -> Result<Vec<bool>, Memory>
    requires ground { IsGround state.old }
    requires full { IsFull state.old }
    ensures later { IsLaterGround state.old state.new }
    ensures full { OnOk result (IsFull state.new) }
{
    let alloc = *state.levels.allocator();
    let definitions = definitions_of(alloc, &state.clauses, &state.watches.pairs, from)?;
    let mut resolved = Resolved {
        variables: Vec::new(alloc),
        clauses: Vec::new(alloc),
    };
    let flattened = flatten_each(state, &definitions, &mut resolved, from);
    drop(definitions);
    match flattened {
        Ok(()) => Ok(resolved.variables_of(&state.clauses, &state.watches.pairs, from)),
        Err(error) => {
            drop(resolved);
            Err(error)
        }
    }
}
