//! What a node keeps of a round.

ghost use Rattle.std.specs.Prelude.{◌≡◌, ◌<◌, ◌≤◌, ◌↔◌, ℕ, List, IfOk, IfSome, IfNone, IsTrue};
ghost use Rattle.std.specs.Prelude.{Some, true, [], map, length, slice_get, vec_capacity};
ghost use Rattle.std.specs.Arc.{arc_value};
ghost use Rattle.mcs_base.specs.Listings.{IsAmong, IsListing};
ghost use Rattle.mcs_system.specs.Imports.{IsImportOrder, supplied};
ghost use Rattle.mcs_system.specs.Levels.{IsQuestionAt};
ghost use Rattle.mcs_node.specs.declared.round.Stage.TheVariants.{Done, Stopped};
ghost use Rattle.mcs_node.specs.Keeping.{IsBegun, IsReady, by_itself_in, done_in, froms, halt_in};
ghost use Rattle.mcs_node.specs.Keeping.{level_done};

use crate::shared::owners;
use mcs_base::{Active, Memory, Vars};
use mcs_import::{Plan, questions};
use mcs_states::Halt;
use std::alloc::Global;
use std::sync::Arc;

/// A letter that was had, but for what it said.
#[derive(Drop)]
pub(crate) struct Had {
    pub from: u32,
    pub stop: bool,
}

/// Where a node is in a round that it has begun.
#[derive(Drop)]
pub(crate) enum Stage {
    /// It waits for letters, or for its grant.
    Waits,
    /// It was granted this total, and all questions to its context were asked.
    Done {
        total: u64,
    },
    /// It stopped, after this grant if there was one, by itself or by a letter.
    Stopped {
        granted: Option<u64>,
        halt: Halt,
        by_itself: bool,
    },
}

/// What a node keeps of the round that it has begun.
#[derive(Drop)]
pub(crate) struct InRound {
    pub level: u32,
    // The letters had, in order.
    pub had: Vec<Had>,
    // For each context that supplies this one, in import order, what it told.
    pub told: Vec<Arc<Vec<Vars>>>,
    // The questions of the level, once every supply was had.
    pub questions: Vec<Active>,
    pub stage: Stage,
    // One for each letter that was not handed out yet: those to the first of the receivers.
    pub envelopes: Vec<Arc<Plan>>,
    // What is put into them, once the node is done: one list, which they share.
    pub copies: Vec<Arc<Vec<Vars>>>,
}

impl InRound {
    /// Whether the node is done.
    pub fn is_done(&self) -> bool
        ensures { result ≡ done_in self.now.stage }
    {
        match &self.stage {
            Stage::Done { .. } => true,
            _ => false,
        }
    }

    /// Why the node has stopped, if it has.
    pub fn halt(&self) -> Option<Halt>
        ensures { result ≡ halt_in self.now.stage }
    {
        match &self.stage {
            Stage::Stopped { halt, .. } => Some(*halt),
            _ => None,
        }
    }

    /// Whether it has stopped by itself.
    pub fn is_by_itself(&self) -> bool
        ensures { result ≡ by_itself_in self.now.stage }
    {
        match &self.stage {
            Stage::Stopped { by_itself, .. } => *by_itself,
            _ => false,
        }
    }

    /// The node stops by itself, after a grant.
    pub fn stop(&mut self, total: u64, halt: Halt)
        ensures { self.new ≡ record self.old { stage = Stopped (Some total) halt true } }
    {
        self.stage = Stage::Stopped {
            granted: Some(total),
            halt,
            by_itself: true,
        };
    }

    /// The node is done, and these lists of its supplies are put into the envelopes.
    pub fn finish(&mut self, total: u64, copies: Vec<Arc<Vec<Vars>>>)
        ensures { self.new ≡ record self.old { copies = copies; stage = Done total } }
    {
        self.copies = copies;
        self.stage = Stage::Done { total };
    }

    /// Whether it waits for its grant: every supply was had, and it has neither stopped nor been
    /// granted anything.
    pub fn is_ready(&self) -> bool
        ensures { IsTrue result ↔ IsReady self.now }
    {
        match &self.stage {
            Stage::Waits => self.had.len() == self.told.len(),
            _ => false,
        }
    }
}

/// So many owners of a list of no states.
fn no_lists(alloc: Global, count: usize) -> Result<Vec<Arc<Vec<Vars>>>, Memory>
    ensures { IfOk result (λ lists. length lists.items ≡ count) }
{
    let none = Arc::new(alloc, Vec::new(alloc))?;
    owners(alloc, &none, count)
}

/// The questions of the level to the context, where no context supplies it; else none as yet.
fn first_questions(
    alloc: Global,
    plan: &Plan,
    context: u32,
    level: u32,
    suppliers: &[u32],
) -> Result<Vec<Active>, Memory>
    requires in_range { context < length plan.now.contexts }
    requires suppliers { (order : List ℕ) → IsImportOrder plan.now order
        → suppliers.now ≡ supplied plan.now order context }
    ensures { IfOk result (λ sets. suppliers.now ≡ []
        → IsListing (IsQuestionAt plan.now level context) (λ a b. a < b) sets.items) }
{
    if suppliers.is_empty() {
        return questions(alloc, plan, context, &[], level);
    }
    Ok(Vec::new(alloc))
}

/// The round of the level of the context, as it begins: so many letters can be put out without want
/// of memory.
pub(crate) fn begun_round(
    alloc: Global,
    plan: &Arc<Plan>,
    context: u32,
    level: u32,
    letters: usize,
) -> Result<InRound, Memory>
    requires { context < length (arc_value plan.now).contexts }
    ensures { IfOk result (λ round. IsBegun (arc_value plan.now) context level letters round) }
{
    let suppliers = plan.supplied(context);
    Ok(InRound {
        level,
        had: Vec::with_capacity(alloc, suppliers.len())?,
        told: no_lists(alloc, suppliers.len())?,
        questions: first_questions(alloc, plan, context, level, suppliers)?,
        stage: Stage::Waits,
        envelopes: owners(alloc, plan, letters)?,
        copies: Vec::new(alloc),
    })
}

/// The greatest level at which a node is done, where that before its round was this one.
pub(crate) fn done_level(round: &Option<InRound>, before: Option<u32>) -> Option<u32>
    ensures { result ≡ level_done round.now before }
{
    match round {
        Some(round) if round.is_done() => Some(round.level),
        _ => before,
    }
}

/// Whether a letter of this context was had.
pub(crate) fn was_had(had: &[Had], from: u32) -> bool
    ensures { IsTrue result ↔ IsAmong from (froms had.now) }
{
    for letter in had {
        if letter.from == from {
            return true;
        }
    }
    false
}

/// The place of the context among these, if it is there.
pub(crate) fn place_of(contexts: &[u32], context: u32) -> Option<usize>
    ensures there { IfSome result (λ p. slice_get contexts.now p ≡ Some context) }
    ensures none { IfNone result (IsAmong context contexts.now → ⊥) }
{
    for place in 0..contexts.len() {
        if contexts[place] == context {
            return Some(place);
        }
    }
    None
}
