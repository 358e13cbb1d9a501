//! What a letter makes of a round.

ghost use Rattle.std.specs.Prelude.{◌≡◌, ◌<◌, ◌≤◌, ℕ, List, IfOk, IfSome, IfNone, map, length};
ghost use Rattle.std.specs.Prelude.{slice_get, slice_set, Some};
ghost use Rattle.mcs_base.specs.Listings.{IsListing};
ghost use Rattle.mcs_system.specs.Imports.{IsImportOrder, supplied};
ghost use Rattle.mcs_system.specs.Levels.{IsQuestionAt};
ghost use Rattle.mcs_import.specs.Plans.{AreSupplies};
ghost use Rattle.mcs_node.specs.Keeping.{AreToldAll, IsForRound, IsWorkedOut, MayTake, TookIn};
ghost use Rattle.mcs_node.specs.declared.round.Stage.TheVariants.{Waits};
ghost use Rattle.mcs_node.specs.Letters.{content_of, is_stop as is_stop_of, shared_states};

use crate::content::Content;
use crate::letter::Letter;
use crate::round::{Had, InRound, Stage, place_of, was_had};
use crate::shared::lists_of;
use mcs_base::{Active, Memory, Vars};
use mcs_import::{Plan, questions};
use mcs_states::Halt;
use std::alloc::Global;
use std::sync::Arc;

/// The place, among the contexts that supply this one, of the sender of a letter of this plan that
/// the round waits for.
pub(crate) fn awaited(plan: &Plan, context: u32, round: &InRound, letter: &Letter) -> Option<usize>
    requires in_range { context < length plan.now.contexts }
    requires same { letter.now.plan ≡ plan.now }
    ensures place { IfSome result (λ p. IsForRound plan.now context round.now letter.now
        × ((order : List ℕ) → IsImportOrder plan.now order
        → slice_get (supplied plan.now order context) p ≡ Some letter.now.from)) }
    ensures none { IfNone result (IsForRound plan.now context round.now letter.now → ⊥) }
{
    let of_round = letter.level() == round.level && letter.to() == context;
    if !of_round || was_had(&round.had, letter.from()) {
        return None;
    }
    place_of(plan.supplied(context), letter.from())
}

/// Whether the content is a stop.
fn is_stop(content: &Content) -> bool
    ensures { result ≡ is_stop_of (content_of content.now) }
{
    match content {
        Content::Supply(_) => false,
        Content::Stop(_) => true,
    }
}

/// The round has had a letter of this context, which is that at the place among those that supply
/// this one. A supply is kept at the place; where it was the last one, the questions are worked
/// out, and want of memory for them stops the node. A stop stops it, unless it stopped before.
pub(crate) fn take_in(
    alloc: Global,
    plan: &Plan,
    context: u32,
    round: &mut InRound,
    place: usize,
    from: u32,
    content: Content,
)
    requires { MayTake plan.now context place from (content_of content) round.old }
    ensures { TookIn plan.now context place from (content_of content) round.old round.new }
{
    let stop = is_stop(&content);
    round.had.push_reserved(Had { from, stop });
    let Stage::Waits = &round.stage else {
        return;
    };
    match content {
        Content::Stop(halt) => {
            round.stage = Stage::Stopped {
                granted: None,
                halt,
                by_itself: false,
            }
        }
        Content::Supply(states) => {
            keep(round, place, states);
            work_out(alloc, plan, context, round);
        }
    }
}

/// Keeps what was told at the place.
fn keep(round: &mut InRound, place: usize, states: Arc<Vec<Vars>>)
    requires { place < length round.old.told.items }
    ensures told { map shared_states round.new.told.items
        ≡ slice_set (map shared_states round.old.told.items) place (shared_states states) }
    ensures rest { round.new ≡ record round.old { told = round.new.told } }
{
    round.told[place] = states;
}

/// Works out the questions of the round, if every supply was had. Want of memory for them stops the
/// node.
fn work_out(alloc: Global, plan: &Plan, context: u32, round: &mut InRound)
    requires in_range { context < length plan.now.contexts }
    requires waits { round.old.stage ≡ Waits }
    requires told { length round.old.told.items ≤ length round.old.had.items
        → AreToldAll plan.now context round.old }
    ensures { IsWorkedOut plan.now context round.old round.new }
{
    if round.had.len() < round.told.len() {
        return;
    }
    match told_questions(alloc, plan, context, &round.told, round.level) {
        Ok(questions) => round.questions = questions,
        Err(Memory) => {
            round.stage = Stage::Stopped {
                granted: None,
                halt: Halt::Memory,
                by_itself: true,
            }
        }
    }
}

/// The questions of the level to the context, where this is what was told by those that supply it.
fn told_questions(
    alloc: Global,
    plan: &Plan,
    context: u32,
    told: &[Arc<Vec<Vars>>],
    level: u32,
) -> Result<Vec<Active>, Memory>
    requires in_range { context < length plan.now.contexts }
    requires supplied { (order : List ℕ) → IsImportOrder plan.now order
        → AreSupplies plan.now level (supplied plan.now order context)
        (map shared_states told.now) }
    ensures { IfOk result (λ sets. IsListing (IsQuestionAt plan.now level context)
        (λ a b. a < b) sets.items) }
{
    let lists = lists_of(alloc, told)?;
    questions(alloc, plan, context, &lists, level)
}
