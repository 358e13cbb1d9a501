//! The views of all models of what is known, found by splitting on one belief after the other.

ghost use Rattle.std.specs.Prelude.{◌≡◌, ◌≤◌, List, length, IfOk, OnOk};
ghost use Rattle.mcs_system.specs.Plain as plain;
ghost use Rattle.mcs_program.specs.Asked.{program_names, program_beliefs};
ghost use Rattle.mcs_meant.specs.Meanings.{AreMeantBy};
ghost use Rattle.mcs_program.specs.Splitting.{AgreeWith, AreModelViews, AreModelViewsAdded};
ghost use Rattle.mcs_program.specs.Splitting.{IsModelView, IsViewFoundFor};

use crate::answer::find_model;
use crate::atom_clauses::push_value;
use crate::placed::PlacedProgram;
use crate::view::view_of;
use mcs_base::{Memory, Vars, list_states};
use mcs_sat::ClauseBase;
use std::alloc::Global;

/// The view of a model of what is known, or `None` if there is none. `known` is unchanged.
fn find_view(known: &mut ClauseBase, placed: &PlacedProgram<'_>) -> Result<Option<Vars>, Memory>
    requires { length (program_names placed.now.program.now) ≤ known.old.vars }
    ensures same { known.new ≡ known.old }
    ensures found { IfOk result (λ found. (fs : List plain.Formula)
        → AreMeantBy (program_names placed.now.program.now) fs known.old
        → IsViewFoundFor (program_names placed.now.program.now)
        (program_beliefs placed.now.program.now) fs found) }
{
    match find_model(known, placed.program)? {
        Some(model) => Ok(Some(view_of(placed, model))),
        None => Ok(None),
    }
}

/// Adds the views of all models of what is known. `view` is that of one of them, and all of them
/// agree with it on the first `decided` beliefs. The next belief is then given either value: the
/// one that it has in `view`, without a search, and the other one, if a search finds a model.
fn add_views(
    known: &mut ClauseBase,
    placed: &PlacedProgram<'_>,
    view: Vars,
    decided: usize,
    views: &mut Vec<Vars>,
) -> Result<(), Memory>
    requires room { length (program_names placed.now.program.now) ≤ known.old.vars }
    requires decided { decided ≤ length placed.now.program.now.beliefs.now }
    ensures same { OnOk result (known.new ≡ known.old) }
    ensures added { OnOk result ((fs : List plain.Formula)
        → AreMeantBy (program_names placed.now.program.now) fs known.old
        → IsModelView (program_names placed.now.program.now)
        (program_beliefs placed.now.program.now) fs view
        → AgreeWith (program_beliefs placed.now.program.now) fs view decided
        → AreModelViewsAdded (program_names placed.now.program.now)
        (program_beliefs placed.now.program.now) fs views.old.items views.new.items) }
{
    let beliefs = placed.program.beliefs;
    if decided == beliefs.len() {
        views.push(view)?;
        return Ok(());
    }
    let belief = beliefs[decided];
    let value = view.has(decided as u32);
    let vars = known.vars();
    let count = known.count();
    push_value(known, placed.program, belief, value)?;
    add_views(known, placed, view, decided + 1, views)?;
    known.cut(vars, count);
    push_value(known, placed.program, belief, !value)?;
    if let Some(other) = find_view(known, placed)? {
        add_views(known, placed, other, decided + 1, views)?;
    }
    known.cut(vars, count);
    Ok(())
}

/// Lists the views of all models of what is known.
pub(crate) fn list_views(
    alloc: Global,
    known: &mut ClauseBase,
    placed: &PlacedProgram<'_>,
) -> Result<Vec<Vars>, Memory>
    requires { length (program_names placed.now.program.now) ≤ known.old.vars }
    ensures { IfOk result (λ views. (fs : List plain.Formula)
        → AreMeantBy (program_names placed.now.program.now) fs known.old
        → AreModelViews (program_names placed.now.program.now)
        (program_beliefs placed.now.program.now) fs views.items) }
{
    let mut views = Vec::new(alloc);
    if let Some(view) = find_view(known, placed)? {
        add_views(known, placed, view, 0, &mut views)?;
    }
    list_states(&mut views);
    Ok(views)
}
