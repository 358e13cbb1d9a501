//! Views that are inserted among others.

ghost use Rattle.std.specs.Prelude.{◌≤◌, length, IfOk};
ghost use Rattle.mcs_sets.specs.Orders.{StateBefore};
ghost use Rattle.mcs_base.specs.Listings.{IsAscending};
ghost use Rattle.mcs_program.specs.Asked.{program_names, program_beliefs};
ghost use Rattle.mcs_program.specs.Searches.{IsViewPlaced};

use crate::atom_clauses::push_other;
use crate::placed::PlacedProgram;
use crate::view::{place_of, view_of};
use mcs_base::{Memory, Vars};
use mcs_sat::ClauseBase;
use std::alloc::Global;

/// Inserts the view of the model among the views, and adds that the remaining models have another
/// one. Returns its index.
pub(crate) fn put_view(
    alloc: Global,
    known: &mut ClauseBase,
    views: &mut Vec<Vars>,
    placed: &PlacedProgram<'_>,
    model: Vars,
) -> Result<usize, Memory>
    requires room { length (program_names placed.now.program.now) ≤ known.old.vars }
    requires ascending { IsAscending StateBefore views.old.items }
    ensures { IfOk result (λ place. IsViewPlaced (program_names placed.now.program.now)
        (program_beliefs
        placed.now.program.now) model place known.old views.old.items known.new views.new.items) }
{
    let view = view_of(placed, model);
    push_other(alloc, known, placed.program, view)?;
    let place = place_of(views, view);
    views.insert(place, view)?;
    Ok(place)
}
