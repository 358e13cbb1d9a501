//! A session: edit by edit, and listing by listing.

ghost use Rattle.std.specs.Prelude.{◌≡◌, ◌+◌, ◌<◌, ◌≤◌, ◌^◌, [], IfErr, IfOk};
ghost use Rattle.std.specs.Prelude.{Some, false, length, map, slice_get, List};
ghost use Rattle.std.specs.List.{AllByRecursion};
ghost use Rattle.mcs_ports.specs.Causes.{Rose};
ghost use Rattle.mcs_system.specs.Plain as plain;
ghost use Rattle.mcs_script.specs.Seen.{edit_of};
ghost use Rattle.mcs_listing.specs.Listings.{UsesSink};
ghost use Rattle.mcs_editing.specs.Course.{HasListedNext, IsReady, StopsNext, is_listed};
ghost use Rattle.mcs_editing.specs.Listed.{listed_systems};
ghost use Rattle.mcs_editing.specs.Sessions.{CanList, ListsSystems};

use crate::lines::{print_answers_line, print_end_line, print_list_line};
use crate::solving::solve;
use mcs_listing::Stop;
use mcs_ports::{Gate, Sink};
use mcs_script::Edit;
use mcs_session::{Answers, Asker, Session};
use mcs_system::System;
use std::alloc::Global;

/// Whether a listing is asked for.
fn asks_for_listing(edit: &Edit) -> bool
    ensures { result ≡ is_listed (edit_of edit.now) }
{
    matches!(edit, Edit::List)
}

/// Prints the listing of the system of the session, before which there are `many`, with its lines.
fn list_next<A: Asker, K: Sink, G: Gate>(
    alloc: Global,
    session: &mut Session<A>,
    many: u64,
    budget: u64,
    sink: &mut K,
    gate: &G,
) -> Result<Answers, Stop>
    requires few { many + 1 < 2 ^ 64 }
    requires home { session.old.lent ≡ false }
    ensures sink { UsesSink (K.device sink.old) (K.device sink.new) result }
    ensures ok { IfOk result (λ answers. (systems : List plain.System)
        → IsReady systems many session.old → slice_get systems many ≡ Some session.old.system
        → HasListedNext budget systems many session.old session.new answers.new
        (K.device sink.old).written (K.device sink.new).written) }
    ensures stop { IfErr result (λ stop. (systems : List plain.System)
        → IsReady systems many session.old → slice_get systems many ≡ Some session.old.system
        → StopsNext stop budget systems many session.old.system
        (Rose (K.device sink.old).faults (K.device sink.new).faults) (K.device sink.old).written
        (K.device sink.new).written) }
{
    print_list_line(alloc, session.system(), many + 1, sink)?;
    let lent = session.lend(alloc)?;
    let back = solve(alloc, session.system(), lent, budget, sink, gate)?;
    let answers = session.give_back(back);
    print_answers_line(alloc, answers, sink)?;
    Ok(answers)
}

/// Prints the listings of a script, whose edits are edits of the system: for each `list` the line
/// with its number and that of the rules, the whole listing of the system as it then is, and how
/// many of its keys are new and how many were kept; and at last how many listings and keys there
/// were. The askers, one for each context, solve the questions whose keys are new. No level of a
/// listing may have more questions than the budget.
///
/// Stops if a level has more questions, if a write fails, or for want of memory. Then the contract
/// says how much was printed.
pub fn list_script<A: Asker, K: Sink, G: Gate>(
    alloc: Global,
    system: System,
    edits: &[Edit],
    askers: Vec<A>,
    budget: u64,
    sink: &mut K,
    gate: &G,
) -> Result<(), Stop>
    requires script { CanList system (map edit_of edits.now) }
    requires askers { length askers.items ≡ length system.contexts }
    requires unasked { AllByRecursion (λ a. A.journal a ≡ []) askers.items }
    ensures { ListsSystems budget (listed_systems system (map edit_of edits.now))
        (K.device sink.old) (K.device sink.new) result }
{
    let mut session = Session::new(alloc, system, askers)?;
    let mut lists = 0;
    let mut answers = 0;
    // The first edit after the last listing.
    let mut start = 0;
    for (place, edit) in edits.iter().enumerate() {
        if asks_for_listing(edit) {
            session.edit_all(alloc, &edits[start..place])?;
            let found = list_next(alloc, &mut session, lists, budget, sink, gate)?;
            lists += 1;
            answers += found.new;
            start = place + 1;
        }
    }
    print_end_line(alloc, lists, answers, sink)?;
    Ok(())
}
