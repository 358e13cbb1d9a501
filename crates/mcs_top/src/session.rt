//! A session of edits: from the two files to the listings that a script asks for.

ghost use Rattle.std.specs.Prelude.{◌≡◌, ◌≤◌, [], ◌∷◌, length, map, IfOk, IfErr};
ghost use Rattle.std.specs.List.{AllByRecursion};
ghost use Rattle.mcs_ports.specs.Causes.{Rose};
ghost use Rattle.mcs_script.specs.Seen.{edit_of};
ghost use Rattle.mcs_listing.specs.Jobs.{told_all};
ghost use Rattle.mcs_editing.specs.Sessions.{CanList};
ghost use Rattle.mcs_top.specs.Meaning.{session_job};
ghost use Rattle.mcs_top.specs.Promise.{DoesJob, as_done};
ghost use Rattle.mcs_top.specs.Scripts.{AreRead, StopsScript};

use mcs_base::Memory;
use mcs_editing::{SolverAsker, list_script};
use mcs_listing::{Stop, script_in, system_in};
use mcs_ports::{Gate, Shelf, Sink};
use mcs_script::Edit;
use mcs_session::Asker;
use mcs_system::System;
use std::alloc::Global;

/// Prints what the system whose text is in the file `file` has, wherever the script in the file
/// `script` asks for it, and edits it as the script says. No level of a listing may have more
/// questions than the budget. One thread does all.
pub(crate) fn list_session<H: Shelf, K: Sink, G: Gate>(
    alloc: Global,
    file: &str,
    script: &str,
    budget: u64,
    shelf: &mut H,
    sink: &mut K,
    gate: &G,
) -> Result<(), Stop>
    ensures { DoesJob (session_job file.now script.now budget) (H.held shelf.old)
        (H.faults shelf.old) (H.faults shelf.new) (H.failures shelf.old) (H.failures shelf.new)
        (K.device sink.old) (K.device sink.new) (as_done result) }
{
    let (system, edits) = system_and_edits(alloc, file, script, shelf)?;
    let askers = askers_for(alloc, &system)?;
    list_script(alloc, system, &edits, askers, budget, sink, gate)
}

/// The system whose text is in the file `file`, and the edits of it whose script is in the file
/// `script`.
fn system_and_edits<H: Shelf>(
    alloc: Global,
    file: &str,
    script: &str,
    shelf: &mut H,
) -> Result<(System, Vec<Edit>), Stop>
    ensures later { H.faults shelf.old ≤ H.faults shelf.new }
    ensures read { IfOk result (λ r. AreRead r.0 (map edit_of r.1.items)
        (told_all (H.held shelf.old) (file.now ∷ script.now ∷ []))) }
    ensures allowed { IfOk result (λ r. CanList r.0 (map edit_of r.1.items)) }
    ensures stop { IfErr result (λ stop. StopsScript stop
        (Rose (H.faults shelf.old) (H.faults shelf.new))
        (Rose (H.failures shelf.old) (H.failures shelf.new))
        (told_all (H.held shelf.old) (file.now ∷ script.now ∷ []))) }
{
    let system = system_in(alloc, file, shelf)?;
    let edits = script_in(alloc, script, &system, shelf)?;
    Ok((system, edits))
}

/// An asker with an empty journal for each context of the system.
fn askers_for(alloc: Global, system: &System) -> Result<Vec<SolverAsker>, Memory>
    ensures one_each { IfOk result (λ askers. length askers.items
        ≡ length system.now.contexts) }
    ensures unasked { IfOk result (λ askers. AllByRecursion
        (λ a. ⟦<SolverAsker as Asker>⟧.journal a ≡ []) askers.items) }
{
    let mut askers = Vec::new(alloc);
    for _ in 0..system.contexts().len() {
        askers.push(SolverAsker::new(alloc))?;
    }
    Ok(askers)
}
