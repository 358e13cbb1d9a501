//! The files of a job: the system in a text, the bytes of a report, and the edits of a script.

ghost use Rattle.std.specs.Prelude.{◌≡◌, ◌≤◌, [], ◌∷◌, length, map, IfSome, IfOk, IfErr};
ghost use Rattle.mcs_ports.specs.Causes.{Rose};
ghost use Rattle.mcs_script.specs.Seen.{edit_of};
ghost use Rattle.mcs_listing.specs.Jobs.{told_all, OfOneFile};
ghost use Rattle.mcs_proof_text.specs.Reports.{most_report_bytes};
ghost use Rattle.mcs_reduct.specs.Plain.{IsPlain, IsLowestNotPlain};
ghost use Rattle.mcs_work.specs.Tasks.{IsDefinedFor};
ghost use Rattle.mcs_listing.specs.Texts.{most_text_bytes, IsTextOf, IsPlainTextOf, IsTextFor};
ghost use Rattle.mcs_listing.specs.Texts.{IsNotPlainAt, IsScriptIn, IsScriptOf};
ghost use Rattle.mcs_listing.specs.Texts.{most_script_bytes};
ghost use Rattle.mcs_listing.specs.Texts.{IsRefusedFor, IsRefusedPlain, IsRefusedTask};
ghost use Rattle.mcs_listing.specs.Texts.{IsRefusedScript};
ghost use Rattle.mcs_listing.specs.Texts.{StopsReading, StopsReport, StopsText};

use crate::ending::{Refusal, Stop, stop_for_script};
use mcs_base::Memory;
use mcs_language::read_system;
use mcs_ports::{ReadAnswer, Shelf, read_whole};
use mcs_reduct::not_plain;
use mcs_script::{Edit, read_script};
use mcs_system::{Name, System};
use mcs_work::Task;
use std::alloc::Global;

/// The greatest length of a system text, in bytes.
const MOST_TEXT_BYTES: usize = 1_048_576;

/// The greatest length of a report, in bytes.
const MOST_REPORT_BYTES: usize = 268_435_456;

/// The greatest length of a script, in bytes.
const MOST_SCRIPT_BYTES: usize = 1_048_576;

/// The system whose text is in the file.
pub fn system_in<H: Shelf>(alloc: Global, file: &str, shelf: &mut H) -> Result<System, Stop>
    ensures later { H.faults shelf.old ≤ H.faults shelf.new }
    ensures failures_later { H.failures shelf.old ≤ H.failures shelf.new }
    ensures held { H.held shelf.new ≡ H.held shelf.old }
    ensures system { IfOk result (λ system. IfSome (told_all (H.held shelf.old) (file.now ∷ []))
        (OfOneFile (IsTextOf system))) }
    ensures stop { IfErr result (λ stop. StopsReading IsRefusedFor stop
        (Rose (H.faults shelf.old) (H.faults shelf.new))
        (Rose (H.failures shelf.old) (H.failures shelf.new))
        (told_all (H.held shelf.old) (file.now ∷ []))) }
{
    let bytes = match read_whole(alloc, shelf, file, MOST_TEXT_BYTES) {
        Ok(bytes) => bytes,
        Err(ReadAnswer::Fault) => return Err(Stop::ReadFault),
        Err(ReadAnswer::TooLong) => return Err(Stop::Refused(Refusal::TooLong)),
        Err(ReadAnswer::Memory) => return Err(Stop::Memory),
    };
    system_of(alloc, &bytes)
}

/// The system whose text these bytes are, or why they are none.
fn system_of(alloc: Global, bytes: &[u8]) -> Result<System, Stop>
    requires { length bytes.now ≤ most_text_bytes }
    ensures system { IfOk result (λ system. IsTextOf system bytes.now) }
    ensures stop { IfErr result (λ stop. StopsText IsRefusedFor stop bytes.now) }
{
    Ok(read_system(alloc, bytes)?)
}

/// The system whose text is in the file, if the task is defined for it.
pub fn system_for<H: Shelf>(
    alloc: Global,
    task: Task,
    file: &str,
    shelf: &mut H,
) -> Result<System, Stop>
    ensures later { H.faults shelf.old ≤ H.faults shelf.new }
    ensures system { IfOk result (λ system. IfSome (told_all (H.held shelf.old) (file.now ∷ []))
        (OfOneFile (IsTextFor task system))) }
    ensures defined { IfOk result (IsDefinedFor task) }
    ensures stop { IfErr result (λ stop. StopsReading (IsRefusedTask task) stop
        (Rose (H.faults shelf.old) (H.faults shelf.new))
        (Rose (H.failures shelf.old) (H.failures shelf.new))
        (told_all (H.held shelf.old) (file.now ∷ []))) }
{
    match task {
        Task::Equilibria | Task::Solve | Task::Cheapest | Task::Make => {
            system_in(alloc, file, shelf)
        }
        Task::Grounded => plain_system_in(alloc, file, shelf),
    }
}

/// The system whose text is in the file, if it is plain.
fn plain_system_in<H: Shelf>(alloc: Global, file: &str, shelf: &mut H) -> Result<System, Stop>
    ensures later { H.faults shelf.old ≤ H.faults shelf.new }
    ensures system { IfOk result (λ system. IfSome (told_all (H.held shelf.old) (file.now ∷ []))
        (OfOneFile (IsPlainTextOf system))) }
    ensures plain { IfOk result IsPlain }
    ensures stop { IfErr result (λ stop. StopsReading IsRefusedPlain stop
        (Rose (H.faults shelf.old) (H.faults shelf.new))
        (Rose (H.failures shelf.old) (H.failures shelf.new))
        (told_all (H.held shelf.old) (file.now ∷ []))) }
{
    let system = system_in(alloc, file, shelf)?;
    if let Some(context) = not_plain(&system) {
        let name = name_of(alloc, &system, context)?;
        return Err(Stop::Refused(Refusal::NotPlain(name)));
    }
    Ok(system)
}

/// The name of the context, which has to be the lowest one that is not plain.
fn name_of(alloc: Global, system: &System, context: u32) -> Result<Name, Memory>
    requires { IsLowestNotPlain system.now context }
    ensures { IfOk result (λ name. IsNotPlainAt name system.now) }
{
    system.contexts()[context as usize].name.copy(alloc)
}

/// The bytes of the report in the file.
pub fn report_in<H: Shelf>(alloc: Global, file: &str, shelf: &mut H) -> Result<Vec<u8>, Stop>
    ensures later { H.faults shelf.old ≤ H.faults shelf.new }
    ensures few { IfOk result (λ bytes. length bytes.items ≤ most_report_bytes) }
    ensures bytes { IfOk result (λ bytes. IfSome (told_all (H.held shelf.old) (file.now ∷ []))
        (OfOneFile (λ told. told ≡ bytes.items))) }
    ensures stop { IfErr result (λ stop. StopsReport stop
        (Rose (H.faults shelf.old) (H.faults shelf.new))
        (Rose (H.failures shelf.old) (H.failures shelf.new))
        (told_all (H.held shelf.old) (file.now ∷ []))) }
{
    match read_whole(alloc, shelf, file, MOST_REPORT_BYTES) {
        Ok(bytes) => Ok(bytes),
        Err(ReadAnswer::Fault) => Err(Stop::ReadFault),
        Err(ReadAnswer::TooLong) => Err(Stop::Refused(Refusal::ReportTooLong)),
        Err(ReadAnswer::Memory) => Err(Stop::Memory),
    }
}

/// The edits of the system whose script is in the file.
pub fn script_in<H: Shelf>(
    alloc: Global,
    file: &str,
    system: &System,
    shelf: &mut H,
) -> Result<Vec<Edit>, Stop>
    ensures later { H.faults shelf.old ≤ H.faults shelf.new }
    ensures script { IfOk result (λ edits. IsScriptIn system.now
        (told_all (H.held shelf.old) (file.now ∷ [])) (map edit_of edits.items)) }
    ensures stop { IfErr result (λ stop. StopsReading (IsRefusedScript system.now) stop
        (Rose (H.faults shelf.old) (H.faults shelf.new))
        (Rose (H.failures shelf.old) (H.failures shelf.new))
        (told_all (H.held shelf.old) (file.now ∷ []))) }
{
    let bytes = match read_whole(alloc, shelf, file, MOST_SCRIPT_BYTES) {
        Ok(bytes) => bytes,
        Err(ReadAnswer::Fault) => return Err(Stop::ReadFault),
        Err(ReadAnswer::TooLong) => return Err(Stop::Refused(Refusal::ScriptTooLong)),
        Err(ReadAnswer::Memory) => return Err(Stop::Memory),
    };
    edits_of(alloc, &bytes, system)
}

/// The edits of the system that these bytes are the script of, or why they are none.
fn edits_of(alloc: Global, bytes: &[u8], system: &System) -> Result<Vec<Edit>, Stop>
    requires { length bytes.now ≤ most_script_bytes }
    ensures script { IfOk result
        (λ edits. IsScriptOf system.now (map edit_of edits.items) bytes.now) }
    ensures stop { IfErr result
        (λ stop. StopsText (IsRefusedScript system.now) stop bytes.now) }
{
    match read_script(alloc, bytes, system) {
        Ok(edits) => Ok(edits),
        Err(fault) => Err(stop_for_script(fault)),
    }
}
