//! A report on the system of a file: both files are read, and the report is checked.

ghost use Rattle.std.specs.Prelude.{◌≤◌, [], ◌∷◌, IfOk, IfErr};
ghost use Rattle.std.specs.Arc.{arc_value};
ghost use Rattle.mcs_ports.specs.Causes.{Rose};
ghost use Rattle.mcs_check.specs.Checked.{finding_in, HoldsAnswers};
ghost use Rattle.mcs_listing.specs.Jobs.{told_all};
ghost use Rattle.mcs_top.specs.Examining.{AreExamined, StopsExamining};

use mcs_check::{Checked, certify};
use mcs_listing::{Stop, report_in, shared, system_in};
use mcs_ports::Shelf;
use mcs_system::System;
use std::alloc::Global;
use std::sync::Arc;

/// What the check of a report left, and the system that it is a report on.
#[derive(Drop)]
pub(crate) struct Examined {
    pub(crate) system: Arc<System>,
    pub(crate) checked: Checked,
}

/// Checks the report in the file `report` against the system whose text is in the file `file`.
pub(crate) fn examine<H: Shelf>(
    alloc: Global,
    file: &str,
    report: &str,
    shelf: &mut H,
) -> Result<Examined, Stop>
    ensures later { H.faults shelf.old ≤ H.faults shelf.new }
    ensures found { IfOk result (λ e. AreExamined (arc_value e.system) (finding_in e.checked)
        (told_all (H.held shelf.old) (file.now ∷ report.now ∷ []))) }
    ensures holds { IfOk result (λ e. HoldsAnswers (arc_value e.system) e.checked) }
    ensures stop { IfErr result (λ stop. StopsExamining stop
        (Rose (H.faults shelf.old) (H.faults shelf.new))
        (Rose (H.failures shelf.old) (H.failures shelf.new))
        (told_all (H.held shelf.old) (file.now ∷ report.now ∷ []))) }
{
    let read = system_in(alloc, file, shelf)?;
    let system = shared(alloc, read)?;
    let bytes = report_in(alloc, report, shelf)?;
    let checked = certify(alloc, system.clone()?, &bytes)?;
    Ok(Examined { system, checked })
}
