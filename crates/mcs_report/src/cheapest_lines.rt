//! The lines of cheapest diagnoses. Each call appends one line with its line feed. Without memory
//! the text stays as it was.

ghost use Rattle.std.specs.Prelude.{◌≡◌, ◌++◌, OnOk, OnErr};
ghost use Rattle.mcs_report.specs.Cheapest.{cheapest_line, cheapest_end_line, told_cost};
ghost use Rattle.mcs_report.specs.Repairs.{IsOfSystem};

use crate::repair_lines::{push_count, push_marks, push_shown};
use mcs_base::{Memory, Text};
use mcs_diagnosis::Diagnosis;
use mcs_system::System;

/// Appends the line of the cheapest diagnosis with this number: its marks, what they cost, the
/// first state of the changed system, and the rules that are active in it. All of these have to be
/// of the system.
#[tactic(auto, unfolding(crate::specs::Cheapest::cheapest_line))]
pub fn cheapest_line(
    system: &System,
    number: u64,
    price: u64,
    diagnosis: &Diagnosis,
    out: &mut Text,
) -> Result<(), Memory>
    requires { IsOfSystem system.now diagnosis.now }
    ensures ok { OnOk result (out.new
        ≡ out.old ++ cheapest_line system.now number price diagnosis.now) }
    ensures err { OnErr result (out.new ≡ out.old) }
{
    let mut line = out.empty_like();
    line.push(b"cheapest ")?;
    line.push_number(number)?;
    line.push(b": ")?;
    push_marks(&mut line, system, diagnosis.pair.marks().members())?;
    line.push(b" cost ")?;
    line.push_number(price)?;
    push_shown(&mut line, system, diagnosis)?;
    out.push(line.bytes())
}

/// Appends the cost, if there is one.
fn push_cost(text: &mut Text, price: Option<u64>) -> Result<(), Memory>
    ensures { OnOk result (text.new ≡ text.old ++ told_cost price) }
{
    let Some(price) = price else {
        return Ok(());
    };
    text.push(b", cost ")?;
    text.push_number(price)
}

/// Appends the end line of a listing of cheapest diagnoses: how many there are, what each of them
/// costs if there is one, and the number of questions with which they are found.
#[tactic(auto, unfolding(crate::specs::Cheapest::cheapest_end_line))]
pub fn cheapest_end_line(
    count: u64,
    price: Option<u64>,
    need: u64,
    out: &mut Text,
) -> Result<(), Memory>
    ensures ok { OnOk result (out.new ≡ out.old ++ cheapest_end_line count price need) }
    ensures err { OnErr result (out.new ≡ out.old) }
{
    let mut line = out.empty_like();
    line.push(b"end: ")?;
    push_count(&mut line, count, b" cheapest")?;
    push_cost(&mut line, price)?;
    line.push(b", need ")?;
    push_count(&mut line, need, b"\n")?;
    out.push(line.bytes())
}
