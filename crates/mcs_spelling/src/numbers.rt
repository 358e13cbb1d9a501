//! Numbers and literals, each after a space, and resolution steps.

ghost use Rattle.std.specs.Prelude.{◌≡◌, ◌++◌, map, OnOk, OnErr, decimal};
ghost use Rattle.mcs_trace.specs.Traces.{inference_of};
ghost use Rattle.mcs_spelling.specs.Parts.{literal_sign, literal_text, spaced, step_text};

use mcs_base::{Memory, Text};
use mcs_trace::Step;

/// Appends the numbers to a text of its own.
fn push_numbers(text: &mut Text, numbers: &[u64]) -> Result<(), Memory>
    ensures { OnOk result (text.new ≡ text.old ++ spaced (map decimal numbers.now)) }
{
    for number in numbers {
        text.push(b" ")?;
        text.push_number(*number)?;
    }
    Ok(())
}

/// Appends the numbers of clauses. Without memory the text stays as it was.
pub fn push_chain(text: &mut Text, numbers: &[u64]) -> Result<(), Memory>
    ensures ok { OnOk result (text.new ≡ text.old ++ spaced (map decimal numbers.now)) }
    ensures err { OnErr result (text.new ≡ text.old) }
{
    let mut own = text.empty_like();
    push_numbers(&mut own, numbers)?;
    text.push(own.bytes())
}

/// Appends the numbers of defaults. Without memory the text stays as it was.
pub fn push_order(text: &mut Text, numbers: &[u32]) -> Result<(), Memory>
    ensures ok { OnOk result (text.new ≡ text.old ++ spaced (map decimal numbers.now)) }
    ensures err { OnErr result (text.new ≡ text.old) }
{
    let mut own = text.empty_like();
    for number in numbers {
        own.push(b" ")?;
        own.push_number(u64::from(*number))?;
    }
    text.push(own.bytes())
}

/// The sign before the absolute value of a literal.
fn sign(literal: i64) -> &'static [u8]
    ensures { result.now ≡ literal_sign literal }
{
    if literal < 0 { b"-" } else { b"" }
}

/// Appends a literal to a text of its own.
fn push_literal(text: &mut Text, literal: i64) -> Result<(), Memory>
    ensures { OnOk result (text.new ≡ text.old ++ literal_text literal) }
{
    text.push(sign(literal))?;
    text.push_number(literal.unsigned_abs())
}

/// Appends the literals to a text of its own.
fn push_literals(text: &mut Text, literals: &[i64]) -> Result<(), Memory>
    ensures { OnOk result (text.new ≡ text.old ++ spaced (map literal_text literals.now)) }
{
    for literal in literals {
        text.push(b" ")?;
        push_literal(text, *literal)?;
    }
    Ok(())
}

/// Appends a resolution step: its literals and its chain. Without memory the text stays as it was.
#[tactic(auto, unfolding(crate::specs::Parts::step_text))]
pub fn push_step(text: &mut Text, step: &Step) -> Result<(), Memory>
    ensures ok { OnOk result (text.new ≡ text.old ++ step_text (inference_of step.now)) }
    ensures err { OnErr result (text.new ≡ text.old) }
{
    let mut own = text.empty_like();
    own.push(b"step")?;
    push_literals(&mut own, step.clause.literals())?;
    own.push(b" by")?;
    push_numbers(&mut own, &step.chain)?;
    text.push(own.bytes())
}
