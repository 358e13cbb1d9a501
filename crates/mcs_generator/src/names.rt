//! The names of a generated system.

ghost use Rattle.std.specs.Prelude.{◌≡◌, ◌++◌, IsTrue, IfOk, codes, decimal};
ghost use Rattle.mcs_base.specs.Words.{is_name};
ghost use Rattle.mcs_generator.specs.Generated.{context_name, link_name, reached_name, missed_name};

use mcs_base::{Memory, Text};
use mcs_system::Name;
use std::alloc::Global;

/// The name with these bytes.
fn name(alloc: Global, bytes: &[u8]) -> Result<Name, Memory>
    requires { IsTrue (is_name bytes.now) }
    ensures { IfOk result (λ n. n ≡ bytes.now) }
{
    match Name::read(alloc, bytes)? {
        Some(name) => Ok(name),
        None => unreachable!(),
    }
}

/// The name that is a letter with a number.
fn numbered(alloc: Global, letter: &[u8], number: u32) -> Result<Name, Memory>
    requires { IsTrue (is_name (letter.now ++ decimal number)) }
    ensures { IfOk result (λ n. n ≡ letter.now ++ decimal number) }
{
    let mut text = Text::new(alloc);
    text.push(letter)?;
    text.push_number(number as u64)?;
    name(alloc, text.bytes())
}

/// The atom from which a chain starts.
pub(crate) fn start_name(alloc: Global) -> Result<Name, Memory>
    ensures { IfOk result (λ n. n ≡ codes "x") }
{
    name(alloc, b"x")
}

/// The atom that is the alternative to the start.
pub(crate) fn rival_name(alloc: Global) -> Result<Name, Memory>
    ensures { IfOk result (λ n. n ≡ codes "y") }
{
    name(alloc, b"y")
}

/// The atom that breaks a chain of rules if it holds.
pub(crate) fn break_name(alloc: Global) -> Result<Name, Memory>
    ensures { IfOk result (λ n. n ≡ codes "b") }
{
    name(alloc, b"b")
}

/// The name of the context with this number.
pub(crate) fn context_name(alloc: Global, context: u32) -> Result<Name, Memory>
    ensures { IfOk result (λ n. n ≡ context_name context) }
{
    numbered(alloc, b"g", context)
}

/// The atom of the link with this number.
pub(crate) fn link_name(alloc: Global, link: u32) -> Result<Name, Memory>
    ensures { IfOk result (λ n. n ≡ link_name link) }
{
    numbered(alloc, b"a", link)
}

/// The name of the rule into this context that applies if the end of the chain before it is
/// believed.
pub(crate) fn reached_name(alloc: Global, context: u32) -> Result<Name, Memory>
    ensures { IfOk result (λ n. n ≡ reached_name context) }
{
    numbered(alloc, b"s", context)
}

/// The name of the rule into this context that applies if the end of the chain before it is not
/// believed.
pub(crate) fn missed_name(alloc: Global, context: u32) -> Result<Name, Memory>
    ensures { IfOk result (λ n. n ≡ missed_name context) }
{
    numbered(alloc, b"t", context)
}
