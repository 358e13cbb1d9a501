//! Separators between the members of a list.

ghost use Rattle.std.specs.Prelude.{◌≡◌, ◌++◌, [], OnOk, OnErr, if◌then◌else◌};

use mcs_base::{Memory, Text};

/// Appends the separator of a member from the one before it, unless it is the first. Without memory
/// the text stays as it was.
pub fn push_separator(text: &mut Text, is_first: bool, separator: &[u8]) -> Result<(), Memory>
    ensures ok { OnOk result (text.new ≡ text.old ++ (if is_first then [] else separator.now)) }
    ensures err { OnErr result (text.new ≡ text.old) }
{
    if is_first {
        return Ok(());
    }
    text.push(separator)
}
