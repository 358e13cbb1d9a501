//! Reading sets in lines. The members have to be in order, so one pass over all possible members
//! finds them.

ghost use Rattle.std.specs.Prelude.{◌≡◌, ◌≤◌, length, cond};
ghost use Rattle.std.specs.Option.{option_copied};
ghost use Rattle.mcs_spelling.specs.Parts.{AreTellable, SpellsSet};
ghost use Rattle.mcs_spelling.specs.Words.{ends_member, after_member, set_of};

use crate::front::strip;
use mcs_base::{Text, Vars};

/// Whether the bytes continue with a comma, or with the end of the set.
fn ends_member(bytes: &[u8]) -> bool
    ensures { result ≡ ends_member bytes.now }
{
    match bytes.first() {
        Some(byte) => *byte == b',' || *byte == b'}',
        None => false,
    }
}

/// What follows a member of a set in the bytes, if they continue with it.
#[tactic(auto, unfolding(crate::specs::Words::after_member))]
fn after_member<'b>(bytes: &'b [u8], is_first: bool, member: &[u8]) -> Option<&'b [u8]>
    ensures { option_copied result ≡ after_member bytes.now is_first member.now }
{
    let start = if is_first {
        bytes
    } else {
        strip(bytes, b", ")?
    };
    let rest = strip(start, member)?;
    if ends_member(rest) { Some(rest) } else { None }
}

/// The same, but `None` if the member is not allowed.
fn after_allowed<'b>(
    bytes: &'b [u8],
    is_allowed: bool,
    is_first: bool,
    member: &[u8],
) -> Option<&'b [u8]>
    ensures { option_copied result
        ≡ cond is_allowed (after_member bytes.now is_first member.now) None }
{
    if is_allowed {
        after_member(bytes, is_first, member)
    } else {
        None
    }
}

/// The set in the bytes.
#[tactic(auto, unfolding(crate::specs::Words::set_of))]
fn set_in(texts: &[Text], allowed: Vars, bytes: &[u8]) -> Option<Vars>
    requires { length texts.now ≤ 64 }
    ensures { result ≡ set_of texts.now allowed bytes.now }
{
    let mut rest = strip(bytes, b"{")?;
    let mut set = Vars::empty();
    for (number, text) in texts.iter().enumerate() {
        let is_allowed = allowed.has(number as u32);
        let is_first = set == Vars::empty();
        if let Some(after) = after_allowed(rest, is_allowed, is_first, text.bytes()) {
            rest = after;
            set = set.with(number as u32);
        }
    }
    if rest == b"}".as_slice() {
        Some(set)
    } else {
        None
    }
}

/// The set of allowed numbers that the bytes spell: `{` and `}` around the texts of its members,
/// which are in order, separated by a comma and a space. `texts` are those of the numbers from 0
/// on; there are at most 64. If they can be told apart, `None` is returned exactly if the bytes
/// spell no such set.
pub fn read_set(texts: &[Text], allowed: Vars, bytes: &[u8]) -> Option<Vars>
    requires { length texts.now ≤ 64 }
    ensures spelled { AreTellable texts.now → SpellsSet texts.now allowed bytes.now result }
    ensures exact { result ≡ set_of texts.now allowed bytes.now }
{
    set_in(texts, allowed, bytes)
}
