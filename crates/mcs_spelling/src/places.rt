//! Sets of atoms and of defaults, as they are written in lines.

ghost use Rattle.std.specs.Prelude.{◌≡◌, ◌++◌, map, OnOk, OnErr};
ghost use Rattle.mcs_text.specs.Separated.{braced};
ghost use Rattle.mcs_spelling.specs.Parts.{atom_text, atoms_text, default_places_text};
ghost use Rattle.mcs_spelling.specs.Parts.{defaults_text};

use mcs_base::{Members, Memory, Text, Vars};
use mcs_system::Name;
use mcs_text::push_separator;

/// Appends the name of the atom at the place.
fn push_atom(text: &mut Text, names: &[Name], place: u32) -> Result<(), Memory>
    ensures { OnOk result (text.new ≡ text.old ++ atom_text names.now place) }
{
    match names.get(place as usize) {
        Some(name) => text.push(name.bytes()),
        None => Ok(()),
    }
}

/// Appends the names of the atoms at the places, in braces, to a text of its own.
fn push_atoms_at(text: &mut Text, names: &[Name], places: Members) -> Result<(), Memory>
    ensures { OnOk result (text.new ≡ text.old ++ braced (map (atom_text names.now) places)) }
{
    text.push(b"{")?;
    let mut is_first = true;
    for place in places {
        push_separator(text, is_first, b", ")?;
        push_atom(text, names, place)?;
        is_first = false;
    }
    text.push(b"}")
}

/// Appends a set of atoms, in which bit i is the atom with the name at index i. Without memory the
/// text stays as it was.
pub fn push_atoms(text: &mut Text, names: &[Name], atoms: u64) -> Result<(), Memory>
    ensures ok { OnOk result (text.new ≡ text.old ++ atoms_text names.now atoms) }
    ensures err { OnErr result (text.new ≡ text.old) }
{
    let mut own = text.empty_like();
    push_atoms_at(&mut own, names, Vars::numbered(atoms).members())?;
    text.push(own.bytes())
}

/// Appends the numbers of the defaults at the places, in braces, to a text of its own.
fn push_defaults_at(text: &mut Text, places: Members) -> Result<(), Memory>
    ensures { OnOk result (text.new ≡ text.old ++ braced (map default_places_text places)) }
{
    text.push(b"{")?;
    let mut is_first = true;
    for place in places {
        push_separator(text, is_first, b", ")?;
        text.push_number(u64::from(place) + 1)?;
        is_first = false;
    }
    text.push(b"}")
}

/// Appends a set of defaults, in which bit i is default i+1. Without memory the text stays as it
/// was.
pub fn push_defaults(text: &mut Text, set: u64) -> Result<(), Memory>
    ensures ok { OnOk result (text.new ≡ text.old ++ defaults_text set) }
    ensures err { OnErr result (text.new ≡ text.old) }
{
    let mut own = text.empty_like();
    push_defaults_at(&mut own, Vars::numbered(set).members())?;
    text.push(own.bytes())
}
