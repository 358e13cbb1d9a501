//! Tables of texts, in which each text has a number. A text is a list of numbers.

ghost use Rattle.std.specs.Prelude.{◌≡◌, ◌++◌, ◌<◌, ◌∷◌, [], MatchOption, Some, slice_get};
ghost use Rattle.std.specs.Prelude.{IfOk};
ghost use Rattle.indexmap.specs.IndexSet.{spare};
ghost use Rattle.mcs_base.specs.Listings.{IsAmong};
ghost use Rattle.mcs_session.specs.Tables.{texts_in, KeepsApart};

use indexmap::IndexSet;
use mcs_base::Memory;

/// The number of the text, if it is in the table.
pub(crate) fn place_of(table: &IndexSet<Vec<u32>>, text: &[u32]) -> Option<usize>
    ensures { MatchOption result (¬ IsAmong text.now (texts_in table.now.keys))
        (λ k. slice_get (texts_in table.now.keys) k ≡ Some text.now) }
{
    table.get_index_of(text)
}

/// The number of the text, which is added at the end of the table if it is not there.
pub(crate) fn number_of(table: &mut IndexSet<Vec<u32>>, text: Vec<u32>) -> Result<u32, Memory>
    ensures number { IfOk result (λ n. slice_get (texts_in table.new.keys) n ≡ Some text.items) }
    ensures grown { KeepsApart (texts_in table.old.keys) (texts_in table.new.keys) }
{
    let (number, _) = table.insert_full(text)?;
    match u32::try_from(number) {
        Ok(number) => Ok(number),
        Err(_) => Err(Memory),
    }
}

/// Adds the text, which is not there, at the end of the table. There has to be room for it.
pub(crate) fn add(table: &mut IndexSet<Vec<u32>>, text: Vec<u32>)
    requires room { 0 < spare table.old }
    requires new { ¬ IsAmong text.items (texts_in table.old.keys) }
    ensures { texts_in table.new.keys ≡ texts_in table.old.keys ++ text.items ∷ [] }
{
    match table.insert(text) {
        Ok(_) => {}
        Err(_) => unreachable!(),
    }
}
