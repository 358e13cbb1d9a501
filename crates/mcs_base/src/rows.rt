//! Rows that lie one after the other in one store.

ghost use Rattle.std.specs.Prelude.{◌≡◌, List, [], ◌∷◌, ◌++◌, ◌<◌, ◌≤◌, take, length, slice_get};
ghost use Rattle.std.specs.Prelude.{Some, OnOk, OnErr, get_or};

use crate::memory::Memory;
use std::alloc::Global;
use std::marker::Model;

/// Rows of plain values, one after the other in one store. A row is read by its index; rows are
/// removed from the end. The model is the list of the rows.
#[derive(Debug)]
pub struct Rows<T> {
    items: Vec<T>,
    ends: Vec<usize>,
}

impl<T: Drop> Drop for Rows<T> {
    fn drop(self) {
        let Rows { items: _, ends: _ } = self;
    }
}

impl<T> Model for Rows<T> {
    ghost use Rattle.std.specs.Prelude.{List, length};
    ghost use Rattle.mcs_base.specs.Rows.{rows_from, AreEnds};

    ghost Value = { List (List T) };

    ghost view = { λ r. rows_from 0 r.items.items r.ends.items };

    ghost invariant = { λ r. AreEnds 0 (length r.items.items) r.ends.items };
}

/// Where the row at the index begins, which is where the one before it ends.
fn start_of(ends: &[usize], index: usize) -> usize
    requires { index ≤ length ends.now }
    ensures { result ≡ get_or (0 ∷ ends.now) index 0 }
{
    if index == 0 { 0 } else { ends[index - 1] }
}

impl<T: Copy> Rows<T> {
    /// No rows. No memory is needed.
    pub fn new(alloc: Global) -> Rows<T>
        ensures { result ≡ [] }
    {
        Rows {
            items: Vec::new(alloc),
            ends: Vec::new(alloc),
        }
    }

    /// The number of rows.
    pub fn len(&self) -> usize
        ensures { result ≡ length self.now }
    {
        self.ends.len()
    }

    /// Appends a row. If memory runs out, the rows are as before.
    pub fn push(&mut self, row: &[T]) -> Result<(), Memory>
        ensures ok { OnOk result (self.new ≡ self.old ++ row.now ∷ []) }
        ensures err { OnErr result (self.new ≡ self.old) }
    {
        let start = self.items.len();
        self.items.extend_from_slice(row)?;
        match self.ends.push(self.items.len()) {
            Ok(()) => Ok(()),
            Err(error) => {
                self.items.truncate(start);
                Err(error.into())
            }
        }
    }

    /// The row at the index.
    pub fn row(&self, index: usize) -> &[T]
        requires { index < length self.now }
        ensures { slice_get self.now index ≡ Some result.now }
    {
        let start = start_of(&self.ends, index);
        let end = self.ends[index];
        &self.items[start..end]
    }

    /// Keeps the first `count` rows, if there are more. No memory is needed.
    pub fn truncate(&mut self, count: usize)
        ensures { self.new ≡ take count self.old }
    {
        self.ends.truncate(count);
        let end = start_of(&self.ends, self.ends.len());
        self.items.truncate(end);
    }
}
