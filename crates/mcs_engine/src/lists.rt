//! Lists of indices, one for each literal, allocated only if needed.

ghost use Rattle.std.specs.Prelude.{◌≡◌, ◌≢◌, ℕ, ◌<◌, ◌++◌, ◌∷◌, [], length, swap_remove};
ghost use Rattle.std.specs.Prelude.{slice_get, Some, OnOk, OnErr};
ghost use Rattle.mcs_trace.specs.Clauses.{IsLiteral, place};
ghost use Rattle.mcs_engine.specs.Lists.{ChangesAt, KeepsLists, IsInList, list_at, row_at};

use crate::blocks::{BLOCK, make_rows};
use mcs_base::Memory;
use mcs_trace::place;
use std::alloc::Global;

/// For each place of a literal a list of indices. The lists are in blocks of neighbouring places. A
/// block reaches as far as the last place to whose list an index was added; a block without an
/// index takes no memory.
pub struct Lists {
    blocks: Vec<Vec<Vec<usize>>>,
}

impl Drop for Lists {
    fn drop(self) {
        let Lists { blocks: _ } = self;
    }
}

/// Appends the index. The first allocation has room for two: two clauses watch most literals of the
/// parts of a formula.
fn add_index(indices: &mut Vec<usize>, index: usize) -> Result<(), Memory>
    ensures ok { OnOk result (indices.new.items ≡ indices.old.items ++ index ∷ []) }
    ensures err { OnErr result (indices.new.items ≡ indices.old.items) }
{
    if indices.is_empty() {
        indices.reserve_exact(2)?;
    }
    indices.push(index)?;
    Ok(())
}

/// Appends the index to one list of the block.
fn add_to(block: &mut Vec<Vec<usize>>, at: usize, index: usize) -> Result<(), Memory>
    ensures ok { OnOk result (ChangesAt (row_at block.old.items) (row_at block.new.items) at
        (row_at block.old.items at ++ index ∷ [])) }
    ensures err { OnErr result ((p : ℕ) → row_at block.new.items p ≡ row_at block.old.items p) }
{
    make_rows(block, at)?;
    add_index(&mut block[at], index)
}

impl Lists {
    /// Each list is empty.
    pub fn new(alloc: Global) -> Lists
        ensures { (p : ℕ) → list_at result p ≡ [] }
    {
        Lists {
            blocks: Vec::new(alloc),
        }
    }

    /// The list at the place.
    pub fn get(&self, place: usize) -> &[usize]
        ensures { result.now ≡ list_at self.now place }
    {
        let Some(block) = self.blocks.get(place / BLOCK) else {
            return &[];
        };
        match block.get(place % BLOCK) {
            Some(list) => list,
            None => &[],
        }
    }

    /// Appends the index to the list at the place.
    pub fn push(&mut self, place: usize, index: usize) -> Result<(), Memory>
        ensures ok { OnOk result (ChangesAt (list_at self.old) (list_at self.new) place
            (list_at self.old place ++ index ∷ [])) }
        ensures err { OnErr result ((p : ℕ) → list_at self.new p ≡ list_at self.old p) }
    {
        let number = place / BLOCK;
        make_rows(&mut self.blocks, number)?;
        add_to(&mut self.blocks[number], place % BLOCK, index)
    }

    /// Appends the index to the list of the literal.
    pub fn add(&mut self, literal: i64, index: usize) -> Result<(), Memory>
        requires { IsLiteral literal }
        ensures listed { OnOk result (IsInList self.new literal index) }
        ensures kept { KeepsLists self.old self.new }
        ensures others { (p : ℕ) → p ≢ place literal → list_at self.new p ≡ list_at self.old p }
    {
        self.push(place(literal) as usize, index)
    }

    /// Removes an item of the list at the place and returns it. The last item takes its position.
    pub fn swap_remove(&mut self, place: usize, at: usize) -> usize
        requires { at < length (list_at self.old place) }
        ensures value { slice_get (list_at self.old place) at ≡ Some result }
        ensures list { ChangesAt (list_at self.old) (list_at self.new) place
            (swap_remove (list_at self.old place) at result) }
    {
        self.blocks[place / BLOCK][place % BLOCK].swap_remove(at)
    }

    /// Makes all lists empty.
    pub fn clear(&mut self)
        ensures { (p : ℕ) → list_at self.new p ≡ [] }
    {
        self.blocks.truncate(0);
    }
}
