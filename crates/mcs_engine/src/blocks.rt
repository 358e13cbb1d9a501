//! Sparse arrays: values by indices, in blocks that are allocated only if needed.

ghost use Rattle.std.specs.Prelude.{◌≡◌, ℕ, ◌<◌, length, OnOk};
ghost use Rattle.mcs_engine.specs.Lists.{row_at};

use crate::filling::fill;
use mcs_base::Memory;
use std::alloc::Global;

/// The greatest number of values in a block.
pub(crate) const BLOCK: usize = 512;

/// Values by indices. They are in blocks of neighbouring indices. A block without a value takes no
/// memory.
pub struct Blocks<T: Copy> {
    pub blocks: Vec<Vec<T>>,
}

impl<T: Copy> Drop for Blocks<T> {
    fn drop(self) {
        let Blocks { blocks: _ } = self;
    }
}

/// Appends empty rows, until there is one with this number.
pub(crate) fn make_rows<T: Drop>(rows: &mut Vec<Vec<T>>, number: usize) -> Result<(), Memory>
    ensures within { OnOk result (number < length rows.new.items) }
    ensures same { (p : ℕ) → row_at rows.new.items p ≡ row_at rows.old.items p }
{
    let alloc = *rows.allocator();
    while rows.len() <= number {
        rows.push(Vec::new(alloc))?;
    }
    Ok(())
}

impl<T: Copy> Blocks<T> {
    /// No values.
    pub fn new(alloc: Global) -> Blocks<T> {
        Blocks {
            blocks: Vec::new(alloc),
        }
    }

    /// The value at the index, if there is one.
    pub fn get(&self, index: usize) -> Option<T> {
        self.blocks.get(index / BLOCK)?.get(index % BLOCK).copied()
    }

    /// Replaces the value at the index, if there is one. Returns whether there is.
    pub fn replace(&mut self, index: usize, value: T) -> bool {
        if let Some(block) = self.blocks.get_mut(index / BLOCK)
            && let Some(here) = block.get_mut(index % BLOCK)
        {
            *here = value;
            return true;
        }
        false
    }

    /// Sets the value at the index. If the block ends before it, it is filled up to there with
    /// `filler`.
    pub fn set(&mut self, index: usize, value: T, filler: T) -> Result<(), Memory> {
        if self.replace(index, value) {
            return Ok(());
        }
        make_rows(&mut self.blocks, index / BLOCK)?;
        if let Some(block) = self.blocks.get_mut(index / BLOCK) {
            fill(block, index % BLOCK, filler)?;
        }
        self.replace(index, value);
        Ok(())
    }
}
