//! Names that are looked up by their bytes.

ghost use Rattle.std.specs.Prelude.{◌≡◌, ◌++◌, ◌↔◌, [], ◌∷◌, IfOk, IsTrue, length};
ghost use Rattle.mcs_base.specs.Listings.{IsAmong};

use indexmap::IndexSet;
use mcs_base::Memory;
use std::alloc::Global;
use std::marker::Model;

/// Different names, in the order in which they were added, in a table from their bytes.
#[derive(Drop)]
pub(crate) struct Names {
    table: IndexSet<Vec<u8>>,
}

impl Model for Names {
    ghost use Rattle.std.specs.Prelude.{List, ℕ};
    ghost use Rattle.mcs_faults.specs.Names.{bytes_in};

    ghost Value = { List (List ℕ) };

    ghost view = { λ n. bytes_in n.table.keys };
}

impl Names {
    /// No names.
    pub(crate) fn new(alloc: Global) -> Names
        ensures { result ≡ [] }
    {
        Names {
            table: IndexSet::new(alloc),
        }
    }

    /// How many names there are.
    pub(crate) fn len(&self) -> usize
        ensures { result ≡ length self.now }
    {
        self.table.len()
    }

    /// Whether the name is one of them.
    pub(crate) fn has(&self, name: &[u8]) -> bool
        ensures { IsTrue result ↔ IsAmong name.now self.now }
    {
        self.table.contains(name)
    }

    /// Adds the name at the end, unless it is there.
    pub(crate) fn add(&mut self, alloc: Global, name: &[u8]) -> Result<(), Memory>
        ensures new { IfOk result (λ _. ¬ IsAmong name.now self.old
            → self.new ≡ self.old ++ name.now ∷ []) }
        ensures there { IfOk result (λ _. IsAmong name.now self.old → self.new ≡ self.old) }
    {
        self.table.insert(name.to_vec(alloc)?)?;
        Ok(())
    }
}
