//! Names of contexts, rules and atoms.

ghost use Rattle.std.specs.Prelude.{◌≡◌, ℕ, List, IfOk, IfSome, IsTrue, is_some};
ghost use Rattle.std.specs.Cmp.{partial_equiv_from_equiv};
ghost use Rattle.std.proofs.lemmas.Cmp.{nat_list_eq_equiv};
ghost use Rattle.mcs_base.specs.Words.{is_name};
ghost use Rattle.mcs_system.specs.Logic.{same_name};

use crate::copied::Copied;
use mcs_base::{Memory, is_name};
use std::alloc::Global;
use std::marker::Model;

/// A name: a letter or `_`, then letters, digits and `_`. It has at most 64 bytes and is no
/// reserved word.
pub struct Name {
    bytes: Vec<u8>,
}

impl Drop for Name {
    fn drop(self) {
        let Name { bytes: _ } = self;
    }
}

impl Model for Name {
    ghost use Rattle.std.specs.Prelude.{List, ℕ, IsTrue};
    ghost use Rattle.mcs_base.specs.Words.{is_name};

    ghost Value = { List ℕ };

    ghost view = { λ n. n.bytes.items };

    ghost invariant = { λ n. IsTrue (is_name n.bytes.items) };
}

impl PartialEq for Name {
    ghost eq = { same_name };

    ghost laws = { partial_equiv_from_equiv nat_list_eq_equiv };

    fn eq(&self, other: &Name) -> bool {
        self.is(other)
    }
}

impl Name {
    /// The name with these bytes, or `None` if they are no name.
    pub fn read(alloc: Global, bytes: &[u8]) -> Result<Option<Name>, Memory>
        ensures some { IfOk result (λ o. IfSome o (λ n. n ≡ bytes.now)) }
        ensures test { IfOk result (λ o. is_some o ≡ is_name bytes.now) }
    {
        if !is_name(bytes) {
            return Ok(None);
        }
        Ok(Some(Name {
            bytes: bytes.to_vec(alloc)?,
        }))
    }

    /// The bytes of the name.
    pub fn bytes(&self) -> &[u8]
        ensures value { result.now ≡ self.now }
        ensures name { IsTrue (is_name self.now) }
    {
        &self.bytes
    }

    /// Whether both names have the same bytes.
    pub fn is(&self, other: &Name) -> bool
        ensures { result ≡ same_name self.now other.now }
    {
        self.bytes() == other.bytes()
    }

    /// An equal name.
    pub fn copy(&self, alloc: Global) -> Result<Name, Memory>
        ensures { IfOk result (λ n. n ≡ self.now) }
    {
        Ok(Name {
            bytes: self.bytes.to_vec(alloc)?,
        })
    }
}

impl Copied for Name {
    ghost Seen = { List ℕ };

    ghost seen = { λ n. n };

    fn copied(&self, alloc: Global) -> Result<Name, Memory> {
        self.copy(alloc)
    }
}
