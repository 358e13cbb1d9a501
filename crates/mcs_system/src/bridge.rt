//! Bridge rules, by which the beliefs of contexts depend on each other.

ghost use Rattle.std.specs.Prelude.{◌≡◌, IfOk};
ghost use Rattle.mcs_system.specs.Plain as plain;
ghost use Rattle.mcs_system.specs.Seen.{bridge_of, read_of};

use crate::copied::{Copied, copy_each};
use crate::formula::Formula;
use crate::name::Name;
use mcs_base::Memory;
use std::alloc::Global;

/// A belief of a context, as a bridge rule reads it.
#[derive(PartialEq)]
pub struct Read {
    /// The index of the context in the list of contexts.
    pub context: u32,
    pub belief: Formula,
}

impl Drop for Read {
    fn drop(self) {
        let Read {
            context: _,
            belief: _,
        } = self;
    }
}

impl Read {
    /// An equal read.
    pub fn copy(&self, alloc: Global) -> Result<Read, Memory>
        ensures { IfOk result (λ r. read_of r ≡ read_of self.now) }
    {
        Ok(Read {
            context: self.context,
            belief: self.belief.copy(alloc)?,
        })
    }
}

impl Copied for Read {
    ghost Seen = { plain.Read };

    ghost seen = { read_of };

    fn copied(&self, alloc: Global) -> Result<Read, Memory> {
        self.copy(alloc)
    }
}

/// A bridge rule: it adds its head to the target if each positive read is believed and no negative
/// one is. A repair may not remove a rule that is `keep`, and may not force one that is `closed`.
/// The weight is the cost of removing or forcing the rule; it does not affect repairs yet.
#[derive(PartialEq)]
pub struct Bridge {
    pub name: Name,
    /// The index of the context into which the rule goes.
    pub target: u32,
    pub head: Formula,
    /// The reads of which each has to be believed.
    pub pos: Vec<Read>,
    /// The reads of which none may be believed.
    pub neg: Vec<Read>,
    pub keep: bool,
    pub closed: bool,
    pub weight: u32,
}

impl Drop for Bridge {
    fn drop(self) {
        let Bridge {
            name: _,
            target: _,
            head: _,
            pos: _,
            neg: _,
            keep: _,
            closed: _,
            weight: _,
        } = self;
    }
}

impl Bridge {
    /// An equal bridge rule.
    pub fn copy(&self, alloc: Global) -> Result<Bridge, Memory>
        ensures { IfOk result (λ b. bridge_of b ≡ bridge_of self.now) }
    {
        let name = self.name.copy(alloc)?;
        let pos = copy_each(alloc, &self.pos)?;
        let neg = copy_each(alloc, &self.neg)?;
        Ok(Bridge {
            name,
            target: self.target,
            head: self.head.copy(alloc)?,
            pos,
            neg,
            keep: self.keep,
            closed: self.closed,
            weight: self.weight,
        })
    }
}

impl Copied for Bridge {
    ghost Seen = { plain.Bridge };

    ghost seen = { bridge_of };

    fn copied(&self, alloc: Global) -> Result<Bridge, Memory> {
        self.copy(alloc)
    }
}
