//! The contexts of a system, with what is known of them whatever its rules are.

ghost use Rattle.std.specs.Prelude.{◌≡◌, IfOk, IfErr};
ghost use Rattle.mcs_system.specs.Built.{AreOwnAtoms, HasManyOwnAtoms};
ghost use Rattle.mcs_system.specs.declared.limit.Limit.TheVariants.{AtomsPerContext};
ghost use Rattle.mcs_system.specs.Gathered.{IsLimitDue};

use crate::atoms::own_atoms;
use crate::fault::BuildFault;
use crate::knowledge::Context;
use crate::name::Name;
use std::alloc::Global;

/// Contexts, and for each of them the atoms of its items, by first occurrence.
#[derive(Drop)]
pub(crate) struct KnownContexts {
    pub items: Vec<Context>,
    pub atoms: Vec<Vec<Name>>,
}

/// The atoms of the items of each context. Refuses if one has more than the limit.
fn own_atoms_of_each(alloc: Global, contexts: &[Context]) -> Result<Vec<Vec<Name>>, BuildFault>
    ensures own { IfOk result (λ own. AreOwnAtoms contexts.now own.items) }
    ensures many { IfErr result (IsLimitDue AtomsPerContext (HasManyOwnAtoms contexts.now)) }
{
    let mut own = Vec::new(alloc);
    for context in contexts {
        let atoms = own_atoms(alloc, &context.kb)?;
        own.push(atoms)?;
    }
    Ok(own)
}

impl KnownContexts {
    /// The contexts and the atoms of their items. Refuses if a context has more atoms than the
    /// limit by its items alone.
    pub fn of(alloc: Global, contexts: Vec<Context>) -> Result<KnownContexts, BuildFault>
        ensures own { IfOk result (λ k. (k.items.items ≡ contexts.items)
            × AreOwnAtoms k.items.items k.atoms.items) }
        ensures many { IfErr result (IsLimitDue AtomsPerContext (HasManyOwnAtoms contexts.items)) }
    {
        let atoms = own_atoms_of_each(alloc, &contexts)?;
        Ok(KnownContexts {
            items: contexts,
            atoms,
        })
    }
}
