//! The numbers of the formulas of a context.

ghost use Rattle.std.specs.Prelude.{◌≡◌, ◌<◌, ◌∷◌, ℕ, IfOk, length};
ghost use Rattle.std.specs.List.{AllByRecursion};
ghost use Rattle.mcs_session.specs.Tables.{head_numbers, texts_in, AreHeadsOf, AreWordsOf};
ghost use Rattle.mcs_session.specs.Tables.{KeepsApart};

use crate::spelled::{formula_text, formulas_text};
use crate::table::number_of;
use indexmap::IndexSet;
use mcs_asking::beliefs_of;
use mcs_base::{Active, Memory};
use mcs_system::System;
use std::alloc::Global;

/// A rule into a context, and the number of its head.
#[derive(Clone, Copy, Debug)]
pub(crate) struct Head {
    pub(crate) rule: u32,
    pub(crate) number: u32,
}

/// The numbers of what a context is asked: that of its beliefs, as one text, and those of the heads
/// of the rules into it, in the order of the rules.
#[derive(Drop)]
pub(crate) struct Words {
    pub(crate) beliefs: u32,
    pub(crate) heads: Vec<Head>,
}

impl Words {
    /// The numbers of what a context of the system is asked. New formulas are added to the table.
    pub(crate) fn of(
        alloc: Global,
        table: &mut IndexSet<Vec<u32>>,
        system: &System,
        context: u32,
    ) -> Result<Words, Memory>
        requires { context < length system.now.contexts }
        ensures words { IfOk result (AreWordsOf (texts_in table.new.keys) system.now context) }
        ensures grown { KeepsApart (texts_in table.old.keys) (texts_in table.new.keys) }
    {
        let beliefs = beliefs_of(alloc, system, context)?;
        let text = formulas_text(alloc, &beliefs)?;
        let number = number_of(table, text)?;
        let heads = heads_of(alloc, table, system, context)?;
        Ok(Words {
            beliefs: number,
            heads,
        })
    }

    /// The numbers of the parts of the key of a question with these rules.
    pub(crate) fn numbers(&self, alloc: Global, active: Active) -> Result<Vec<u32>, Memory>
        requires { AllByRecursion (λ h. h.rule < 64) self.now.heads.items }
        ensures { IfOk result (λ numbers. numbers.items
            ≡ self.now.beliefs ∷ head_numbers active self.now.heads.items) }
    {
        let mut numbers = Vec::new(alloc);
        numbers.push(self.beliefs)?;
        for head in &self.heads {
            if active.has(head.rule) {
                numbers.push(head.number)?;
            }
        }
        Ok(numbers)
    }
}

/// The numbers of the heads of the rules into the context. New ones are added to the table.
fn heads_of(
    alloc: Global,
    table: &mut IndexSet<Vec<u32>>,
    system: &System,
    context: u32,
) -> Result<Vec<Head>, Memory>
    ensures heads { IfOk result (λ heads. AreHeadsOf (texts_in table.new.keys) system.now context
        heads.items) }
    ensures grown { KeepsApart (texts_in table.old.keys) (texts_in table.new.keys) }
{
    let mut heads = Vec::new(alloc);
    for (rule, bridge) in system.bridges().iter().enumerate() {
        if bridge.target == context {
            let text = formula_text(alloc, &bridge.head)?;
            let number = number_of(table, text)?;
            heads.push(Head {
                rule: rule as u32,
                number,
            })?;
        }
    }
    Ok(heads)
}
